// The timetable, for callers in another language.
ghost use Rattle.std.specs.Prelude.{◌≡◌};
ghost use Rattle.timetable_turns.specs.Timetable.{timetable_of};
ghost use Rattle.timetable_text.specs.Lent.{put_of, buffer_of};
ghost use Rattle.exports.specs.Lengths.{length_code};

use timetable_turns::NotPut;

// The length of the text, or 36 · 2^32.
fn length_code(put: Result<usize, NotPut>) -> usize
    ensures { result ≡ length_code put }
{
    match put {
        Ok(n) => n,
        Err(NotPut::TooShort) => 154618822656,
    }
}

// Prints the timetable of an input into a buffer: the text's length, or 36 · 2^32 where the buffer is too short, which then
// stays as it was.
#[unsafe(no_mangle)]
pub extern "C" fn jidlekuvo_timetable(input: &[u8], out: &mut [u8]) -> usize
    ensures { (result ≡ length_code (put_of out.old 0 (timetable_of input.now))) × (out.new ≡ buffer_of out.old 0 (timetable_of input.now)) }
{
    length_code(timetable_turns::timetable(input, out))
}

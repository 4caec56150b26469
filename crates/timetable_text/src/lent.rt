// Text put into a lent buffer, whole or not at all.
ghost use Rattle.std.specs.Prelude.{◌≡◌, ◌+◌, ◌≤◌, ◌<◌, leb, length, take};
ghost use Rattle.wire.specs.Puts.{Puts};
ghost use Rattle.timetable_text.specs.Lent.{Lends, past_of};

use crate::NotPut;

// Whether n bytes fit from `at` on.
fn fits(room: usize, at: usize, n: usize) -> bool
    ensures { result ≡ leb (at + n) room }
{
    if at <= room {
        return n <= room - at;
    }
    false
}

// What fits of the first n bytes of a text, from `at` on: the offset past them.
pub fn copy(out: &mut [u8], at: usize, text: &[u8], n: usize) -> usize
    requires { (at + n < 18_446_744_073_709_551_616) × (n ≤ length text.now) }
    ensures { Puts out.old at (take n text.now) out.new result }
{
    wire::puts::put_bytes(out, at, &text[..n])
}

// The first n bytes of a text, from `at` on, where they fit: the offset past them.
pub fn lend(out: &mut [u8], at: usize, text: &[u8], n: usize) -> Result<usize, NotPut>
    requires { n ≤ length text.now }
    ensures { Lends out.old at (take n text.now) out.new result }
{
    if fits(out.len(), at, n) {
        return Ok(copy(out, at, text, n));
    }
    Err(NotPut::TooShort)
}

// The offset past what was put, `at` where nothing was.
pub fn past(at: usize, put: Result<usize, NotPut>) -> usize
    ensures { result ≡ past_of at put }
{
    put.unwrap_or(at)
}

// The lines that the program timetable prints, put into a lent buffer: each function answers the offset past what it puts.
#![tactic(auto)]

ghost use Rattle.std.specs.Prelude.{◌≤◌, ◌<◌};
ghost use Rattle.basis.specs.Parts.{part};
ghost use Rattle.times.specs.Times.{specified};
ghost use Rattle.wire.specs.Puts.{Puts};
ghost use Rattle.timetable_lines.specs.Lines.{header, row, free_of, ended_of, waiting_of, refused};
ghost use Rattle.timetable_lines.specs.Inner.Lines.{spaced};

use run_window::Entry;
use time::Specified;
use times::Progress;

// The names of a row's numbers.
pub fn put_header(out: &mut [u8], at: usize) -> usize
    requires { at < 130000 }
    ensures { Puts out.old at header out.new result }
{
    wire::puts::put_bytes(out, at, b"position activity node start end\n")
}

// An action or event node with its times.
pub fn put_row(out: &mut [u8], at: usize, e: Entry) -> usize
    requires { at < 130000 }
    ensures { Puts out.old at (row e) out.new result }
{
    let a = timetable_text::put_decimal(out, at, u64::from(e.position));
    let b = timetable_text::put_after_space(out, a, u64::from(e.activity));
    let c = timetable_text::put_after_space(out, b, u64::from(e.node));
    let d = timetable_text::put_after_space(out, c, e.start.0);
    let f = timetable_text::put_after_space(out, d, e.end.0);
    timetable_text::put_newline(out, f)
}

// The first `count` times, each behind a space, and the newline.
fn put_times(out: &mut [u8], at: usize, times: [Specified; 16], count: u8) -> usize
    requires { (at < 130100) × (count ≤ 16) }
    ensures { Puts out.old at (spaced (part (specified 0) times 0 count)) out.new result }
{
    let mut off = at;
    for i in 0..usize::from(count) {
        let t = times[i];
        off = timetable_text::put_after_space(out, off, t.0);
    }
    timetable_text::put_newline(out, off)
}

// What is available after the last transition, by resource.
pub fn put_free(out: &mut [u8], at: usize, resources: u8, progress: Progress) -> usize
    requires { (at < 130000) × (resources ≤ 16) }
    ensures { Puts out.old at (free_of resources progress) out.new result }
{
    let available = progress.available;
    let next = wire::puts::put_bytes(out, at, b"free");
    put_times(out, next, available, resources)
}

// The last two lines where the path ended in a final state.
pub fn put_ended(out: &mut [u8], at: usize, resources: u8, progress: Progress) -> usize
    requires { (at < 130000) × (resources ≤ 16) }
    ensures { Puts out.old at (ended_of resources progress) out.new result }
{
    let a = put_free(out, at, resources, progress);
    let b = wire::puts::put_bytes(out, a, b"end");
    let c = timetable_text::put_after_space(out, b, u64::from(progress.state));
    timetable_text::put_newline(out, c)
}

// The last two lines where the outcomes ran out.
pub fn put_waiting(out: &mut [u8], at: usize, resources: u8, progress: Progress, e: u8) -> usize
    requires { (at < 130000) × (resources ≤ 16) }
    ensures { Puts out.old at (waiting_of resources progress e) out.new result }
{
    let a = put_free(out, at, resources, progress);
    let b = wire::puts::put_bytes(out, a, b"waits");
    let c = timetable_text::put_after_space(out, b, u64::from(progress.state));
    let d = timetable_text::put_after_space(out, c, u64::from(e));
    timetable_text::put_newline(out, d)
}

// The line of a refusal.
pub fn put_refused(out: &mut [u8], at: usize, number: u8, place: u64) -> usize
    requires { at < 130000 }
    ensures { Puts out.old at (refused number place) out.new result }
{
    let a = wire::puts::put_bytes(out, at, b"refused");
    let b = timetable_text::put_after_space(out, a, u64::from(number));
    let c = timetable_text::put_after_space(out, b, place);
    timetable_text::put_newline(out, c)
}

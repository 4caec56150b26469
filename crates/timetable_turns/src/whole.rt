// The timetable of a whole input. The inner functions put what fits, and answer the offset past the text.
ghost use Rattle.std.specs.Prelude.{◌≡◌, cond, ◌+◌, ◌≤◌, ◌<◌, length, drop, take};
ghost use Rattle.wire.specs.Puts.{Puts};
ghost use Rattle.timetable_lines.specs.Inner.Lines.{Remains};
ghost use Rattle.timetable_turns.specs.Inner.Turn.{head_of, most_turns};
ghost use Rattle.timetable_turns.specs.Timetable.{timetable_of, text_of_plan};
ghost use Rattle.timetable_text.specs.Lent.{Lends};
ghost use Rattle.timetable_turns.specs.Inner.Whole.{left_text, Standing};

use crate::turns::{counted, left_after, turn_by};
use crate::{Place, begin};
use plan::Plan;
use timetable_lines::put_refused;
use timetable_text::lent::{copy, past};
use timetable_text::{NotPut, plan_length};

// The byte at an offset, if there is one.
fn heard_at(input: &[u8], at: usize) -> Option<u8>
    ensures { result ≡ head_of (drop at input.now) }
{
    input.get(at).copied()
}

// One turn; the outcome bytes stand from `start` on.
fn put_turn(out: &mut [u8], input: &[u8], start: usize, plan: Plan, w: Place) -> Place
    requires start_bound { start ≤ 65_537 }
    requires standing { Standing plan w × (0 < w.left) }
    ensures { Standing plan result × (result.left < w.left) × Remains out.old w.at (left_text plan start input.now w) out.new result.at (left_text plan start input.now result) }
{
    let heard = heard_at(input, start + w.read as usize);
    let before = w.progress;
    let mut text = [0u8; 4096];
    let drafted = turn_by(&mut text, 0, plan, before, w.read, heard);
    let at = copy(out, w.at, &text, drafted.next);
    let read = counted(w.read, drafted.heard);
    let left = left_after(w.left, drafted.closed);
    let progress = drafted.progress;
    Place {
        at,
        read,
        left,
        progress,
    }
}

// Turn after turn, until the table is closed.
fn put_turns(out: &mut [u8], input: &[u8], start: usize, plan: Plan, first: Place) -> usize
    requires start_bound { start ≤ 65_537 }
    requires standing { Standing plan first }
    ensures { Puts out.old first.at (left_text plan start input.now first) out.new result }
{
    let mut w = first;
    // `left` falls to 0 where the table is closed, so that no range counts it.
    while 0 < w.left {
        w = put_turn(out, input, start, plan, w);
    }
    w.at
}

// One turn for each position, and the one that is past the last; a refused plan has none.
fn turns_of(closed: bool) -> u32
    ensures { result ≡ cond closed 0 most_turns }
{
    if closed {
        return 0;
    }
    1000000002
}

// The table of the n bytes of plan that stand behind the length.
fn put_table(out: &mut [u8], input: &[u8], n: usize) -> usize
    requires { (n ≤ 65_535) × (2 + n ≤ length input.now) }
    ensures { Puts out.old 0 (text_of_plan (take n (drop 2 input.now)) (drop (2 + n) input.now)) out.new result }
{
    let end = 2 + n;
    let mut line = [0u8; 64];
    let begun = begin(&mut line, &input[2..end]);
    let put = begun.put;
    let size = past(0, put);
    let at = copy(out, 0, &line, size);
    let plan = begun.plan;
    let progress = begun.progress;
    let left = turns_of(begun.closed);
    let first = Place {
        at,
        read: 0,
        left,
        progress,
    };
    put_turns(out, input, end, plan, first)
}

// The whole text of an input.
fn put_timetable(out: &mut [u8], input: &[u8]) -> usize
    ensures { Puts out.old 0 (timetable_of input.now) out.new result }
{
    if input.len() < 2 {
        return put_refused(out, 0, 1, 0);
    }
    let n = plan_length(input[0], input[1]);
    let present = input.len() - 2;
    if present < n {
        return put_refused(out, 0, 1, present as u64);
    }
    put_table(out, input, n)
}

// The timetable of any input, into any buffer. Its length is found by putting it into a buffer that holds nothing of it.
pub fn timetable(input: &[u8], out: &mut [u8]) -> Result<usize, NotPut>
    ensures { Lends out.old 0 (timetable_of input.now) out.new result }
{
    let mut none = [0u8; 1];
    let size = put_timetable(&mut none, input);
    if size <= out.len() {
        return Ok(put_timetable(out, input));
    }
    Err(NotPut::TooShort)
}

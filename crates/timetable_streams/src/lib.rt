// Text on its way out, and outcome bytes on their way in.
#![tactic(auto)]

ghost use Rattle.std.specs.Io.KnownBytes.{Consumes};
ghost use Rattle.std.specs.Prelude.{None, take, [], ◌≡◌, cond, ◌+◌, ◌-◌, ◌≤◌, ◌<◌, length};
ghost use Rattle.timetable_streams.specs.Inner.Gathering.{HandsOn, Rests, Keeps, HandsTo};
ghost use Rattle.timetable_streams.specs.Inner.Asking.{Held, Asks, Listens, heard_bytes};

use std::io::{BufRead, Read, Write};
use timetable_steps::Step;

// What the output was given of the text so far.
#[derive(Clone, Copy)]
pub struct Output {
    // bytes that were handed on
    pub handed: u64,
    // bytes that are gathered at the front of the buffer
    pub gathered: usize,
    // the output did not take what was handed on last; the counts are promised then too (`HandsOn`), so this is no Result
    pub lost: bool,
}

// The outcome bytes that the reader has at hand, as a block, and that are not yet taken.
#[derive(Clone, Copy)]
pub struct Outcomes {
    // they stand in the block from here
    pub at: usize,
    // to here
    pub end: usize,
    // so many are counted at a time, where the reader has more at hand
    pub most: usize,
}

// A turn may begin.
#[derive(Clone, Copy)]
pub struct Asked {
    pub output: Output,
    pub outcomes: Outcomes,
    // the next outcome byte, if there is one
    pub heard: Option<u8>,
}

// After a turn.
#[derive(Clone, Copy)]
pub struct After {
    pub output: Output,
    // turns that are left, 0 once the table is closed or output failed
    pub left: u32,
}

// ---- text on its way out

// All that is gathered goes to the output.
pub fn hand_on<W: Write>(to: &mut W, out: &[u8], o: Output) -> Output
    requires { (o.gathered ≤ length out.now) × (o.handed + o.gathered ≤ 5_000_000_000_000) }
    ensures hands { HandsOn out.now o result × (result.gathered ≡ 0) }
    ensures went { HandsTo (W.contents to.old) (W.contents to.new) out.now o result }
{
    let handed = o.handed + o.gathered as u64;
    let lost = to.write_all(&out[..o.gathered]).is_err();
    Output {
        handed,
        gathered: 0,
        lost,
    }
}

// What is gathered at the end goes to the output, unless an earlier write failed.
pub fn hand_on_rest<W: Write>(to: &mut W, out: &[u8], o: Output) -> Output
    requires { (o.gathered ≤ length out.now) × (o.handed + o.gathered ≤ 5_000_000_000_000) }
    ensures rests { Rests out.now o result }
    ensures went { HandsTo (W.contents to.old) (W.contents to.new) out.now o result }
{
    if o.lost {
        return o;
    }
    hand_on(to, out, o)
}

// Room for the next turn: text past 61,440 bytes is handed on.
fn kept<W: Write>(to: &mut W, out: &[u8], o: Output) -> Output
    requires { (o.gathered ≤ length out.now) × (o.handed + o.gathered ≤ 5_000_000_000_000) }
    ensures hands { HandsOn out.now o result × (result.gathered ≤ 61_440) }
    ensures went { HandsTo (W.contents to.old) (W.contents to.new) out.now o result }
{
    if o.gathered <= 61440 {
        return o;
    }
    hand_on(to, out, o)
}

// How many turns are left after one; none where it closed the table or output failed.
fn left_after(left: u32, closed: bool, lost: bool) -> u32
    requires { 0 < left }
    ensures { result ≡ cond closed 0 (cond lost 0 (left - 1)) }
{
    if closed {
        return 0;
    }
    if lost {
        return 0;
    }
    left - 1
}

// A turn put its text, up to the offset `next`.
pub fn keep<W: Write>(
    to: &mut W,
    out: &[u8],
    o: Output,
    next: usize,
    closed: bool,
    left: u32,
) -> After
    requires { (next ≤ length out.now) × (o.handed + next ≤ 5_000_000_000_000) × (0 < left) }
    ensures keeps { Keeps out.now o next closed left result }
    ensures went { HandsTo (W.contents to.old) (W.contents to.new) out.now o result.output }
{
    let put = Output {
        handed: o.handed,
        gathered: next,
        lost: false,
    };
    let output = kept(to, out, put);
    let left = left_after(left, closed, output.lost);
    After { output, left }
}

// ---- outcome bytes on their way in

// Reads until `buffer` is full, the input ends or a read fails; so many bytes stand at the front of `buffer`.
pub fn read_full<R: Read>(from: &mut R, buffer: &mut [u8]) -> usize
    ensures bound { result ≤ length buffer.new }
    ensures taken { Consumes (R.remaining from.old) (R.remaining from.new) (take result buffer.new) }
{
    let mut done = 0;
    // A read takes any number of bytes, so that no range counts `done`.
    while done < buffer.len() {
        let n = read_some(from, &mut buffer[done..]);
        if n == 0 {
            return done;
        }
        done += n;
    }
    done
}

// One read, of no byte where it fails.
fn read_some<R: Read>(from: &mut R, buffer: &mut [u8]) -> usize
    ensures bound { result ≤ length buffer.new }
    ensures taken { Consumes (R.remaining from.old) (R.remaining from.new) (take result buffer.new) }
{
    match from.read(buffer) {
        Ok(n) => n,
        Err(_) => 0,
    }
}

// No outcome byte is at hand yet.
pub fn untaken() -> Outcomes
    ensures held { Held result }
    ensures none { result.at ≡ result.end }
    ensures most { result.most ≡ 65_536 }
{
    Outcomes {
        at: 0,
        end: 0,
        most: 65536,
    }
}

// "Spare outcomes are not read": those of a block that were not taken, so many, are still in the reader. The standard input's,
// `LockedStdin`, has more than one at hand only where the input can seek, and seeks back over them where it is dropped.
pub fn give_back(u: Outcomes) -> usize
    requires { Held u }
    ensures { result ≡ u.end - u.at }
{
    u.end - u.at
}

// How many bytes the reader has at hand, but at most `most`. Where it has none it reads, which may wait; it has none after that
// at the end of the input, or where the read fails.
fn at_hand<B: BufRead>(from: &mut B, most: usize) -> usize
    ensures bound { result ≤ most }
    ensures kept { Consumes (B.remaining from.old) (B.remaining from.new) [] }
{
    match from.fill_buf() {
        Ok(bytes) => bytes.len().min(most),
        Err(_) => 0,
    }
}

// The first byte at hand is taken.
fn take_one<B: BufRead>(from: &mut B) -> Option<u8>
    ensures taken { Consumes (B.remaining from.old) (B.remaining from.new) (heard_bytes result) }
{
    let Ok(bytes) = from.fill_buf() else {
        return None;
    };
    let byte = *bytes.first()?;
    from.consume(1);
    Some(byte)
}

// No outcome byte is heard.
fn none_heard(output: Output, outcomes: Outcomes) -> Asked
    ensures output { result.output ≡ output }
    ensures outcomes { result.outcomes ≡ outcomes }
    ensures heard { result.heard ≡ None }
{
    Asked {
        output,
        outcomes,
        heard: None,
    }
}

// The next outcome byte, if there is one; the text is handed on before a read, which may wait.
fn listen<B: BufRead, W: Write>(
    from: &mut B,
    to: &mut W,
    out: &[u8],
    o: Output,
    u: Outcomes,
) -> Asked
    requires gathered_in_bounds { (o.gathered ≤ length out.now) × (o.handed + o.gathered ≤ 5_000_000_000_000) }
    requires held { Held u }
    ensures listens { Listens out.now o result }
    ensures went { HandsTo (W.contents to.old) (W.contents to.new) out.now o result.output }
    ensures taken { Consumes (B.remaining from.old) (B.remaining from.new) (heard_bytes result.heard) }
{
    let at = u.at;
    let most = u.most;
    if at < u.end {
        let outcomes = Outcomes {
            at: at + 1,
            end: u.end,
            most,
        };
        let heard = take_one(from);
        return Asked {
            output: o,
            outcomes,
            heard,
        };
    }
    let output = hand_on(to, out, o);
    if output.lost {
        return none_heard(output, u);
    }
    let end = at_hand(from, most);
    if end == 0 {
        return none_heard(output, u);
    }
    let outcomes = Outcomes { at: 1, end, most };
    let heard = take_one(from);
    Asked {
        output,
        outcomes,
        heard,
    }
}

// An outcome byte is heard where the turn waits for one.
pub fn ask<B: BufRead, W: Write>(
    from: &mut B,
    to: &mut W,
    out: &[u8],
    o: Output,
    u: Outcomes,
    unheard: Step,
) -> Asked
    requires gathered_in_bounds { (o.gathered ≤ length out.now) × (o.handed + o.gathered ≤ 5_000_000_000_000) }
    requires held { Held u }
    ensures asks { Asks out.now o unheard result }
    ensures went { HandsTo (W.contents to.old) (W.contents to.new) out.now o result.output }
    ensures taken { Consumes (B.remaining from.old) (B.remaining from.new) (heard_bytes result.heard) }
{
    match unheard {
        Step::Waits(_) => listen(from, to, out, o, u),
        Step::Ends | Step::Lacks | Step::Takes(_, _) => none_heard(o, u),
    }
}

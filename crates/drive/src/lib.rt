// A whole list of calls, and of questions for a node's place, as bytes, driven through a run: for tests from another
// language. The form of the input is in drive_input, that of the records in drive_records.
#![tactic(auto)]

ghost use Rattle.std.specs.Prelude.{◌≡◌, ◌+◌, ◌*◌, ◌≤◌, length, Some};
ghost use Rattle.wire.specs.Puts.{Puts};
ghost use Rattle.drive_input.specs.Input.{head_of};
ghost use Rattle.drive.specs.Drive.{opened_by, parts_from, parts_of, records_from, text_of, joined, recorded_of, buffer_of};

use drive_input::{Head, Part};
use run::{Opened, Run};

// Why nothing was written.
#[derive(Clone, Copy)]
pub enum NotRecorded {
    TooShort,
}

// The opening that has these numbers.
pub fn open(input: &[u8], head: Head) -> Opened
    requires { head.length + 19 + 8 * head.count ≤ length input.now }
    ensures { result ≡ opened_by input.now head }
{
    let end = head.length + 2;
    let psi = head.psi;
    let n = usize::from(head.count);
    let times = drive_input::availabilities(input, head.length + 19, head.count);
    Run::open(&input[2..end], psi, head.slack, &times[..n])
}

// How many parts there are from `from` on; the input holds fewer than it has bytes.
fn count_from(input: &[u8], from: usize) -> usize
    requires { from ≤ length input.now }
    ensures { result ≡ length (parts_from (length input.now) input.now from) }
{
    let most = input.len();
    let mut at = from;
    for count in 0..most {
        let Some((_, next)) = drive_input::part_at(input, at) else {
            return count;
        };
        at = next;
    }
    most
}

// So many parts from `from` on, their records at `written`: the offset past the last record.
fn parts_from(
    input: &[u8],
    from: usize,
    first: Run,
    out: &mut [u8],
    written: usize,
    parts: usize,
) -> usize
    requires { (from ≤ length input.now) × (written + 16 * parts ≤ length out.old) }
    ensures { Puts out.old written (joined (records_from first (parts_from parts input.now from))) out.new result }
{
    let mut run = first;
    let mut at = from;
    let mut end = written;
    for _ in 0..parts {
        let Some((part, next)) = drive_input::part_at(input, at) else {
            return end;
        };
        at = next;
        match part {
            Part::Call(call) => {
                let answer = run.call(call);
                let reply = answer.reply;
                end = drive_records::put_at(out, end, drive_records::reply_record(reply));
                run = answer.run;
            }
            Part::Place(position, node) => {
                let window = run.window;
                let place = run_window::place_of(window, position, node);
                end = drive_records::put_at(out, end, drive_records::place_record(place));
            }
        }
    }
    end
}

// An opening that is there whole, and all parts after it, in a buffer that holds their records.
fn opened_and_called(input: &[u8], head: Head, out: &mut [u8], parts: usize) -> usize
    requires { (head_of input.now ≡ Some head) × (parts ≡ length (parts_of input.now)) × (16 + 16 * parts ≤ length out.old) }
    ensures { Puts out.old 0 (text_of input.now) out.new result }
{
    let opened = open(input, head);
    let opening = opened.opening;
    let record = drive_records::opening_record(opening);
    let end = drive_records::put_at(out, 0, record);
    let run = opened.run;
    parts_from(input, head.parts, run, out, end, parts)
}

// The records of an opening that is there whole, if all of them fit: how many bytes were written.
fn if_they_fit(input: &[u8], head: Head, out: &mut [u8]) -> Result<usize, NotRecorded>
    requires { head_of input.now ≡ Some head }
    ensures { (result ≡ recorded_of input.now out.old) × (out.new ≡ buffer_of input.now out.old) }
{
    let parts = count_from(input, head.parts);
    if out.len() / 16 <= parts {
        return Err(NotRecorded::TooShort);
    }
    Ok(opened_and_called(input, head, out, parts))
}

// Any input and any buffer are taken. The records are counted before anything is driven, so that a buffer that is too short
// stays as it was; bytes after the records stay as they are.
pub fn drive(input: &[u8], out: &mut [u8]) -> Result<usize, NotRecorded>
    ensures { (result ≡ recorded_of input.now out.old) × (out.new ≡ buffer_of input.now out.old) }
{
    let head = drive_input::head_of(input);
    match head {
        None => Ok(0),
        Some(h) => if_they_fit(input, h, out),
    }
}

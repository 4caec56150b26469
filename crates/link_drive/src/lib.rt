// A whole list of messages as bytes, driven through a run: for tests from another language. The form of the input and of the
// answers is in specs/LinkDrive.antt, that of the opening before them in drive_input.
#![tactic(auto)]

ghost use Rattle.std.specs.Prelude.{◌≡◌, ◌+◌, ◌≤◌, leb, length, Some};
ghost use Rattle.wire.specs.Puts.{Puts};
ghost use Rattle.drive_input.specs.Input.{head_of};
ghost use Rattle.link_drive.specs.LinkDrive.{messages_from, answered, linked_of, link_buffer};
ghost use Rattle.link_drive.specs.Inner.Answers.{next_of, answers_from};

use drive::NotRecorded;
use drive_input::Head;
use run::{Reply, Run};

// ---- the messages

// The offset past the message at `at`, unless the input ends there or inside it.
fn next_of(input: &[u8], at: usize) -> Option<usize>
    requires { at ≤ length input.now }
    ensures { result ≡ next_of input.now at }
{
    if at == input.len() {
        return None;
    }
    let n = usize::from(input[at]);
    if input.len() - at <= n {
        return None;
    }
    Some(at + 1 + n)
}

// How many messages there are from `from` on; the input holds fewer than it has bytes.
fn count_from(input: &[u8], from: usize) -> usize
    requires { from ≤ length input.now }
    ensures { result ≡ length (messages_from (length input.now) input.now from) }
{
    let most = input.len();
    let mut at = from;
    for count in 0..most {
        let Some(next) = next_of(input, at) else {
            return count;
        };
        at = next;
    }
    most
}

// ---- an answer

// The bytes of an answer, with the byte that says how many follow it.
fn size_of(reply: Reply) -> usize
    ensures { result ≡ length (answered reply) }
{
    let m = link_calls::of_reply(reply);
    link_messages::length_of(m.map) + 1
}

// An answer at `at`: the offset past it.
fn put_answer(out: &mut [u8], at: usize, reply: Reply) -> usize
    requires { at + length (answered reply) ≤ length out.old }
    ensures { Puts out.old at (answered reply) out.new result }
{
    let m = link_calls::of_reply(reply);
    let n = link_messages::length_of(m.map);
    let start = at + 1;
    let end = start + n;
    out[at] = n as u8;
    // It cannot fail: to_host has every reply, and `n` is its length.
    let _ = link_calls::write_answer(m, &mut out[start..end]);
    end
}

// ---- the answers

// Whether the answers to so many messages from `from` on have at most `room` bytes.
fn fit_from(input: &[u8], from: usize, first: Run, messages: usize, room: usize) -> bool
    requires { from ≤ length input.now }
    ensures { result ≡ leb (length (answers_from messages first input.now from)) room }
{
    let mut run = first;
    let mut at = from;
    let mut free = room;
    for _ in 0..messages {
        let Some(next) = next_of(input, at) else {
            return true;
        };
        let start = at + 1;
        let answer = link::receive(run, &input[start..next]);
        let reply = answer.reply;
        let size = size_of(reply);
        if free < size {
            return false;
        }
        run = answer.run;
        at = next;
        free -= size;
    }
    true
}

// The same of the opening's record and the answers. An answer has at most 8 bytes, so that where there is room for so many each
// nothing is driven.
fn fit(input: &[u8], from: usize, run: Run, messages: usize, room: usize) -> bool
    requires { from ≤ length input.now }
    ensures { result ≡ leb (16 + length (answers_from messages run input.now from)) room }
{
    if room < 16 {
        return false;
    }
    let free = room - 16;
    if messages <= free / 8 {
        return true;
    }
    fit_from(input, from, run, messages, free)
}

// The answers to so many messages from `from` on, at `written`: the offset past the last.
fn answers_from(
    input: &[u8],
    from: usize,
    first: Run,
    out: &mut [u8],
    written: usize,
    messages: usize,
) -> usize
    requires { (from ≤ length input.now) × (written + length (answers_from messages first input.now from) ≤ length out.old) }
    ensures { Puts out.old written (answers_from messages first input.now from) out.new result }
{
    let mut run = first;
    let mut at = from;
    let mut end = written;
    for _ in 0..messages {
        let Some(next) = next_of(input, at) else {
            return end;
        };
        let start = at + 1;
        let answer = link::receive(run, &input[start..next]);
        let reply = answer.reply;
        end = put_answer(out, end, reply);
        run = answer.run;
        at = next;
    }
    end
}

// ---- the whole

// The opening's record and the answers, if all of them fit: how many bytes were written.
fn if_they_fit(input: &[u8], head: Head, out: &mut [u8]) -> Result<usize, NotRecorded>
    requires { head_of input.now ≡ Some head }
    ensures { (result ≡ linked_of input.now out.old) × (out.new ≡ link_buffer input.now out.old) }
{
    let opened = drive::open(input, head);
    let run = opened.run;
    let messages = count_from(input, head.parts);
    if !fit(input, head.parts, run, messages, out.len()) {
        return Err(NotRecorded::TooShort);
    }
    let opening = opened.opening;
    let record = drive_records::opening_record(opening);
    let end = drive_records::put_at(out, 0, record);
    Ok(answers_from(input, head.parts, run, out, end, messages))
}

// Any input and any buffer are taken. What is written is measured first, so that a buffer that is too short stays as it was; bytes
// after the answers stay as they are.
pub fn drive(input: &[u8], out: &mut [u8]) -> Result<usize, NotRecorded>
    ensures { (result ≡ linked_of input.now out.old) × (out.new ≡ link_buffer input.now out.old) }
{
    let head = drive_input::head_of(input);
    match head {
        None => Ok(0),
        Some(h) => if_they_fit(input, h, out),
    }
}

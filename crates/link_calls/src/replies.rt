// Messages to the host: "Start has 1, 2 and 4, wait none, a refusal 5 (50 to 55, 61 or 62), stops 41 and 42 have 1, 2 and 5, stops 43
// and 44 have 5."
ghost use Rattle.std.specs.Prelude.{◌≡◌};
ghost use Rattle.link_messages.specs.Writing.{permits, sent_of, buffer_of};
ghost use Rattle.link_calls.specs.Replies.{with_number, numbered, naming, to_host, plain, named, of_stop, of_reply, read_answer};

use link_messages::{Message, NotSent};
use run::{Refusal, Reply, Stop};

// ---- reading

// The answer that has a number alone: a refusal, or a stop that names no node.
fn with_number(x: u8) -> Result<Reply, Refusal>
    ensures { result ≡ with_number x numbered }
{
    let number = x;
    match number {
        50 => Ok(Reply::Refused(Refusal::OutOfLimits)),
        51 => Ok(Reply::Refused(Refusal::ReadingBelow)),
        52 => Ok(Reply::Refused(Refusal::NoSuchNode)),
        53 => Ok(Reply::Refused(Refusal::NotStarted)),
        54 => Ok(Reply::Refused(Refusal::OtherKind)),
        55 => Ok(Reply::Refused(Refusal::OutcomeLacking)),
        61 => Ok(Reply::Refused(Refusal::Unlisted)),
        62 => Ok(Reply::Refused(Refusal::Length)),
        43 => Ok(Reply::Stopped(Stop::Full)),
        44 => Ok(Reply::Stopped(Stop::Beyond)),
        _ => Err(Refusal::Unlisted),
    }
}

// The stop that has a number and names a node.
fn with_node(position: u32, node: u8, x: u8) -> Result<Reply, Refusal>
    ensures { result ≡ with_number x (naming position node) }
{
    let number = x;
    match number {
        41 => Ok(Reply::Stopped(Stop::Late(position, node))),
        42 => Ok(Reply::Stopped(Stop::Overdue(position, node))),
        _ => Err(Refusal::Unlisted),
    }
}

// The reply that a message says, or 62, then 61.
pub fn read_answer(bytes: &[u8]) -> Result<Reply, Refusal>
    ensures { result ≡ read_answer bytes.now }
{
    if !link_messages::has_length(bytes) {
        return Err(Refusal::Length);
    }
    let map = bytes[0];
    match map {
        0x16 => {
            let position = wire::four(bytes, 1);
            return Ok(Reply::Start(position, bytes[6], bytes[5]));
        }
        0x00 => {
            return Ok(Reply::Wait);
        }
        0x40 => {
            return Ok(Reply::Done);
        }
        0x80 => {
            return Ok(Reply::Taken);
        }
        0x20 => {
            return with_number(bytes[1]);
        }
        0x26 => {
            let position = wire::four(bytes, 1);
            return with_node(position, bytes[5], bytes[6]);
        }
        _ => {
            return Err(Refusal::Unlisted);
        }
    }
}

// ---- writing

// A map, and a number or none.
fn plain(map: u8, number: u8) -> Message
    ensures { result ≡ plain map number }
{
    Message {
        map,
        reading: 0,
        position: 0,
        node: 0,
        outcome: 0,
        activity: 0,
        number,
    }
}

// A stop that names its node.
fn named(position: u32, node: u8, number: u8) -> Message
    ensures { result ≡ named position node number }
{
    Message {
        map: 0x26,
        reading: 0,
        position,
        node,
        outcome: 0,
        activity: 0,
        number,
    }
}

fn of_stop(s: Stop) -> Message
    ensures { result ≡ of_stop s }
{
    let x = numbers::stop_number(s);
    match s {
        Stop::Late(p, n) | Stop::Overdue(p, n) => named(p, n, x),
        Stop::Full | Stop::Beyond => plain(0x20, x),
    }
}

// The message that says a reply.
pub fn of_reply(r: Reply) -> Message
    ensures { result ≡ of_reply r }
{
    match r {
        Reply::Start(p, a, n) => Message {
            map: 0x16,
            reading: 0,
            position: p,
            node: n,
            outcome: 0,
            activity: a,
            number: 0,
        },
        Reply::Wait => plain(0x00, 0),
        Reply::Done => plain(0x40, 0),
        Reply::Taken => plain(0x80, 0),
        Reply::Refused(f) => plain(0x20, numbers::refusal_number(f)),
        Reply::Stopped(s) => of_stop(s),
    }
}

// Whether the map is listed, and an answer with this map has the number.
fn is_answer(m: u8, number: u8) -> bool
    ensures { result ≡ permits to_host m number }
{
    let map = m;
    match map {
        0x16 | 0x00 | 0x40 | 0x80 => true,
        0x20 => with_number(number).is_ok(),
        0x26 => with_node(0, 0, number).is_ok(),
        _ => false,
    }
}

// Writes a message to the host: 61, then 36.
pub fn write_answer(m: Message, out: &mut [u8]) -> Result<usize, NotSent>
    ensures { (result ≡ sent_of to_host m out.old) × (out.new ≡ buffer_of to_host m out.old) }
{
    let good = is_answer(m.map, m.number);
    link_messages::write(m, good, out)
}

// A record of 16 bytes for the opening, for each call and for each node's place. Its form is in specs/Records.antt, and the numbers of
// its cases are bytes of that form.
#![tactic(auto)]

ghost use Rattle.std.specs.Prelude.{◌≡◌, ◌+◌, ◌≤◌, length};
ghost use Rattle.wire.specs.Puts.{Puts};
ghost use Rattle.drive_records.specs.Records.{bare, stop_record, opening_record, reply_record, place_record, record_bytes};

use run::{Opening, Reply, Stop};

// An answer: what was answered, the number or the activity, the node, the position, the place.
#[derive(Clone, Copy)]
pub struct Record {
    pub answer: u8,
    pub number: u8,
    pub node: u8,
    pub position: u32,
    pub place: u64,
}

// An answer that names no node.
fn bare(answer: u8, number: u8, place: u64) -> Record
    ensures { result ≡ bare answer number place }
{
    Record {
        answer,
        number,
        node: 0,
        position: 0,
        place,
    }
}

// ---- the opening

pub fn opening_record(o: Opening) -> Record
    ensures { result ≡ opening_record o }
{
    match o {
        Opening::Opened => bare(0, 0, 0),
        Opening::Refused(u) => bare(
            5,
            numbers::opening_number(u),
            numbers::opening_place(u) as u64,
        ),
    }
}

// ---- a call

fn stop_record(s: Stop) -> Record
    ensures { result ≡ stop_record s }
{
    let number = numbers::stop_number(s);
    match s {
        Stop::Late(p, n) | Stop::Overdue(p, n) => Record {
            answer: 6,
            number,
            node: n,
            position: p,
            place: 0,
        },
        Stop::Full | Stop::Beyond => bare(6, number, 0),
    }
}

pub fn reply_record(reply: Reply) -> Record
    ensures { result ≡ reply_record reply }
{
    match reply {
        Reply::Start(p, a, n) => Record {
            answer: 1,
            number: a,
            node: n,
            position: p,
            place: 0,
        },
        Reply::Wait => bare(2, 0, 0),
        Reply::Done => bare(3, 0, 0),
        Reply::Taken => bare(4, 0, 0),
        Reply::Refused(f) => bare(5, numbers::refusal_number(f), 0),
        Reply::Stopped(s) => stop_record(s),
    }
}

// ---- a node's place

pub fn place_record(place: usize) -> Record
    ensures { result ≡ place_record place }
{
    bare(7, 0, place as u64)
}

// ---- into a buffer

// A record at the front of a buffer.
fn put_first(out: &mut [u8], r: Record) -> usize
    ensures { Puts out.old 0 (record_bytes r) out.new result }
{
    let a = wire::puts::put_byte(out, 0, r.answer);
    let b = wire::puts::put_byte(out, a, r.number);
    let c = wire::puts::put_byte(out, b, r.node);
    let d = wire::puts::put_byte(out, c, 0);
    let e = wire::puts::put_number(out, d, u64::from(r.position), 4);
    wire::puts::put_number(out, e, r.place, 8)
}

// A record at `at`: the offset past it.
pub fn put_at(out: &mut [u8], at: usize, r: Record) -> usize
    requires { at + 16 ≤ length out.old }
    ensures { Puts out.old at (record_bytes r) out.new result }
{
    let end = at + 16;
    put_first(&mut out[at..end], r);
    end
}

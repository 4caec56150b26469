// A made-up run as bytes, and two calls of it: for tests from another language. The form of the bytes is in
// made/specs/Layout.antt and specs/Made.antt, that of the answer in specs/Answers.antt.
#![tactic(auto)]

ghost use Rattle.std.specs.Prelude.{◌≡◌, ◌≤◌};
ghost use Rattle.made_up.specs.Made.{stop_of, halt_of, halt_at, made_of, call_of_kind, call_at};
ghost use Rattle.made_up.specs.Answers.{made_code, made_buffer};

use made::layout::{HALT, LAST, PSI, SLACK};
use made::numbers::{byte, eight, four};
use run::{Call, Run, Stop};
use time::Clock;

pub const FIRST: usize = HALT + 7;

pub const SECOND: usize = FIRST + 15;

// ---- the run

fn stop_of(tag: u8, position: u32, node: u8) -> Stop
    ensures { result ≡ stop_of tag position node }
{
    match tag % 4 {
        0 => Stop::Late(position, node),
        1 => Stop::Overdue(position, node),
        2 => Stop::Full,
        _ => Stop::Beyond,
    }
}

fn halt_of(tag: u8, stop: Stop) -> Option<Stop>
    ensures { result ≡ halt_of tag stop }
{
    if tag % 2 == 0 {
        return None;
    }
    Some(stop)
}

fn halt_at(bytes: &[u8], at: usize) -> Option<Stop>
    requires { at ≤ 65500 }
    ensures { result ≡ halt_at bytes.now at }
{
    let stop = stop_of(
        byte(bytes, at + 1),
        four(bytes, at + 2),
        byte(bytes, at + 6),
    );
    halt_of(byte(bytes, at), stop)
}

// Any bytes are a run.
pub fn run_of(bytes: &[u8]) -> Run
    ensures { result ≡ made_of bytes.now }
{
    let psi = Clock(eight(bytes, PSI));
    let last = Clock(eight(bytes, LAST));
    let halt = halt_at(bytes, HALT);
    Run {
        plan: made::plan_of(bytes),
        psi,
        slack: eight(bytes, SLACK),
        progress: made::progress_of(bytes),
        window: made::window_of(bytes),
        last,
        halt,
    }
}

// ---- the calls

fn call_of_kind(kind: u8, t: Clock, position: u32, node: u8, outcome: u8) -> Call
    ensures { result ≡ call_of_kind kind t position node outcome }
{
    match kind {
        1 => Call::Completion(t, position, node),
        2 => Call::Outcome(t, position, node, outcome),
        _ => Call::Ask(t),
    }
}

fn call_at(bytes: &[u8], at: usize) -> Call
    requires { at ≤ 65500 }
    ensures { result ≡ call_at bytes.now at }
{
    let t = Clock(eight(bytes, at + 1));
    call_of_kind(
        byte(bytes, at),
        t,
        four(bytes, at + 9),
        byte(bytes, at + 13),
        byte(bytes, at + 14),
    )
}

// Two calls of the run, the second given what the first handed back: how many bytes of records were written, or
// 36 * 2^32 for a buffer too short, which stays as it is.
pub fn answer(bytes: &[u8], out: &mut [u8]) -> usize
    ensures { (result ≡ made_code out.old) × (out.new ≡ made_buffer bytes.now out.old) }
{
    if out.len() < 32 {
        return 154618822656;
    }
    let run = run_of(bytes);
    let first = run.call(call_at(bytes, FIRST));
    let reply = first.reply;
    let end = drive_records::put_at(out, 0, drive_records::reply_record(reply));
    let after = first.run;
    let second = after.call(call_at(bytes, SECOND));
    let last = second.reply;
    drive_records::put_at(out, end, drive_records::reply_record(last))
}

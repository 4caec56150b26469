// Messages to the board: "Ask has bit 0. Completion has 0 to 2. Outcome has 0 to 3."
ghost use Rattle.std.specs.Prelude.{true, false, ◌≡◌};
ghost use Rattle.link_messages.specs.Writing.{sent_of, buffer_of};
ghost use Rattle.link_calls.specs.Calls.{by_call_map, to_board, call_message, of_call, read_call};

use link_messages::{Message, NotSent};
use run::{Call, Refusal};
use time::Clock;

// The call that a message says, or 62, then 61.
pub fn read_call(bytes: &[u8]) -> Result<Call, Refusal>
    ensures { result ≡ read_call bytes.now }
{
    if !link_messages::has_length(bytes) {
        return Err(Refusal::Length);
    }
    let map = bytes[0];
    match map {
        0x01 => {
            let t = Clock(wire::eight(bytes, 1));
            return Ok(Call::Ask(t));
        }
        0x07 => {
            let t = Clock(wire::eight(bytes, 1));
            let position = wire::four(bytes, 9);
            return Ok(Call::Completion(t, position, bytes[13]));
        }
        0x0F => {
            let t = Clock(wire::eight(bytes, 1));
            let position = wire::four(bytes, 9);
            return Ok(Call::Outcome(t, position, bytes[13], bytes[14]));
        }
        _ => {
            return Err(Refusal::Unlisted);
        }
    }
}

// ---- writing

fn call_message(map: u8, t: Clock, position: u32, node: u8, outcome: u8) -> Message
    ensures { result ≡ call_message map t position node outcome }
{
    Message {
        map,
        reading: t.0,
        position,
        node,
        outcome,
        activity: 0,
        number: 0,
    }
}

// The message that says a call.
pub fn of_call(c: Call) -> Message
    ensures { result ≡ of_call c }
{
    match c {
        Call::Ask(t) => call_message(0x01, t, 0, 0, 0),
        Call::Completion(t, p, n) => call_message(0x07, t, p, n, 0),
        Call::Outcome(t, p, n, o) => call_message(0x0F, t, p, n, o),
    }
}

fn is_call(m: u8) -> bool
    ensures { result ≡ by_call_map m true true true false }
{
    let map = m;
    match map {
        0x01 | 0x07 | 0x0F => true,
        _ => false,
    }
}

// Writes a message to the board: 61, then 36.
pub fn write_call(m: Message, out: &mut [u8]) -> Result<usize, NotSent>
    ensures { (result ≡ sent_of to_board m out.old) × (out.new ≡ buffer_of to_board m out.old) }
{
    let good = is_call(m.map);
    link_messages::write(m, good, out)
}

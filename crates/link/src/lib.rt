// Calls over the host link: "Hosts drive boards over a serial line." Framing is the line's: a message comes whole.
#![tactic(auto)]

ghost use Rattle.std.specs.Prelude.{◌≡◌};
ghost use Rattle.run.specs.Calls.{refuse};
ghost use Rattle.link.specs.Receive.{receive_of};

pub use link_calls::{of_call, of_reply, read_answer, read_call, write_answer, write_call};
pub use link_messages::{Message, NotSent};
use run::{Answer, Refusal, Reply, Run};

// A bad message hands back the run exactly as it came in.
fn refused(run: Run, f: Refusal) -> Answer
    ensures { result ≡ refuse run f }
{
    let reply = Reply::Refused(f);
    Answer { reply, run }
}

// A good message is the call that it says. A bad one is refused, 62 or 61, before 50 and before a kept stop, and hands back the run
// exactly as it came in.
pub fn receive(run: Run, message: &[u8]) -> Answer
    ensures { result ≡ receive_of run message.now }
{
    let read = link_calls::read_call(message);
    match read {
        Ok(c) => {
            return run.call(c);
        }
        Err(f) => {
            return refused(run, f);
        }
    }
}

// What a call answers where it stops the run, and where there is nothing to start.
ghost use Rattle.std.specs.Prelude.{◌≡◌, ◌<◌};
ghost use Rattle.run.specs.Calls.{stops};
ghost use Rattle.run.specs.Inner.Effects.{rests_as};

use crate::{Answer, Reply, Run, Stop};
use plan::is_final;
use run_window::Entry;
use time::Clock;

// A stop is kept, and its reading is the last one.
pub fn stops(run: Run, t: Clock, s: Stop) -> Answer
    ensures { result ≡ stops run t s }
{
    Answer {
        reply: Reply::Stopped(s),
        run: Run {
            last: t,
            halt: Some(s),
            ..run
        },
    }
}

// "It says done if the path ended in a final state and the window is empty, otherwise wait when nothing is due."
pub fn at_rest(finals: u64, s: u8, window: [Entry; Run::WINDOW]) -> Reply
    requires { s < 64 }
    ensures { result ≡ rests_as finals s window }
{
    if is_final(finals, usize::from(s)) && run_window::is_empty(window) {
        return Reply::Done;
    }
    Reply::Wait
}

// The queues of pending instances: processing takes the oldest.
ghost use Rattle.std.specs.Prelude.{◌≡◌};
ghost use Rattle.times.specs.Times.{specified};
ghost use Rattle.times.specs.Queues.{processed_of, floor_of};
ghost use Rattle.times.specs.Limits.{InputFits};

use super::{Instance, Progress, Told};
use plan::Input;
use time::Specified;

// The completion of the instance that is processed; 0 where there is none.
pub fn floor(input: Input, g: Progress) -> Specified
    requires { InputFits 16 input }
    ensures { result ≡ specified (floor_of input g) }
{
    match input {
        Input::Nothing => Specified(0),
        Input::Outcome(e, _) => {
            let i = usize::from(e);
            if 0 < g.lengths[i] {
                let x = g.pending[8 * i];
                x.end
            } else {
                Specified(0)
            }
        }
    }
}

// The queues after the oldest instance of the processed event has left: those behind it move up.
pub fn processed(input: Input, g: Progress) -> Progress
    requires { InputFits 16 input }
    ensures { result ≡ processed_of input g }
{
    let Input::Outcome(e, _) = input else {
        return g;
    };
    let i = usize::from(e);
    let n = g.lengths[i];
    if n == 0 {
        return g;
    }
    let mut h = g;
    h.lengths[i] = n - 1;
    let last = 8 * i + 7;
    for j in 8 * i..last {
        h.pending[j] = h.pending[j + 1];
    }
    h.pending[last] = Instance {
        position: 0,
        node: 0,
        end: Specified(0),
        told: Told::Nothing,
    };
    h
}

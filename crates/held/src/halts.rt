// Whether a run goes on, or why it has stopped.
ghost use Rattle.std.specs.Prelude.{◌≡◌};
ghost use Rattle.held.specs.Held.{halt_of, stop_as, held_halt};

use crate::HeldHalt;
use run::Stop;

pub fn halt_of(h: HeldHalt) -> Option<Stop>
    ensures { result ≡ halt_of h }
{
    if h.halt == 1 {
        return Some(Stop::Late(h.position, h.node));
    }
    if h.halt == 2 {
        return Some(Stop::Overdue(h.position, h.node));
    }
    if h.halt == 3 {
        return Some(Stop::Full);
    }
    if h.halt == 4 {
        return Some(Stop::Beyond);
    }
    None
}

fn stop_as(halt: u8, position: u32, node: u8) -> HeldHalt
    ensures { result ≡ stop_as halt position node }
{
    let spare = [0u8; 2];
    HeldHalt {
        position,
        node,
        halt,
        spare,
    }
}

pub fn hold_halt(halt: Option<Stop>) -> HeldHalt
    ensures { result ≡ held_halt halt }
{
    match halt {
        None => stop_as(0, 0, 0),
        Some(s) => match s {
            Stop::Late(p, n) => stop_as(1, p, n),
            Stop::Overdue(p, n) => stop_as(2, p, n),
            Stop::Full => stop_as(3, 0, 0),
            Stop::Beyond => stop_as(4, 0, 0),
        },
    }
}

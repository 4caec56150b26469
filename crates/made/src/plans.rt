// A made-up plan.
ghost use Rattle.std.specs.Prelude.{◌≡◌};
ghost use Rattle.made.specs.Parts.{plan_of};

use crate::automata::automaton_of;
use crate::layout::{ACTIVITIES, BELONGS, EVENTS, OUTCOMES, PERIPHERALS, RESOURCES, SIZES};
use crate::nodes::nodes_of;
use crate::numbers::{byte, fill};
use plan::Plan;

pub fn plan_of(bytes: &[u8]) -> Plan
    ensures { result ≡ plan_of bytes.now }
{
    let mut belongs = [0u8; 64];
    fill(bytes, BELONGS, &mut belongs);
    let mut outcomes = [0u8; 16];
    fill(bytes, OUTCOMES, &mut outcomes);
    let mut sizes = [0u8; 32];
    fill(bytes, SIZES, &mut sizes);
    Plan {
        resources: byte(bytes, RESOURCES),
        peripherals: byte(bytes, PERIPHERALS),
        belongs,
        events: byte(bytes, EVENTS),
        outcomes,
        activities: byte(bytes, ACTIVITIES),
        sizes,
        nodes: nodes_of(bytes),
        automaton: automaton_of(bytes),
    }
}

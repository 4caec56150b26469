// The outcomes that were reported of pending instances, and the way on from a waiting state. Document 01, section "A run".
#![tactic(auto)]

ghost use Rattle.std.specs.Prelude.{◌≡◌, ◌+◌, ◌*◌, ◌≤◌, ◌<◌};
ghost use Rattle.automaton.specs.Next.{next_of};
ghost use Rattle.times.specs.Queues.{pending_of};
ghost use Rattle.run_outcomes.specs.Told.{tell, is_instance, told_from, told_of, oldest_told};
ghost use Rattle.run_outcomes.specs.Way.{Awaits, by_choice, by_told, way_on};

use automaton::{Next, chosen_of, next_of};
use plan::Automaton;
use run_window::Entry;
use times::{Instance, Progress, Told};

// ---- an outcome is stored

// The instance, with its outcome.
fn tell(x: Instance, o: u8) -> Instance
    ensures { result ≡ tell x o }
{
    Instance {
        told: Told::Outcome(o),
        ..x
    }
}

// Whether it is the instance of the node (position, node).
fn is_instance(x: Instance, position: u32, node: u8) -> bool
    ensures { result ≡ is_instance position node x }
{
    x.position == position && x.node == node
}

// The outcome o of the instance (position, node), among the `count` pending ones from place `from` on.
fn told_from(
    mut pending: [Instance; 128],
    from: usize,
    count: u8,
    position: u32,
    node: u8,
    o: u8,
) -> [Instance; 128]
    requires { from + count ≤ 128 }
    ensures { result ≡ told_from position node o from count pending }
{
    for i in from..from + usize::from(count) {
        let x = pending[i];
        if is_instance(x, position, node) {
            pending[i] = tell(x, o);
            return pending;
        }
    }
    pending
}

// Where the behaviour stands when the outcome o of the event node at an entry is known.
pub fn told_of(g: Progress, e: u8, x: Entry, o: u8) -> Progress
    requires { (e < 16) × (pending_of g e ≤ 8) }
    ensures { result ≡ told_of g e x o }
{
    let i = usize::from(e);
    Progress {
        pending: told_from(g.pending, 8 * i, g.lengths[i], x.position, x.node, o),
        ..g
    }
}

// What was reported of the oldest pending instance of event e.
fn oldest_told(g: Progress, e: u8) -> Told
    requires { e < 16 }
    ensures { result ≡ oldest_told g e }
{
    let i = usize::from(e);
    if 0 < g.lengths[i] {
        let x = g.pending[8 * i];
        x.told
    } else {
        Told::Nothing
    }
}

// ---- the way on

// The transition of an outcome of event e, if the state has one.
fn by_choice(chosen: Option<u16>, e: u8) -> Next
    ensures { result ≡ by_choice chosen e }
{
    match chosen {
        None => Next::Waits(e),
        Some(t) => Next::Goes(t),
    }
}

// By what was reported of the oldest instance of event e.
fn by_told(a: Automaton, s: u8, e: u8, told: Told) -> Next
    requires { a.count ≤ 256 }
    ensures { result ≡ by_told a s e told }
{
    match told {
        Told::Nothing => {
            return Next::Waits(e);
        }
        Told::Outcome(o) => {
            let chosen = chosen_of(a, s, e, o);
            return by_choice(chosen, e);
        }
    }
}

// "further ones while their outcomes are already reported": the way on, if there is one.
pub fn way_on(a: Automaton, g: Progress) -> Next
    requires { Awaits a }
    ensures { result ≡ way_on a g (next_of a g.state) }
{
    let next = next_of(a, g.state);
    match next {
        Next::Ended => {
            return Next::Ended;
        }
        Next::Goes(_) => {
            return Next::Ended;
        }
        Next::Waits(e) => {
            let told = oldest_told(g, e);
            return by_told(a, g.state, e, told);
        }
    }
}

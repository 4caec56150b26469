// Number 24: every state has a path to a final one.
ghost use Rattle.std.specs.Prelude.{false, ◌≡◌};
ghost use Rattle.automaton.specs.Number.{to_final};
ghost use Rattle.automaton.specs.Inner.Counts.{InRange};
ghost use Rattle.automaton.specs.Inner.Passes.{Backing};
ghost use Rattle.automaton_counts.specs.Inner.Emits.{Finals};

use plan::{Automaton, is_final};
use std::array;

fn finals_of(finals: u64) -> [bool; 64]
    ensures { Finals finals result }
{
    array::from_fn(|s| is_final(finals, s))
}

// One pass back over the transitions: a transition to a marked state marks the state it leaves. Whether the pass marked one.
fn mark_back(a: &Automaton, done: &mut [bool; 64]) -> bool
    requires in_range { InRange a.now }
    requires backing { Backing a.now done.old 0 done.old false }
    ensures { Backing a.now done.old a.now.count done.new result }
{
    let mut changed = false;
    for t in &a.moves[..usize::from(a.count)] {
        let from = usize::from(t.from);
        if !done[from] && done[usize::from(t.to)] {
            done[from] = true;
            changed = true;
        }
    }
    changed
}

// The states with a path to a final one: back from the final states, until a pass over the transitions marks nothing.
pub(crate) fn to_final(a: &Automaton) -> [bool; 64]
    requires { InRange a.now }
    ensures { result ≡ to_final a.now }
{
    let mut done = finals_of(a.finals);
    while mark_back(a, &mut done) {}
    done
}

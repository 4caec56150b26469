// Numbers 24 to 26: every state has a path to a final one, and the events pending along every path from the initial state.
#![tactic(auto)]

ghost use Rattle.std.specs.Prelude.{◌≡◌, ℕ, ◌<◌, ◌≤◌, MatchBool};
ghost use Rattle.basis.specs.Inner.Tells.{Tells};
ghost use Rattle.automaton.specs.Tests.{at};
ghost use Rattle.automaton.specs.Number.{way_verdict};
ghost use Rattle.automaton.specs.Inner.Counts.{MoveOk, InRange, Kept, Keeps, Clash, Left, Crowd};
ghost use Rattle.automaton_counts.specs.Inner.Emits.{gives, Within, Unkept, Judged};

pub use crate::counting::Emits;
use crate::counting::{explore, taken};
use crate::final_states::to_final;
use automaton::Explored;
use plan::{Automaton, Fault, Transition, Verdict, is_final};

mod counting;
mod final_states;

// Whether the transition brings the counts of its from-state to those of its to-state.
fn kept(t: &Transition, emits: &Emits, counts: &[u16; 1024]) -> bool
    requires move_ok { MoveOk 64 t.now }
    requires by_index { (k : ℕ) → at counts.now k ≤ 4096 }
    ensures { MatchBool result ((e : ℕ) → e < 16 → Kept (gives emits.now.table) counts.now t.now e) (Unkept (gives emits.now.table) counts.now t.now) }
{
    for e in 0..16usize {
        let g = emits.given(t.output, e);
        let x = taken(t.input, e);
        let was = counts[16 * usize::from(t.from) + e];
        let there = counts[16 * usize::from(t.to) + e];
        if was < x || there + x != was + g {
            return false;
        }
    }
    true
}

fn keeps(a: &Automaton, emits: &Emits, x: &Explored) -> bool
    requires in_range { InRange a.now }
    requires by_index { (k : ℕ) → at x.now.counts k ≤ 4096 }
    ensures { MatchBool result (Keeps a.now (gives emits.now.table) x.now.reached x.now.counts) (Clash a.now (gives emits.now.table) x.now.reached x.now.counts) }
{
    for t in &a.moves[..usize::from(a.count)] {
        if x.reached[usize::from(t.from)] && !kept(t, emits, &x.counts) {
            return false;
        }
    }
    true
}

// Whether something is left at a reached final state.
fn left(a: &Automaton, x: &Explored) -> bool
    requires { (a.now.states ≤ 64) × Within a.now.states x.now.reached }
    ensures { Tells result (Left a.now x.now.reached x.now.counts) }
{
    (0..16 * usize::from(a.states)).any(|k| x.counts[k] > 0
        && x.reached[k / 16]
        && is_final(a.finals, k / 16))
}

// Whether more than 8 of an event are pending at a reached state, of the first `states`.
fn crowded(states: u8, x: &Explored) -> bool
    requires { (states ≤ 64) × Within states x.now.reached }
    ensures { Tells result (Crowd x.now.reached x.now.counts) }
{
    (0..16 * usize::from(states)).any(|k| x.counts[k] > 8 && x.reached[k / 16])
}

// Numbers 25 and 26.
fn pending(a: &Automaton, emits: &Emits) -> Verdict
    requires { InRange a.now }
    ensures { Judged a.now emits.now.table result }
{
    let x = explore(a, emits);
    if !keeps(a, emits, &x) || left(a, &x) {
        return Err(Fault::Unbalanced.at(0));
    }
    if crowded(a.states, &x) {
        return Err(Fault::TooManyPending.at(0));
    }
    Ok(())
}

// Numbers 24 to 26.
pub fn ways(a: Automaton, emits: &Emits) -> Verdict
    requires { InRange a }
    ensures { result ≡ way_verdict a (gives emits.now.table) }
{
    let done = to_final(&a);
    if let Some(s) = (0..usize::from(a.states)).find(|&s| !done[s]) {
        return Err(Fault::NoWayToFinal.at(s));
    }
    pending(&a, emits)
}

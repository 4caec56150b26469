// Numbers 21 to 23, which look at one state at a time, and the whole verdict on the automaton.
#![tactic(auto)]

ghost use Rattle.std.specs.Prelude.{◌≡◌, ◌+◌, ◌<◌, ◌≤◌, Ok};
ghost use Rattle.std.specs.Option.{is_some};
ghost use Rattle.plan.specs.Limits.{InLimits};
ghost use Rattle.automaton.specs.Tests.{at, all};
ghost use Rattle.automaton.specs.Next.{chosen_of};
ghost use Rattle.automaton.specs.Number.{no_way_out, apart, apart_from, branches, serves, state_verdict, way_verdict};
ghost use Rattle.automaton.specs.Inner.Counts.{InRange};
ghost use Rattle.automaton_counts.specs.Inner.Emits.{gives, Few};
ghost use Rattle.automaton_verdict.specs.Inner.Table.{Table};

use automaton::Next;
use automaton_counts::Emits;
use plan::{Automaton, Fault, Input, Kind, Plan, Transition, Verdict, is_final};

// ---- 21

// A final state has no way out.
fn no_way_out(a: &Automaton, s: u8) -> bool
    requires count_bound { a.now.count ≤ 256 }
    requires s_bound { s < 64 }
    ensures { result ≡ no_way_out a.now s }
{
    !is_final(a.finals, usize::from(s)) || matches!(automaton::first_of(*a, s), Next::Ended)
}

// ---- 22

// Two inputs process the same event with different outcomes.
fn apart(m: Input, n: Input) -> bool
    ensures { result ≡ apart m n }
{
    matches!((m, n), (Input::Outcome(e, o), Input::Outcome(f, q)) if e == f && o != q)
}

// The input branches from those of all of the transitions that leave the state.
fn apart_from(m: Input, moves: &[Transition], s: u8) -> bool
    ensures { result ≡ apart_from m moves.now s }
{
    for t in moves {
        if t.from == s && !apart(m, t.input) {
            return false;
        }
    }
    true
}

// Any two transitions of the state branch.
fn branches(a: &Automaton, s: u8) -> bool
    requires { a.now.count ≤ 256 }
    ensures { result ≡ branches a.now s }
{
    let moves = &a.moves[..usize::from(a.count)];
    for (i, t) in moves.iter().enumerate() {
        if t.from == s && !apart_from(t.input, &moves[i + 1..], s) {
            return false;
        }
    }
    true
}

// ---- 23

// The state has a transition for each of n outcomes of the event.
fn serves_all(a: &Automaton, s: u8, e: u8, n: u8) -> bool
    requires { a.now.count ≤ 256 }
    ensures { result ≡ all n (λ q. is_some (chosen_of a.now s e q)) }
{
    (0..n).all(|q| automaton::chosen_of(*a, s, e, q).is_some())
}

// A state that processes an event has a transition for each outcome of it.
fn serves(a: &Automaton, outcomes: &[u8; 16], s: u8) -> bool
    requires { InRange a.now }
    ensures { result ≡ serves a.now (at outcomes.now) s }
{
    match automaton::first_of(*a, s) {
        Next::Waits(e) => serves_all(a, s, e, outcomes[usize::from(e)]),
        _ => true,
    }
}

// Numbers 21 to 23.
fn state_verdict(a: &Automaton, outcomes: &[u8; 16]) -> Verdict
    requires { InRange a.now }
    ensures { result ≡ state_verdict a.now (at outcomes.now) (Ok tt) }
{
    if let Some(s) = (0..a.states).find(|&s| !no_way_out(a, s)) {
        return Err(Fault::WayOutOfFinal.at(usize::from(s)));
    }
    if let Some(s) = (0..a.states).find(|&s| !branches(a, s)) {
        return Err(Fault::ForbiddenBranch.at(usize::from(s)));
    }
    if let Some(s) = (0..a.states).find(|&s| !serves(a, outcomes, s)) {
        return Err(Fault::OutcomeMissing.at(usize::from(s)));
    }
    Ok(())
}

// ---- what the activities emit

// At 16 * activity + event how many nodes of the event the activity has.
pub fn emissions(plan: Plan) -> [u8; 512]
    requires { InLimits plan }
    ensures { Table plan result }
{
    let mut em = [0u8; 512];
    for k in 0..usize::from(plan.activities) {
        let start = 64 * k;
        for node in &plan.nodes[start..start + usize::from(plan.sizes[k])] {
            if let Kind::Event(e) = node.kind {
                em[16 * k + usize::from(e)] += 1;
            }
        }
    }
    em
}

// The verdict on an automaton of events with these outcomes; emits has at 16 * activity + event how many of the event the activity emits.
pub fn automaton(a: Automaton, outcomes: [u8; 16], emits: &[u8; 512]) -> Verdict
    requires in_range { InRange a }
    requires few { Few emits.now }
    ensures { result ≡ state_verdict a (at outcomes) (way_verdict a (gives emits.now)) }
{
    state_verdict(&a, &outcomes)?;
    automaton_counts::ways(a, &Emits { table: *emits })
}

// Reading the automaton: its states and its transitions.
#![tactic(auto)]

ghost use Rattle.std.specs.Prelude.{◌≡◌, ◌≤◌, replicate};
ghost use Rattle.plan.specs.Plan.{past_move};
ghost use Rattle.plan.specs.Moves.{zero_automaton, moves_loop, moves_at, automaton_at};

use plan::fields::{Events, Read};
use plan::{Automaton, Transition};

mod transitions;

pub fn zero_automaton() -> Automaton
    ensures { result ≡ zero_automaton }
{
    Automaton {
        states: 0,
        initial: 0,
        finals: 0,
        count: 0,
        moves: [Transition::ZERO; 256],
    }
}

// The transitions, after the automaton's other parts.
fn moves_loop(
    bytes: &[u8],
    at: usize,
    states: u8,
    initial: u8,
    finals: u64,
    count: u16,
    events: Events,
    activities: u8,
) -> Read<Automaton>
    requires { (count ≤ 256) × (events.count ≤ 16) }
    ensures { result ≡ moves_loop events.count events.outcomes activities bytes.now states initial finals count count at 0 (replicate 256 past_move) }
{
    let mut moves = [Transition::ZERO; 256];
    let mut off = at;
    for i in 0..usize::from(count) {
        let (t, next) = transitions::move_at(bytes, off, states, events, activities)?;
        moves[i] = t;
        off = next;
    }
    let automaton = Automaton {
        states,
        initial,
        finals,
        count,
        moves,
    };
    Ok((automaton, off))
}

// The fields after the initial state.
#[tactic(auto, unfolding(plan::specs::Moves::moves_at))]
fn moves_at(
    bytes: &[u8],
    at: usize,
    states: u8,
    initial: u8,
    events: Events,
    activities: u8,
) -> Read<Automaton>
    requires { events.count ≤ 16 }
    ensures { result ≡ moves_at events.count events.outcomes activities bytes.now states initial at }
{
    let (finals, next) = plan_fields::finals_at(bytes, at, states)?;
    let (count, after) = plan_fields::move_count_at(bytes, next)?;
    moves_loop(
        bytes, after, states, initial, finals, count, events, activities,
    )
}

// The automaton of a plan with these events and activities.
#[tactic(auto, unfolding(plan::specs::Moves::automaton_at))]
pub fn automaton_at(bytes: &[u8], at: usize, events: Events, activities: u8) -> Read<Automaton>
    requires { events.count ≤ 16 }
    ensures { result ≡ automaton_at events.count events.outcomes activities bytes.now at }
{
    let (states, next) = plan_fields::count_at(bytes, at, 64)?;
    let (initial, after) = plan_fields::name_at(bytes, next, states)?;
    moves_at(bytes, after, states, initial, events, activities)
}

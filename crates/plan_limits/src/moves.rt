// The limits of the automaton of a plan.
ghost use Rattle.std.specs.Prelude.{◌≡◌, ◌≤◌, ◌^◌, ltb};
ghost use Rattle.plan_limits.specs.Limits.{input_names, output_names, move_in_limits, moves_in_limits, states_in_limits, automaton_in_limits};

use plan::{Automaton, Input, Output, Transition};

// What a transition processes names an event and an outcome of it.
fn input_names(events: u8, outcomes: [u8; 16], input: Input) -> bool
    ensures { result ≡ input_names events outcomes input }
{
    match input {
        Input::Nothing => true,
        Input::Outcome(e, o) => e < events && outcomes.get(usize::from(e)).is_some_and(|&n| o < n),
    }
}

// What a transition emits names an activity.
fn output_names(activities: u8, output: Output) -> bool
    ensures { result ≡ output_names activities output }
{
    match output {
        Output::Empty => true,
        Output::Activity(a) => a < activities,
    }
}

#[tactic(auto, unfolding(crate::specs::Limits::move_in_limits))]
pub fn move_in_limits(
    states: u8,
    activities: u8,
    events: u8,
    outcomes: [u8; 16],
    t: Transition,
) -> bool
    ensures { result ≡ move_in_limits states activities events outcomes t }
{
    if t.from >= states {
        return false;
    }
    if t.to >= states {
        return false;
    }
    let input = t.input;
    if !input_names(events, outcomes, input) {
        return false;
    }
    let output = t.output;
    output_names(activities, output)
}

fn moves_in_limits(
    states: u8,
    activities: u8,
    events: u8,
    outcomes: [u8; 16],
    count: u16,
    moves: [Transition; 256],
) -> bool
    requires { count ≤ 256 }
    ensures { result ≡ moves_in_limits states activities events outcomes count moves }
{
    moves[..usize::from(count)].iter().all(|&t| move_in_limits(
        states, activities, events, outcomes, t,
    ))
}

// No final bit stands past the last state.
fn finals_in_limits(states: u8, finals: u64) -> bool
    requires { states ≤ 64 }
    ensures { result ≡ ltb finals (2 ^ states) }
{
    if states == 64 {
        return true;
    }
    finals >> states == 0
}

// The numbers of the automaton, up to its transitions.
pub fn states_in_limits(states: u8, initial: u8, finals: u64) -> bool
    ensures { result ≡ states_in_limits states initial finals }
{
    if states < 1 {
        return false;
    }
    if states > 64 {
        return false;
    }
    if initial >= states {
        return false;
    }
    finals_in_limits(states, finals)
}

#[tactic(auto, unfolding(crate::specs::Limits::automaton_in_limits))]
pub fn automaton_in_limits(
    activities: u8,
    events: u8,
    outcomes: [u8; 16],
    automaton: Automaton,
) -> bool
    ensures { result ≡ automaton_in_limits activities events outcomes automaton }
{
    if !states_in_limits(automaton.states, automaton.initial, automaton.finals) {
        return false;
    }
    if automaton.count > 256 {
        return false;
    }
    let moves = automaton.moves;
    moves_in_limits(
        automaton.states,
        activities,
        events,
        outcomes,
        automaton.count,
        moves,
    )
}

// Reading one transition: its map, its states, what it processes and what it emits.
ghost use Rattle.std.specs.Prelude.{◌≡◌, ◌≤◌};
ghost use Rattle.plan.specs.Moves.{outcome_at, input_at, output_at, move_with, move_from, move_at};

use plan::fields::{Events, Read};
use plan::{Fault, Input, Output, Transition};

fn outcome_at(bytes: &[u8], at: usize, events: Events) -> Read<Input>
    requires { events.count ≤ 16 }
    ensures { result ≡ outcome_at events.count events.outcomes bytes.now at }
{
    let (event, next) = plan_fields::name_at(bytes, at, events.count)?;
    let many = events.outcomes[usize::from(event)];
    let (outcome, end) = plan_fields::name_at(bytes, next, many)?;
    Ok((Input::Outcome(event, outcome), end))
}

// What a transition whose map is m processes.
#[tactic(auto, unfolding(plan::specs::Moves::input_at))]
fn input_at(bytes: &[u8], at: usize, m: u8, events: Events) -> Read<Input>
    requires { events.count ≤ 16 }
    ensures { result ≡ input_at m events.count events.outcomes bytes.now at }
{
    if m % 2 == 1 {
        return outcome_at(bytes, at, events);
    }
    Ok((Input::Nothing, at))
}

// What a transition whose map is m emits.
#[tactic(auto, unfolding(plan::specs::Moves::output_at))]
fn output_at(bytes: &[u8], at: usize, m: u8, activities: u8) -> Read<Output>
    ensures { result ≡ output_at m activities bytes.now at }
{
    if m / 2 % 2 == 1 {
        let (activity, end) = plan_fields::name_at(bytes, at, activities)?;
        return Ok((Output::Activity(activity), end));
    }
    Ok((Output::Empty, at))
}

// The fields after a transition's states.
#[tactic(auto, unfolding(plan::specs::Moves::move_with))]
fn move_with(
    bytes: &[u8],
    at: usize,
    m: u8,
    from: u8,
    to: u8,
    events: Events,
    activities: u8,
) -> Read<Transition>
    requires { events.count ≤ 16 }
    ensures { result ≡ move_with events.count events.outcomes activities bytes.now m from to at }
{
    let (input, next) = input_at(bytes, at, m, events)?;
    let (output, end) = output_at(bytes, next, m, activities)?;
    let t = Transition {
        from,
        to,
        input,
        output,
    };
    Ok((t, end))
}

// The fields after a transition's map.
#[tactic(auto, unfolding(plan::specs::Moves::move_from))]
fn move_from(
    bytes: &[u8],
    at: usize,
    m: u8,
    states: u8,
    events: Events,
    activities: u8,
) -> Read<Transition>
    requires { events.count ≤ 16 }
    ensures { result ≡ move_from states events.count events.outcomes activities bytes.now m at }
{
    let (from, next) = plan_fields::name_at(bytes, at, states)?;
    let (to, after) = plan_fields::name_at(bytes, next, states)?;
    move_with(bytes, after, m, from, to, events, activities)
}

#[tactic(auto, unfolding(plan::specs::Moves::move_at))]
pub(crate) fn move_at(
    bytes: &[u8],
    at: usize,
    states: u8,
    events: Events,
    activities: u8,
) -> Read<Transition>
    requires { events.count ≤ 16 }
    ensures { result ≡ move_at states events.count events.outcomes activities bytes.now at }
{
    let (m, next) = plan_fields::byte_in(bytes, at, 0, 4, Fault::Map)?;
    move_from(bytes, next, m, states, events, activities)
}

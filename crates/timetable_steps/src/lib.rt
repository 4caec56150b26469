// What a turn of the table does, looked up once for each state and outcome.
#![tactic(auto)]

ghost use Rattle.std.specs.Prelude.{◌≡◌, ◌+◌, ◌*◌, ◌≤◌, ◌<◌};
ghost use Rattle.plan.specs.Limits.{InLimits};
ghost use Rattle.timetable_steps.specs.Inner.Steps.{Named, Below, chosen_step, heard_step, step_of, column_of, heard_as, Looks, output_of, place_of, Emits};

use automaton::{Next, chosen_of, next_of};
use plan::{Activity, Automaton, Output, Plan, Transition};
use run_path::emitted;

// What a turn does.
#[derive(Clone, Copy)]
pub enum Step {
    // the path ended
    Ends,
    // the event is awaited, and no outcome byte is there
    Waits(u8),
    // the outcome byte is none of the event's
    Lacks,
    // the transition, and whether the outcome byte was taken for it
    Takes(Transition, bool),
}

// The transition of an outcome of event e, if the state has one.
fn chosen_step(a: Automaton, e: u8, chosen: Option<u16>) -> Step
    requires { Below chosen }
    ensures { result ≡ chosen_step a e chosen }
{
    match chosen {
        None => {
            return Step::Waits(e);
        }
        Some(t) => {
            let i = usize::from(t);
            let m = a.moves[i];
            return Step::Takes(m, true);
        }
    }
}

// At a state that waits for event e, with the next outcome byte, if there is one: "55 for an outcome the event lacks".
fn heard_step(a: Automaton, outcomes: [u8; 16], s: u8, e: u8, heard: Option<u8>) -> Step
    requires { (a.count ≤ 256) × (e < 16) }
    ensures { result ≡ heard_step a outcomes s e heard }
{
    match heard {
        None => {
            return Step::Waits(e);
        }
        Some(o) => {
            let i = usize::from(e);
            if o < outcomes[i] {
                let chosen = chosen_of(a, s, e, o);
                return chosen_step(a, e, chosen);
            }
            return Step::Lacks;
        }
    }
}

// What a turn does at state s, handed an outcome byte or none.
pub fn step_of(a: Automaton, outcomes: [u8; 16], s: u8, heard: Option<u8>) -> Step
    requires { Named a s }
    ensures { result ≡ step_of a outcomes s heard }
{
    let next = next_of(a, s);
    match next {
        Next::Ended => {
            return Step::Ends;
        }
        Next::Goes(t) => {
            let i = usize::from(t);
            let m = a.moves[i];
            return Step::Takes(m, false);
        }
        Next::Waits(e) => {
            return heard_step(a, outcomes, s, e, heard);
        }
    }
}

// ---- the table of steps

// No event has more than 8 outcomes: every byte above 7 is lacking.
fn column_of(heard: Option<u8>) -> usize
    ensures { (result ≡ column_of heard) × (result < 10) }
{
    match heard {
        None => {
            return 9;
        }
        Some(o) => {
            if o < 8 {
                return usize::from(o);
            }
            return 8;
        }
    }
}

// Where the step of state s stands.
pub fn index_of(s: u8, heard: Option<u8>) -> usize
    ensures value { result ≡ 10 * s + column_of heard }
    ensures upper_bound { result < 10 * s + 10 }
{
    10 * usize::from(s) + column_of(heard)
}

fn heard_as(column: u8) -> Option<u8>
    ensures { result ≡ heard_as column }
{
    if column < 9 {
        return Some(column);
    }
    None
}

// The steps of every state.
pub fn steps_of(plan: Plan) -> [Step; 640]
    requires { InLimits plan }
    ensures { Looks plan result }
{
    let automaton = plan.automaton;
    let outcomes = plan.outcomes;
    let mut steps = [Step::Ends; 640];
    for k in 0..10 * usize::from(automaton.states) {
        let heard = heard_as((k % 10) as u8);
        let step = step_of(automaton, outcomes, (k / 10) as u8, heard);
        steps[k] = step;
    }
    steps
}

// ---- the table of activities

// What a step emits; one that closes the table, nothing.
pub fn output_of(step: Step) -> Output
    ensures { result ≡ output_of step }
{
    match step {
        Step::Ends => {
            return Output::Empty;
        }
        Step::Waits(_) => {
            return Output::Empty;
        }
        Step::Lacks => {
            return Output::Empty;
        }
        Step::Takes(m, _) => {
            let output = m.output;
            return output;
        }
    }
}

// Where the activity stands; the empty one past the last.
pub fn place_of(output: Output) -> usize
    ensures { (result ≡ place_of output) × (result < 33) }
{
    match output {
        Output::Empty => {
            return 32;
        }
        Output::Activity(a) => {
            if a < 32 {
                return usize::from(a);
            }
            return 32;
        }
    }
}

// The activities, copied out of a plan.
pub fn activities_of(plan: Plan) -> [Activity; 33]
    requires { InLimits plan }
    ensures { Emits plan result }
{
    let empty = emitted(plan, Output::Empty);
    let mut all = [empty; 33];
    for a in 0..plan.activities {
        let activity = emitted(plan, Output::Activity(a));
        all[usize::from(a)] = activity;
    }
    all
}

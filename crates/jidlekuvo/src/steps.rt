// What a call does to a run that is given as numbers, and the answer that it then gets.
ghost use Rattle.std.specs.Prelude.{map, ◌≡◌, ◌<◌, None};
ghost use Rattle.plan.specs.Plan.{outcomes_of};
ghost use Rattle.run_loading.specs.Inner.Loading.{Loads};
ghost use Rattle.run.specs.declared.Effect.{Effect};
ghost use Rattle.run.specs.declared.Reply.{Reply};
ghost use Rattle.run.specs.Calls.{reading_of};
ghost use Rattle.run.specs.Inner.Calls.{halt_after, reply_after};
ghost use Rattle.run.specs.Inner.Effects.{sought_by, found_by, place_of, acted, rests_as, run_at};
ghost use Rattle.held.specs.Held.{entry_of, held_entry, plan_of};
ghost use Rattle.held_checks.specs.Inner.Checks.{run_by, all_but_nodes, check_nodes_last};
ghost use Rattle.jidlekuvo.specs.Replies.{told_of};
ghost use Rattle.jidlekuvo.specs.Inner.Steps.{effect_in, stepped_of, stepped_by, stepped_with, Carries, window_by, carried_by};

use crate::{Stepped, replies};
use held::{HeldEntry, HeldPlan, HeldRest};
use run::{Call, Effect, Reply, Stop};
use run_checks::{Moment, Objection};
use run_loading::Loading;
use run_window::{Entry, Found, WINDOW};
use times::Progress;

// The answer of a call that leaves every byte of the run.
fn kept(rest: HeldRest, told: Reply) -> Stepped
    ensures { result ≡ record { rest = rest; reply = told_of told } }
{
    Stepped {
        rest,
        reply: replies::told(told),
    }
}

// The answer of a call that changes the run, from the parts of the run after it; its window has been made fresh.
fn written(
    m: Moment,
    window: [HeldEntry; WINDOW],
    progress: Progress,
    halt: Option<Stop>,
    told: Reply,
) -> Stepped
    ensures { result ≡ stepped_with m window progress halt told }
{
    Stepped {
        rest: held::rest_with(m.psi, m.slack, m.t, window, progress, halt),
        reply: replies::told(told),
    }
}

// The window after a call that changes the run.
fn window_after(rest: HeldRest, effect: Effect) -> [HeldEntry; WINDOW]
    requires { Carries rest effect }
    ensures { result ≡ map held_entry (window_by (map entry_of rest.window) effect) }
{
    let mut window = held::places::fresh(rest);
    if let Effect::Stores(i, e, _) = effect {
        window[i] = HeldEntry::from(e);
    }
    window
}

// The answer of an outcome, with what was loaded after it.
fn learnt(m: Moment, loading: Loading) -> Stepped
    ensures { result ≡ stepped_by m loading.window loading.progress (halt_after loading.failure) (reply_after loading.failure) }
{
    let failure = loading.failure;
    let window = loading.window;
    let progress = loading.progress;
    let psi = m.psi;
    let last = m.t;
    let halt = run::learning::halt_after(failure);
    let rest = held::rest_of(psi, m.slack, last, window, progress, halt);
    let told = run::learning::reply_after(failure);
    let reply = replies::told(told);
    Stepped { rest, reply }
}

// The outcome o of event e, of the node at place i. Only here is a plan made of the numbers, and a window.
pub fn learns(
    m: Moment,
    held: HeldPlan,
    rest: HeldRest,
    progress: Progress,
    i: usize,
    x: Entry,
    e: u8,
    o: u8,
) -> Stepped
    requires { Loads (plan_of held) progress × (i < 512) × (e < held.events) × (o < outcomes_of (plan_of held) e) }
    ensures { result ≡ stepped_of (acted (run_at (plan_of held) progress (map entry_of rest.window) m None) m.t (Effect.Learns i x e o)) }
{
    let held_window = rest.window;
    let plan = held::plan_upto(held);
    let free = run_window::vacant();
    let mut window = held::places::window_of(held_window);
    window[i] = free;
    let loading = run::learning::load(plan, progress, window, x, e, o);
    learnt(m, loading)
}

// "It says done if the path ended in a final state and the window is empty, otherwise wait when nothing is due."
fn at_rest(finals: u64, state: u8, rest: HeldRest) -> Reply
    requires { state < 64 }
    ensures { result ≡ rests_as finals state (map entry_of rest.window) }
{
    if plan::is_final(finals, usize::from(state)) && held_checks::places::is_empty(rest) {
        return Reply::Done;
    }
    Reply::Wait
}

// ---- what a call does to the run

// `held_checks::all_but_nodes` and these two have two callers each, `step` and `outcome_effect`, and so stand by themselves: in one
// function the arrays that they index would be copied at its entry too. No more is made of the numbers than a call needs.

// What the checks say, with the nodes taken to be within the limits.
pub fn check_on(
    limits: bool,
    plan: HeldPlan,
    rest: HeldRest,
    c: Call,
) -> Result<Option<Found>, Objection>
    requires { limits ≡ all_but_nodes (run_by plan rest) }
    ensures { result ≡ check_nodes_last (run_by plan rest) (reading_of c) (sought_by rest.psi c) }
{
    let m = held_checks::moment_of(rest, c);
    let sought = run::effects::sought_by(m.psi, c);
    let seen = held_checks::look(limits, rest, plan, m, sought);
    let halt = held::halts::halt_of(rest.halt);
    held_checks::check_call(limits, halt, m, seen)
}

// What the call then does.
pub fn effect_on(plan: HeldPlan, c: Call, check: Result<Option<Found>, Objection>) -> Effect
    requires { place_of (found_by check) < 2_048 }
    ensures { result ≡ effect_in plan c check }
{
    let k = run::effects::place_of(check);
    let nodes = held_checks::plans::nodes_in_limits(plan, k);
    let kind = nodes.good.then_some(nodes.kind);
    held_checks::effect(c, check, kind, plan.outcomes)
}

// Carries out every effect but `Learns`: only `outcome` has that, and the room on the stack for it.
pub fn carried(finals: u64, rest: HeldRest, c: Call, effect: Effect) -> Stepped
    requires { Carries rest effect }
    ensures { result ≡ carried_by finals rest c effect }
{
    let (halt, told) = match effect {
        Effect::Stays(told) => return kept(rest, told),
        Effect::Stops(s) => (Some(s), Reply::Stopped(s)),
        Effect::Rests => (None, at_rest(finals, rest.progress.state, rest)),
        Effect::Stores(_, _, told) => (None, told),
        Effect::Learns(_, _, _, _) => return kept(rest, Reply::Taken), // never: `Carries`
    };
    let m = held_checks::moment_of(rest, c);
    let window = window_after(rest, effect);
    let progress = Progress::from(rest.progress);
    written(m, window, progress, halt, told)
}

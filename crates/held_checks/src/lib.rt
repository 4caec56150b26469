// The checks of a call on a run that is given as numbers: what run::checks does to a run, without making one. Plan and rest are handed on
// whole: a function that indexes an array copies it, and one that only hands it on does not.
#![tactic(auto)]

ghost use Rattle.std.specs.Prelude.{true, map, ◌≡◌, Ok, Err};
ghost use Rattle.run_window.specs.Inner.Search.{SoughtInTime, seen_of};
ghost use Rattle.run_checks.specs.Order.{Timed, is_below, reading_then};
ghost use Rattle.held.specs.Held.{entry_of, node_of};
ghost use Rattle.held_checks.specs.Inner.Checks.{moment_at, run_by, limits_by, all_but_nodes, ScannedIn, check_seen, effect_told};

use held::{HeldPlan, HeldRest};
use plan::Kind;
use run::{Call, Checked, Effect, Reply};
use run_checks::{Moment, Objection, Refusal, Stop};
use run_window::{Found, Scan, Seen, Sought};
use time::{Clock, HORIZON};
use times::Progress;

pub mod places; // the window
pub mod plans; // the plan

// When a call comes.
pub fn moment_of(rest: HeldRest, c: Call) -> Moment
    ensures { result ≡ moment_at rest c }
{
    let psi = rest.psi;
    let last = rest.last;
    let t = run::effects::reading_of(c);
    Moment {
        psi,
        slack: rest.slack,
        last,
        t,
    }
}

// ---- 50

// The run, where it is known of plan, progress and window whether they are within the limits.
fn run_in_limits(
    good: bool,
    stands: bool,
    holds: bool,
    psi: Clock,
    slack: u64,
    halt: Option<Stop>,
) -> bool
    ensures { result ≡ limits_by good stands holds psi slack halt }
{
    if !good {
        return false;
    }
    if !stands {
        return false;
    }
    if !holds {
        return false;
    }
    if psi.0 > HORIZON {
        return false;
    }
    if !run_checks::bounds::slack_in_limits(slack) {
        return false;
    }
    run_checks::bounds::halt_in_limits(halt)
}

// The whole run but the nodes of its plan.
pub fn all_but_nodes(plan: HeldPlan, rest: HeldRest) -> bool
    ensures { result ≡ all_but_nodes (run_by plan rest) }
{
    let outcomes = plan.outcomes;
    let sizes = plan.sizes;
    let psi = rest.psi;
    let held_progress = rest.progress;
    let held_halt = rest.halt;
    let progress = Progress::from(held_progress);
    let halt = held::halts::halt_of(held_halt);
    let good = plans::numbers_in_limits(plan);
    let stands = run_limits::progress::progress_within(
        plan.resources,
        plan.events,
        plan.states,
        outcomes,
        progress,
    );
    let holds = places::window_in_limits(plan.activities, sizes, rest);
    run_in_limits(good, stands, holds, psi, rest.slack, halt)
}

// ---- what a call finds

// As long as no start ties; outside the limits nothing is looked for.
fn scan(limits: bool, rest: HeldRest, m: Moment, sought: Sought) -> Scan
    requires { limits ≡ true → Timed m (map entry_of rest.window) × SoughtInTime sought }
    ensures { ScannedIn limits m sought (map entry_of rest.window) result }
{
    if !limits {
        return Scan::Untied(Seen {
            overdue: None,
            late: None,
            sought: None,
        });
    }
    let psi = m.psi;
    let t = m.t;
    places::scan(rest, psi, m.slack, t, sought)
}

// Of those that are overdue, of those that are late and of what is sought, the first in the order of ties.
pub fn look(limits: bool, rest: HeldRest, plan: HeldPlan, m: Moment, sought: Sought) -> Seen
    requires { limits ≡ true → Timed m (map entry_of rest.window) × SoughtInTime sought }
    ensures { limits ≡ true → result ≡ seen_of (map node_of plan.nodes) m.psi m.slack m.t sought (map entry_of rest.window) }
{
    let scanned = scan(limits, rest, m, sought);
    match scanned {
        Scan::Untied(seen) => seen,
        Scan::Tied => {
            let psi = m.psi;
            let t = m.t;
            places::look_by_rank(rest, plan, psi, m.slack, t, sought)
        }
    }
}

// ---- what the checks say

// 51: "reading below the last one"; then 42, then 41.
fn check_reading(m: Moment, seen: Seen) -> Result<Option<Found>, Objection>
    ensures { result ≡ reading_then (is_below m) seen.overdue seen.late Err (Ok seen.sought) }
{
    if m.t.0 < m.last.0 {
        return Err(Objection::Refuses(Refusal::ReadingBelow));
    }
    run_checks::check_seen(seen)
}

// 50, and the stop that a run keeps; then the others.
pub fn check_call(
    limits: bool,
    halt: Option<Stop>,
    m: Moment,
    seen: Seen,
) -> Result<Option<Found>, Objection>
    ensures { result ≡ check_seen limits halt m seen }
{
    if !limits {
        return Err(Objection::Refuses(Refusal::OutOfLimits));
    }
    if let Some(s) = halt {
        return Err(Objection::Keeps(s));
    }
    check_reading(m, seen)
}

// What the call does; 50 where a node of the plan lies outside the limits.
pub fn effect(
    c: Call,
    check: Result<Option<Found>, Objection>,
    kind: Option<Kind>,
    outcomes: [u8; 16],
) -> Effect
    ensures { result ≡ effect_told c check kind outcomes }
{
    let Some(kind) = kind else {
        return Effect::Stays(Reply::Refused(Refusal::OutOfLimits));
    };
    let most = run::effects::outcomes_for(kind, outcomes);
    run::effects::effect_of(c, Checked { check, kind, most })
}

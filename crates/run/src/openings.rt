// "An opening gives a plan, Ψ, a slack of 1 to 1,000,000, and one availability, in specified time, for each resource."
ghost use Rattle.std.specs.Prelude.{false, ◌≡◌, length};
ghost use Rattle.plan.specs.Limits.{InLimits};
ghost use Rattle.run_opening.specs.Given.{any_above};
ghost use Rattle.run.specs.Opening.{uncalled, zero_run, unopened, after_first, open_plan};
ghost use Rattle.run.specs.Inner.Calls.{first_path};

use crate::{Opened, Opening, Run, Unopened, bounds};
use plan::Plan;
use run_loading::{Failure, Loading};
use run_window::Entry;
use time::{Clock, Specified};
use times::Progress;

// ---- the run at its opening

// "0 at opening" is the last reading.
fn uncalled(
    plan: Plan,
    psi: Clock,
    slack: u64,
    progress: Progress,
    window: [Entry; Run::WINDOW],
) -> Run
    ensures { result ≡ uncalled plan psi slack progress window }
{
    Run {
        plan,
        psi,
        slack,
        progress,
        window,
        last: Clock(0),
        halt: None,
    }
}

// "A refused opening hands back a run of zeros"
fn zero_run() -> Run
    ensures { result ≡ zero_run }
{
    let plan = plan_read::zero_plan();
    let progress = run_opening::at_first([Specified(0); 16], 0);
    let free = run_window::vacant();
    let window = [free; Run::WINDOW];
    uncalled(plan, Clock(0), 0, progress, window)
}

pub fn unopened(u: Unopened) -> Opened
    ensures { result ≡ unopened u }
{
    let run = zero_run();
    Opened {
        opening: Opening::Refused(u),
        run,
    }
}

// ---- the opening

// What loading the first path answers: "then 44, 43 as refusals".
fn after_first(plan: Plan, psi: Clock, slack: u64, loading: Loading) -> Opened
    ensures { result ≡ after_first loading.failure (uncalled plan psi slack loading.progress loading.window) }
{
    let failure = loading.failure;
    match failure {
        None => {
            let progress = loading.progress;
            let window = loading.window;
            let run = uncalled(plan, psi, slack, progress, window);
            return Opened {
                opening: Opening::Opened,
                run,
            };
        }
        Some(Failure::Full) => {
            return unopened(Unopened::Full);
        }
        Some(Failure::Beyond) => {
            return unopened(Unopened::Beyond);
        }
    }
}

// 33, then the first path.
fn first_path(plan: Plan, psi: Clock, slack: u64, ts: &[u64]) -> Opened
    requires in_limits { InLimits plan }
    requires ts_len { length ts.now ≡ plan.resources }
    requires ts_value { any_above ts.now ≡ false }
    ensures { result ≡ first_path plan psi slack ts.now }
{
    let short = run_opening::short_from(plan, slack);
    match short {
        Some(a) => {
            return unopened(Unopened::Short(a));
        }
        None => {
            let available = run_opening::given(ts);
            let progress = run_opening::at_first(available, plan.automaton.initial);
            let loading = run_loading::first(plan, progress);
            return after_first(plan, psi, slack, loading);
        }
    }
}

// "Opening checks run 30 to 33, then 44, 43 as refusals."
pub fn open_plan(plan: Plan, psi: Clock, slack: u64, ts: &[u64]) -> Opened
    requires { InLimits plan }
    ensures { result ≡ open_plan plan psi slack ts.now }
{
    let resources = plan.resources as usize;
    if ts.len() != resources {
        return unopened(Unopened::Availabilities);
    }
    if psi.0 > Run::HORIZON {
        return unopened(Unopened::Time);
    }
    if run_opening::any_above(ts) {
        return unopened(Unopened::Time);
    }
    if !bounds::slack_in_limits(slack) {
        return unopened(Unopened::Slack);
    }
    first_path(plan, psi, slack, ts)
}

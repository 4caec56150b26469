// "50 a run in which a stored count, number or time lies outside this paper's or its plan's limits".
ghost use Rattle.std.specs.Prelude.{◌≡◌};
ghost use Rattle.plan_limits.specs.Limits.{in_limits};
ghost use Rattle.run.specs.Limits.{run_in_limits};
ghost use Rattle.run.specs.Inner.Checks.{stored_in_limits};

use crate::Run;
pub use run_checks::bounds::slack_in_limits;

// Where the behaviour stands, the window and the stop.
fn stored_in_limits(run: Run) -> bool
    ensures { result ≡ stored_in_limits run }
{
    let plan = run.plan;
    run_limits::progress_in_limits(plan, run.progress)
        && run_limits::places::window_in_limits(plan.activities, plan.sizes, run.window)
        && run_checks::bounds::halt_in_limits(run.halt)
}

// The whole run, where its plan is known to be `good` or not; its last reading is any number.
pub fn run_in_limits(good: bool, run: Run) -> bool
    requires { good ≡ in_limits run.plan }
    ensures { result ≡ run_in_limits run }
{
    good && run.psi.0 <= Run::HORIZON && slack_in_limits(run.slack) && stored_in_limits(run)
}

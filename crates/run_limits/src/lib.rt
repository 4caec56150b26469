// The limits of what a run stores beside its plan (number 50): where its behaviour stands, and its window.
#![tactic(auto)]

ghost use Rattle.std.specs.Prelude.{◌≡◌};
ghost use Rattle.run_limits.specs.Progress.{progress_in_limits};

pub mod places;
pub mod progress;

use plan::Plan;
use times::Progress;

// Where a behaviour of the plan stands.
pub fn progress_in_limits(plan: Plan, progress: Progress) -> bool
    ensures { result ≡ progress_in_limits plan progress }
{
    let outcomes = plan.outcomes;
    progress::progress_within(
        plan.resources,
        plan.events,
        plan.automaton.states,
        outcomes,
        progress,
    )
}

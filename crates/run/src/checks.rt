// "Order at a call: 50, kept stop, 51, 42, 41, 52 to 55.": the parts of a run that the checks need.
ghost use Rattle.std.specs.Prelude.{true, ◌≡◌};
ghost use Rattle.run_window.specs.Inner.Search.{SoughtInTime};
ghost use Rattle.run.specs.Limits.{run_in_limits};
ghost use Rattle.run.specs.Inner.Effects.{sought_by, checked_of, effect_of};

use crate::{Call, Checked, Effect, Run, bounds, effects};
use run_checks::Moment;
use run_window::Sought;
use time::Clock;

// The plan is copied out of the run once, for its limits and for the node that was found.
fn check_call(run: Run, t: Clock, sought: Sought) -> Checked
    requires { run_in_limits run ≡ true → SoughtInTime sought }
    ensures { result ≡ checked_of run t sought }
{
    let plan = run.plan;
    let good = plan_limits::in_limits(plan);
    let limits = bounds::run_in_limits(good, run);
    let halt = run.halt;
    let m = Moment {
        psi: run.psi,
        slack: run.slack,
        last: run.last,
        t,
    };
    let window = run.window;
    let nodes = plan.nodes;
    let check = run_checks::check_call(limits, halt, m, window, nodes, sought);
    let k = effects::place_of(check);
    let kind = plan.nodes[k].kind;
    let most = effects::outcomes_for(kind, plan.outcomes);
    Checked { check, kind, most }
}

// What a call with the reading t does to a run.
pub fn effect_at(run: Run, t: Clock, c: Call) -> Effect
    ensures { result ≡ effect_of c (checked_of run t (sought_by run.psi c)) }
{
    let checked = check_call(run, t, effects::sought_by(run.psi, c));
    effects::effect_of(c, checked)
}

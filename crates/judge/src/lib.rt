// The whole verdict on bytes: reading, then the activities in order, then the automaton.
#![tactic(auto)]

ghost use Rattle.std.specs.Prelude.{◌≡◌};
ghost use Rattle.plan.specs.Limits.{InLimits};
ghost use Rattle.judge.specs.Judge.{refused_plan, judge_of};
ghost use Rattle.judge.specs.Inner.Judge.{plan_verdict};

use plan::{FaultAt, Plan, PlanRead, Verdict};

// A refused plan: the fault and its place, and a plan of zeros.
fn refused_plan(fault: FaultAt) -> PlanRead
    ensures { result ≡ refused_plan fault.fault fault.place }
{
    PlanRead {
        verdict: Err(fault),
        plan: plan_read::zero_plan(),
    }
}

// The verdict on a plan that was read.
fn plan_verdict(plan: Plan) -> Verdict
    requires { InLimits plan }
    ensures { result ≡ plan_verdict plan }
{
    activity::activities(plan)?;
    let emits = automaton_verdict::emissions(plan);
    let automaton = plan.automaton;
    let outcomes = plan.outcomes;
    automaton_verdict::automaton(automaton, outcomes, &emits)
}

// The verdict on a plan file: the plan, or the first fault and its place.
pub fn judge(bytes: &[u8]) -> PlanRead
    ensures { result ≡ judge_of bytes.now }
{
    match plan_read::read(bytes) {
        Err(fault) => refused_plan(fault),
        Ok(plan) => match plan_verdict(plan) {
            Err(fault) => refused_plan(fault),
            Ok(()) => PlanRead {
                verdict: Ok(()),
                plan,
            },
        },
    }
}

// The verdict alone.
pub fn verdict(bytes: &[u8]) -> Verdict
    ensures { result ≡ (judge_of bytes.now).verdict }
{
    let plan = plan_read::read(bytes)?;
    plan_verdict(plan)
}

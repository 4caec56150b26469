// The limits that "The plan file" sets on the counts, numbers and durations of a plan, and its rules for a plan that
// the file can hold.
#![tactic(auto)]

ghost use Rattle.std.specs.Prelude.{◌≡◌, ◌≤◌};
ghost use Rattle.format.specs.Format.{keeps};
ghost use Rattle.plan_file.specs.PlanFile.{fault_order, plan_file};
ghost use Rattle.plan_limits.specs.Limits.{parts_in_limits, in_limits};

pub mod moves;
pub mod nodes;
pub mod numbers;
mod written;

use plan::Plan;

// What the counts count.
#[tactic(auto, unfolding(crate::specs::Limits::parts_in_limits))]
fn parts_in_limits(plan: Plan) -> bool
    requires { (plan.peripherals ≤ 64) × (plan.events ≤ 16) × (plan.activities ≤ 32) }
    ensures { result ≡ parts_in_limits plan }
{
    let belongs = plan.belongs;
    if !numbers::within(0, plan.resources, plan.peripherals, &belongs) {
        return false;
    }
    let outcomes = plan.outcomes;
    if !numbers::within(1, 9, plan.events, &outcomes) {
        return false;
    }
    let sizes = plan.sizes;
    if !numbers::within(1, 65, plan.activities, &sizes) {
        return false;
    }
    let nodes = plan.nodes;
    if !nodes::nodes_in_limits(
        plan.resources,
        plan.peripherals,
        plan.events,
        plan.activities,
        sizes,
        nodes,
    ) {
        return false;
    }
    let automaton = plan.automaton;
    moves::automaton_in_limits(plan.activities, plan.events, outcomes, automaton)
}

// Every stored count, number and duration of the plan lies within the limits.
#[tactic(auto, unfolding(crate::specs::Limits::in_limits))]
pub fn in_limits(plan: Plan) -> bool
    ensures { result ≡ in_limits plan }
{
    if plan.resources > 16 {
        return false;
    }
    if plan.peripherals > 64 {
        return false;
    }
    if plan.events > 16 {
        return false;
    }
    if plan.activities > 32 {
        return false;
    }
    parts_in_limits(plan)
}

// The plan holds what the description of the file asks.
pub fn file_rules(plan: Plan) -> bool
    ensures { result ≡ keeps fault_order plan_file plan }
{
    if !in_limits(plan) {
        return false;
    }
    let sizes = plan.sizes;
    let nodes = plan.nodes;
    written::nodes_written(plan.activities, sizes, nodes)
}

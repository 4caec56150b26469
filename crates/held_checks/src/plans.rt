// The limits of a plan, read from its numbers: no plan is made of them.
ghost use Rattle.std.specs.Prelude.{map, ◌≡◌, ◌≤◌, ◌<◌, get_or};
ghost use Rattle.plan.specs.Plan.{past_node};
ghost use Rattle.plan_limits.specs.Limits.{moves_in_limits, automaton_in_limits};
ghost use Rattle.held.specs.Held.{move_of, node_of, plan_of};
ghost use Rattle.held_checks.specs.Inner.Limits.{counted_in_limits, numbers_in_limits, nodes_good};

use held::{HeldMove, HeldPlan};
use plan::{Kind, Node, Transition};
use plan_limits::numbers;

// Whether the nodes of a plan lie within the limits, and the kind of one of them. No Option: the kind is promised of any nodes.
#[derive(Clone, Copy)]
pub struct Nodes {
    pub good: bool,
    pub kind: Kind,
}

fn moves_in_limits(
    states: u8,
    activities: u8,
    events: u8,
    outcomes: [u8; 16],
    count: u16,
    held: [HeldMove; 256],
) -> bool
    requires { count ≤ 256 }
    ensures { result ≡ moves_in_limits states activities events outcomes count (map move_of held) }
{
    held[..usize::from(count)].iter().all(|&h| {
        let t = Transition::from(h);
        plan_limits::moves::move_in_limits(states, activities, events, outcomes, t)
    })
}

#[tactic(auto, unfolding(plan_limits::specs::Limits::automaton_in_limits))]
fn automaton_in_limits(h: HeldPlan) -> bool
    ensures { result ≡ automaton_in_limits h.activities h.events h.outcomes (plan_of h).automaton }
{
    if !plan_limits::moves::states_in_limits(h.states, h.initial, h.finals) {
        return false;
    }
    if h.count > 256 {
        return false;
    }
    let outcomes = h.outcomes;
    let moves = h.moves;
    moves_in_limits(h.states, h.activities, h.events, outcomes, h.count, moves)
}

// What the counts count, but for the nodes.
#[tactic(auto, unfolding(crate::specs::Inner::Limits::counted_in_limits))]
fn counted_in_limits(h: HeldPlan) -> bool
    requires { (h.peripherals ≤ 64) × (h.events ≤ 16) × (h.activities ≤ 32) }
    ensures { result ≡ counted_in_limits (plan_of h) }
{
    let belongs = h.belongs;
    if !numbers::within(0, h.resources, h.peripherals, &belongs) {
        return false;
    }
    let outcomes = h.outcomes;
    if !numbers::within(1, 9, h.events, &outcomes) {
        return false;
    }
    let sizes = h.sizes;
    if !numbers::within(1, 65, h.activities, &sizes) {
        return false;
    }
    automaton_in_limits(h)
}

// All of a plan but its nodes.
#[tactic(auto, unfolding(crate::specs::Inner::Limits::numbers_in_limits))]
pub fn numbers_in_limits(h: HeldPlan) -> bool
    ensures { result ≡ numbers_in_limits (plan_of h) }
{
    if h.resources > 16 {
        return false;
    }
    if h.peripherals > 64 {
        return false;
    }
    if h.events > 16 {
        return false;
    }
    if h.activities > 32 {
        return false;
    }
    counted_in_limits(h)
}

// Whether the nodes of a plan lie within the limits, and the kind of node k, which is read where the nodes have been copied anyway.
pub fn nodes_in_limits(plan: HeldPlan, k: usize) -> Nodes
    requires { k < 2048 }
    ensures { (result.good ≡ nodes_good (plan_of plan)) × (result.kind ≡ (get_or (map node_of plan.nodes) k past_node).kind) }
{
    let sizes = plan.sizes;
    let held = plan.nodes;
    let named = Node::from(held[k]);
    let kind = named.kind;
    if plan.activities > 32 {
        return Nodes { good: false, kind };
    }
    for i in 0..64 * usize::from(plan.activities) {
        let size = sizes[i / 64];
        let node = Node::from(held[i]);
        if !plan_limits::nodes::slot_in_limits(
            plan.resources,
            plan.peripherals,
            plan.events,
            size,
            i % 64,
            node,
        ) {
            return Nodes { good: false, kind };
        }
    }
    Nodes { good: true, kind }
}

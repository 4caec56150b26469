// The limits of the nodes of a plan.
ghost use Rattle.std.specs.Prelude.{◌≡◌, ◌≤◌};
ghost use Rattle.plan_limits.specs.Limits.{kind_names, node_in_limits, slot_in_limits, nodes_in_limits};

use crate::numbers;
use plan::{Kind, Node};

// "four bytes, 1 to 60,000,000"
pub const LONGEST: u32 = 60_000_000;

// The numbers in a node's kind name something.
fn kind_names(resources: u8, peripherals: u8, events: u8, kind: Kind) -> bool
    ensures { result ≡ kind_names resources peripherals events kind }
{
    match kind {
        Kind::Action(_, x) => x < peripherals,
        Kind::Claim(r) => r < resources,
        Kind::Release(r) => r < resources,
        Kind::Event(e) => e < events,
    }
}

// A node of an activity of `size` nodes.
#[tactic(auto, unfolding(crate::specs::Limits::node_in_limits))]
fn node_in_limits(resources: u8, peripherals: u8, events: u8, size: u8, node: Node) -> bool
    ensures { result ≡ node_in_limits resources peripherals events size node }
{
    let kind = node.kind;
    if !kind_names(resources, peripherals, events, kind) {
        return false;
    }
    if node.duration > LONGEST {
        return false;
    }
    if node.count > 8 {
        return false;
    }
    let preds = node.preds;
    numbers::within(0, size, node.count, &preds)
}

// Place n of an activity of `size` nodes: a node, or spare room.
#[tactic(auto, unfolding(crate::specs::Limits::slot_in_limits))]
pub fn slot_in_limits(
    resources: u8,
    peripherals: u8,
    events: u8,
    size: u8,
    n: usize,
    node: Node,
) -> bool
    ensures { result ≡ slot_in_limits resources peripherals events size n node }
{
    if usize::from(size) <= n {
        return true;
    }
    node_in_limits(resources, peripherals, events, size, node)
}

// The nodes of every activity.
pub fn nodes_in_limits(
    resources: u8,
    peripherals: u8,
    events: u8,
    activities: u8,
    sizes: [u8; 32],
    nodes: [Node; 2048],
) -> bool
    requires { activities ≤ 32 }
    ensures { result ≡ nodes_in_limits resources peripherals events activities sizes nodes }
{
    for i in 0..64 * usize::from(activities) {
        let size = sizes[i / 64];
        let node = nodes[i];
        if !slot_in_limits(resources, peripherals, events, size, i % 64, node) {
            return false;
        }
    }
    true
}

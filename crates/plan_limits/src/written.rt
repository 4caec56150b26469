// The rules of the file that are no limits.
ghost use Rattle.std.specs.Prelude.{◌≡◌, ◌≤◌};
ghost use Rattle.plan_limits.specs.Limits.{is_rising, is_brief, slot_written, nodes_written};

use plan::{Kind, Node};

// "strictly rising"
fn is_rising(count: u8, preds: [u8; 8]) -> bool
    ensures { result ≡ is_rising count preds }
{
    if count > 8 {
        return false;
    }
    preds[..usize::from(count)].is_sorted_by(|a, b| a < b)
}

// An action number is one byte. "Claims and releases have no bit 4. No bit 4 means duration 0."
fn is_brief(kind: Kind, duration: u32) -> bool
    ensures { result ≡ is_brief kind duration }
{
    match kind {
        Kind::Action(a, _) => a <= 255,
        Kind::Claim(_) => duration == 0,
        Kind::Release(_) => duration == 0,
        Kind::Event(_) => true,
    }
}

// Place n of an activity of `size` nodes: a node that the file can hold, or spare room.
#[tactic(auto, unfolding(crate::specs::Limits::slot_written))]
fn slot_written(size: u8, n: usize, node: Node) -> bool
    ensures { result ≡ slot_written size n node }
{
    if usize::from(size) <= n {
        return true;
    }
    let preds = node.preds;
    if !is_rising(node.count, preds) {
        return false;
    }
    let kind = node.kind;
    is_brief(kind, node.duration)
}

// The nodes of every activity.
pub fn nodes_written(activities: u8, sizes: [u8; 32], nodes: [Node; 2048]) -> bool
    requires { activities ≤ 32 }
    ensures { result ≡ nodes_written activities sizes nodes }
{
    for i in 0..64 * usize::from(activities) {
        let size = sizes[i / 64];
        let node = nodes[i];
        if !slot_written(size, i % 64, node) {
            return false;
        }
    }
    true
}

// "Before" of an activity as words, one of ancestors for each node, by Warshall's algorithm.
ghost use Rattle.std.specs.Prelude.{◌↔◌, ℕ, ◌<◌, ◌≤◌, length};
ghost use Rattle.basis.specs.Lists.{Among};
ghost use Rattle.plan.specs.Plan.{predecessors, nodes_of};
ghost use Rattle.activity.specs.Rules.{Arrow};
ghost use Rattle.activity.specs.Inner.Fits.{NodeFits, NodesFit, Fits};
ghost use Rattle.activity.specs.Inner.Bits.{Bit};
ghost use Rattle.activity.specs.Inner.Closure.{Rel, Closure, Through};

use crate::words::{step, with};
use plan::{Activity, Node};

// The word of a node's predecessors.
fn row_of(node: Node) -> u64
    requires { NodeFits node }
    ensures { (m : ℕ) → Bit result m ↔ Among m (predecessors node) }
{
    let mut w: u64 = 0;
    for m in &node.preds[..usize::from(node.count)] {
        w = with(w, usize::from(*m));
    }
    w
}

// The words of the arrows between nodes.
fn arrows(nodes: &[Node]) -> [u64; 64]
    requires { NodesFit nodes.now }
    ensures { (m n : ℕ) → Rel result m n ↔ Arrow nodes.now m n }
{
    let mut r = [0u64; 64];
    for (n, node) in nodes.iter().enumerate() {
        r[n] = row_of(*node);
    }
    r
}

// A pass through node k over the words of all nodes.
fn through(r: &mut [u64], k: usize)
    requires { (k < length r.old) × (length r.old ≤ 64) }
    ensures { Through r.old k (length r.old) r.new }
{
    let row = r[k];
    for w in r {
        *w = step(*w, row, k);
    }
}

// "Before" means by one or more arrows: bit m of word n stands iff m is before n.
pub fn closure(activity: Activity) -> [u64; 64]
    requires { Fits activity }
    ensures { Closure (nodes_of activity) result }
{
    let count = usize::from(activity.count);
    let mut r = arrows(&activity.nodes[..count]);
    for k in 0..count {
        through(&mut r[..count], k);
    }
    r
}

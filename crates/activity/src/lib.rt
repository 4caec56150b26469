// What an activity must satisfy (Def. 1): the fault of an activity, and of a plan's first activity at fault.
#![tactic(auto)]

pub mod before;
mod nodes;
mod words;

ghost use Rattle.std.specs.Prelude.{◌≡◌, ◌<◌, ◌≤◌, length, get_or};
ghost use Rattle.plan.specs.Plan.{nodes_of, size_of};
ghost use Rattle.plan.specs.Limits.{InLimits};
ghost use Rattle.activity.specs.Inner.Fits.{Fits};
ghost use Rattle.activity.specs.Number.{fault_of, activities_verdict};
ghost use Rattle.activity.specs.Inner.Copied.{copied};
ghost use Rattle.activity.specs.Inner.Order.{earlier};

use before::closure;
use nodes::{held, labels, look};
use plan::numbers::number_of;
use plan::{Activity, Fault, Node, Plan, Verdict};

// The one with the lower number of two faults that may be none.
fn earlier(a: Result<(), Fault>, b: Result<(), Fault>) -> Result<(), Fault>
    ensures { result ≡ earlier a b }
{
    let Err(f) = a else {
        return b;
    };
    match b {
        Err(g) if number_of(g) < number_of(f) => b,
        _ => a,
    }
}

// "11 cycle; 12 breaks I; 13 breaks II or III; 14 IV or V; 15 VI or VII; 16 VIII or IX; 17 X; 18 XI"
pub fn fault(activity: Activity, belongs: &[u8; 64]) -> Result<(), Fault>
    requires { Fits activity × (length belongs.now ≡ 64) }
    ensures { result ≡ fault_of (λ p. get_or belongs.now p 0) (nodes_of activity) }
{
    let nodes = &activity.nodes[..usize::from(activity.count)];
    let words = closure(activity);
    let names = labels(nodes);
    let before = &words[..nodes.len()];
    let names = &names[..nodes.len()];
    let mut first = Ok(());
    for (n, node) in nodes.iter().enumerate() {
        let k = node.kind;
        let sight = look(before, names, k, held(k, belongs), n);
        first = earlier(first, sight.fault(k));
    }
    first
}

// Activity a of the plan, in an array with zeros behind it: no heap.
fn copied(plan: &Plan, a: u8) -> Activity
    requires { (a < 32) × (size_of plan.now a ≤ 64) }
    ensures { result ≡ copied plan.now a }
{
    let i = usize::from(a);
    let count = plan.sizes[i];
    let size = usize::from(count);
    let first = 64 * i;
    let mut nodes = [Node::ZERO; 64];
    nodes[..size].copy_from_slice(&plan.nodes[first..first + size]);
    Activity { count, nodes }
}

// The same for `run_path`, which hands the plan over: in `activities` that cost a copy of it for each activity (tried: a
// typical plan read and judged in 33 microseconds, not 22).
pub fn activity_of(plan: Plan, a: u8) -> Activity
    requires { (a < 32) × (size_of plan a ≤ 64) }
    ensures { result ≡ copied plan a }
{
    copied(&plan, a)
}

// "Then activities in order, place = activity"
pub fn activities(plan: Plan) -> Verdict
    requires { InLimits plan }
    ensures { result ≡ activities_verdict plan }
{
    for a in 0..plan.activities {
        if let Err(f) = fault(copied(&plan, a), &plan.belongs) {
            return Err(f.at(usize::from(a)));
        }
    }
    Ok(())
}

// What an opening gives beside the plan and Ψ: availabilities and a slack. Document 01, section "A run".
#![tactic(auto)]

ghost use Rattle.std.specs.Prelude.{◌≡◌, ◌≤◌, length};
ghost use Rattle.plan.specs.Limits.{InLimits};
ghost use Rattle.run_opening.specs.Given.{at_first, availabilities, any_above};
ghost use Rattle.run_opening.specs.Short.{is_short, short_from};

use plan::{Node, Plan};
use time::{HORIZON, Specified};
use times::{Instance, Progress, Told};

// ---- 31

// Some availability is above 10^15.
#[tactic(auto, unfolding(crate::specs::Given::any_above))]
pub fn any_above(ts: &[u64]) -> bool
    ensures { result ≡ any_above ts.now }
{
    ts.iter().any(|&t| t > HORIZON)
}

// ---- 33

// "an action or event with duration not above the slack"
fn is_short(slack: u64, n: Node) -> bool
    ensures { result ≡ is_short slack n }
{
    run_path::is_work(n.kind) && u64::from(n.duration) <= slack
}

// "the lowest such activity", if there is one
pub fn short_from(plan: Plan, slack: u64) -> Option<usize>
    requires { InLimits plan }
    ensures { result ≡ short_from plan slack 0 plan.activities }
{
    for a in 0..usize::from(plan.activities) {
        for n in 0..usize::from(plan.sizes[a]) {
            if is_short(slack, plan.nodes[64 * a + n]) {
                return Some(a);
            }
        }
    }
    None
}

// ---- where the behaviour stands at first

// Availabilities in an array of 16, zeros past them.
pub fn given(ts: &[u64]) -> [Specified; 16]
    requires { length ts.now ≤ 16 }
    ensures { result ≡ availabilities ts.now }
{
    let mut available = [Specified(0); 16];
    for (i, &t) in ts.iter().enumerate() {
        available[i] = Specified(t);
    }
    available
}

// A behaviour that stands at a state before its first transition.
pub fn at_first(available: [Specified; 16], s: u8) -> Progress
    ensures { result ≡ at_first available s }
{
    let empty = Instance {
        position: 0,
        node: 0,
        end: Specified(0),
        told: Told::Nothing,
    };
    Progress {
        available,
        latest: [Specified(0); 16],
        lengths: [0u8; 16],
        pending: [empty; 128],
        position: 0,
        state: s,
    }
}

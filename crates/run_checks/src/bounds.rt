// "50 a run in which a stored count, number or time lies outside this paper's or its plan's limits": the slack and the stop.
ghost use Rattle.std.specs.Prelude.{◌≡◌};
ghost use Rattle.run_checks.specs.Limits.{node_named, stop_in_limits, halt_in_limits, slack_in_limits};

use crate::Stop;
use times::LAST_POSITION;

// the least and the largest slack
pub const SLACK_LEAST: u64 = 1;

pub const SLACK_MOST: u64 = 1_000_000;

// The position and node that a stop names.
fn node_named(position: u32, node: u8) -> bool
    ensures { result ≡ node_named position node }
{
    position <= LAST_POSITION && node < 64
}

fn stop_in_limits(stop: Stop) -> bool
    ensures { result ≡ stop_in_limits stop }
{
    match stop {
        Stop::Late(p, n) | Stop::Overdue(p, n) => node_named(p, n),
        Stop::Full | Stop::Beyond => true,
    }
}

pub fn halt_in_limits(halt: Option<Stop>) -> bool
    ensures { result ≡ halt_in_limits halt }
{
    match halt {
        None => true,
        Some(s) => stop_in_limits(s),
    }
}

// "a slack of 1 to 1,000,000"
pub fn slack_in_limits(slack: u64) -> bool
    ensures { result ≡ slack_in_limits slack }
{
    SLACK_LEAST <= slack && slack <= SLACK_MOST
}

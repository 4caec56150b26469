// The limits of what is stored between transitions.
ghost use Rattle.std.specs.Prelude.{◌≡◌, ◌≤◌};
ghost use Rattle.run_limits.specs.Progress.{times_in_limits, told_names, instance_in_limits, place_in_limits, pending_in_limits, progress_fits, progress_within};

use plan_limits::numbers;
use time::{HORIZON, Specified};
use times::{Instance, LAST_POSITION, Progress, Told};

// Times at most 10^15.
fn times_in_limits(count: u8, times: [Specified; 16]) -> bool
    requires { count ≤ 16 }
    ensures { result ≡ times_in_limits count times }
{
    times[..usize::from(count)].iter().all(|t| t.0 <= HORIZON)
}

// A reported outcome is one of the event's outcomes.
fn told_names(outcomes: u8, told: Told) -> bool
    ensures { result ≡ told_names outcomes told }
{
    match told {
        Told::Nothing => true,
        Told::Outcome(o) => o < outcomes,
    }
}

// A pending instance of an event that has so many outcomes.
#[tactic(auto, unfolding(crate::specs::Progress::instance_in_limits))]
fn instance_in_limits(outcomes: u8, x: Instance) -> bool
    ensures { result ≡ instance_in_limits outcomes x }
{
    if x.position > LAST_POSITION {
        return false;
    }
    if x.node >= 64 {
        return false;
    }
    if x.end.0 > HORIZON {
        return false;
    }
    let told = x.told;
    told_names(outcomes, told)
}

// Place i of a queue of `size` instances: an instance, or spare room.
#[tactic(auto, unfolding(crate::specs::Progress::place_in_limits))]
fn place_in_limits(outcomes: u8, size: u8, i: usize, x: Instance) -> bool
    ensures { result ≡ place_in_limits outcomes size i x }
{
    if usize::from(size) <= i {
        return true;
    }
    instance_in_limits(outcomes, x)
}

// The queues of the events.
fn pending_in_limits(
    events: u8,
    outcomes: [u8; 16],
    lengths: [u8; 16],
    pending: [Instance; 128],
) -> bool
    requires { events ≤ 16 }
    ensures { result ≡ pending_in_limits events outcomes lengths pending }
{
    for i in 0..8 * usize::from(events) {
        let most = outcomes[i / 8];
        let size = lengths[i / 8];
        let x = pending[i];
        if !place_in_limits(most, size, i % 8, x) {
            return false;
        }
    }
    true
}

// Where a behaviour stands, of a plan with so many resources, events and states.
#[tactic(auto, unfolding(crate::specs::Progress::progress_fits))]
fn progress_fits(
    resources: u8,
    events: u8,
    states: u8,
    outcomes: [u8; 16],
    progress: Progress,
) -> bool
    requires { (resources ≤ 16) × (events ≤ 16) }
    ensures { result ≡ progress_fits resources events states outcomes progress }
{
    let available = progress.available;
    if !times_in_limits(resources, available) {
        return false;
    }
    let latest = progress.latest;
    if !times_in_limits(events, latest) {
        return false;
    }
    let lengths = progress.lengths;
    if !numbers::within(0, 9, events, &lengths) {
        return false;
    }
    let pending = progress.pending;
    if !pending_in_limits(events, outcomes, lengths, pending) {
        return false;
    }
    if progress.position > LAST_POSITION + 1 {
        return false;
    }
    progress.state < states
}

// The same, of any counts.
pub fn progress_within(
    resources: u8,
    events: u8,
    states: u8,
    outcomes: [u8; 16],
    progress: Progress,
) -> bool
    ensures { result ≡ progress_within resources events states outcomes progress }
{
    if resources > 16 {
        return false;
    }
    if events > 16 {
        return false;
    }
    progress_fits(resources, events, states, outcomes, progress)
}

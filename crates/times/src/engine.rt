// One transition.
ghost use Rattle.std.specs.Prelude.{◌≡◌, ◌≤◌, ◌<◌, ltb};
ghost use Rattle.std.specs.List.{list_any};
ghost use Rattle.time.specs.Time.{horizon};
ghost use Rattle.plan.specs.Plan.{nodes_of};
ghost use Rattle.times.specs.Times.{order_of};
ghost use Rattle.times.specs.Engine.{raised_of, left_of, beyond_of, advance_of};
ghost use Rattle.times.specs.Limits.{StepFits};
ghost use Rattle.times.specs.Inner.Times.{Leaving};

use super::queues::{floor, processed};
use super::starts::{later, scheduled};
use super::{Advanced, Instance, LAST_POSITION, Progress, Schedule, Told};
use plan::{Activity, Input, Kind};
use time::{HORIZON, Specified};

// The times of the first `count` resources, each raised to c.
fn raised(mut available: [Specified; 16], count: u8, c: Specified) -> [Specified; 16]
    requires { count ≤ 16 }
    ensures { result ≡ raised_of c.0 0 count available }
{
    for i in 0..usize::from(count) {
        available[i] = later(available[i], c);
    }
    available
}

// What the nodes that are done leave: availabilities, last completions and queues.
fn left(a: Activity, t: Schedule, g: Progress) -> Progress
    requires { Leaving a t }
    ensures { result ≡ left_of (nodes_of a) t.end (order_of t) g }
{
    let mut h = g;
    for &node in &t.order[..usize::from(t.count)] {
        let n = usize::from(node);
        let end = t.end[n];
        let x = a.nodes[n];
        match x.kind {
            Kind::Action(_, _) => {}
            Kind::Claim(_) => {}
            Kind::Release(r) => h.available[usize::from(r)] = end,
            Kind::Event(e) => {
                let i = usize::from(e);
                h.latest[i] = later(h.latest[i], end);
                let length = h.lengths[i];
                if length < 8 {
                    h.pending[8 * i + usize::from(length)] = Instance {
                        position: h.position,
                        node,
                        end,
                        told: Told::Nothing,
                    };
                    h.lengths[i] = length + 1;
                }
            }
        }
    }
    h
}

// Whether one of the times is above 10^15.
pub fn above(times: &[Specified]) -> bool
    ensures { result ≡ list_any (λ t. ltb horizon t.0) times.now }
{
    times.iter().any(|t| HORIZON < t.0)
}

// Whether the next path is one that number 44 stops.
fn beyond(resources: u8, size: u8, end: [Specified; 64], g: Progress) -> bool
    requires resources_bound { resources ≤ 16 }
    requires size_bound { size ≤ 64 }
    ensures { result ≡ beyond_of resources size end g }
{
    LAST_POSITION < g.position
        || above(&end[..usize::from(size)])
        || above(&g.available[..usize::from(resources)])
}

// One transition, which processes `input`, emits the activity and leads to the state `to`. Every resource is held back to
// the completion c of the processed instance.
pub fn advance(
    resources: u8,
    activity: Activity,
    input: Input,
    to: u8,
    progress: Progress,
) -> Advanced
    requires { StepFits resources activity input progress }
    ensures { result ≡ advance_of resources (nodes_of activity) input to progress }
{
    let c = floor(input, progress);
    let mut h = processed(input, progress);
    h.available = raised(h.available, resources, c);
    let schedule = scheduled(activity, h.available, h.latest);
    let mut progress = left(activity, schedule, h);
    let beyond = beyond(resources, activity.count, schedule.end, progress);
    progress.position += 1;
    progress.state = to;
    Advanced {
        beyond,
        schedule,
        progress,
    }
}

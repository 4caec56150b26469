// The times of the nodes of one activity, in rounds.
ghost use Rattle.std.specs.Prelude.{◌≡◌, max};
ghost use Rattle.plan.specs.Plan.{predecessors, nodes_of};
ghost use Rattle.times.specs.Times.{specified, ready_of, largest_of, unscheduled, schedule_of};
ghost use Rattle.times.specs.Inner.Times.{ArrowsFit, Timeable};

use super::Schedule;
use plan::{Activity, Kind, Node};
use time::Specified;

// The later of two times.
pub fn later(x: Specified, y: Specified) -> Specified
    ensures { result ≡ specified (max x.0 y.0) }
{
    Specified(x.0.max(y.0))
}

// Whether every predecessor is done.
fn ready(x: Node, done: &[bool; 64]) -> bool
    requires { ArrowsFit x }
    ensures { result ≡ ready_of done.now (predecessors x) }
{
    for &m in &x.preds[..usize::from(x.count)] {
        if !done[usize::from(m)] {
            return false;
        }
    }
    true
}

// The largest completion among the predecessors, 0 where there is none.
fn largest(x: Node, end: &[Specified; 64]) -> u64
    requires { ArrowsFit x }
    ensures { result ≡ largest_of end.now (predecessors x) }
{
    let mut best = 0;
    for &m in &x.preds[..usize::from(x.count)] {
        best = end[usize::from(m)].0.max(best);
    }
    best
}

// No node is done.
fn unstarted() -> Schedule
    ensures { result ≡ unscheduled }
{
    Schedule {
        start: [Specified(0); 64],
        end: [Specified(0); 64],
        done: [false; 64],
        order: [0; 64],
        count: 0,
    }
}

// The times of an activity: rounds, each over every node in turn, up to one that changes nothing.
pub fn scheduled(a: Activity, available: [Specified; 16], latest: [Specified; 16]) -> Schedule
    requires { Timeable a available latest }
    ensures { result ≡ schedule_of available latest (nodes_of a) }
{
    let mut u = unstarted();
    for _ in 0..a.count {
        let from = u.count;
        for n in 0..usize::from(a.count) {
            let x = a.nodes[n];
            if u.done[n] || !ready(x, &u.done) {
                continue;
            }
            let m = largest(x, &u.end);
            let s = match x.kind {
                Kind::Action(_, _) => Specified(m),
                Kind::Claim(r) => available[usize::from(r)],
                Kind::Release(_) => Specified(m),
                Kind::Event(e) => later(Specified(m), latest[usize::from(e)]),
            };
            let end = s.0 + u64::from(x.duration);
            u.start[n] = s;
            u.end[n] = Specified(end);
            u.done[n] = true;
            u.order[usize::from(u.count)] = n as u8;
            u.count += 1;
        }
        if u.count == from {
            return u;
        }
    }
    u
}

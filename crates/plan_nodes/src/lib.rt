// Reading a node: a map byte, then only the fields whose bits stand.
#![tactic(auto)]

ghost use Rattle.std.specs.Prelude.{◌≡◌, ◌≤◌, replicate};
ghost use Rattle.plan.specs.Nodes.{asks_of, action_at, claim_at, release_at, event_at, kind_by, preds_loop, preds_at, node_with, node_at};

use plan::fields::{Asks, Named, Preds, Read};
use plan::{Fault, Kind, Node};

// The kind of node that a map byte asks for, if it keeps its rule.
fn asks_of(m: u8) -> Option<Asks>
    ensures { result ≡ asks_of m }
{
    match m {
        64..=255 => None,
        1 | 17 | 33 | 49 => Some(Asks::Action),
        2 | 34 => Some(Asks::Claim),
        4 | 36 => Some(Asks::Release),
        8 | 24 | 40 | 56 => Some(Asks::Event),
        _ => None,
    }
}

fn action_at(bytes: &[u8], at: usize, peripherals: u8) -> Read<Kind>
    ensures { result ≡ action_at peripherals bytes.now at }
{
    let (action, next) = plan_fields::any_at(bytes, at)?;
    let (peripheral, end) = plan_fields::name_at(bytes, next, peripherals)?;
    Ok((Kind::Action(action, peripheral), end))
}

// A claim, a release and an event differ in the case that is made: two lines each, and no plainer with the case as a closure.
fn claim_at(bytes: &[u8], at: usize, resources: u8) -> Read<Kind>
    ensures { result ≡ claim_at resources bytes.now at }
{
    let (resource, end) = plan_fields::name_at(bytes, at, resources)?;
    Ok((Kind::Claim(resource), end))
}

fn release_at(bytes: &[u8], at: usize, resources: u8) -> Read<Kind>
    ensures { result ≡ release_at resources bytes.now at }
{
    let (resource, end) = plan_fields::name_at(bytes, at, resources)?;
    Ok((Kind::Release(resource), end))
}

fn event_at(bytes: &[u8], at: usize, events: u8) -> Read<Kind>
    ensures { result ≡ event_at events bytes.now at }
{
    let (event, end) = plan_fields::name_at(bytes, at, events)?;
    Ok((Kind::Event(event), end))
}

// The fields of the kind, from `next` on; the map stands at `at`.
#[tactic(auto, unfolding(plan::specs::Nodes::kind_by))]
fn kind_by(asks: Option<Asks>, named: Named, bytes: &[u8], at: usize, next: usize) -> Read<Kind>
    ensures { result ≡ kind_by asks named.peripherals named.resources named.events bytes.now at next }
{
    match asks {
        Some(Asks::Action) => action_at(bytes, next, named.peripherals),
        Some(Asks::Claim) => claim_at(bytes, next, named.resources),
        Some(Asks::Release) => release_at(bytes, next, named.resources),
        Some(Asks::Event) => event_at(bytes, next, named.events),
        None => Err(Fault::Map.at(at)),
    }
}

// The node numbers of the predecessors, strictly rising.
fn preds_loop(bytes: &[u8], at: usize, size: u8, count: u8) -> Read<Preds>
    requires { count ≤ 8 }
    ensures { result ≡ preds_loop size bytes.now count count at 0 0 (replicate 8 0) }
{
    let mut preds = [0u8; 8];
    let mut low: u8 = 0;
    let mut off = at;
    for i in 0..usize::from(count) {
        let (x, next) = plan_fields::name_at(bytes, off, size)?;
        if x < low {
            return Err(Fault::NotRising.at(off));
        }
        preds[i] = x;
        low = x + 1;
        off = next;
    }
    Ok((Preds { count, preds }, off))
}

// The predecessors of a node whose map is m, in an activity of `size` nodes.
#[tactic(auto, unfolding(plan::specs::Nodes::preds_at))]
fn preds_at(bytes: &[u8], at: usize, m: u8, size: u8) -> Read<Preds>
    ensures { result ≡ preds_at m size bytes.now at }
{
    let (count, next) = plan_fields::optional_count(bytes, at, 8, m / 32 % 2 == 1)?;
    preds_loop(bytes, next, size, count)
}

// The fields after the kind of a node whose map is m.
#[tactic(auto, unfolding(plan::specs::Nodes::node_with))]
fn node_with(bytes: &[u8], at: usize, m: u8, kind: Kind, size: u8) -> Read<Node>
    ensures { result ≡ node_with m kind size bytes.now at }
{
    let (duration, next) = plan_fields::duration_at(bytes, at, m)?;
    let (Preds { count, preds }, end) = preds_at(bytes, next, m, size)?;
    let node = Node {
        kind,
        duration,
        count,
        preds,
    };
    Ok((node, end))
}

// A node of an activity of `size` nodes.
#[tactic(auto, unfolding(plan::specs::Nodes::node_at))]
pub fn node_at(bytes: &[u8], at: usize, named: Named, size: u8) -> Read<Node>
    ensures { result ≡ node_at named.peripherals named.resources named.events size bytes.now at }
{
    let (m, next) = plan_fields::any_at(bytes, at)?;
    let (kind, after) = kind_by(asks_of(m), named, bytes, at, next)?;
    node_with(bytes, after, m, kind, size)
}

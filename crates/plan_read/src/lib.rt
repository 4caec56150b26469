// Reading the plan file: the plan, or the first faulty field from the front with its fault and byte offset.
#![tactic(auto)]

ghost use Rattle.std.specs.Prelude.{◌≡◌, ◌≤◌};
ghost use Rattle.plan.specs.Reading.{zero_plan, sections_at, plan_of, with_activities, with_events, with_peripherals, plan_at, read_plan};

use plan::fields::{Activities, Events, Named, Peripherals, Read};
use plan::{Automaton, Fault, FaultAt, NODES, Node, Plan};

// A plan of zeros.
pub fn zero_plan() -> Plan
    ensures { result ≡ zero_plan }
{
    Plan {
        resources: 0,
        peripherals: 0,
        belongs: [0u8; 64],
        events: 0,
        outcomes: [0u8; 16],
        activities: 0,
        sizes: [0u8; 32],
        nodes: [Node::ZERO; NODES],
        automaton: plan_automaton::zero_automaton(),
    }
}

// The map of sections.
#[tactic(auto, unfolding(plan::specs::Reading::sections_at))]
fn sections_at(bytes: &[u8], at: usize) -> Read<u8>
    ensures { result ≡ sections_at bytes.now at }
{
    let (m, next) = plan_fields::byte_in(bytes, at, 0, 32, Fault::Map)?;
    if m / 16 % 2 == 1 {
        return Ok((m, next));
    }
    Err(Fault::NoAutomaton.at(at))
}

fn plan_of(resources: u8, x: Peripherals, e: Events, a: Activities, automaton: Automaton) -> Plan
    ensures { result ≡ plan_of resources x e a automaton }
{
    let Peripherals {
        count: peripherals,
        belongs,
    } = x;
    let Events {
        count: events,
        outcomes,
    } = e;
    let Activities {
        count: activities,
        sizes,
        nodes,
    } = a;
    Plan {
        resources,
        peripherals,
        belongs,
        events,
        outcomes,
        activities,
        sizes,
        nodes,
        automaton,
    }
}

// The automaton, after the sections before it, and the end of the bytes: the plan is made where nothing can be refused any more.
#[tactic(auto, unfolding(plan::specs::Reading::with_activities, plan::specs::Reading::ended_at))]
fn with_activities(
    bytes: &[u8],
    at: usize,
    resources: u8,
    x: Peripherals,
    e: Events,
    a: Activities,
) -> Result<Plan, FaultAt>
    requires { e.count ≤ 16 }
    ensures { result ≡ with_activities bytes.now resources x e a at }
{
    let (automaton, next) = plan_automaton::automaton_at(bytes, at, e, a.count)?;
    if next != bytes.len() {
        return Err(Fault::LeftOver.at(next));
    }
    Ok(plan_of(resources, x, e, a, automaton))
}

// The sections of the map m, from the offset after it.
#[tactic(auto, unfolding(plan::specs::Reading::plan_at, plan::specs::Reading::with_peripherals, plan::specs::Reading::with_events, plan::specs::Sections::resources_at))]
fn plan_at(bytes: &[u8], m: u8, at: usize) -> Result<Plan, FaultAt>
    ensures { result ≡ plan_at bytes.now m at }
{
    let (resources, at) = plan_fields::optional_count(bytes, at, 16, m % 2 == 1)?;
    let (x, at) = plan_sections::peripherals_at(bytes, at, m, resources)?;
    let (e, at) = plan_sections::events_at(bytes, at, m)?;
    let named = Named {
        resources,
        peripherals: x.count,
        events: e.count,
    };
    let (a, at) = plan_sections::activities_at(bytes, at, m, named)?;
    with_activities(bytes, at, resources, x, e, a)
}

// Any bytes are read: the plan, or the first faulty field.
#[tactic(auto, unfolding(plan::specs::Reading::read_plan))]
pub fn read(bytes: &[u8]) -> Result<Plan, FaultAt>
    ensures { result ≡ read_plan bytes.now }
{
    let (m, next) = sections_at(bytes, 0)?;
    plan_at(bytes, m, next)
}

// Reading the sections of the plan file before the automaton.
#![tactic(auto)]

ghost use Rattle.std.specs.Prelude.{◌≡◌, List, ℕ, ◌+◌, ◌≤◌, length, replicate};
ghost use Rattle.plan.specs.Fields.{Read, found, numbers_then};
ghost use Rattle.plan.specs.Nodes.{zero_node};
ghost use Rattle.plan.specs.Sections.{belongs_at, peripherals_at, outcomes_at, events_at, nodes_then, activities_loop, activities_at};
ghost use Rattle.plan.specs.declared.Node.{Node};
ghost use Rattle.plan.specs.declared.fields.Activities.{Activities};
ghost use Rattle.plan_sections.specs.Inner.Parts.{on_end};

use plan::fields::{Activities, Events, Named, Peripherals, Read};
use plan::{Fault, FaultAt, NODES, Node};

// So many numbers in low .. below - 1, of one byte each.
fn numbers<const N: usize>(
    bytes: &[u8],
    at: usize,
    count: u8,
    low: u8,
    below: u16,
    wrong: Fault,
) -> Read<[u8; N]>
    requires { count ≤ N }
    ensures { result ≡ numbers_then low below wrong bytes.now (λ next values. found values next) count at 0 (replicate N 0) }
{
    let mut values = [0u8; N];
    let mut off = at;
    for i in 0..usize::from(count) {
        let (x, next) = plan_fields::byte_in(bytes, off, low, below, wrong)?;
        values[i] = x;
        off = next;
    }
    Ok((values, off))
}

// For each peripheral its resource.
#[tactic(auto, unfolding(plan::specs::Sections::belongs_at), using(crate::proofs::Loops::numbers_named))]
fn belongs_at(bytes: &[u8], at: usize, resources: u8, count: u8) -> Read<Peripherals>
    requires { count ≤ 64 }
    ensures { result ≡ belongs_at resources count bytes.now at }
{
    let (belongs, next) = numbers(bytes, at, count, 0, u16::from(resources), Fault::Names)?;
    Ok((Peripherals { count, belongs }, next))
}

// The peripherals of a plan whose map of sections is m.
#[tactic(auto, unfolding(plan::specs::Sections::peripherals_at))]
pub fn peripherals_at(bytes: &[u8], at: usize, m: u8, resources: u8) -> Read<Peripherals>
    ensures { result ≡ peripherals_at m resources bytes.now at }
{
    let (count, next) = plan_fields::optional_count(bytes, at, 64, m / 2 % 2 == 1)?;
    belongs_at(bytes, next, resources, count)
}

// For each event how many outcomes it has.
#[tactic(auto, unfolding(plan::specs::Sections::outcomes_at), using(crate::proofs::Loops::numbers_named))]
fn outcomes_at(bytes: &[u8], at: usize, count: u8) -> Read<Events>
    requires { count ≤ 16 }
    ensures { result ≡ outcomes_at count bytes.now at }
{
    let (outcomes, next) = numbers(bytes, at, count, 1, 9, Fault::Count)?;
    Ok((Events { count, outcomes }, next))
}

// The events of a plan whose map of sections is m.
#[tactic(auto, unfolding(plan::specs::Sections::events_at))]
pub fn events_at(bytes: &[u8], at: usize, m: u8) -> Read<Events>
    ensures { result ≡ events_at m bytes.now at }
{
    let (count, next) = plan_fields::optional_count(bytes, at, 16, m / 4 % 2 == 1)?;
    outcomes_at(bytes, next, count)
}

// The nodes of an activity of `size` nodes, put into `all` from place `first` on; what is answered is the offset past them.
fn nodes_from(
    bytes: &[u8],
    at: usize,
    named: Named,
    size: u8,
    first: usize,
    all: &mut [Node; NODES],
) -> Result<usize, FaultAt>
    requires { (first + size ≤ 2048) × (length all.old ≡ 2048) }
    ensures { ((follow : ℕ → List Node → Read Activities) → on_end result (λ end. follow end all.new) ≡ nodes_then named.peripherals named.resources named.events bytes.now follow size size at first all.old) × (length all.new ≡ 2048) }
{
    let mut off = at;
    for n in 0..usize::from(size) {
        let (node, next) = plan_nodes::node_at(bytes, off, named, size)?;
        all[first + n] = node;
        off = next;
    }
    Ok(off)
}

// The activities, one after the other.
fn activities_loop(bytes: &[u8], at: usize, named: Named, count: u8) -> Read<Activities>
    requires { count ≤ 32 }
    ensures { result ≡ activities_loop named.peripherals named.resources named.events bytes.now count count at 0 (replicate 32 0) (replicate 2048 zero_node) }
{
    let mut read = Activities {
        count,
        sizes: [0u8; 32],
        nodes: [Node::ZERO; NODES],
    };
    let mut off = at;
    for a in 0..usize::from(count) {
        let (size, next) = plan_fields::count_at(bytes, off, 64)?;
        off = nodes_from(bytes, next, named, size, 64 * a, &mut read.nodes)?;
        read.sizes[a] = size;
    }
    Ok((read, off))
}

// The activities of a plan whose map of sections is m.
#[tactic(auto, unfolding(plan::specs::Sections::activities_at))]
pub fn activities_at(bytes: &[u8], at: usize, m: u8, named: Named) -> Read<Activities>
    ensures { result ≡ activities_at named.peripherals named.resources named.events bytes.now m at }
{
    let (count, next) = plan_fields::optional_count(bytes, at, 32, m / 8 % 2 == 1)?;
    activities_loop(bytes, next, named, count)
}

// A run as numbers, for a host in C. No enum has a layout that C may know, so each is a number and the fields of its cases; a
// number that no case has is read as case 0, so that all bytes are a run. The meaning of each number is in specs/Held.antt.
// Fields stand by falling alignment and spare bytes are named: there is no padding.
#![tactic(auto)]

ghost use Rattle.std.specs.Prelude.{◌≡◌};
ghost use Rattle.held.specs.Held.{held_plan, held_of};
ghost use Rattle.held.specs.Inner.Plans.{plan_upto};
ghost use Rattle.held.specs.Inner.Rest.{rest_with, rest_by};

use plan::{Automaton, NODES, Node, Plan};
use run::{Run, Stop};
use run_window::{Entry, WINDOW};
use time::{Clock, Specified};
use times::Progress;

pub mod halts; // why a run has stopped
pub mod moves; // transitions
pub mod nodes; // the plan's nodes
pub mod places; // the window
pub mod progresses; // where the behaviour stands

#[repr(C)]
#[derive(Clone, Copy)]
pub struct HeldNode {
    pub duration: u32,
    pub kind: u8,
    pub number: u8,
    pub peripheral: u8,
    pub count: u8,
    pub preds: [u8; 8],
}

#[repr(C)]
#[derive(Clone, Copy)]
pub struct HeldMove {
    pub from: u8,
    pub to: u8,
    pub input: u8,
    pub event: u8,
    pub outcome: u8,
    pub output: u8,
    pub activity: u8,
    pub spare: u8,
}

#[repr(C)]
#[derive(Clone, Copy)]
pub struct HeldPlan {
    pub finals: u64,
    pub nodes: [HeldNode; NODES],
    pub count: u16,
    pub moves: [HeldMove; 256],
    pub belongs: [u8; 64],
    pub sizes: [u8; 32],
    pub outcomes: [u8; 16],
    pub resources: u8,
    pub peripherals: u8,
    pub events: u8,
    pub activities: u8,
    pub states: u8,
    pub initial: u8,
}

#[repr(C)]
#[derive(Clone, Copy)]
pub struct HeldEntry {
    pub start: Specified,
    pub end: Specified,
    pub position: u32,
    pub activity: u8,
    pub node: u8,
    pub phase: u8,
    pub spare: u8,
}

#[repr(C)]
#[derive(Clone, Copy)]
pub struct HeldInstance {
    pub end: Specified,
    pub position: u32,
    pub node: u8,
    pub told: u8,
    pub outcome: u8,
    pub spare: u8,
}

#[repr(C)]
#[derive(Clone, Copy)]
pub struct HeldProgress {
    pub available: [Specified; 16],
    pub latest: [Specified; 16],
    pub pending: [HeldInstance; 128],
    pub position: u32,
    pub lengths: [u8; 16],
    pub state: u8,
    pub spare: [u8; 3],
}

#[repr(C)]
#[derive(Clone, Copy)]
pub struct HeldHalt {
    pub position: u32,
    pub node: u8,
    pub halt: u8,
    pub spare: [u8; 2],
}

// All of a run but its plan: what a call may change.
#[repr(C)]
#[derive(Clone, Copy)]
pub struct HeldRest {
    pub psi: Clock,
    pub slack: u64,
    pub last: Clock,
    pub window: [HeldEntry; WINDOW],
    pub progress: HeldProgress,
    pub halt: HeldHalt,
}

#[repr(C)]
#[derive(Clone, Copy)]
pub struct Held {
    pub rest: HeldRest,
    pub plan: HeldPlan,
}

// ---- from numbers

// A plan with the nodes of its activities and its transitions: loading reads no others, and to convert them all takes long. The nodes
// are put where they stay: a function that hands back an array copies it.
pub fn plan_upto(h: HeldPlan) -> Plan
    ensures { result ≡ plan_upto h }
{
    let held_moves = h.moves;
    let moves = moves::moves_upto(h.count, held_moves);
    let belongs = h.belongs;
    let sizes = h.sizes;
    let outcomes = h.outcomes;
    let mut plan = Plan {
        resources: h.resources,
        peripherals: h.peripherals,
        belongs,
        events: h.events,
        outcomes,
        activities: h.activities,
        sizes,
        nodes: [Node::ZERO; NODES],
        automaton: Automaton {
            states: h.states,
            initial: h.initial,
            finals: h.finals,
            count: h.count,
            moves,
        },
    };
    for i in 0..(64 * usize::from(h.activities)).min(NODES) {
        plan.nodes[i] = Node::from(h.nodes[i]);
    }
    plan
}

// ---- as numbers

impl From<Plan> for HeldPlan {
    ghost from_gives = { λ p r. r ≡ held_plan p };

    fn from(p: Plan) -> HeldPlan {
        let automaton = p.automaton;
        let plan_nodes = p.nodes;
        let plan_moves = automaton.moves;
        let nodes = nodes::hold_nodes(plan_nodes);
        let moves = moves::hold_moves(plan_moves);
        let belongs = p.belongs;
        let sizes = p.sizes;
        let outcomes = p.outcomes;
        HeldPlan {
            finals: automaton.finals,
            nodes,
            count: automaton.count,
            moves,
            belongs,
            sizes,
            outcomes,
            resources: p.resources,
            peripherals: p.peripherals,
            events: p.events,
            activities: p.activities,
            states: automaton.states,
            initial: automaton.initial,
        }
    }
}

// All of a run but its plan, with its window as it is written.
pub fn rest_with(
    psi: Clock,
    slack: u64,
    last: Clock,
    window: [HeldEntry; WINDOW],
    reached: Progress,
    stop: Option<Stop>,
) -> HeldRest
    ensures { result ≡ rest_with psi slack last window reached stop }
{
    let progress = HeldProgress::from(reached);
    let halt = halts::hold_halt(stop);
    HeldRest {
        psi,
        slack,
        last,
        window,
        progress,
        halt,
    }
}

// The same, with its window as the run has it.
pub fn rest_of(
    psi: Clock,
    slack: u64,
    last: Clock,
    entries: [Entry; WINDOW],
    reached: Progress,
    stop: Option<Stop>,
) -> HeldRest
    ensures { result ≡ rest_by psi slack last entries reached stop }
{
    let window = places::hold_window(entries);
    rest_with(psi, slack, last, window, reached, stop)
}

impl From<Run> for Held {
    ghost from_gives = { λ run r. r ≡ held_of run };

    fn from(run: Run) -> Held {
        let run_plan = run.plan;
        let psi = run.psi;
        let last = run.last;
        let window = run.window;
        let progress = run.progress;
        let halt = run.halt;
        let rest = rest_of(psi, run.slack, last, window, progress, halt);
        let plan = HeldPlan::from(run_plan);
        Held { rest, plan }
    }
}

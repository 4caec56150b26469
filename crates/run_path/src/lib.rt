// One path: "Paths are loaded up to a waiting or final state".
#![tactic(auto)]

ghost use Rattle.std.specs.Prelude.{◌≡◌, ◌≤◌};
ghost use Rattle.plan.specs.Limits.{InLimits, OutputNames};
ghost use Rattle.run_path.specs.Path.{is_work, activity_number, path_from, longest_path};
ghost use Rattle.run_path.specs.Pathed.{ProgressIn, Leads, pathed};
ghost use Rattle.run_path.specs.Inner.Path.{emitted_of, emitted_count, entry_of, counted_of, is_kept};

use activity::activity_of;
use automaton::{Next, next_of};
use plan::{Activity, Kind, Node, Output, Plan};
use run_window::{Entry, Phase, WINDOW, vacant};
use time::Specified;
use times::Progress;
use times::engine::advance;

// A path: its entries, all counted and the first 512 kept, and where it ends; fixed memory. The flag stands beside them, since
// `path_from` gives the entries before the limit too.
#[derive(Clone, Copy)]
pub struct Pathed {
    // it passes a limit of time or position (number 44)
    pub beyond: bool,
    pub entries: [Entry; WINDOW],
    pub count: usize,
    pub progress: Progress,
}

// "action and event nodes"
pub fn is_work(kind: Kind) -> bool
    ensures { result ≡ is_work kind }
{
    match kind {
        Kind::Action(_, _) => true,
        Kind::Claim(_) => false,
        Kind::Release(_) => false,
        Kind::Event(_) => true,
    }
}

// The number of the activity that a transition emits; the empty one has no nodes.
pub fn activity_number(output: Output) -> u8
    ensures { result ≡ activity_number output }
{
    match output {
        Output::Empty => 0,
        Output::Activity(a) => a,
    }
}

// The activity that a transition emits.
pub fn emitted(plan: Plan, output: Output) -> Activity
    requires { InLimits plan × OutputNames plan output }
    ensures { result ≡ emitted_of plan output }
{
    match output {
        Output::Empty => Activity {
            count: 0,
            nodes: [Node::ZERO; 64],
        },
        Output::Activity(a) => activity_of(plan, a),
    }
}

// How many nodes a transition emits whose activity has `size` of them.
fn emitted_count(output: Output, size: u8) -> u8
    ensures { result ≡ emitted_count output size }
{
    match output {
        Output::Empty => 0,
        Output::Activity(_) => size,
    }
}

// The entry of a node, which is not started.
pub fn entry_of(position: u32, number: u8, node: u8, start: Specified, end: Specified) -> Entry
    ensures { result ≡ entry_of position number node start end }
{
    Entry {
        phase: Phase::Loaded,
        position,
        activity: number,
        node,
        start,
        end,
    }
}

// How many entries a path has after a node.
fn counted(count: usize, x: Node) -> usize
    requires { count ≤ 4_096 }
    ensures { result ≡ counted_of count x }
{
    count + usize::from(is_work(x.kind))
}

// "at most 512": whether a node has an entry, and that entry a place.
fn is_kept(place: usize, x: Node) -> bool
    ensures { result ≡ is_kept place x }
{
    is_work(x.kind) && place < WINDOW
}

// The path from what a state does next, up to a waiting or final state, which an accepted plan reaches within 64 transitions. Its
// activities are copied out of the plan here, and its entries put where they stay: a function that is handed a plan or a path, or
// hands one back, copies all of it.
pub fn path(plan: Plan, mut next: Next, progress: Progress) -> Pathed
    requires in_limits { InLimits plan }
    requires leads { Leads plan.automaton.count next }
    requires progress_in { ProgressIn plan progress }
    ensures { result ≡ pathed (path_from plan longest_path next progress) }
{
    let automaton = plan.automaton;
    let mut found = Pathed {
        beyond: false,
        entries: [vacant(); WINDOW],
        count: 0,
        progress,
    };
    for _ in 0..64usize {
        let Next::Goes(t) = next else {
            return found;
        };
        let m = automaton.moves[usize::from(t)];
        let a = activity_number(m.output);
        let count = emitted_count(m.output, plan.sizes[usize::from(a)]);
        let mut nodes = [Node::ZERO; 64];
        for n in 0..usize::from(count) {
            nodes[n] = plan.nodes[64 * usize::from(a) + n];
        }
        let g = found.progress;
        let advanced = advance(plan.resources, Activity { count, nodes }, m.input, m.to, g);
        if advanced.beyond {
            found.beyond = true;
            return found;
        }
        let times = advanced.schedule;
        for n in 0..usize::from(count) {
            let at = found.count;
            found.count = counted(at, nodes[n]);
            if is_kept(at, nodes[n]) {
                found.entries[at] = entry_of(g.position, a, n as u8, times.start[n], times.end[n]);
            }
        }
        found.progress = advanced.progress;
        next = next_of(automaton, found.progress.state);
    }
    found
}

// The window: "loaded action and event nodes not yet reported complete, at most 512".
#![tactic(auto)]

ghost use Rattle.std.specs.Prelude.{◌≡◌, ◌≤◌};
ghost use Rattle.time.specs.Time.{horizon};
ghost use Rattle.run_window.specs.Window.{vacant, is_free, started_of, is_overdue, is_late, is_due, is_node, node_place};
ghost use Rattle.run_window.specs.Inner.Times.{InTime};

use time::{Clock, Specified};

mod places; // the whole window
pub mod search; // the first of what a call looks for

// the most nodes that the window holds
pub const WINDOW: usize = 512;

pub use places::{is_empty, place_of, vacancies};
pub use search::look;

// What a place of the window holds: nothing, a loaded node, or a started one.
#[derive(Clone, Copy, PartialEq, Eq)]
pub enum Phase {
    Free,
    Loaded,
    Started,
}

// A place of the window: an action or event node, loaded and not yet reported complete.
#[derive(Clone, Copy)]
pub struct Entry {
    pub start: Specified,
    pub end: Specified,
    pub position: u32,
    pub activity: u8,
    pub node: u8,
    pub phase: Phase,
}

// A place of the window and its entry.
#[derive(Clone, Copy)]
pub struct Found {
    pub place: usize,
    pub entry: Entry,
}

// What a call finds in the window: the first that is overdue, the first that is late, and the first of what else is sought.
#[derive(Clone, Copy)]
pub struct Seen {
    pub overdue: Option<Found>,
    pub late: Option<Found>,
    pub sought: Option<Found>,
}

// The first of what is sought so far, and its rank.
#[derive(Clone, Copy)]
pub struct Ranked {
    pub found: Option<Found>,
    pub rank: u64,
}

// What a call finds where no start ties, so that no rank decides.
#[derive(Clone, Copy)]
pub enum Scan {
    Tied,
    Untied(Seen),
}

// What is looked for in the window.
#[derive(Clone, Copy)]
pub enum Sought {
    // Ψ and the reading
    Overdue(Clock, Clock),
    // Ψ, slack and the reading
    Late(Clock, u64, Clock),
    // Ψ and the reading
    Due(Clock, Clock),
    // position and node
    Node(u32, u8),
}

// ---- one place

// A place that holds nothing.
pub fn vacant() -> Entry
    ensures { result ≡ vacant }
{
    Entry {
        phase: Phase::Free,
        position: 0,
        activity: 0,
        node: 0,
        start: Specified(0),
        end: Specified(0),
    }
}

// The same node, started.
pub fn started(e: Entry) -> Entry
    ensures { result ≡ started_of e }
{
    Entry {
        phase: Phase::Started,
        ..e
    }
}

pub fn is_free(e: Entry) -> bool
    ensures { result ≡ is_free e.phase }
{
    e.phase == Phase::Free // a started node keeps its place until it is reported
}

// "the reading is at or past Ψ + completion of a started, unreported node"
pub fn is_overdue(psi: Clock, t: Clock, e: Entry) -> bool
    requires { (psi.0 ≤ horizon) × InTime e }
    ensures { result ≡ is_overdue psi t e }
{
    e.phase == Phase::Started && time::to_clock(psi, e.end).0 <= t.0
}

// "the reading exceeds Ψ + start + slack of an unstarted node"
pub fn is_late(psi: Clock, slack: u64, t: Clock, e: Entry) -> bool
    requires { (psi.0 ≤ horizon) × (slack ≤ horizon) × InTime e }
    ensures { result ≡ is_late psi slack t e }
{
    e.phase == Phase::Loaded && t.0 > time::to_clock(psi, e.start).0 + slack
}

// "the due, unstarted node"
pub fn is_due(psi: Clock, t: Clock, e: Entry) -> bool
    requires { (psi.0 ≤ horizon) × InTime e }
    ensures { result ≡ is_due psi t e }
{
    e.phase == Phase::Loaded && time::to_clock(psi, e.start).0 <= t.0
}

// "A node's identity is its position and its node number."
pub fn is_node(position: u32, node: u8, e: Entry) -> bool
    ensures { result ≡ is_node position node e }
{
    if is_free(e) {
        return false;
    }
    e.position == position && e.node == node
}

// Where its node stands among the nodes of the plan.
pub fn node_place(e: Entry) -> usize
    ensures { result ≡ node_place e }
{
    64 * usize::from(e.activity) + usize::from(e.node)
}

// The window, read from its numbers: no window is made of them.
ghost use Rattle.std.specs.Prelude.{map, ◌≡◌, ◌≤◌};
ghost use Rattle.time.specs.Time.{horizon};
ghost use Rattle.run_limits.specs.Window.{window_in_limits};
ghost use Rattle.run_window.specs.Window.{is_empty};
ghost use Rattle.run_window.specs.Inner.Times.{AllInTime, AllNamed};
ghost use Rattle.run_window.specs.Inner.Search.{SoughtInTime, Scanned, seen_of};
ghost use Rattle.held.specs.Held.{entry_of, node_of};

use held::{HeldPlan, HeldRest};
use plan::Node;
use run_window::{Entry, Ranked, Scan, Seen, Sought, WINDOW, search};
use time::Clock;

// Every place of the window.
pub fn window_in_limits(activities: u8, sizes: [u8; 32], rest: HeldRest) -> bool
    ensures { result ≡ window_in_limits activities sizes (map entry_of rest.window) }
{
    rest.window.iter().all(|&h| run_limits::places::entry_in_limits(
        activities,
        sizes,
        Entry::from(h),
    ))
}

pub fn is_empty(rest: HeldRest) -> bool
    ensures { result ≡ is_empty (map entry_of rest.window) }
{
    rest.window
        .iter()
        .all(|&h| run_window::is_free(Entry::from(h)))
}

// What a call finds, as long as no start ties.
pub fn scan(rest: HeldRest, psi: Clock, slack: u64, t: Clock, sought: Sought) -> Scan
    requires { (psi.0 ≤ horizon) × (slack ≤ horizon) × SoughtInTime sought × AllInTime (map entry_of rest.window) }
    ensures { Scanned psi slack t sought (map entry_of rest.window) result }
{
    let held = rest.window;
    let none = Ranked {
        found: None,
        rank: 0,
    };
    let mut overdue = none;
    let mut late = none;
    let mut best = none;
    for i in (0..WINDOW).rev() {
        let e = Entry::from(held[i]);
        if !search::is_noticed(psi, slack, t, sought, e) {
            continue;
        }
        if search::ties_either(psi, slack, t, sought, e, late, best) {
            return Scan::Tied;
        }
        overdue = search::kept(Sought::Overdue(psi, t), i, e, 0, overdue);
        late = search::kept(Sought::Late(psi, slack, t), i, e, 0, late);
        best = search::kept(sought, i, e, 0, best);
    }
    Scan::Untied(search::seen(overdue, late, best))
}

// The same by the rank of each node.
pub fn look_by_rank(
    rest: HeldRest,
    plan: HeldPlan,
    psi: Clock,
    slack: u64,
    t: Clock,
    sought: Sought,
) -> Seen
    requires { (psi.0 ≤ horizon) × (slack ≤ horizon) × SoughtInTime sought × AllInTime (map entry_of rest.window) × AllNamed (map entry_of rest.window) }
    ensures { result ≡ seen_of (map node_of plan.nodes) psi slack t sought (map entry_of rest.window) }
{
    let held_window = rest.window;
    let held_nodes = plan.nodes;
    let none = Ranked {
        found: None,
        rank: 0,
    };
    let mut overdue = none;
    let mut late = none;
    let mut best = none;
    for i in (0..WINDOW).rev() {
        let e = Entry::from(held_window[i]);
        if !search::is_noticed(psi, slack, t, sought, e) {
            continue;
        }
        let k = run_window::node_place(e);
        let node = Node::from(held_nodes[k]);
        let kind = node.kind;
        let r = search::rank(kind);
        overdue = search::kept(Sought::Overdue(psi, t), i, e, r, overdue);
        late = search::kept(Sought::Late(psi, slack, t), i, e, r, late);
        best = search::kept(sought, i, e, r, best);
    }
    search::seen(overdue, late, best)
}

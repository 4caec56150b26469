// The first of what a call looks for, in the order of ties: "Ties in specified start now go by peripheral number, events after all
// actions, then position, then node."
ghost use Rattle.std.specs.Prelude.{◌≡◌, ◌≤◌};
ghost use Rattle.time.specs.Time.{horizon};
ghost use Rattle.run_window.specs.Window.{before, rank, served};
ghost use Rattle.run_window.specs.Inner.Times.{InTime, AllInTime, AllNamed};
ghost use Rattle.run_window.specs.Inner.Search.{is_sought, SoughtInTime, is_noticed, goes_by, better_by, kept_by, is_tied, either_tied, seen_by, seen_of, Scanned};

use crate::{
    Entry, Found, Ranked, Scan, Seen, Sought, WINDOW, is_due, is_late, is_node, is_overdue,
    node_place,
};
use plan::{Kind, NODES, Node};
use time::Clock;

// Of two entries with the numbers x and y, whether the first goes before the second: by number, then position, then node.
fn before(x: u64, y: u64, a: Entry, b: Entry) -> bool
    ensures { result ≡ before x y a b }
{
    (x, a.position, a.node) < (y, b.position, b.node)
}

// "by peripheral number, events after all actions"
pub fn rank(kind: Kind) -> u64
    ensures { result ≡ rank kind }
{
    match kind {
        Kind::Action(_, p) => u64::from(p),
        Kind::Claim(_) => 64,
        Kind::Release(_) => 64,
        Kind::Event(_) => 64,
    }
}

// Of two entries with the ranks x and y: by start, then rank, then position, then node.
fn served(x: u64, y: u64, a: Entry, b: Entry) -> bool
    ensures { result ≡ served x y a b }
{
    (a.start.0, x, a.position, a.node) < (b.start.0, y, b.position, b.node)
}

// "the earliest completion" of those that are overdue, the first served of those that are late or due.
fn goes_before(sought: Sought, x: u64, y: u64, a: Entry, b: Entry) -> bool
    ensures { result ≡ goes_by sought x y a b }
{
    match sought {
        Sought::Overdue(_, _) => before(a.end.0, b.end.0, a, b),
        Sought::Late(_, _, _) => served(x, y, a, b),
        Sought::Due(_, _) => served(x, y, a, b),
        Sought::Node(_, _) => before(a.start.0, b.start.0, a, b),
    }
}

fn is_sought(sought: Sought, e: Entry) -> bool
    requires { SoughtInTime sought × InTime e }
    ensures { result ≡ is_sought sought e }
{
    match sought {
        Sought::Overdue(psi, t) => is_overdue(psi, t, e),
        Sought::Late(psi, slack, t) => is_late(psi, slack, t, e),
        Sought::Due(psi, t) => is_due(psi, t, e),
        Sought::Node(position, node) => is_node(position, node, e),
    }
}

// Entry e of rank r at place i, unless what was found behind it goes before it.
fn better(sought: Sought, i: usize, e: Entry, r: u64, rest: Ranked) -> Ranked
    ensures { result ≡ better_by sought i e r rest }
{
    if let Some(behind) = rest.found {
        if goes_before(sought, rest.rank, r, behind.entry, e) {
            return rest;
        }
    }
    Ranked {
        found: Some(Found { place: i, entry: e }),
        rank: r,
    }
}

// What is sought of place i with entry e and of what was found behind it.
pub fn kept(sought: Sought, i: usize, e: Entry, r: u64, rest: Ranked) -> Ranked
    requires { SoughtInTime sought × InTime e }
    ensures { result ≡ kept_by sought i e r rest }
{
    if is_sought(sought, e) {
        return better(sought, i, e, r, rest);
    }
    rest
}

// Whether an entry is overdue, late, or what is sought. Most of a window is none of these, and `look` passes it by.
pub fn is_noticed(psi: Clock, slack: u64, t: Clock, sought: Sought, e: Entry) -> bool
    requires { (psi.0 ≤ horizon) × (slack ≤ horizon) × SoughtInTime sought × InTime e }
    ensures { result ≡ is_noticed psi slack t sought e }
{
    is_overdue(psi, t, e) || is_late(psi, slack, t, e) || is_sought(sought, e)
}

// What was found, without the ranks.
pub fn seen(overdue: Ranked, late: Ranked, best: Ranked) -> Seen
    ensures { result ≡ seen_by overdue late best }
{
    Seen {
        overdue: overdue.found,
        late: late.found,
        sought: best.found,
    }
}

// Whether an entry that is sought has the same start as what was found behind it.
fn ties(sought: Sought, e: Entry, rest: Ranked) -> bool
    requires { SoughtInTime sought × InTime e }
    ensures { result ≡ is_tied sought e rest }
{
    match rest.found {
        Some(behind) if behind.entry.start.0 == e.start.0 => is_sought(sought, e),
        _ => false,
    }
}

// Whether it does so among those that are late, or among what is sought.
pub fn ties_either(
    psi: Clock,
    slack: u64,
    t: Clock,
    sought: Sought,
    e: Entry,
    late: Ranked,
    best: Ranked,
) -> bool
    requires { (psi.0 ≤ horizon) × (slack ≤ horizon) × SoughtInTime sought × InTime e }
    ensures { result ≡ either_tied psi slack t sought e late best }
{
    ties(Sought::Late(psi, slack, t), e, late) || ties(sought, e, best)
}

// What a call finds, as long as no start ties.
fn scan(window: [Entry; WINDOW], psi: Clock, slack: u64, t: Clock, sought: Sought) -> Scan
    requires { (psi.0 ≤ horizon) × (slack ≤ horizon) × SoughtInTime sought × AllInTime window }
    ensures { Scanned psi slack t sought window result }
{
    let none = Ranked {
        found: None,
        rank: 0,
    };
    let mut overdue = none;
    let mut late = none;
    let mut best = none;
    for i in (0..WINDOW).rev() {
        let e = window[i];
        if !is_noticed(psi, slack, t, sought, e) {
            continue;
        }
        if ties_either(psi, slack, t, sought, e, late, best) {
            return Scan::Tied;
        }
        overdue = kept(Sought::Overdue(psi, t), i, e, 0, overdue);
        late = kept(Sought::Late(psi, slack, t), i, e, 0, late);
        best = kept(sought, i, e, 0, best);
    }
    Scan::Untied(seen(overdue, late, best))
}

// What a call finds, by the rank of each node. No call within the loop takes the nodes: it would copy them.
fn look_by_rank(
    window: [Entry; WINDOW],
    nodes: [Node; NODES],
    psi: Clock,
    slack: u64,
    t: Clock,
    sought: Sought,
) -> Seen
    requires { (psi.0 ≤ horizon) × (slack ≤ horizon) × SoughtInTime sought × AllInTime window × AllNamed window }
    ensures { result ≡ seen_of nodes psi slack t sought window }
{
    let none = Ranked {
        found: None,
        rank: 0,
    };
    let mut overdue = none;
    let mut late = none;
    let mut best = none;
    for i in (0..WINDOW).rev() {
        let e = window[i];
        if !is_noticed(psi, slack, t, sought, e) {
            continue;
        }
        let k = node_place(e);
        let node = nodes[k];
        let kind = node.kind;
        let r = rank(kind);
        overdue = kept(Sought::Overdue(psi, t), i, e, r, overdue);
        late = kept(Sought::Late(psi, slack, t), i, e, r, late);
        best = kept(sought, i, e, r, best);
    }
    seen(overdue, late, best)
}

// Of those that are overdue, of those that are late and of what is sought, the first in the order of ties; of two like places
// the lower one. The nodes are looked at, and copied, only where two starts are equal.
pub fn look(
    window: [Entry; WINDOW],
    nodes: [Node; NODES],
    psi: Clock,
    slack: u64,
    t: Clock,
    sought: Sought,
) -> Seen
    requires { (psi.0 ≤ horizon) × (slack ≤ horizon) × SoughtInTime sought × AllInTime window × AllNamed window }
    ensures { result ≡ seen_of nodes psi slack t sought window }
{
    let scanned = scan(window, psi, slack, t, sought);
    match scanned {
        Scan::Untied(seen) => seen,
        Scan::Tied => look_by_rank(window, nodes, psi, slack, t, sought),
    }
}

// The checks of a call: "Order at a call: 50, kept stop, 51, 42, 41, 52 to 55." Each takes the parts of a run that it needs.
#![tactic(auto)]

ghost use Rattle.std.specs.Prelude.{true, ◌≡◌, Ok, Err};
ghost use Rattle.run_window.specs.Inner.Search.{SoughtInTime, first_of};
ghost use Rattle.run_checks.specs.Order.{Timed, overdue_then, late_then, timely_by, called_by, reported_by};
ghost use Rattle.run_checks.specs.Inner.Report.{named};

use plan::{NODES, Node};
use run_window::{Entry, Found, Phase, Seen, Sought, WINDOW};
use time::Clock;

pub mod bounds;

// Why a run has stopped. Document 01's number for each case is `stop_number` in run/specs/Numbers.antt.
#[derive(Clone, Copy)]
pub enum Stop {
    // position and node of the unstarted node with the earliest start
    Late(u32, u8),
    // position and node of the started node with the earliest completion
    Overdue(u32, u8),
    // the window would pass 512
    Full,
    // a completion or availability of the next path above 10^15, or a position above 1,000,000,000
    Beyond,
}

// Why a call, or a message that is none, is refused. Document 01's number for each case is `refusal_number` in
// run/specs/Numbers.antt.
#[derive(Clone, Copy)]
pub enum Refusal {
    // a run in which a stored count, number or time lies outside the limits
    OutOfLimits,
    // reading below the last one
    ReadingBelow,
    // no such node in the window
    NoSuchNode,
    // node not started
    NotStarted,
    // completion of an event or outcome of an action
    OtherKind,
    // outcome the event lacks
    OutcomeLacking,
    // a message whose map is not listed for its direction, or with a number that no such answer has: no call gets it
    Unlisted,
    // a message that is empty or has another length than its map: no call gets it
    Length,
}

// When a call comes: Ψ, the slack, the last reading and this one.
#[derive(Clone, Copy)]
pub struct Moment {
    pub psi: Clock,
    pub slack: u64,
    pub last: Clock,
    pub t: Clock,
}

// What the checks at a call object to: a refusal, the stop that the run keeps, or a stop at this reading.
#[derive(Clone, Copy)]
pub enum Objection {
    Refuses(Refusal),
    Keeps(Stop),
    Stops(Stop),
}

// ---- 50, kept stop, 51, 42, 41

// 41: "the reading exceeds Ψ + start + slack of an unstarted node, naming the one with the earliest start"
fn check_late(late: Option<Found>) -> Result<(), Objection>
    ensures { result ≡ late_then late Err (Ok tt) }
{
    match late {
        Some(Found { entry, .. }) => {
            Err(Objection::Stops(Stop::Late(entry.position, entry.node)))
        }
        None => Ok(()),
    }
}

// 42: "the reading is at or past Ψ + completion of a started, unreported node, naming the one with the earliest
// completion"
fn check_overdue(overdue: Option<Found>) -> Result<(), Objection>
    ensures { result ≡ overdue_then overdue Err (Ok tt) }
{
    match overdue {
        Some(Found { entry, .. }) => {
            Err(Objection::Stops(Stop::Overdue(entry.position, entry.node)))
        }
        None => Ok(()),
    }
}

// 42, then 41, of what a call has found in the window; where they object to nothing, the first of what the call looks for.
pub fn check_seen(seen: Seen) -> Result<Option<Found>, Objection>
    ensures { result ≡ overdue_then seen.overdue Err (late_then seen.late Err (Ok seen.sought)) }
{
    check_overdue(seen.overdue)?;
    check_late(seen.late)?;
    Ok(seen.sought)
}

// 51: "reading below the last one"; then 42, then 41.
fn check_reading(
    m: Moment,
    window: [Entry; WINDOW],
    nodes: [Node; NODES],
    sought: Sought,
) -> Result<Option<Found>, Objection>
    requires { Timed m window × SoughtInTime sought }
    ensures { result ≡ timely_by m nodes window Err (Ok (first_of nodes sought window)) }
{
    if m.t.0 < m.last.0 {
        return Err(Objection::Refuses(Refusal::ReadingBelow));
    }
    let seen = run_window::look(window, nodes, m.psi, m.slack, m.t, sought);
    check_seen(seen)
}

// 50, and the stop that a run keeps; then the others.
pub fn check_call(
    limits: bool,
    halt: Option<Stop>,
    m: Moment,
    window: [Entry; WINDOW],
    nodes: [Node; NODES],
    sought: Sought,
) -> Result<Option<Found>, Objection>
    requires { limits ≡ true → Timed m window × SoughtInTime sought }
    ensures { result ≡ called_by limits halt m nodes window Err (Ok (first_of nodes sought window)) }
{
    if !limits {
        return Err(Objection::Refuses(Refusal::OutOfLimits));
    }
    if let Some(s) = halt {
        return Err(Objection::Keeps(s));
    }
    check_reading(m, window, nodes, sought)
}

// ---- 52, 53

// What a report names, a started node of the window. 52: "no such node in the window"; 53: "node not started".
pub fn report_of(found: Option<Found>) -> Result<Found, Refusal>
    ensures { result ≡ reported_by found named Err }
{
    let found = found.ok_or(Refusal::NoSuchNode)?;
    if found.entry.phase != Phase::Started {
        return Err(Refusal::NotStarted);
    }
    Ok(found)
}

// What a call does to a run: decided from what the checks say, the kind of the node that they found and how many outcomes that
// node has. None of these functions is handed the run: who takes a run by value copies it.
ghost use Rattle.std.specs.Prelude.{◌≡◌};
ghost use Rattle.run_checks.specs.Inner.Report.{on_report};
ghost use Rattle.run.specs.Calls.{reading_of};
ghost use Rattle.run.specs.Inner.Effects.{sought_by, found_by, place_of, outcomes_for, refusing, completes_by, hears_as, learns_as, starts_by, effect_for, effect_on, effect_of};

use crate::{Call, Checked, Effect, Refusal, Reply};
use plan::Kind;
use run_checks::Objection;
use run_window::{Entry, Found, Sought};
use time::Clock;

// ---- what the checks are given and what they found

// The reading that a call carries.
pub fn reading_of(c: Call) -> Clock
    ensures { result ≡ reading_of c }
{
    match c {
        Call::Ask(t) => t,
        Call::Completion(t, _, _) => t,
        Call::Outcome(t, _, _, _) => t,
    }
}

// An ask looks for the first due node, a report for the node that it names.
pub fn sought_by(psi: Clock, c: Call) -> Sought
    ensures { result ≡ sought_by psi c }
{
    match c {
        Call::Ask(t) => Sought::Due(psi, t),
        Call::Completion(_, p, n) => Sought::Node(p, n),
        Call::Outcome(_, p, n, _) => Sought::Node(p, n),
    }
}

// Where the node that they found stands among the nodes of the plan; 0 where they found none.
pub fn place_of(check: Result<Option<Found>, Objection>) -> usize
    ensures { result ≡ place_of (found_by check) }
{
    match check {
        Ok(Some(found)) => run_window::node_place(found.entry),
        Ok(None) | Err(_) => 0,
    }
}

// How many outcomes the event of a node has; 0 for another node.
pub fn outcomes_for(kind: Kind, outcomes: [u8; 16]) -> u8
    ensures { result ≡ outcomes_for outcomes kind }
{
    match kind {
        Kind::Event(e) if e < 16 => outcomes[usize::from(e)],
        _ => 0,
    }
}

// ---- the effect

// "A refused call hands back the run exactly as it came in."
fn refusing(f: Refusal) -> Effect
    ensures { result ≡ refusing f }
{
    Effect::Stays(Reply::Refused(f))
}

// The reported action leaves the window; 54: "completion of an event".
fn completes(i: usize, kind: Kind) -> Effect
    ensures { result ≡ completes_by i kind }
{
    match kind {
        Kind::Action(_, _) => Effect::Stores(i, run_window::vacant(), Reply::Taken),
        Kind::Claim(_) => refusing(Refusal::OtherKind),
        Kind::Release(_) => refusing(Refusal::OtherKind),
        Kind::Event(_) => refusing(Refusal::OtherKind),
    }
}

// An outcome that the event has; of a marker, "Its report closes the node and is not queued."
fn hears(i: usize, x: Entry, e: u8, o: u8, most: u8) -> Effect
    ensures { result ≡ hears_as i x e o most }
{
    if most == 1 {
        return Effect::Stores(i, run_window::vacant(), Reply::Taken);
    }
    Effect::Learns(i, x, e, o)
}

// 54: "outcome of an action"; 55: "outcome the event lacks".
fn learns(i: usize, x: Entry, o: u8, kind: Kind, most: u8) -> Effect
    ensures { result ≡ learns_as i x o most kind }
{
    let Kind::Event(e) = kind else {
        return refusing(Refusal::OtherKind);
    };
    if o < most {
        return hears(i, x, e, o, most);
    }
    refusing(Refusal::OutcomeLacking)
}

// "Ask starts the due, unstarted node with the earliest specified start"
fn of_ask(found: Option<Found>) -> Effect
    ensures { result ≡ starts_by found }
{
    match found {
        None => Effect::Rests,
        Some(Found { place, entry }) => {
            Effect::Stores(
                place,
                run_window::started(entry),
                Reply::Start(entry.position, entry.activity, entry.node),
            )
        }
    }
}

fn of_completion(report: Result<Found, Refusal>, kind: Kind) -> Effect
    ensures { result ≡ on_report report (λ i e. completes_by i kind) refusing }
{
    match report {
        Err(f) => refusing(f),
        Ok(found) => completes(found.place, kind),
    }
}

fn of_outcome(report: Result<Found, Refusal>, o: u8, kind: Kind, most: u8) -> Effect
    ensures { result ≡ on_report report (λ i e. learns_as i e o most kind) refusing }
{
    match report {
        Err(f) => refusing(f),
        Ok(found) => learns(found.place, found.entry, o, kind, most),
    }
}

// The effect of a call that passes its checks.
fn of_call(c: Call, found: Option<Found>, kind: Kind, most: u8) -> Effect
    ensures { result ≡ effect_on c found kind most }
{
    match c {
        Call::Ask(_) => of_ask(found),
        Call::Completion(_, _, _) => of_completion(run_checks::report_of(found), kind),
        Call::Outcome(_, _, _, o) => of_outcome(run_checks::report_of(found), o, kind, most),
    }
}

// What the checks object to.
fn of_objection(o: Objection) -> Effect
    ensures { result ≡ effect_for o }
{
    match o {
        Objection::Refuses(f) => refusing(f),
        Objection::Keeps(s) => Effect::Stays(Reply::Stopped(s)),
        Objection::Stops(s) => Effect::Stops(s),
    }
}

pub fn effect_of(c: Call, checked: Checked) -> Effect
    ensures { result ≡ effect_of c checked }
{
    match checked.check {
        Ok(found) => of_call(c, found, checked.kind, checked.most),
        Err(o) => of_objection(o),
    }
}

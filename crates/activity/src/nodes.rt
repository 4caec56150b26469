// The rules node by node: the first that one node breaks, from words of the nodes around it.
ghost use Rattle.std.specs.Prelude.{◌≡◌, List, ℕ, ◌<◌, ◌≤◌, length, get_or};
ghost use Rattle.basis.specs.Inner.Tells.{Tells};
ghost use Rattle.plan.specs.declared.Node.{Node};
ghost use Rattle.plan.specs.declared.Kind.{Kind};
ghost use Rattle.activity.specs.Rules.{Is};
ghost use Rattle.activity.specs.Inner.Sight.{past_label, label_of, held_of, Labels, Marks, Seen, InLine, Alone, Claimed, Released, Looks, Breaks, EndBreaks};
ghost use Rattle.activity.specs.Inner.Closure.{Rel};
ghost use Rattle.activity.specs.Inner.Order.{Lowest};
ghost use Rattle.activity.specs.Inner.Nodes.{At};

use crate::words::{any, filtered, has, meet, with, within};
use plan::{Fault, Kind, Node};

// What makes two nodes alike: the kind and what it names, an action's own number apart.
#[derive(Clone, Copy, PartialEq, Eq)]
pub enum Label {
    // peripheral
    Action(u8),
    // resource
    Claim(u8),
    // resource
    Release(u8),
    // event number
    Event(u8),
}

impl From<Kind> for Label {
    ghost from_gives = { λ k r. r ≡ label_of k };

    fn from(k: Kind) -> Label {
        match k {
            Kind::Action(_, p) => Label::Action(p),
            Kind::Claim(r) => Label::Claim(r),
            Kind::Release(r) => Label::Release(r),
            Kind::Event(e) => Label::Event(e),
        }
    }
}

pub(crate) fn labels(nodes: &[Node]) -> [Label; 64]
    requires { length nodes.now ≤ 64 }
    ensures { Labels nodes.now result }
{
    let mut r = [Label::Action(0); 64];
    for (n, node) in nodes.iter().enumerate() {
        r[n] = Label::from(node.kind);
    }
    r
}

// The word of the nodes with a label.
fn like(labels: &[Label], wanted: Label) -> u64
    requires { length labels.now ≤ 64 }
    ensures { Marks result (λ m. (m < length labels.now) × (get_or labels.now m past_label ≡ wanted)) }
{
    filtered(labels.len(), |m| labels[m] == wanted)
}

// The word of the nodes that n is before.
fn after(before: &[u64], n: usize) -> u64
    requires { (length before.now ≤ 64) × (n < 64) }
    ensures { Marks result (λ m. (m < length before.now) × Rel before.now n m) }
{
    filtered(before.len(), |m| has(before[m], n))
}

// The resource of an action's peripheral, of a claim or of a release.
pub(crate) fn held(k: Kind, belongs: &[u8; 64]) -> u8
    requires { length belongs.now ≡ 64 }
    ensures { result ≡ held_of (λ p. get_or belongs.now p 0) k }
{
    match k {
        Kind::Action(_, p) => belongs.get(usize::from(p)).copied().unwrap_or(0),
        Kind::Claim(r) | Kind::Release(r) => r,
        Kind::Event(_) => 0,
    }
}

// What is seen of a node: words of itself, of the nodes before it, after it and like it, and of the claims and releases of
// its resource.
#[derive(Clone, Copy)]
pub struct Sight {
    pub own: u64,
    pub before: u64,
    pub after: u64,
    pub same: u64,
    pub claims: u64,
    pub releases: u64,
}

// What is seen of node n, whose kind is k.
pub(crate) fn look(before: &[u64], labels: &[Label], k: Kind, resource: u8, n: usize) -> Sight
    requires { (length labels.now ≤ 64) × (length before.now ≡ length labels.now) × (n < length labels.now) }
    ensures { Looks before.now labels.now k resource n result }
{
    Sight {
        own: with(0, n),
        before: before[n],
        after: after(before, n),
        same: like(labels, Label::from(k)),
        claims: like(labels, Label::Claim(resource)),
        releases: like(labels, Label::Release(resource)),
    }
}

impl Sight {
    // Whether every other node like this one is ordered with it.
    fn in_line(self) -> bool
        ensures { (belongs : ℕ → ℕ) (a : List Node) (n : ℕ) → Seen belongs a n self → Tells result (InLine a n) }
    {
        within(self.same, self.own | self.before | self.after)
    }

    // Whether no other node is like this one.
    fn alone(self) -> bool
        ensures { (belongs : ℕ → ℕ) (a : List Node) (n : ℕ) → Seen belongs a n self → Tells result (Alone a n) }
    {
        within(self.same, self.own)
    }

    // Whether a claim of the node's resource is before it.
    fn claimed(self) -> bool
        ensures { (belongs : ℕ → ℕ) (a : List Node) (n : ℕ) → Seen belongs a n self → Tells result (Claimed belongs a n) }
    {
        meet(self.claims, self.before)
    }

    // Whether a release of the node's resource is after it.
    fn released(self) -> bool
        ensures { (belongs : ℕ → ℕ) (a : List Node) (n : ℕ) → Seen belongs a n self → Tells result (Released belongs a n) }
    {
        meet(self.releases, self.after)
    }

    // The first rule that an action breaks.
    fn action(self) -> Result<(), Fault>
        ensures { (x p : ℕ) → Breaks self (Kind.Action x p) result }
    {
        if !self.in_line() {
            return Err(Fault::ActionsUnordered);
        }
        if !self.claimed() || !self.released() {
            return Err(Fault::ActionUnheld);
        }
        Ok(())
    }

    // The first rule that a claim or a release breaks: whether its partner is there, and the nodes past its free end.
    fn end(self, paired: bool, past: u64) -> Result<(), Fault>
        ensures { EndBreaks self paired past result }
    {
        if !self.alone() {
            return Err(Fault::NamedTwice);
        }
        if !paired {
            return Err(Fault::ClaimUnpaired);
        }
        if any(past) {
            return Err(Fault::ArrowPastEnd);
        }
        Ok(())
    }

    // The first rule that an event breaks.
    fn event(self) -> Result<(), Fault>
        ensures { (e : ℕ) → Breaks self (Kind.Event e) result }
    {
        if !any(self.before) {
            return Err(Fault::EventFirst);
        }
        if !self.in_line() {
            return Err(Fault::EventsUnordered);
        }
        Ok(())
    }

    // The first rule that a node of kind k breaks.
    pub(crate) fn fault(self, k: Kind) -> Result<(), Fault>
        ensures { (belongs : ℕ → ℕ) (a : List Node) (n : ℕ) → Is a n k → Seen belongs a n self → Lowest (At belongs a n) result }
    {
        if meet(self.before, self.own) {
            return Err(Fault::Cycle);
        }
        match k {
            Kind::Action(_, _) => self.action(),
            Kind::Claim(_) => self.end(self.released(), self.before),
            Kind::Release(_) => self.end(self.claimed(), self.after),
            Kind::Event(_) => self.event(),
        }
    }
}

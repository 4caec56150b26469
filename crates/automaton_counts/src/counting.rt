// The events pending along the paths from the initial state: one count of each event for each state reached.
ghost use Rattle.std.specs.Prelude.{false, ◌≡◌, ℕ, ◌+◌, ◌*◌, ◌<◌, ◌≤◌, length};
ghost use Rattle.basis.specs.Inner.Tells.{Tells};
ghost use Rattle.automaton.specs.Tests.{at};
ghost use Rattle.automaton.specs.Rules.{takes};
ghost use Rattle.automaton.specs.Inner.Counts.{OutputOk, MoveOk, InRange, Ready, Known};
ghost use Rattle.automaton.specs.Inner.Passes.{Advanced, Going};
ghost use Rattle.automaton_counts.specs.Inner.Emits.{gives, Few};

use automaton::Explored;
use plan::{Automaton, Input, Output, Transition};

pub(crate) fn taken(input: Input, e: usize) -> u16
    ensures { result ≡ takes input e }
{
    match input {
        Input::Outcome(f, _) if usize::from(f) == e => 1,
        _ => 0,
    }
}

// What the activities emit: at 16 * activity + event how many of the event the activity emits, of its 64 nodes at most.
#[derive(Clone, Copy)]
pub struct Emits {
    pub table: [u8; 512],
    pub ghost few: { Few table },
}

impl Emits {
    // How many of event e the output emits.
    pub(crate) fn given(&self, output: Output, e: usize) -> u16
        requires output_ok { OutputOk output }
        requires e_bound { e < 16 }
        ensures { result ≡ gives self.now.table output e }
    {
        match output {
            Output::Empty => 0,
            Output::Activity(k) => u16::from(self.table[16 * usize::from(k) + e]),
        }
    }
}

// Whether what the transition processes is pending at its from-state.
fn ready(t: &Transition, counts: &[u16; 1024]) -> bool
    requires { MoveOk 64 t.now }
    ensures { Tells result (Ready counts.now t.now.from t.now.input) }
{
    match t.input {
        Input::Nothing => true,
        Input::Outcome(f, _) => counts[16 * usize::from(t.from) + usize::from(f)] > 0,
    }
}

fn blank() -> [u16; 1024]
    ensures { (k : ℕ) → at result k ≡ 0 }
{
    [0u16; 1024]
}

// Sets the counts of the transition's to-state, from those of its from-state: it processes first, then emits.
fn advance(counts: &mut [u16; 1024], t: &Transition, emits: &Emits)
    requires move_ok { MoveOk 64 t.now × (t.now.from ≡ t.now.to → ⊥) }
    requires by_index { (e : ℕ) → e < 16 → takes t.now.input e ≤ at counts.old (16 * t.now.from + e) }
    requires counts_len { (length counts.old ≡ 1024) × ((k : ℕ) → at counts.old k ≤ 4096) }
    ensures { Advanced (gives emits.now.table) counts.old t.now.from t.now.to t.now.input t.now.output 16 counts.new }
{
    let from = 16 * usize::from(t.from);
    let to = 16 * usize::from(t.to);
    for e in 0..16usize {
        counts[to + e] = counts[from + e] - taken(t.input, e) + emits.given(t.output, e);
    }
}

// One pass over the transitions: one that leaves a reached state, where what it processes is pending, reaches its to-state.
// Whether the pass reached one.
fn pass(a: &Automaton, emits: &Emits, x: &mut Explored) -> bool
    requires in_range { InRange a.now }
    requires going { Going a.now (gives emits.now.table) x.old.reached 0 x.old.reached x.old.counts false }
    ensures { Going a.now (gives emits.now.table) x.old.reached a.now.count x.new.reached x.new.counts result }
{
    let mut changed = false;
    for t in &a.moves[..usize::from(a.count)] {
        let to = usize::from(t.to);
        if !x.reached[usize::from(t.from)] || x.reached[to] || !ready(t, &x.counts) {
            continue;
        }
        advance(&mut x.counts, t, emits);
        x.reached[to] = true;
        changed = true;
    }
    changed
}

// One count of each event for each state that a path from the initial one reaches, until a pass over the transitions reaches nothing new.
pub(crate) fn explore(a: &Automaton, emits: &Emits) -> Explored
    requires { InRange a.now }
    ensures { Known a.now (gives emits.now.table) result.reached result.counts }
{
    let mut x = Explored {
        reached: [false; 64],
        counts: blank(),
    };
    x.reached[usize::from(a.initial)] = true;
    while pass(a, emits, &mut x) {}
    x
}

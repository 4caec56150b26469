// What a state of the automaton does next. Document 01's rules on the automaton, and the verdict on it, are in specs/.
#![tactic(auto)]

ghost use Rattle.std.specs.Prelude.{◌≡◌, ◌≤◌};
ghost use Rattle.automaton.specs.Next.{on_input, first_of, next_of, carries, chosen_of};

use plan::{Automaton, Input};

// What a state does next.
#[derive(Clone, Copy)]
pub enum Next {
    // nothing leaves it
    Ended,
    // the transition that is taken without an outcome
    Goes(u16),
    // the event that is awaited
    Waits(u8),
}

// The states that paths from the initial one reach, and at 16 * state + event how many are pending there. One list of flags and one of
// counts, since `explored` and `fits` of specs/Number.antt read them so.
#[derive(Clone, Copy)]
pub struct Explored {
    pub reached: [bool; 64],
    pub counts: [u16; 1024],
}

fn on_input(input: Input, i: u16) -> Next
    ensures { result ≡ on_input input i }
{
    match input {
        Input::Nothing => Next::Goes(i),
        Input::Outcome(e, _) => Next::Waits(e),
    }
}

// What the first way out says, in file order.
pub fn first_of(a: Automaton, s: u8) -> Next
    requires { a.count ≤ 256 }
    ensures { result ≡ first_of a s }
{
    for (i, t) in a.moves[..usize::from(a.count)].iter().enumerate() {
        if t.from == s {
            return on_input(t.input, i as u16);
        }
    }
    Next::Ended
}

// "only a state with more than one way out is a waiting state": the first way out is kept until a second is met.
pub fn next_of(a: Automaton, s: u8) -> Next
    requires { a.count ≤ 256 }
    ensures { result ≡ next_of a s }
{
    let mut first = None;
    for (i, t) in a.moves[..usize::from(a.count)].iter().enumerate() {
        if t.from != s {
            continue;
        }
        if let Some((f, input)) = first {
            return on_input(input, f);
        }
        first = Some((i as u16, t.input));
    }
    match first {
        Some((f, _)) => Next::Goes(f),
        None => Next::Ended,
    }
}

fn carries(input: Input, e: u8, o: u8) -> bool
    ensures { result ≡ carries input e o }
{
    matches!(input, Input::Outcome(f, q) if f == e && q == o)
}

// The first transition of the state that processes event e with outcome o, if the state has one.
pub fn chosen_of(a: Automaton, s: u8, e: u8, o: u8) -> Option<u16>
    requires { a.count ≤ 256 }
    ensures { result ≡ chosen_of a s e o }
{
    for (i, t) in a.moves[..usize::from(a.count)].iter().enumerate() {
        if t.from == s && carries(t.input, e, o) {
            return Some(i as u16);
        }
    }
    None
}

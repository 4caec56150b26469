// The parts of an input: an opening, then calls and questions for a node's place. Their form is in specs/Input.antt.
#![tactic(auto)]

ghost use Rattle.std.specs.Prelude.{◌≡◌, ◌+◌, ◌*◌, ◌≤◌, ◌<◌, length, take};
ghost use Rattle.wire.specs.Number.{little};
ghost use Rattle.drive_input.specs.Input.{availabilities_from, head_of, ask_at, completion_at, outcome_at, place_at, part_at};

use run::Call;
use time::Clock;

// The numbers of an opening: the plan's length, Ψ, slack, availability count, and where the parts after it begin.
#[derive(Clone, Copy)]
pub struct Head {
    pub length: usize,
    pub psi: Clock,
    pub slack: u64,
    pub count: u8,
    pub parts: usize,
}

// What stands after the opening: a call, or a question: where does the node with this position and number stand?
#[derive(Clone, Copy)]
pub enum Part {
    Call(Call),
    Place(u32, u8),
}

// ---- a number that is there

fn two(input: &[u8], at: usize) -> usize
    requires { at + 2 ≤ length input.now }
    ensures { (result ≡ little 2 input.now at) × (result < 65536) }
{
    usize::from(wire::two(input, at))
}

// ---- the opening

// The numbers of an opening that the input holds whole, and not where it ends inside the opening.
pub fn head_of(input: &[u8]) -> Option<Head>
    ensures { result ≡ head_of input.now }
{
    let size = input.len();
    if size < 19 {
        return None;
    }
    let n = two(input, 0);
    if size < n + 19 {
        return None;
    }
    let place = n + 18;
    let count = input[place];
    let parts = n + 19 + 8 * usize::from(count);
    if size < parts {
        return None;
    }
    Some(Head {
        length: n,
        psi: Clock(wire::eight(input, n + 2)),
        slack: wire::eight(input, n + 10),
        count,
        parts,
    })
}

// The availabilities, at most 255 of them, at the front of an array.
pub fn availabilities(input: &[u8], at: usize, count: u8) -> [u64; 255]
    requires { at + 8 * count ≤ length input.now }
    ensures { take count result ≡ availabilities_from input.now at count }
{
    let mut times = [0u64; 255];
    for i in 0..usize::from(count) {
        times[i] = wire::eight(input, at + 8 * i);
    }
    times
}

// ---- a part

// Kind 0: an ask.
fn ask_at(input: &[u8], at: usize) -> Option<(Part, usize)>
    requires { at ≤ length input.now }
    ensures { result ≡ ask_at input.now at }
{
    if input.len() - at < 9 {
        return None;
    }
    let t = Clock(wire::eight(input, at + 1));
    Some((Part::Call(Call::Ask(t)), at + 9))
}

// Kind 1: the completion of an action.
fn completion_at(input: &[u8], at: usize) -> Option<(Part, usize)>
    requires { at ≤ length input.now }
    ensures { result ≡ completion_at input.now at }
{
    if input.len() - at < 14 {
        return None;
    }
    let t = Clock(wire::eight(input, at + 1));
    let position = wire::four(input, at + 9);
    let place = at + 13;
    let node = input[place];
    Some((Part::Call(Call::Completion(t, position, node)), at + 14))
}

// Kind 2: the outcome of an event.
fn outcome_at(input: &[u8], at: usize) -> Option<(Part, usize)>
    requires { at ≤ length input.now }
    ensures { result ≡ outcome_at input.now at }
{
    if input.len() - at < 15 {
        return None;
    }
    let t = Clock(wire::eight(input, at + 1));
    let position = wire::four(input, at + 9);
    let place = at + 13;
    let next = at + 14;
    let node = input[place];
    let outcome = input[next];
    Some((
        Part::Call(Call::Outcome(t, position, node, outcome)),
        at + 15,
    ))
}

// Kind 3: the question where a node stands. It has no reading.
fn place_at(input: &[u8], at: usize) -> Option<(Part, usize)>
    requires { at ≤ length input.now }
    ensures { result ≡ place_at input.now at }
{
    if input.len() - at < 6 {
        return None;
    }
    let position = wire::four(input, at + 1);
    let last = at + 5;
    let node = input[last];
    Some((Part::Place(position, node), at + 6))
}

// The part at `at` and the offset past it, if there is one: any other kind ends the list.
pub fn part_at(input: &[u8], at: usize) -> Option<(Part, usize)>
    requires { at ≤ length input.now }
    ensures { result ≡ part_at input.now at }
{
    if at == input.len() {
        return None;
    }
    let kind = input[at];
    match kind {
        0 => ask_at(input, at),
        1 => completion_at(input, at),
        2 => outcome_at(input, at),
        3 => place_at(input, at),
        _ => None,
    }
}

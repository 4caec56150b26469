// The automaton of a made-up plan.
ghost use Rattle.std.specs.Prelude.{◌≡◌, ◌≤◌};
ghost use Rattle.made.specs.Layout.{move_size, moves_from};
ghost use Rattle.made.specs.Values.{array_at, input_of, output_of, move_at};
ghost use Rattle.made.specs.Parts.{automaton_of};

use crate::layout::{COUNT, FINALS, INITIAL, MOVES, STATES};
use crate::numbers::{byte, eight, two};
use plan::{Automaton, Input, Output, Transition};

fn input_of(tag: u8, event: u8, outcome: u8) -> Input
    ensures { result ≡ input_of tag event outcome }
{
    if tag % 2 == 0 {
        return Input::Nothing;
    }
    Input::Outcome(event, outcome)
}

fn output_of(tag: u8, activity: u8) -> Output
    ensures { result ≡ output_of tag activity }
{
    if tag % 2 == 0 {
        return Output::Empty;
    }
    Output::Activity(activity)
}

fn move_at(bytes: &[u8], at: usize) -> Transition
    requires { at ≤ 65500 }
    ensures { result ≡ move_at bytes.now at }
{
    let input = input_of(
        byte(bytes, at + 2),
        byte(bytes, at + 3),
        byte(bytes, at + 4),
    );
    let output = output_of(byte(bytes, at + 5), byte(bytes, at + 6));
    Transition {
        from: byte(bytes, at),
        to: byte(bytes, at + 1),
        input,
        output,
    }
}

fn moves_of(bytes: &[u8]) -> [Transition; 256]
    ensures { result ≡ array_at move_at move_size 256 bytes.now moves_from }
{
    let first = move_at(bytes, MOVES);
    let mut moves = [first; 256];
    for (i, x) in moves.iter_mut().enumerate() {
        *x = move_at(bytes, MOVES + 7 * i);
    }
    moves
}

pub fn automaton_of(bytes: &[u8]) -> Automaton
    ensures { result ≡ automaton_of bytes.now }
{
    Automaton {
        states: byte(bytes, STATES),
        initial: byte(bytes, INITIAL),
        finals: eight(bytes, FINALS),
        count: two(bytes, COUNT),
        moves: moves_of(bytes),
    }
}

// The transitions of the automaton, 8 bytes each.
ghost use Rattle.std.specs.Prelude.{map, ◌≡◌};
ghost use Rattle.held.specs.Held.{input_of, output_of, move_of, input_number, input_event, input_outcome, output_number, output_activity, held_move};
ghost use Rattle.held.specs.Inner.Plans.{moves_upto};

use crate::HeldMove;
use plan::{Input, Output, Transition};

// C reads input and output as a number; a `From` of numbers would have to stand with `Input` and `Output`, in plan.
fn input_of(input: u8, event: u8, outcome: u8) -> Input
    ensures { result ≡ input_of input event outcome }
{
    if input == 1 {
        return Input::Outcome(event, outcome);
    }
    Input::Nothing
}

fn output_of(output: u8, activity: u8) -> Output
    ensures { result ≡ output_of output activity }
{
    if output == 1 {
        return Output::Activity(activity);
    }
    Output::Empty
}

impl From<HeldMove> for Transition {
    ghost from_gives = { λ h r. r ≡ move_of h };

    fn from(h: HeldMove) -> Transition {
        let input = input_of(h.input, h.event, h.outcome);
        let output = output_of(h.output, h.activity);
        Transition {
            from: h.from,
            to: h.to,
            input,
            output,
        }
    }
}

fn input_number(input: Input) -> u8
    ensures { result ≡ input_number input }
{
    match input {
        Input::Nothing => 0,
        Input::Outcome(_, _) => 1,
    }
}

fn input_event(input: Input) -> u8
    ensures { result ≡ input_event input }
{
    match input {
        Input::Nothing => 0,
        Input::Outcome(e, _) => e,
    }
}

fn input_outcome(input: Input) -> u8
    ensures { result ≡ input_outcome input }
{
    match input {
        Input::Nothing => 0,
        Input::Outcome(_, o) => o,
    }
}

fn output_number(output: Output) -> u8
    ensures { result ≡ output_number output }
{
    match output {
        Output::Empty => 0,
        Output::Activity(_) => 1,
    }
}

fn output_activity(output: Output) -> u8
    ensures { result ≡ output_activity output }
{
    match output {
        Output::Empty => 0,
        Output::Activity(a) => a,
    }
}

impl From<Transition> for HeldMove {
    ghost from_gives = { λ m r. r ≡ held_move m };

    fn from(m: Transition) -> HeldMove {
        let input = m.input;
        let output = m.output;
        HeldMove {
            from: m.from,
            to: m.to,
            input: input_number(input),
            event: input_event(input),
            outcome: input_outcome(input),
            output: output_number(output),
            activity: output_activity(output),
            spare: 0,
        }
    }
}

// The first transitions; behind them zeros.
pub fn moves_upto(count: u16, held: [HeldMove; 256]) -> [Transition; 256]
    ensures { result ≡ moves_upto count held }
{
    let zero = Transition {
        from: 0,
        to: 0,
        input: Input::Nothing,
        output: Output::Empty,
    };
    let mut moves = [zero; 256];
    for i in 0..usize::from(count).min(256) {
        moves[i] = Transition::from(held[i]);
    }
    moves
}

pub fn hold_moves(moves: [Transition; 256]) -> [HeldMove; 256]
    ensures { result ≡ map held_move moves }
{
    let mut held = [HeldMove::from(moves[0]); 256];
    for i in 0..256usize {
        held[i] = HeldMove::from(moves[i]);
    }
    held
}

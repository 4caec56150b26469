// Document 01's number of each refusal, stop and refused opening, and an opening's place, as code.
#![tactic(auto)]

ghost use Rattle.std.specs.Prelude.{◌≡◌};
ghost use Rattle.run.specs.Numbers.{refusal_number, stop_number, open_number, open_place};

use run::{Refusal, Stop, Unopened};

pub mod codes; // a verdict as one number

// C and the link have numbers; a `From` would have to stand with each enum, in run and run_checks.

pub fn refusal_number(f: Refusal) -> u8
    ensures { result ≡ refusal_number f }
{
    match f {
        Refusal::OutOfLimits => 50,
        Refusal::ReadingBelow => 51,
        Refusal::NoSuchNode => 52,
        Refusal::NotStarted => 53,
        Refusal::OtherKind => 54,
        Refusal::OutcomeLacking => 55,
        Refusal::Unlisted => 61,
        Refusal::Length => 62,
    }
}

pub fn stop_number(s: Stop) -> u8
    ensures { result ≡ stop_number s }
{
    match s {
        Stop::Late(_, _) => 41,
        Stop::Overdue(_, _) => 42,
        Stop::Full => 43,
        Stop::Beyond => 44,
    }
}

pub fn opening_number(u: Unopened) -> u8
    ensures { result ≡ open_number u }
{
    match u {
        Unopened::Plan(f, _) => plan::numbers::number_of(f),
        Unopened::Availabilities => 30,
        Unopened::Time => 31,
        Unopened::Slack => 32,
        Unopened::Short(_) => 33,
        Unopened::Beyond => 44,
        Unopened::Full => 43,
    }
}

// "place 0 unless said"
pub fn opening_place(u: Unopened) -> usize
    ensures { result ≡ open_place u }
{
    match u {
        Unopened::Plan(_, place) => place,
        Unopened::Availabilities => 0,
        Unopened::Time => 0,
        Unopened::Slack => 0,
        Unopened::Short(activity) => activity,
        Unopened::Beyond => 0,
        Unopened::Full => 0,
    }
}

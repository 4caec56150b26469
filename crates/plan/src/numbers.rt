// Document 01's number of each fault of a plan file, as code.
ghost use Rattle.std.specs.Prelude.{◌≡◌};
ghost use Rattle.plan.specs.Fault.{number_of};

use crate::Fault;

pub fn number_of(f: Fault) -> u8
    ensures { result ≡ number_of f }
{
    match f {
        Fault::Ends => 1,
        Fault::Map => 2,
        Fault::NoAutomaton => 7,
        Fault::Count => 3,
        Fault::Names => 4,
        Fault::Duration => 8,
        Fault::NotRising => 5,
        Fault::LeftOver => 6,
        Fault::Cycle => 11,
        Fault::ActionsUnordered => 12,
        Fault::NamedTwice => 13,
        Fault::ActionUnheld => 14,
        Fault::ClaimUnpaired => 15,
        Fault::ArrowPastEnd => 16,
        Fault::EventFirst => 17,
        Fault::EventsUnordered => 18,
        Fault::WayOutOfFinal => 21,
        Fault::ForbiddenBranch => 22,
        Fault::OutcomeMissing => 23,
        Fault::NoWayToFinal => 24,
        Fault::Unbalanced => 25,
        Fault::TooManyPending => 26,
    }
}

// A verdict as one number, for callers in another language.
ghost use Rattle.std.specs.Prelude.{◌≡◌, ◌<◌, min};
ghost use Rattle.plan.specs.Fault.{number_of};
ghost use Rattle.numbers.specs.Codes.{code_of};

use plan::{Fault, FaultAt, Verdict};

// Document 01's number of a fault.
fn number(f: Fault) -> u64
    ensures { (result ≡ number_of f) × (result < 256) }
{
    u64::from(plan::numbers::number_of(f))
}

// The place, or 2^32 - 1 where it is larger.
fn short_place(place: usize) -> u64
    ensures { result ≡ min place 4_294_967_295 }
{
    place.min(4294967295) as u64
}

// 0 for an accepted plan, otherwise number and place.
pub fn code(v: Verdict) -> u64
    ensures { result ≡ code_of v }
{
    match v {
        Ok(()) => 0,
        Err(FaultAt { fault, place }) => number(fault) * 4294967296 + short_place(place),
    }
}

// The two kinds of time, in whole microseconds. Adding the start time Ψ is the only way from one to the other.
#![tactic(auto)]

ghost use Rattle.std.specs.Prelude.{◌≡◌, ◌≤◌};
ghost use Rattle.time.specs.Time.{to_clock, horizon};

// The largest time that an opening gives or a path reaches: 10^15.
pub const HORIZON: u64 = 1_000_000_000_000_000;

// Specified time: counts from zero. Both kinds are a `uint64_t` to a host in C.
#[repr(C)]
#[derive(Clone, Copy)]
pub struct Specified(pub u64);

// Clock time: what the host's counter shows.
#[repr(C)]
#[derive(Clone, Copy)]
pub struct Clock(pub u64);

// The clock time of a specified time, for a run that starts at Ψ.
pub fn to_clock(psi: Clock, at: Specified) -> Clock
    requires { (psi.0 ≤ horizon) × (at.0 ≤ horizon) }
    ensures { result ≡ to_clock psi at }
{
    Clock(psi.0 + at.0)
}

// Where the behaviour of a made-up run stands.
ghost use Rattle.std.specs.Prelude.{◌≡◌, ◌≤◌};
ghost use Rattle.made.specs.Layout.{time_size, instance_size, pending_from};
ghost use Rattle.made.specs.Values.{time_at, array_at, told_of, instance_at};
ghost use Rattle.made.specs.Parts.{progress_of};

use crate::layout::{AVAILABLE, LATEST, LENGTHS, PENDING, POSITION, STATE};
use crate::numbers::{byte, fill, four, time};
use time::Specified;
use times::{Instance, Progress, Told};

// A time of each resource, or of each event.
fn times_at(bytes: &[u8], at: usize) -> [Specified; 16]
    requires { at ≤ 65000 }
    ensures { result ≡ array_at time_at time_size 16 bytes.now at }
{
    let mut times = [Specified(0); 16];
    for (i, x) in times.iter_mut().enumerate() {
        *x = time(bytes, at + 8 * i);
    }
    times
}

fn told_of(tag: u8, outcome: u8) -> Told
    ensures { result ≡ told_of tag outcome }
{
    if tag % 2 == 0 {
        return Told::Nothing;
    }
    Told::Outcome(outcome)
}

fn instance_at(bytes: &[u8], at: usize) -> Instance
    requires { at ≤ 65500 }
    ensures { result ≡ instance_at bytes.now at }
{
    let end = time(bytes, at + 5);
    let told = told_of(byte(bytes, at + 13), byte(bytes, at + 14));
    Instance {
        position: four(bytes, at),
        node: byte(bytes, at + 4),
        end,
        told,
    }
}

fn pending_of(bytes: &[u8]) -> [Instance; 128]
    ensures { result ≡ array_at instance_at instance_size 128 bytes.now pending_from }
{
    let first = instance_at(bytes, PENDING);
    let mut pending = [first; 128];
    for (i, x) in pending.iter_mut().enumerate() {
        *x = instance_at(bytes, PENDING + 15 * i);
    }
    pending
}

pub fn progress_of(bytes: &[u8]) -> Progress
    ensures { result ≡ progress_of bytes.now }
{
    let mut lengths = [0u8; 16];
    fill(bytes, LENGTHS, &mut lengths);
    Progress {
        available: times_at(bytes, AVAILABLE),
        latest: times_at(bytes, LATEST),
        lengths,
        pending: pending_of(bytes),
        position: four(bytes, POSITION),
        state: byte(bytes, STATE),
    }
}

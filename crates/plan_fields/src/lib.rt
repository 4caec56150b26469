// Fields of the plan file: a number and the offset past it, or a fault and the field's place.
#![tactic(auto)]

ghost use Rattle.std.specs.Prelude.{◌≡◌, ◌+◌, ◌^◌, ◌<◌, ltb};
ghost use Rattle.wire.specs.Number.{number};
ghost use Rattle.plan.specs.Limits.{longest};
ghost use Rattle.plan.specs.Fields.{found, faulty, byte_at, any_at, count_at, name_at, optional_count};
ghost use Rattle.plan.specs.Nodes.{duration_at};
ghost use Rattle.plan.specs.Moves.{finals_at, move_count_at};

use plan::Fault;
use plan::fields::Read;

// A number of one byte in low .. below - 1.
pub fn byte_in(bytes: &[u8], at: usize, low: u8, below: u16, wrong: Fault) -> Read<u8>
    ensures { result ≡ byte_at low below wrong bytes.now at }
{
    let Some(x) = wire::byte_at(bytes, at) else {
        return Err(Fault::Ends.at(at));
    };
    if x < low || u16::from(x) >= below {
        return Err(wrong.at(at));
    }
    Ok((x, at + 1))
}

// Any byte.
pub fn any_at(bytes: &[u8], at: usize) -> Read<u8>
    ensures { result ≡ any_at bytes.now at }
{
    byte_in(bytes, at, 0, 256, Fault::Names)
}

// A count of 1 to `most`.
pub fn count_at(bytes: &[u8], at: usize, most: u8) -> Read<u8>
    ensures { result ≡ count_at most bytes.now at }
{
    byte_in(bytes, at, 1, u16::from(most) + 1, Fault::Count)
}

// A number that names one of `many` things.
pub fn name_at(bytes: &[u8], at: usize, many: u8) -> Read<u8>
    ensures { result ≡ name_at many bytes.now at }
{
    byte_in(bytes, at, 0, u16::from(many), Fault::Names)
}

// A count of 1 to `most` that is present iff its bit stands.
pub fn optional_count(bytes: &[u8], at: usize, most: u8, stands: bool) -> Read<u8>
    ensures { result ≡ optional_count most stands bytes.now at }
{
    if stands {
        count_at(bytes, at, most)
    } else {
        Ok((0, at))
    }
}

fn duration_in(bytes: &[u8], at: usize) -> Read<u32>
    ensures { result ≡ number found faulty Fault.Ends 4 1 (longest + 1) Fault.Duration bytes.now at }
{
    let Some(x) = wire::long_at(bytes, at) else {
        return Err(Fault::Ends.at(at));
    };
    if x < 1 || x > 60_000_000 {
        return Err(Fault::Duration.at(at));
    }
    Ok((x, at + 4))
}

// The duration of a node whose map is m; 0 without bit 4.
pub fn duration_at(bytes: &[u8], at: usize, m: u8) -> Read<u32>
    ensures { result ≡ duration_at m bytes.now at }
{
    if m / 16 % 2 == 1 {
        duration_in(bytes, at)
    } else {
        Ok((0, at))
    }
}

// Whether no bit past the last state stands.
pub fn in_states(finals: u64, states: u8) -> bool
    ensures { result ≡ ltb finals (2 ^ states) }
{
    if states < 64 {
        return finals >> states == 0;
    }
    true
}

// The final-state bits.
pub fn finals_at(bytes: &[u8], at: usize, states: u8) -> Read<u64>
    ensures { result ≡ finals_at states bytes.now at }
{
    let Some(x) = wire::wide_at(bytes, at) else {
        return Err(Fault::Ends.at(at));
    };
    if !in_states(x, states) {
        return Err(Fault::Names.at(at));
    }
    Ok((x, at + 8))
}

// The transition count.
pub fn move_count_at(bytes: &[u8], at: usize) -> Read<u16>
    ensures { result ≡ move_count_at bytes.now at }
{
    let Some(x) = wire::short_at(bytes, at) else {
        return Err(Fault::Ends.at(at));
    };
    if x > 256 {
        return Err(Fault::Count.at(at));
    }
    Ok((x, at + 2))
}

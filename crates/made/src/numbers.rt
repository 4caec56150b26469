// Numbers at an offset: bytes past the end count as 0.
ghost use Rattle.std.specs.Prelude.{◌≡◌, ◌≤◌, ◌<◌, length};
ghost use Rattle.wire.specs.Number.{little};
ghost use Rattle.made.specs.Values.{byte_at, time_at, array_at};

use time::Specified;

pub fn byte(bytes: &[u8], at: usize) -> u8
    ensures { result ≡ byte_at bytes.now at }
{
    bytes.get(at).copied().unwrap_or(0)
}

pub fn two(bytes: &[u8], at: usize) -> u16
    requires { at ≤ 65536 }
    ensures { (result ≡ little 2 bytes.now at) × (result < 65536) }
{
    u16::from(byte(bytes, at)) + 256 * u16::from(byte(bytes, at + 1))
}

pub fn four(bytes: &[u8], at: usize) -> u32
    requires { at ≤ 65528 }
    ensures { (result ≡ little 4 bytes.now at) × (result < 4294967296) }
{
    u32::from(two(bytes, at)) + 65536 * u32::from(two(bytes, at + 2))
}

pub fn eight(bytes: &[u8], at: usize) -> u64
    requires { at ≤ 65520 }
    ensures { result ≡ little 8 bytes.now at }
{
    u64::from(four(bytes, at)) + 4294967296 * u64::from(four(bytes, at + 4))
}

pub fn time(bytes: &[u8], at: usize) -> Specified
    requires { at ≤ 65520 }
    ensures { result ≡ time_at bytes.now at }
{
    Specified(eight(bytes, at))
}

// The bytes from `at` on, as many as the part of an array that is lent.
pub fn fill(bytes: &[u8], at: usize, part: &mut [u8])
    requires { (at ≤ 65520) × (length part.old ≤ 64) }
    ensures { part.new ≡ array_at byte_at 1 (length part.old) bytes.now at }
{
    for (i, x) in part.iter_mut().enumerate() {
        *x = byte(bytes, at + i);
    }
}

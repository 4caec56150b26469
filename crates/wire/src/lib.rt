// Numbers in bytes: fields of one, two, four and eight bytes, lowest byte first, and a byte put into a lent buffer.
#![tactic(auto)]

ghost use Rattle.std.specs.Prelude.{◌≡◌, ◌+◌, ◌≤◌, ◌<◌, Some, None, cond, length, take, drop, set, leb};
ghost use Rattle.wire.specs.Number.{little, field_at};

pub mod puts; // numbers put into a lent buffer

// The N bytes at `at`.
fn taken<const N: usize>(bytes: &[u8], at: usize) -> [u8; N]
    requires { at + N ≤ length bytes.now }
    ensures { result ≡ take N (drop at bytes.now) }
{
    let mut part = [0; N];
    part.copy_from_slice(&bytes[at..at + N]);
    part
}

// The N bytes at `at`, unless the bytes end inside them.
fn part_at<const N: usize>(bytes: &[u8], at: usize) -> Option<[u8; N]>
    ensures { result ≡ cond (leb (at + N) (length bytes.now)) (Some (take N (drop at bytes.now))) None }
{
    bytes.get(at..)?.first_chunk().copied()
}

pub fn two(bytes: &[u8], at: usize) -> u16
    requires { at + 2 ≤ length bytes.now }
    ensures { (result ≡ little 2 bytes.now at) × (result < 65536) }
{
    u16::from_le_bytes(taken(bytes, at))
}

pub fn four(bytes: &[u8], at: usize) -> u32
    requires { at + 4 ≤ length bytes.now }
    ensures { (result ≡ little 4 bytes.now at) × (result < 4294967296) }
{
    u32::from_le_bytes(taken(bytes, at))
}

pub fn eight(bytes: &[u8], at: usize) -> u64
    requires { at + 8 ≤ length bytes.now }
    ensures { result ≡ little 8 bytes.now at }
{
    u64::from_le_bytes(taken(bytes, at))
}

pub fn byte_at(bytes: &[u8], at: usize) -> Option<u8>
    ensures { result ≡ field_at Some None 1 bytes.now at }
{
    bytes.get(at).copied()
}

// Three functions: under a trait with its width (tried at u16) each impl has two ghost members and the same line; no caller is generic.
pub fn short_at(bytes: &[u8], at: usize) -> Option<u16>
    ensures { result ≡ field_at Some None 2 bytes.now at }
{
    part_at(bytes, at).map(u16::from_le_bytes)
}

pub fn long_at(bytes: &[u8], at: usize) -> Option<u32>
    ensures { result ≡ field_at Some None 4 bytes.now at }
{
    part_at(bytes, at).map(u32::from_le_bytes)
}

pub fn wide_at(bytes: &[u8], at: usize) -> Option<u64>
    ensures { result ≡ field_at Some None 8 bytes.now at }
{
    part_at(bytes, at).map(u64::from_le_bytes)
}

// Puts a byte at `at`; past the end it leaves the buffer as it is.
pub fn put(out: &mut [u8], at: usize, x: u8)
    ensures { out.new ≡ set out.old at x }
{
    if at < out.len() {
        out[at] = x;
    }
}

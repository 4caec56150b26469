// Numbers put into a lent buffer, lowest byte first: each function answers the offset past what it puts.
ghost use Rattle.std.specs.Prelude.{[], ◌∷◌, ◌+◌, ◌≤◌, ◌<◌, length};
ghost use Rattle.wire.specs.Number.{bytes_of, number_bytes, optional_bytes};
ghost use Rattle.wire.specs.Puts.{Puts};

// One byte; by `put_number` each caller would widen it, and say 1.
pub fn put_byte(out: &mut [u8], at: usize, x: u8) -> usize
    requires { at < 131072 }
    ensures { Puts out.old at (x ∷ []) out.new result }
{
    crate::put(out, at, x);
    at + 1
}

// A number of w bytes.
pub fn put_number(out: &mut [u8], at: usize, x: u64, w: u8) -> usize
    requires { (at < 131072) × (w ≤ 8) }
    ensures { Puts out.old at (bytes_of w x) out.new result }
{
    put_list(out, at, &x.to_le_bytes(), w)
}

// A number of w bytes that is absent where it is 0.
pub fn put_optional(out: &mut [u8], at: usize, x: u64, w: u8) -> usize
    requires { (at < 131072) × (w ≤ 8) }
    ensures { Puts out.old at (optional_bytes w x) out.new result }
{
    if x == 0 {
        return at;
    }
    put_number(out, at, x, w)
}

// The first k numbers of a list, one byte each.
pub fn put_list(out: &mut [u8], at: usize, xs: &[u8], k: u8) -> usize
    requires { (at < 131072) × (k ≤ length xs.now) }
    ensures { Puts out.old at (number_bytes xs.now 0 k) out.new result }
{
    put_bytes(out, at, &xs[..usize::from(k)])
}

// The bytes of a list.
pub fn put_bytes(out: &mut [u8], at: usize, xs: &[u8]) -> usize
    requires { at + length xs.now < 18_446_744_073_709_551_616 }
    ensures { Puts out.old at xs.now out.new result }
{
    for (i, &x) in xs.iter().enumerate() {
        crate::put(out, at + i, x);
    }
    at + xs.len()
}

// Numbers as text, put into a lent buffer: each function answers the offset past what it puts.
#![tactic(auto)]

ghost use Rattle.std.specs.Prelude.{◌≡◌, [], ◌∷◌, ◌+◌, ◌*◌, ◌≤◌, ◌<◌};
ghost use Rattle.wire.specs.Puts.{Puts};
ghost use Rattle.timetable_text.specs.Text.{digits, decimal, space, newline};

pub mod lent; // text put into a lent buffer, whole or not at all

// Why text is not put into a lent buffer, which then is as it was.
#[derive(Clone, Copy)]
pub enum NotPut {
    // it does not fit: number 36, place 0
    TooShort,
}

// "the plan's length (two bytes)", the lowest byte first.
pub fn plan_length(low: u8, high: u8) -> usize
    ensures { (result ≡ low + 256 * high) × (result ≤ 65_535) }
{
    usize::from(low) + 256 * usize::from(high)
}

// The byte of one digit.
fn digit(n: u64) -> u8
    requires { n < 10 }
    ensures { result ≡ 48 + n }
{
    48 + n as u8
}

// The digits of a number below 10^k, without zeros in front: k is the number that falls.
fn put_digits(out: &mut [u8], at: usize, k: u8, n: u64) -> usize
    requires { (at < 131000) × (k ≤ 20) }
    ensures { Puts out.old at (digits k n) out.new result }
{
    if k == 0 {
        return at;
    }
    if n < 10 {
        return wire::puts::put_byte(out, at, digit(n));
    }
    let next = put_digits(out, at, k - 1, n / 10);
    wire::puts::put_byte(out, next, digit(n % 10))
}

// A number, as it stands in a line.
pub fn put_decimal(out: &mut [u8], at: usize, n: u64) -> usize
    requires { at < 131000 }
    ensures { Puts out.old at (decimal n) out.new result }
{
    put_digits(out, at, 20, n)
}

// A number that another word stands before.
pub fn put_after_space(out: &mut [u8], at: usize, n: u64) -> usize
    requires { at < 130900 }
    ensures { Puts out.old at (space ∷ decimal n) out.new result }
{
    let next = wire::puts::put_byte(out, at, 32);
    put_decimal(out, next, n)
}

// The end of a line.
pub fn put_newline(out: &mut [u8], at: usize) -> usize
    requires { at < 131000 }
    ensures { Puts out.old at (newline ∷ []) out.new result }
{
    wire::puts::put_byte(out, at, 10)
}

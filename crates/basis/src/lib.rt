// A number in a wider type: one function for each pair of widths. The library's `usize::from` and the like say the same, and the crates
// above call those. `u8_to_u32` makes the bits of a plan's maps (plan_write), so that must-fail/one_more.edit tries what is run; the
// others stay, though nothing calls them.
#![tactic(auto)]

ghost use Rattle.std.specs.Prelude.{◌≡◌};

pub fn u8_to_u16(x: u8) -> u16
    ensures { result ≡ x }
{
    x as u16
}

pub fn u8_to_u32(x: u8) -> u32
    ensures { result ≡ x }
{
    x as u32
}

pub fn u8_to_usize(x: u8) -> usize
    ensures { result ≡ x }
{
    x as usize
}

pub fn u16_to_usize(x: u16) -> usize
    ensures { result ≡ x }
{
    x as usize
}

pub fn u32_to_u64(x: u32) -> u64
    ensures { result ≡ x }
{
    x as u64
}

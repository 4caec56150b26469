// Numbers between two limits.
ghost use Rattle.std.specs.Prelude.{◌≡◌, ◌≤◌, length};
ghost use Rattle.plan_limits.specs.Limits.{within};

// The first `count` of the numbers lie from `low` to below `below`.
pub fn within(low: u8, below: u8, count: u8, numbers: &[u8]) -> bool
    requires { count ≤ length numbers.now }
    ensures { result ≡ within low below count numbers.now }
{
    numbers[..usize::from(count)]
        .iter()
        .all(|&x| low <= x && x < below)
}

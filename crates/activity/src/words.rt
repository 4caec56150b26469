// Words of 64 bits as sets of the numbers 0 to 63.
ghost use Rattle.std.specs.Prelude.{◌≡◌, true, false, ◌⊎◌, ◌↔◌, ℕ, ◌<◌, ◌≤◌};
ghost use Rattle.basis.specs.Inner.Tells.{Tells};
ghost use Rattle.activity.specs.Inner.Bits.{Bit};
ghost use Rattle.activity.specs.Inner.Closure.{Stepped};

// Bit m of w.
pub(crate) fn has(w: u64, m: usize) -> bool
    requires { m < 64 }
    ensures { Tells result (Bit w m) }
{
    (w >> m) % 2 == 1
}

// w with bit m set.
pub(crate) fn with(w: u64, m: usize) -> u64
    requires { m < 64 }
    ensures { (j : ℕ) → Bit result j ↔ (Bit w j ⊎ (j ≡ m)) }
{
    w | (1 << m)
}

// The word of the numbers below count that pass.
pub(crate) fn filtered<P: Fn(usize) -> bool>(count: usize, passes: P) -> u64
    requires { (count ≤ 64) × ((m : ℕ) → m < count → P.pre passes m) }
    ensures { (m : ℕ) → (Bit result m → (m < count) × P.post passes m true) × (m < count → Bit result m ⊎ P.post passes m false) }
{
    let mut w: u64 = 0;
    for m in 0..count {
        if passes(m) {
            w = with(w, m);
        }
    }
    w
}

// w, and row too where w has bit k.
pub(crate) fn step(w: u64, row: u64, k: usize) -> u64
    requires { k < 64 }
    ensures { Stepped w row k result }
{
    if has(w, k) { w | row } else { w }
}

// Whether every bit of w is one of v.
pub(crate) fn within(w: u64, v: u64) -> bool
    ensures { Tells result ((m : ℕ) → Bit w m → Bit v m) }
{
    w | v == v
}

// Whether w and v have a bit in common.
pub(crate) fn meet(w: u64, v: u64) -> bool
    ensures { Tells result ((m : ℕ) × Bit w m × Bit v m) }
{
    w & v != 0
}

// Whether w has a bit.
pub(crate) fn any(w: u64) -> bool
    ensures { Tells result ((m : ℕ) × Bit w m) }
{
    w != 0
}

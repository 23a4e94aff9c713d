// Sums of signed numbers, exact in two halves, clamped once.

#![tactic(auto)]

ghost use Rattle.std.specs.Prelude.{◌≡◌, ◌<◌, ◌≤◌};
ghost use Rattle.std.proofs.Common.{to_z};
ghost use Rattle.std.specs.Int.{w64};
ghost use Rattle.meaning.specs.Number.{clamp};
ghost use Rattle.sums.specs.Halves.{value_of, Adds};

// the bits of the least 64-bit number, from which on bits are those of a negative one
const LEAST: u64 = 1 << 63;

// what the upper half is where the sum's own is 0
const MIDDLE: u64 = 1 << 20;

// two halves, and no i128: document 01 names this form (docs/DECISIONS.md, "Forms that 01 names"). The upper one is MIDDLE above what it stands for, so that it stays above 0
#[derive(Clone, Copy)]
pub struct Wide {
    pub lo: u64,
    pub hi: u64,
}

// a signed number is added; the carry is taken from the wrapped low half
pub fn add_wide(w: Wide, u: u64) -> Wide
    requires { (1 ≤ w.hi) × (w.hi < 18446744073709551615) }
    ensures { Adds w u result }
{
    let hi = w.hi;
    let lo = w.lo.wrapping_add(u);
    if u < LEAST {
        if lo < u {
            return Wide { lo, hi: hi + 1 };
        }
        return Wide { lo, hi };
    }
    if lo < u {
        return Wide { lo, hi };
    }
    Wide { lo, hi: hi - 1 }
}

// the nearest number that 64 bits hold
pub fn clamp_wide(w: Wide) -> u64
    ensures { to_z w64 result ≡ clamp (value_of w) }
{
    if w.hi < MIDDLE {
        if w.hi == MIDDLE - 1 && LEAST <= w.lo {
            w.lo
        } else {
            LEAST
        }
    } else if w.hi == MIDDLE && w.lo < LEAST {
        w.lo
    } else {
        LEAST - 1
    }
}

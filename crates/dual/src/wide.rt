// Numbers of two halves of 512 bits each, in which the costs and the sums of a certificate are counted. What does not
// fit is answered by none: no sum wraps, and no difference stops at zero. A sum or a difference goes from the lower
// half to the upper one, half of a number from the upper one to the lower one, and a carry goes with it.
ghost use Rattle.std.specs.Prelude.{◌≡◌, ◌≤◌, ◌<◌, ◌+◌, ◌-◌, ◌*◌, ◌/◌, ◌^◌, ◌↔◌, SomeIff, IsTrue};

use crate::half::Half;
use std::marker::Model;

/// A natural number below 2^1024.
#[derive(Clone, Copy)]
pub struct Wide {
    high: Half,
    low: Half,
}

impl Model for Wide {
    ghost use Rattle.std.specs.Prelude.{ℕ, ◌+◌, ◌*◌, ◌/◌, ◌%◌, ◌^◌, ◌<◌};
    ghost use Rattle.std.proofs.Common.{◌∙◌};
    ghost use Rattle.std.proofs.lemmas.Nat.{div-mul-add};
    ghost use Rattle.std.proofs.Math.Nat.{mul-add-mod_self_right, mod-eq_of_lt};

    ghost Value = { ℕ };

    ghost view = { λ w. w.high * 2 ^ 512 + w.low };

    ghost invariant = { λ w. (w.high < 2 ^ 512) × (w.low < 2 ^ 512) };

    ghost inverse = { λ n. record { high = n / 2 ^ 512; low = n % 2 ^ 512 } };

    ghost inverse_ok = { λ w h i. record {
      high = div-mul-add w.high (2 ^ 512) w.low h.1 i;
      low = (mul-add-mod_self_right w.high (2 ^ 512) w.low ∙ mod-eq_of_lt h.1) i;
    } };
}

impl Wide {
    /// Zero.
    pub fn zero() -> Wide
        ensures { result ≡ 0 }
    {
        Wide::from_u64(0)
    }

    /// The number that a `u64` is.
    pub fn from_u64(number: u64) -> Wide
        ensures { result ≡ number }
    {
        Wide {
            high: Half::from_u64(0),
            low: Half::from_u64(number),
        }
    }

    /// 2 to the power of `bit`; none from 1024 on.
    pub fn power_of_two(bit: u32) -> Option<Wide>
        ensures { SomeIff result (bit < 1024) (2 ^ bit) }
    {
        if bit < 512 {
            Some(Wide {
                high: Half::from_u64(0),
                low: Half::power_of_two(bit),
            })
        } else if bit < 1024 {
            Some(Wide {
                high: Half::power_of_two(bit - 512),
                low: Half::from_u64(0),
            })
        } else {
            None
        }
    }

    /// A guess by which an equal number is found. Nothing is said of it.
    pub(crate) fn hash(self) -> u64 {
        self.low.hash_on(self.high.hash_on(0))
    }

    /// Yes for zero alone.
    pub fn is_zero(self) -> bool
        ensures { IsTrue result ↔ (self ≡ 0) }
    {
        self == Wide::zero()
    }

    /// Yes if it is the smaller number; two equal ones give a no.
    pub fn is_less(self, other: Wide) -> bool
        ensures { IsTrue result ↔ (self < other) }
    {
        self.high.is_less(other.high)
            || (!other.high.is_less(self.high) && self.low.is_less(other.low))
    }

    /// The sum; none if it is 2^1024 or more.
    pub fn plus(self, other: Wide) -> Option<Wide>
        ensures { SomeIff result (self + other < 2 ^ 1024) (self + other) }
    {
        let (low, carry) = self.low.carrying_add(other.low, false);
        let (high, is_over) = self.high.carrying_add(other.high, carry);
        if is_over {
            None
        } else {
            Some(Wide { high, low })
        }
    }

    /// What is left if another number is taken away; none if that one is greater.
    pub fn minus(self, other: Wide) -> Option<Wide>
        ensures { SomeIff result (other ≤ self) (self - other) }
    {
        let (low, borrow) = self.low.borrowing_sub(other.low, false);
        let (high, is_under) = self.high.borrowing_sub(other.high, borrow);
        if is_under {
            None
        } else {
            Some(Wide { high, low })
        }
    }

    /// Twice the number; none if that is 2^1024 or more.
    pub fn doubled(self) -> Option<Wide>
        ensures { SomeIff result (2 * self < 2 ^ 1024) (2 * self) }
    {
        self.plus(self)
    }

    /// Half of it, rounded down.
    pub fn halved(self) -> Wide
        ensures { result ≡ self / 2 }
    {
        let (high, rest) = self.high.carrying_half(0);
        let (low, _) = self.low.carrying_half(rest);
        Wide { high, low }
    }

    /// So many times the number; none if that is 2^1024 or more.
    pub fn times(self, count: u32) -> Option<Wide>
        ensures { SomeIff result (self * count < 2 ^ 1024) (self * count) }
    {
        let count = u128::from(count);
        let (low, carry) = self.low.carrying_mul(count, 0);
        let (high, over) = self.high.carrying_mul(count, carry);
        if over == 0 {
            Some(Wide { high, low })
        } else {
            None
        }
    }
}

impl PartialEq for Wide {
    ghost use Rattle.std.specs.Prelude.{nat_eq};
    ghost use Rattle.std.specs.Cmp.Rules.{comparing};
    ghost use Rattle.std.proofs.Common.{rules};

    ghost eq = { nat_eq };

    ghost laws = { Prim.search (comparing, rules) };

    fn eq(&self, other: &Wide) -> bool {
        !self.is_less(*other) && !other.is_less(*self)
    }
}

impl Eq for Wide {
    ghost use Rattle.std.specs.Cmp.Rules.{comparing};
    ghost use Rattle.std.proofs.Common.{rules};

    ghost laws = { Prim.search (comparing, rules) };
}

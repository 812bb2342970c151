// Halves of a `Wide`: natural numbers below 2^512, each of two quarters of 256 bits. What does not fit is handed on as
// a carry, from which the next half goes on.
ghost use Rattle.std.specs.Prelude.{◌≡◌, ◌<◌, ◌+◌, ◌*◌, ◌^◌, ◌↔◌, IsTrue};
ghost use Rattle.std.specs.Int.{from_bool};

use crate::quarter::Quarter;
use std::marker::Model;

/// A natural number below 2^512.
#[derive(Clone, Copy)]
pub struct Half {
    high: Quarter,
    low: Quarter,
}

impl Model for Half {
    ghost use Rattle.std.specs.Prelude.{ℕ, ◌+◌, ◌*◌, ◌/◌, ◌%◌, ◌^◌, ◌<◌};
    ghost use Rattle.std.proofs.Common.{◌∙◌};
    ghost use Rattle.std.proofs.lemmas.Nat.{div-mul-add};
    ghost use Rattle.std.proofs.Math.Nat.{mul-add-mod_self_right, mod-eq_of_lt};

    ghost Value = { ℕ };

    ghost view = { λ w. w.high * 2 ^ 256 + w.low };

    ghost invariant = { λ w. (w.high < 2 ^ 256) × (w.low < 2 ^ 256) };

    ghost inverse = { λ n. record { high = n / 2 ^ 256; low = n % 2 ^ 256 } };

    ghost inverse_ok = { λ w h i. record {
      high = div-mul-add w.high (2 ^ 256) w.low h.1 i;
      low = (mul-add-mod_self_right w.high (2 ^ 256) w.low ∙ mod-eq_of_lt h.1) i;
    } };
}

impl Half {
    /// Goes on with a hash: equal numbers give equal ones.
    pub fn hash_on(self, hash: u64) -> u64 {
        self.low.hash_on(self.high.hash_on(hash))
    }

    /// The number that a `u64` is.
    pub fn from_u64(number: u64) -> Half
        ensures { result ≡ number }
    {
        Half {
            high: Quarter::from_u64(0),
            low: Quarter::from_u64(number),
        }
    }

    /// 2 to the power of `bit`, which is below 512.
    pub fn power_of_two(bit: u32) -> Half
        requires { bit < 512 }
        ensures value { result ≡ 2 ^ bit }
        ensures small { result < 2 ^ 512 }
    {
        if bit < 256 {
            Half {
                high: Quarter::from_u64(0),
                low: Quarter::power_of_two(bit),
            }
        } else {
            Half {
                high: Quarter::power_of_two(bit - 256),
                low: Quarter::from_u64(0),
            }
        }
    }

    /// Yes if it is the smaller number; two equal ones give a no.
    pub fn is_less(self, other: Half) -> bool
        ensures { IsTrue result ↔ (self < other) }
    {
        self.high.is_less(other.high)
            || (!other.high.is_less(self.high) && self.low.is_less(other.low))
    }

    /// The sum with a carry, and the carry out of it.
    pub fn carrying_add(self, other: Half, carry: bool) -> (Half, bool)
        ensures value { result.0 + from_bool result.1 * 2 ^ 512 ≡ self + other + from_bool carry }
        ensures small { result.0 < 2 ^ 512 }
    {
        let (low, carry) = self.low.carrying_add(other.low, carry);
        let (high, carry) = self.high.carrying_add(other.high, carry);
        (Half { high, low }, carry)
    }

    /// The difference with a borrow, and the borrow out of it.
    pub fn borrowing_sub(self, other: Half, borrow: bool) -> (Half, bool)
        ensures value { result.0 + other + from_bool borrow ≡ self + from_bool result.1 * 2 ^ 512 }
        ensures small { result.0 < 2 ^ 512 }
    {
        let (low, borrow) = self.low.borrowing_sub(other.low, borrow);
        let (high, borrow) = self.high.borrowing_sub(other.high, borrow);
        (Half { high, low }, borrow)
    }

    /// So many times the number and a carry, and the carry out of it.
    pub fn carrying_mul(self, count: u128, carry: u128) -> (Half, u128)
        ensures value { result.0 + result.1 * 2 ^ 512 ≡ self * count + carry }
        ensures small { result.0 < 2 ^ 512 }
    {
        let (low, carry) = self.low.carrying_mul(count, carry);
        let (high, carry) = self.high.carrying_mul(count, carry);
        (Half { high, low }, carry)
    }

    /// Half of it with a carry from above, and what is left over.
    pub fn carrying_half(self, carry: u128) -> (Half, u128)
        requires { carry < 2 }
        ensures value { 2 * result.0 + result.1 ≡ carry * 2 ^ 512 + self }
        ensures rest { result.1 < 2 }
        ensures small { result.0 < 2 ^ 512 }
    {
        let (high, carry) = self.high.carrying_half(carry);
        let (low, carry) = self.low.carrying_half(carry);
        (Half { high, low }, carry)
    }
}

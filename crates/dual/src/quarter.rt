// Quarters of a `Wide`: natural numbers below 2^256, each of two parts of 128 bits. What does not fit is handed on as a
// carry, from which the next quarter goes on.
ghost use Rattle.std.specs.Prelude.{◌≡◌, ◌<◌, ◌+◌, ◌*◌, ◌^◌, ◌↔◌, IsTrue};
ghost use Rattle.std.specs.Int.{from_bool};

use std::marker::Model;

// An odd number by which the bits of a product depend on all bits below them: the golden ratio's first 64 bits.
const MIXER: u64 = 0x9E37_79B9_7F4A_7C15;

/// A natural number below 2^256.
#[derive(Clone, Copy)]
pub struct Quarter {
    high: u128,
    low: u128,
}

impl Model for Quarter {
    ghost use Rattle.std.specs.Prelude.{ℕ, ◌+◌, ◌*◌, ◌/◌, ◌%◌, ◌^◌, ◌<◌};
    ghost use Rattle.std.proofs.Common.{◌∙◌};
    ghost use Rattle.std.proofs.lemmas.Nat.{div-mul-add};
    ghost use Rattle.std.proofs.Math.Nat.{mul-add-mod_self_right, mod-eq_of_lt};

    ghost Value = { ℕ };

    ghost view = { λ w. w.high * 2 ^ 128 + w.low };

    ghost invariant = { λ w. w.low < 2 ^ 128 };

    ghost inverse = { λ n. record { high = n / 2 ^ 128; low = n % 2 ^ 128 } };

    ghost inverse_ok = { λ w h i. record {
      high = div-mul-add w.high (2 ^ 128) w.low h i;
      low = (mul-add-mod_self_right w.high (2 ^ 128) w.low ∙ mod-eq_of_lt h) i;
    } };
}

// Goes on with a hash by the 128 bits of a part.
fn hash_on(hash: u64, part: u128) -> u64 {
    let high = (part >> 64) as u64;
    let low = (part % (1 << 64)) as u64;
    let half_way = (hash ^ high).wrapping_mul(MIXER).rotate_left(32);
    (half_way ^ low).wrapping_mul(MIXER).rotate_left(32)
}

impl Quarter {
    /// Goes on with a hash: equal numbers give equal ones.
    pub fn hash_on(self, hash: u64) -> u64 {
        hash_on(hash_on(hash, self.high), self.low)
    }

    /// The number that a `u64` is.
    pub fn from_u64(number: u64) -> Quarter
        ensures { result ≡ number }
    {
        Quarter {
            high: 0,
            low: u128::from(number),
        }
    }

    /// 2 to the power of `bit`, which is below 256.
    pub fn power_of_two(bit: u32) -> Quarter
        requires { bit < 256 }
        ensures value { result ≡ 2 ^ bit }
        ensures small { result < 2 ^ 256 }
    {
        if bit < 128 {
            Quarter {
                high: 0,
                low: 1 << bit,
            }
        } else {
            Quarter {
                high: 1 << (bit - 128),
                low: 0,
            }
        }
    }

    /// Yes if it is the smaller number; two equal ones give a no.
    pub fn is_less(self, other: Quarter) -> bool
        ensures { IsTrue result ↔ (self < other) }
    {
        self.high < other.high || (self.high == other.high && self.low < other.low)
    }

    /// The sum with a carry, and the carry out of it.
    pub fn carrying_add(self, other: Quarter, carry: bool) -> (Quarter, bool)
        ensures value { result.0 + from_bool result.1 * 2 ^ 256 ≡ self + other + from_bool carry }
        ensures small { result.0 < 2 ^ 256 }
    {
        let (low, carry) = self.low.carrying_add(other.low, carry);
        let (high, carry) = self.high.carrying_add(other.high, carry);
        (Quarter { high, low }, carry)
    }

    /// The difference with a borrow, and the borrow out of it.
    pub fn borrowing_sub(self, other: Quarter, borrow: bool) -> (Quarter, bool)
        ensures value { result.0 + other + from_bool borrow ≡ self + from_bool result.1 * 2 ^ 256 }
        ensures small { result.0 < 2 ^ 256 }
    {
        let (low, borrow) = self.low.borrowing_sub(other.low, borrow);
        let (high, borrow) = self.high.borrowing_sub(other.high, borrow);
        (Quarter { high, low }, borrow)
    }

    /// So many times the number and a carry, and the carry out of it.
    pub fn carrying_mul(self, count: u128, carry: u128) -> (Quarter, u128)
        ensures value { result.0 + result.1 * 2 ^ 256 ≡ self * count + carry }
        ensures small { result.0 < 2 ^ 256 }
    {
        let (low, carry) = self.low.carrying_mul(count, carry);
        let (high, carry) = self.high.carrying_mul(count, carry);
        (Quarter { high, low }, carry)
    }

    /// Half of it with a carry from above, and what is left over.
    pub fn carrying_half(self, carry: u128) -> (Quarter, u128)
        requires { carry < 2 }
        ensures value { 2 * result.0 + result.1 ≡ carry * 2 ^ 256 + self }
        ensures rest { result.1 < 2 }
        ensures small { result.0 < 2 ^ 256 }
    {
        let (high, carry) = half_of_part(self.high, carry);
        let (low, carry) = half_of_part(self.low, carry);
        (Quarter { high, low }, carry)
    }
}

/// Half of a part with a carry from above, and what is left over.
fn half_of_part(part: u128, carry: u128) -> (u128, u128)
    requires { carry < 2 }
    ensures value { 2 * result.0 + result.1 ≡ carry * 2 ^ 128 + part }
    ensures rest { result.1 < 2 }
{
    ((carry << 127) + part / 2, part % 2)
}

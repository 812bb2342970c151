// Which numbers may be paired: what the generators ask of their caller.
ghost use Rattle.std.specs.Prelude.{◌≡◌, ◌^◌, ◌<◌, ℕ, Bool};

/// Which players may meet, by their numbers in the bracket. It answers for all numbers.
pub trait Rule {
    /// Two players may meet.
    ghost meets: { Self → ℕ → ℕ → Bool };

    /// A player may be left over in a bracket that leaves at most one.
    ghost may_be_left: { Self → ℕ → Bool };

    /// Yes if the players `a` and `b` may meet (C.04.3 C.1 and C.3).
    fn may_meet(&self, a: u16, b: u16) -> bool
        ensures { result ≡ meets self.now a b };

    /// Yes if `a` may be the one player left over (C.04.3 C.2).
    fn last_ok(&self, a: u16) -> bool
        ensures { result ≡ may_be_left self.now a };

    /// If `a` may meet `b`, then `b` may meet `a`.
    ghost symmetric: { (rule : Self) (a b : ℕ) → a < 2 ^ 16 → b < 2 ^ 16 → meets rule a b ≡ meets rule b a };
}

// What is asked of a caller: the players, who of them may meet, who may be left over, and what that costs.
ghost use Rattle.std.specs.Prelude.{◌≡◌, ℕ};
ghost use Rattle.dual.specs.Matchings.{Costs};

use crate::wide::Wide;

/// Who may meet and who may be left over, and at what cost. Who may meet is answered for all numbers, costs for known
/// ones alone.
pub trait MatchingRule {
    /// What it answers.
    ghost costs: { Self → Costs };

    /// A number of which costs are known.
    ghost knows: { Self → ℕ → Type 0 };

    /// Yes if the two may be a pair. The answer need not be the same with `b` first.
    fn may_meet(&self, a: u16, b: u16) -> bool
        ensures { result ≡ (costs self.now).meets a b };

    /// What a pair of the two costs.
    fn weight(&self, a: u16, b: u16) -> Wide
        requires first { knows self.now a }
        requires second { knows self.now b }
        ensures { result ≡ (costs self.now).weight a b };

    /// Yes if a matching may leave `a` over.
    fn may_be_left(&self, a: u16) -> bool
        ensures { result ≡ (costs self.now).may_be_left a };

    /// What it costs to leave `a` over.
    fn left_cost(&self, a: u16) -> Wide
        requires { knows self.now a }
        ensures { result ≡ (costs self.now).left_cost a };
}

/// Players of whom pairs are to be made, and the rule that says who may meet, who may be left over, and at what cost.
#[derive(Drop)]
pub struct Pool<'a, R> {
    pub rule: &'a R,
    pub players: &'a [u16],
}

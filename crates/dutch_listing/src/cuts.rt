// What the levels of a listing see of a bound: which beginnings lead to pruned arrangements alone.
ghost use Rattle.std.specs.Prelude.{◌≡◌, true};
ghost use Rattle.dutch_arrangements.specs.Arrangements.{Arrangement, candidates};
ghost use Rattle.dutch_sequence.specs.Exchanged.{IsExchange};
ghost use Rattle.dutch_sequence.specs.Keys.{IsIn};
ghost use Rattle.dutch_arrangements.specs.Prefixes.{Begins};

use crate::bound::Bound;
use dutch_arrangements::Prefix;
use dutch_sequence::Exchange;

/// Tells of a beginning of arrangements whether all arrangements that begin so are pruned.
pub trait Cuts {
    /// An arrangement is pruned.
    ghost Pruned: { Self → Arrangement → Type 0 };

    /// It is ready for a question about a beginning.
    ghost Ready: { Self → Type 0 };

    /// Becomes ready for questions about beginnings.
    fn start(&mut self)
        ensures ready { Ready self.new }
        ensures keeps { (a : Arrangement) → Pruned self.new a → Pruned self.old a };

    /// Yes if all arrangements that begin so are known to be pruned. A no says nothing.
    fn cuts(&mut self, prefix: &Prefix<'_>) -> bool
        requires { Ready self.old }
        ensures told { result ≡ true → (a : Arrangement) → Begins prefix.now a → Pruned self.old a }
        ensures ready { Ready self.new }
        ensures keeps { (a : Arrangement) → Pruned self.new a → Pruned self.old a };

    /// Yes if all arrangements that begin so are known to be pruned, as the answer to its first question. A no says
    /// nothing.
    fn cuts_at_first(&mut self, prefix: &Prefix<'_>) -> bool
        ensures told { result ≡ true → (a : Arrangement) → Begins prefix.now a → Pruned self.old a }
        ensures keeps { (a : Arrangement) → Pruned self.new a → Pruned self.old a }
    {
        self.start();
        self.cuts(prefix)
    }

    /// Yes if all arrangements that begin so, and whose S1R is such an exchange, are known to be pruned. A no says
    /// nothing.
    fn cuts_exchange(&mut self, prefix: &Prefix<'_>, exchange: &Exchange<'_>) -> bool
        ensures told { result ≡ true → (a : Arrangement) → Begins prefix.now a → IsExchange exchange.now a.s1r
            → Pruned self.old a }
        ensures keeps { (a : Arrangement) → Pruned self.new a → Pruned self.old a };
}

/// Tells of nothing: no arrangement is pruned.
#[derive(Drop)]
pub struct NoCuts;

impl Cuts for NoCuts {
    ghost Pruned = { λ _ _. ⊥ };

    ghost Ready = { λ _. Unit {0} };

    fn start(&mut self) {}

    fn cuts(&mut self, _prefix: &Prefix<'_>) -> bool {
        false
    }

    fn cuts_exchange(&mut self, _prefix: &Prefix<'_>, _exchange: &Exchange<'_>) -> bool {
        false
    }
}

/// A bound, with the room that it is lent for one question after another. An arrangement is pruned if it is no
/// candidate, or a pruned one.
#[derive(Drop)]
pub struct BoundWithRoom<'b, B: Bound> {
    pub bound: &'b B,
    pub room: &'b mut B::Room,
}

impl<'b, B: Bound> Cuts for BoundWithRoom<'b, B> {
    ghost Pruned = { λ w a.
        IsIn a (candidates (B.meets w.bound.now) (B.may_be_left w.bound.now) (B.frame w.bound.now)
        (B.shape w.bound.now)) → B.is_pruned w.bound.now a ≡ true };

    ghost Ready = { λ w. B.Holds w.bound.now w.room.now };

    fn start(&mut self) {
        self.bound.start(self.room);
    }

    fn cuts(&mut self, prefix: &Prefix<'_>) -> bool {
        self.bound.cannot_win(prefix, self.room)
    }

    fn cuts_exchange(&mut self, prefix: &Prefix<'_>, exchange: &Exchange<'_>) -> bool {
        self.bound.cannot_win_with(prefix, exchange, self.room)
    }
}

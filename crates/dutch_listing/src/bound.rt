// What can tell that all candidates with a given beginning are pruned: they may be passed over. Then a listing may
// leave them all out. A bound works its answer out in its `Room`, which the caller of the listing lends to each
// question: so no question makes a list. It may keep there what the next question can use, since the next beginning is
// often nearly the same.
ghost use Rattle.std.specs.Prelude.{◌≡◌, ℕ, Bool, true};
ghost use Rattle.dutch_arrangements.specs.Arrangements.{Arrangement, Frame, candidates};
ghost use Rattle.dutch_sequence.specs.Exchanged.{IsExchange};
ghost use Rattle.dutch_sequence.specs.Keys.{IsIn};
ghost use Rattle.dutch_arrangements.specs.Prefixes.{Begins};
ghost use Rattle.dutch_arrangements.specs.declared.bracket.Shape.{Shape};

use dutch_arrangements::Prefix;
use dutch_sequence::Exchange;

/// Tells by how candidates of a bracket and a shape begin that they are pruned. It answers for all beginnings.
pub trait Bound {
    /// Room in which it works a question out. It is lent for each question, so that no question makes it anew.
    type Room;

    /// What stands in the room is true.
    ghost Holds: { Self → Self.Room → Type 0 };

    /// The bracket whose candidates it knows.
    ghost frame: { Self → Frame };

    /// Their shape.
    ghost shape: { Self → Shape };

    /// Who may meet in it, by their numbers.
    ghost meets: { Self → ℕ → ℕ → Bool };

    /// Who may be the one left over in it.
    ghost may_be_left: { Self → ℕ → Bool };

    /// A candidate is pruned: it may be passed over.
    ghost is_pruned: { Self → Arrangement → Bool };

    /// Makes the room ready for questions, whatever stands in it.
    fn start(&self, room: &mut Self::Room)
        ensures { Holds self.now room.new };

    /// Yes if it knows that every candidate with this beginning is pruned. A no says nothing. The room is ready then
    /// for the next question.
    fn cannot_win(&self, prefix: &Prefix<'_>, room: &mut Self::Room) -> bool
        requires { Holds self.now room.old }
        ensures pruned { result ≡ true → (a : Arrangement)
            → IsIn a (candidates (meets self.now) (may_be_left self.now) (frame self.now) (shape self.now))
            → Begins prefix.now a → is_pruned self.now a ≡ true }
        ensures ready { Holds self.now room.new };

    /// Yes if it knows that every candidate with this beginning, whose S1 and S2 are chosen, and with such an S1R is
    /// pruned. A no says nothing.
    fn cannot_win_with(
        &self,
        prefix: &Prefix<'_>,
        exchange: &Exchange<'_>,
        room: &mut Self::Room,
    ) -> bool
        ensures { result ≡ true → (a : Arrangement)
            → IsIn a (candidates (meets self.now) (may_be_left self.now) (frame self.now) (shape self.now))
            → Begins prefix.now a → IsExchange exchange.now a.s1r → is_pruned self.now a ≡ true };
}

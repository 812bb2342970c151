// Laws of a round and its boards (C.04.3 A.9, B.8): who stands on a board and in a bracket, in which order boards
// stand, where two can meet, why no bracket is a dead end, and when a round is paired.
ghost use Rattle.std.specs.Prelude.{◌≡◌, ◌++◌, ◌<◌, ◌≤◌, ◌↔◌, ℕ, List, None, Some, false, true, is_some, length};
ghost use Rattle.std.specs.List.{find};
ghost use Rattle.dutch_arrangements.specs.Prelude.{IsIn};
ghost use Rattle.dutch_player.specs.Prelude.{Facts, CountFromOne};
ghost use Rattle.dutch_bracket.specs.Prelude.{completable, downfloaters, seats_meet, seats_may_be_left};
ghost use Rattle.dutch_bracket.specs.Completion.{Completable};
ghost use Rattle.dutch_bracket.specs.declared.reached.BracketKind.TheVariants.{Collapsed, Penultimate};
ghost use Rattle.dutch_rounds.specs.Prelude as rounds;
ghost use Rattle.pairing_laws.specs.SharedBrackets.{ArePaired, pairs_in, shares};

use dutch_player::Field;
use dutch_player::laws::scores_do_not_ascend;

/// In a round that is paired each present player stands on exactly one board, once, and nobody else does.
#[tactic(auto, using(dutch_rounds::proofs::NamedBoards::everybody_named))]
pub fn everybody_is_named_once()
    ensures { (facts : Facts) (pairing : rounds.Pairing) → CountFromOne facts
        → (rounds.round facts).pairing ≡ Some pairing
        → rounds.NameEverybodyOnce facts (rounds.boards facts pairing) }
{}

/// In a round that is paired each present player stands in one of the brackets that it reaches.
#[tactic(auto, using(dutch_rounds::proofs::EverybodyStands::stands_in_one))]
pub fn everybody_stands_in_a_bracket()
    ensures { (facts : Facts) (pairing : rounds.Pairing) (seat : ℕ) → (rounds.round facts).pairing ≡ Some pairing
        → seat < length facts.seats → rounds.is_reached (rounds.round facts).reached seat ≡ true }
{}

/// In a round that is paired at most one player has the bye.
#[tactic(auto, using(dutch_rounds::proofs::WholeRounds::one_bye))]
pub fn at_most_one_has_the_bye()
    ensures { (facts : Facts) (pairing : rounds.Pairing) → (rounds.round facts).pairing ≡ Some pairing
        → length pairing.bye ≤ 1 }
{}

/// The pairs of a round stand in the order of their boards: none goes before one that stands in front of it.
#[tactic(auto, using(dutch_rounds::proofs::BoardOrder::boards_in_order))]
pub fn boards_stand_in_order()
    ensures { (facts : Facts) (pairs : List (ℕ × ℕ)) → rounds.AreInOrder facts (rounds.pairs_in_order facts pairs) }
{}

/// No two players who were moved down into a bracket that a round reaches may meet, but in the collapsed one (A.9).
#[tactic(auto, using(dutch_rounds::proofs::NoDeadEnd::moved_down_apart))]
pub fn no_two_moved_down_may_meet()
    ensures { (facts : Facts) (visit : rounds.Visit) → IsIn visit (rounds.round facts).reached
        → ¬ (visit.bracket.kind ≡ Collapsed)
        → rounds.NoTwoMayMeet facts (rounds.moved_down visit.bracket) }
{}

/// Two players who stand in one bracket that keeps its pairs are paired in the first such bracket, or in none: if it
/// leaves both over, they are moved down together, and meet in no bracket behind it (A.9, B.2, C.5).
#[tactic(auto, using(crate::proofs::SharedBrackets::there_or_nowhere))]
pub fn two_who_share_a_bracket_meet_there_or_nowhere()
    ensures { (facts : Facts) (pairing : rounds.Pairing) (one other : ℕ) (visit : rounds.Visit)
        → (rounds.round facts).pairing ≡ Some pairing
        → find (shares one other) (rounds.round facts).reached ≡ Some visit
        → ArePaired one other pairing.pairs → ArePaired one other (pairs_in visit) }
{}

/// No list of pairs that pairs out the players whom a penultimate bracket leaves over, with all players below it, has a
/// pair of two whom the bracket leaves over (A.9).
pub fn no_two_left_by_the_penultimate_are_paired(field: &Field)
    ensures { (visit : rounds.Visit) (pairs : List (ℕ × ℕ)) → IsIn visit (rounds.round field.now).reached
        → visit.bracket.kind ≡ Penultimate
        → rounds.PairOut field.now (downfloaters field.now visit.bracket visit.lists
        ++ rounds.lower_of field.now visit.bracket) pairs
        → rounds.HasNoPairOf (downfloaters field.now visit.bracket visit.lists) pairs }
{
    scores_do_not_ascend(field);
}

/// There is no dead end: a round is paired exactly if some list of pairs of present players who may meet leaves out at
/// most one of them, who may have the bye. So each bracket on the way has a candidate that can be chosen.
#[tactic(auto, using(dutch_rounds::proofs::NoDeadEnd::unpaired_exactly))]
pub fn a_round_is_paired_where_it_can_be()
    ensures paired { (facts : Facts)
        → Completable (seats_meet facts) (seats_may_be_left facts) (rounds.everybody facts) ↔
        (is_some (rounds.round facts).pairing ≡ true) }
    ensures unpaired { (facts : Facts)
        → ((rounds.round facts).pairing ≡ None) ↔ (completable facts (rounds.everybody facts) ≡ false) }
{}

/// Where a barrier blocks a round, no list of pairs of present players who may meet leaves out at most one of them, who
/// may have the bye; and the round has no pairing.
#[tactic(auto, using(crate::proofs::BarrierLemmas::incompletable, crate::proofs::BarrierLemmas::unpaired))]
pub fn a_round_that_is_blocked_has_no_pairing()
    ensures incompletable { (facts : Facts) (barrier : rounds.Barrier) → rounds.Blocks facts barrier
        → ¬ Completable (seats_meet facts) (seats_may_be_left facts) (rounds.everybody facts) }
    ensures unpaired { (facts : Facts) (barrier : rounds.Barrier) → rounds.Blocks facts barrier
        → (rounds.round facts).pairing ≡ None }
{}

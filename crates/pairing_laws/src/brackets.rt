// Laws of scoregroups, of qualities and the lists that their items stand on, of completable players and of shapes
// (C.04.3 A.3, A.8, A.9, B.1, C).
ghost use Rattle.std.specs.Prelude.{◌≡◌, ◌+◌, ◌*◌, ◌<◌, ◌≤◌, ◌⊎◌, ◌↔◌, ℕ, Bool, List, IsPermutation, Some, None};
ghost use Rattle.std.specs.Prelude.{length, slice_index, true, false};
ghost use Rattle.std.specs.List.{AllByRecursion, concat};
ghost use Rattle.std.specs.Option.{IsSomeAnd};
ghost use Rattle.dutch_arrangements.specs.Prelude.{Candidate, Fits, Frame, IsNonAscending};
ghost use Rattle.dutch_arrangements.specs.declared.bracket.Shape.{Shape};
ghost use Rattle.dutch_player.specs.Prelude.{Facts};
ghost use Rattle.dutch_bracket.specs.Prelude as brackets;
ghost use Rattle.dutch_bracket.specs.Completion.{Completable};
ghost use Rattle.dutch_bracket.specs.declared.item.Item.{Item};

/// The scoregroups of seats: each is of one score, neighbours have different scores, and one behind the other they are
/// all seats (A.3).
#[tactic(auto, using(crate::proofs::GroupLaws::groups_part, dutch_bracket::proofs::GroupLemmas::concat_scoregroups))]
pub fn scoregroups_part_the_seats()
    ensures one_score { (facts : Facts) (seats : List ℕ)
        → AllByRecursion (brackets.IsScoregroup facts) (brackets.scoregroups facts seats) }
    ensures differ { (facts : Facts) (seats : List ℕ)
        → brackets.NeighboursDiffer facts (brackets.scoregroups facts seats) }
    ensures all { (facts : Facts) (seats : List ℕ) → concat (brackets.scoregroups facts seats) ≡ seats }
{}

/// Differences that are put in order, the highest first, do not ascend, and are the same numbers as before, each as
/// often (C.6).
#[tactic(auto, using(dutch_bracket::proofs::Descents::highest_first_descends, dutch_bracket::proofs::Descents::highest_first_moves))]
pub fn highest_differences_come_first()
    ensures order { (numbers : List ℕ) → IsNonAscending (brackets.highest_first numbers) }
    ensures members { (numbers : List ℕ) → IsPermutation numbers (brackets.highest_first numbers) }
{}

/// The lowest score of some seats, in half points, is that of one of them, and none of them has a lower one (A.8).
#[tactic(auto, using(dutch_bracket::proofs::Descents::lowest_is_one, dutch_bracket::proofs::Descents::none_lower))]
pub fn lowest_score_is_the_least()
    ensures member { (facts : Facts) (seats : List ℕ) → 0 < length seats
        → (i : ℕ) × (i < length seats) × (brackets.score_at facts (slice_index seats i) ≡ brackets.lowest facts seats) }
    ensures least { (facts : Facts) (seats : List ℕ) (i : ℕ) → i < length seats
        → brackets.lowest facts seats ≤ brackets.score_at facts (slice_index seats i) }
{}

/// Of two qualities one is better, or they are the same: a strict and total order.
#[tactic(auto, using(dutch_bracket::proofs::QualityOrder::irreflexive, dutch_bracket::proofs::QualityOrder::transitive, dutch_bracket::proofs::QualityOrder::total))]
pub fn better_is_an_order()
    ensures irreflexive { (a : brackets.Quality) → brackets.is_better a a ≡ false }
    ensures transitive { (a b c : brackets.Quality) → brackets.is_better a b ≡ true → brackets.is_better b c ≡ true
        → brackets.is_better a c ≡ true }
    ensures total { (a b : brackets.Quality) → (a ≡ b) ⊎ ((brackets.is_better a b ≡ true) ⊎ (brackets.is_better b a
        ≡ true)) }
{}

/// One quality is better than another exactly if it stands in front at the first item in which they differ: they differ
/// in it, and in none that counts before it. Two that differ in none are the same, and neither is better.
#[tactic(auto, using(dutch_bracket::proofs::ItemOrder::better_in_front, dutch_bracket::proofs::ItemOrder::none_if_same, dutch_bracket::proofs::ItemOrder::none_is_better))]
pub fn better_at_the_first_difference()
    ensures better { (a b : brackets.Quality)
        → (brackets.is_better a b ≡ true) ↔ IsSomeAnd (brackets.first_difference a b)
        (λ item. brackets.IsInFrontIn item a b) }
    ensures first { (a b : brackets.Quality) (item : Item) → brackets.first_difference a b ≡ Some item
        → brackets.DifferFirstIn item a b }
    ensures none { (a b : brackets.Quality) → (brackets.first_difference a b ≡ None) ↔ (a ≡ b) }
    ensures neither { (a b : brackets.Quality) → brackets.first_difference a b ≡ None → (brackets.is_better a b ≡ false)
        × (brackets.is_better b a ≡ false) }
{}

/// Of each candidate of a bracket an item counts as many players as it says (C.8 to C.15).
#[tactic(auto, using(dutch_rounds::proofs::ItemSeats::as_many_count))]
pub fn as_many_count_as_the_item_says()
    ensures { (facts : Facts) (reached : brackets.Reached) (next : List ℕ) (draw : Candidate) (item : Item)
        → length (brackets.who_counts facts reached draw item)
        ≡ brackets.players_counted item (brackets.quality facts reached next draw) }
{}

/// Players are completable exactly if the test says so.
pub fn completable_by_test()
    ensures { (meets : ℕ → ℕ → Bool) (may_be_left : ℕ → Bool) (players : List ℕ)
        → Completable meets may_be_left players ↔ (brackets.can_complete meets may_be_left players ≡ true) }
{}

/// The most steps that it takes to tell whether n + 2 players are completable. Where nobody may be left out: for each
/// of the n + 1 partners of the first player the question, and the most steps of the n others. Where somebody may: the
/// same, and the question about the first player's bye with the most steps of the n + 1 others, none of whom may be
/// left out.
pub fn most_of_two_more()
    ensures nobody_left { (n : ℕ) → brackets.most (n + 2) false ≡ (n + 1) * (1 + brackets.most n false) }
    ensures one_left { (n : ℕ) → brackets.most (n + 2) true
        ≡ (n + 1) * (1 + brackets.most n true) + (1 + brackets.most (n + 1) false) }
    ensures none { (bye : Bool) → brackets.most 0 bye ≡ 0 }
    ensures one { brackets.most 1 false ≡ 0 }
    ensures one_alone { brackets.most 1 true ≡ 1 }
{}

/// The most steps of none to five players, one of whom may be left out.
pub fn most_of_few()
    ensures none { brackets.most 0 true ≡ 0 }
    ensures one { brackets.most 1 true ≡ 1 }
    ensures two { brackets.most 2 true ≡ 2 }
    ensures three { brackets.most 3 true ≡ 6 }
    ensures four { brackets.most 4 true ≡ 12 }
    ensures five { brackets.most 5 true ≡ 35 }
{}

/// The shape of a bracket has room in it and a candidate that can be chosen, and no shape with room and such a
/// candidate is greater; if the bracket has no shape, no shape has both (C.5, B.1).
#[tactic(auto, using(dutch_bracket::proofs::ShapeLaws::has_one, dutch_bracket::proofs::ShapeLaws::none_is_greater, dutch_bracket::proofs::ShapeLaws::none_has_one))]
pub fn the_shape_is_the_greatest()
    ensures room { (facts : Facts) (reached : brackets.Reached) (lower : List ℕ) (s : Shape)
        → brackets.shape_of facts reached lower ≡ Some s → Fits (brackets.frame_of facts reached) s }
    ensures candidate { (facts : Facts) (reached : brackets.Reached) (lower : List ℕ) (s : Shape)
        → brackets.shape_of facts reached lower ≡ Some s
        → brackets.has_member (brackets.eligible facts reached lower s) ≡ true }
    ensures greatest { (facts : Facts) (reached : brackets.Reached) (lower : List ℕ) (s t : Shape)
        → brackets.shape_of facts reached lower ≡ Some s
        → Fits (brackets.frame_of facts reached) t
        → brackets.has_member (brackets.eligible facts reached lower t) ≡ true → ¬ brackets.IsGreater t s }
    ensures none { (facts : Facts) (reached : brackets.Reached) (lower : List ℕ) (t : Shape)
        → brackets.shape_of facts reached lower ≡ None
        → Fits (brackets.frame_of facts reached) t
        → ¬ (brackets.has_member (brackets.eligible facts reached lower t) ≡ true) }
{}

/// A bracket has room for a shape exactly if the test says so.
#[tactic(auto, using(dutch_bracket::proofs::ShapeLaws::room_by_test))]
pub fn room_by_test()
    ensures { (frame : Frame) (shape : Shape) → Fits frame shape ↔ (brackets.fits frame shape ≡ true) }
{}

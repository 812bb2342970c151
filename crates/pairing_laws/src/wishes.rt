// Laws of wishes (C.04.3 B.3, B.8): when a wish is granted, and what the best candidate that grants it is, among those
// that grant it and beside the choice.
ghost use Rattle.std.specs.Prelude.{◌≡◌, ◌⊎◌, ◌↔◌, ℕ, List, Some, false, true};
ghost use Rattle.std.specs.List.{list_any};
ghost use Rattle.dutch_arrangements.specs.Prelude.{Arrangement, Frame, down, players_of, pairs_by_number, IsIn};
ghost use Rattle.dutch_arrangements.specs.declared.bracket.Shape.{Shape};
ghost use Rattle.dutch_candidates.specs.declared.wish.Wish.{Wish};
ghost use Rattle.dutch_candidates.specs.declared.wish.Wish.TheVariants.{LeftOver, Pair};
ghost use Rattle.dutch_bracket.specs.Prelude.{Context, eligible_here, best_of_shape};
ghost use Rattle.dutch_candidates.specs.Wishes.{grants};
ghost use Rattle.dutch_choice.specs.Wishes.{best_granting, is_better_here};
ghost use Rattle.pairing_laws.specs.Wishes.{ComesBefore, IsAsGoodBefore};

/// That two meet is granted exactly if they are one of an arrangement's pairs. That a player of the bracket is left
/// over is granted exactly if they are one of its downfloaters. None of some candidates grants a wish exactly if each
/// of them does not grant it.
#[tactic(auto, using(crate::proofs::BestGranting::pair_by_test, crate::proofs::BestGranting::over_by_test, crate::proofs::BestGranting::none_by_test))]
pub fn a_wish_is_granted_by_test()
    ensures pair { (p q : ℕ) (a : Arrangement)
        → (grants (Pair p q) a ≡ true) ↔ (IsIn (p, q) (pairs_by_number a) ⊎ IsIn (q, p) (pairs_by_number a)) }
    ensures over { (frame : Frame) (p : ℕ) (a : Arrangement) → IsIn p (players_of frame)
        → (grants (LeftOver p) a ≡ true) ↔ IsIn p (down frame a) }
    ensures none { (wish : Wish) (all : List Arrangement)
        → (list_any (grants wish) all ≡ false) ↔ ((a : Arrangement) → IsIn a all → grants wish a ≡ false) }
{}

/// The best candidate that grants a wish grants it and can be chosen. No other that does so is better, and it is better
/// than each of these that stands before it (B.8).
#[tactic(auto, using(crate::proofs::BestGranting::best_unbeaten, crate::proofs::BestGranting::best_first))]
pub fn the_best_that_grants_is_the_first_of_the_best()
    ensures grants { (context : Context) (shape : Shape) (wish : Wish) (a : Arrangement)
        → best_granting context shape wish ≡ Some a → (grants wish a ≡ true) × IsIn a (eligible_here context shape) }
    ensures unbeaten { (context : Context) (shape : Shape) (wish : Wish) (a b : Arrangement)
        → best_granting context shape wish ≡ Some a → IsIn b (eligible_here context shape) → grants wish b ≡ true
        → is_better_here context b a ≡ false }
    ensures first { (context : Context) (shape : Shape) (wish : Wish) (a b : Arrangement)
        → best_granting context shape wish ≡ Some a → ComesBefore b a (eligible_here context shape)
        → grants wish b ≡ true → is_better_here context a b ≡ true }
{}

/// What is chosen of a shape is better than the best candidate that grants a wish; or it is as good, and the same or
/// before it in article D's order (B.8).
#[tactic(auto, using(crate::proofs::BestGranting::chosen_before))]
pub fn the_choice_is_better_or_before()
    ensures { (context : Context) (shape : Shape) (wish : Wish) (a chosen : Arrangement)
        → best_of_shape context.facts context.reached context.lower shape ≡ Some chosen
        → best_granting context shape wish ≡ Some a
        → (is_better_here context chosen a ≡ true) ⊎ IsAsGoodBefore context shape chosen a }
{}

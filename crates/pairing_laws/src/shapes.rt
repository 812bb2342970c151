// The law of the shape of a bracket (C.04.3 B.1, C.5): it is that of a greatest matching.
ghost use Rattle.std.specs.Prelude.{◌≡◌, ℕ, List, None, Some};
ghost use Rattle.dutch_arrangements.specs.declared.bracket.Shape.{Shape};
ghost use Rattle.dutch_bracket.specs.Prelude.{Context, IsOf, shape_here};
ghost use Rattle.pairing_laws.specs.GreatestMatchings.{HasGreatestMatching, IsBracketMatching, IsGreatestMatching, made_shape};

/// The bracket's shape is that of a greatest matching (B.1, C.5): of all matchings of its players, in the penultimate
/// bracket with all lower ones, none has more pairs in the bracket, and none as many and more moved-down players in
/// them (C.1 to C.4). A bracket has a shape exactly if it has a matching.
#[tactic(auto, using(crate::proofs::GreatestMatchings::greatest_told, crate::proofs::GreatestMatchings::greatest_there))]
pub fn the_shape_is_that_of_a_greatest_matching()
    ensures greatest { (context : Context) → IsOf context.facts context.reached → (pairs : List (ℕ × ℕ)) (out : List ℕ)
        → IsGreatestMatching context pairs out → shape_here context ≡ Some (made_shape context pairs) }
    ensures has_one { (context : Context) → IsOf context.facts context.reached → (shape : Shape)
        → shape_here context ≡ Some shape → HasGreatestMatching context shape }
    ensures none { (context : Context) → IsOf context.facts context.reached → shape_here context ≡ None
        → (pairs : List (ℕ × ℕ)) (out : List ℕ) → ¬ IsBracketMatching context pairs out }
{}

// Laws of the weight of a candidate (C.04.3 C.6 to C.19). It has the items that are sums, C.6 and C.8 to C.19, and what
// the next bracket can be where that is measured, C.7, as the digits of one number. A floor of `dual` bounds it for all
// candidates with a beginning.
ghost use Rattle.std.specs.Prelude.{◌≡◌, ℕ, Option, true, ◌+◌, ◌≤◌, is_some, sum_by, nat_lt};
ghost use Rattle.dutch_arrangements.specs.Prelude.{Arrangement, down, IsIn, numbers_from, NoneTwice, Begins, Beginning};
ghost use Rattle.dutch_arrangements.specs.declared.bracket.Shape.{Shape};
ghost use Rattle.dutch_bracket.specs.Prelude as brackets;
ghost use Rattle.dutch_candidates.specs.Wishes.{is_wished};
ghost use Rattle.dutch_weight_floors.specs.Prelude.{Covers, Scope, Order, added_in};
ghost use Rattle.dutch_weighing.specs.Prelude as scales;
ghost use Rattle.dutch_candidates.specs.declared.wish.Wish.{Wish};
ghost use Rattle.dutch_bracket.specs.declared.reached.BracketKind.TheVariants.{Ordinary};
ghost use Rattle.dutch_weight_floors.specs.declared.scoped.Reach.TheVariants.{Next};
ghost use Rattle.pairing_laws.specs.Costs.{costs_here};
ghost use Rattle.dual.specs.Prelude.{FloorTable, IsFloor, slack_in, cost};

/// C.6 to C.19: the weight of a candidate is the sum of what each of its pairs and each of its downfloaters weighs
/// alone, and, where C.7 is measured, of what its value of the next bracket weighs.
#[tactic(auto, using(dutch_weighing::proofs::C06ToC19Weights::candidate_weighs))]
pub fn a_weight_is_a_sum()
    ensures { (context : brackets.Context) (scale : scales.Scale) (a : Arrangement)
        → scales.weight_of scale (brackets.quality_here context a)
        ≡ cost (scales.weighing context.facts context.reached scale) (brackets.number_pairs a) (down
        (brackets.frame_here context) a)
        + scales.weight_below scale (scales.alone_by scale.next (brackets.quality_here context a).next_pairs)
        (brackets.quality_here context a).next_psd }
{}

/// C.6 to C.19: of two qualities with one value of the next bracket, or on a scale that measures that (C.7), the better
/// one is the one that weighs less, if the scale has a digit for each of their differences and a base above each of
/// their digits.
#[tactic(auto, using(dutch_weighing::proofs::WrittenNumbers::lighter_is_better))]
pub fn the_lighter_is_better()
    ensures { (scale : scales.Scale) → scales.IsScale scale → (q r : brackets.Quality) → scales.IsOn scale q
        → scales.IsOn scale r → scales.HasDigits scale q
        → scales.HasDigits scale r
        → scales.HasSameNextOn scale.next q r → brackets.is_better q r
        ≡ nat_lt (scales.weight_of scale q) (scales.weight_of scale r) }
{}

/// C.6 to C.19: on a scale that measures the next bracket (C.7), a candidate of an ordinary bracket that grants what is
/// wished, if something is, weighs no less than a floor over the next lower scoregroup too says. The floor has to hold
/// however many are left over there. It says its base, and what the pairs of the beginning add, each once, less its
/// debt.
#[tactic(auto, using(dutch_weight_floors::proofs::C07NextWeights::weighs_more_next))]
pub fn a_floor_for_the_next_group_bounds_the_weight()
    ensures { (context : brackets.Context) (scale : scales.Scale) (scope : Scope) (wish : Option Wish)
        (order : Order) (shape : Shape)
        (a : Arrangement) → brackets.FitsHere context shape → IsIn a (brackets.candidates_here context shape)
        → is_wished wish a ≡ true
        → (b : Beginning) → Begins b a → Covers scope b → is_some scale.next ≡ true
        → scales.IsScaleFor context.facts context.reached context.lower shape scale → (floor : FloorTable)
        → ((left : ℕ) → IsFloor (costs_here context scale scope wish Next order)
        (numbers_from 1 (brackets.count_below context.facts context.reached context.lower)) left floor)
        → floor.base + sum_by (slack_in floor) (brackets.number_pairs (brackets.fixed_lists b))
        ≤ floor.debt + (scales.weight_of scale (brackets.quality_here context a) + added_in order a) }
{}

/// C.7: what the next bracket can be at best below a candidate of an ordinary bracket is the value of pairs by number:
/// with the pairs of the candidate, and those who are in none, they are all numbers of the bracket and the next lower
/// scoregroup.
#[tactic(auto, using(dutch_weighing::proofs::C07NextMatchings::joins_below))]
pub fn the_next_value_is_that_of_a_matching()
    ensures { (context : brackets.Context) (shape : Shape) (a : Arrangement)
        → brackets.IsAbove context.facts context.reached context.lower → context.reached.kind ≡ Ordinary
        → IsIn a (brackets.candidates_here context shape)
        → brackets.JoinsBelow context.facts context.reached context.lower a }
{}

/// C.7: so it has no more pairs than half the players of the next bracket, and no more differences than players, the
/// highest first.
pub fn the_next_value_is_small()
    ensures { (context : brackets.Context) (shape : Shape) (a : Arrangement)
        → brackets.IsAbove context.facts context.reached context.lower → context.reached.kind ≡ Ordinary
        → IsIn a (brackets.candidates_here context shape)
        → brackets.IsSmall (brackets.players_below context.facts context.reached context.lower shape)
        (brackets.next_in (brackets.quality_here context a)) }
{}

/// C.1, C.3: where no lower player comes twice, two who may be a pair of the next bracket are two seats that meet.
#[tactic(auto, using(dutch_weighing::proofs::C07NextMatchings::seats_meet_below))]
pub fn pairs_of_the_next_bracket_meet()
    ensures { (context : brackets.Context) (a : Arrangement)
        → brackets.IsAbove context.facts context.reached context.lower
        → NoneTwice context.lower → (pair : ℕ × ℕ)
        → brackets.MayPairBelow context.facts context.reached context.lower a pair
        → brackets.seats_meet context.facts (brackets.seat_below context.facts context.reached context.lower pair.0)
        (brackets.seat_below context.facts context.reached context.lower pair.1) ≡ true }
{}

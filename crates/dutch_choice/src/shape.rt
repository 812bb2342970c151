// The shape of a bracket (C.04.3 C.5, B.1): the most pairs that some candidate has, and then the most moved-down
// players in them.
ghost use Rattle.std.specs.Prelude.{◌≡◌, Some, None, true, false, filter, IfSome};
ghost use Rattle.std.specs.Result.{MatchResult};
ghost use Rattle.dutch_arrangements.specs.Prelude.{MatchFound, Spends};
ghost use Rattle.dutch_bracket.specs.Prelude.{FitsHere, IsFound, eligible_here, first_with};
ghost use Rattle.dutch_bracket.specs.Prelude.{fits, frame_here, shape_here, shapes_with};
ghost use Rattle.dutch_choice.specs.ShapeCosts.{IsTooCheap, IsShapeFloor};
ghost use Rattle.dutch_choice.specs.Starts.{IsFoundShape, ListsHere, StandsBehindFirst};

use crate::certified::{ShapeFloor, steps_before, told_by_cost};
use crate::first_candidate::first_eligible;
use crate::players::Players;
use crate::start::{FoundShape, Start};
use dutch_arrangements::{Bracket, Budget, Shape, Stopped};
use dutch_bracket::context::Context;
use dutch_bracket::shaped::ShapedBracket;
use dutch_candidates::few_steps::decided_in_few_steps;
use dutch_candidates::greatest::{Lister, Shapes, greatest_shape};
use dutch_candidates::narrowed::NarrowedRule;

/// A bracket whose shape is looked for, and what every shape that counts costs at least.
#[derive(Drop)]
struct ShapesAboveFloor<'a, 'b> {
    context: &'b Context<'a>,
    floor: ShapeFloor,
    ghost bound: { IsShapeFloor context.now floor },
}

impl<'a, 'b> ShapesAboveFloor<'a, 'b> {
    #[tactic(auto, using(crate::proofs::CheapShapes::too_cheap_by))]
    fn is_too_cheap(&self, shape: Shape) -> bool
        ensures { result ≡ true → IsTooCheap self.now.context.now shape }
    {
        self.floor.is_above(&Players::of(self.context), shape)
    }
}

impl<'a, 'b, 'c> Shapes<NarrowedRule<'c>> for ShapesAboveFloor<'a, 'b> {
    ghost use Rattle.std.specs.Prelude.{None};
    ghost use Rattle.dutch_bracket.specs.Prelude.{eligible_here, frame_here};
    ghost use Rattle.dutch_choice.specs.Starts.{ListsHere, StandsBehindFirst};

    ghost counting = { λ b. eligible_here b.context.now };

    ghost frame = { λ b. frame_here b.context.now };

    ghost lists = { λ b. ListsHere b.context.now None };

    ghost stands = { λ b. StandsBehindFirst b.context.now };

    fn bracket(&self) -> &Bracket
        ensures { result.now ≡ frame_here self.now.context.now }
    {
        self.context.frame()
    }

    fn may_have(&self, pairs: usize) -> bool
        ensures { result ≡ false
            → first_with (eligible_here self.now.context.now)
            (filter (fits (frame_here self.now.context.now)) (shapes_with pairs)) ≡ None }
    {
        // of the shapes with so many pairs the one that costs most
        !self.is_too_cheap(Shape { pairs, mdps: 0 })
    }

    fn first(
        &self,
        lister: &mut Lister<'_, NarrowedRule<'c>>,
        shape: Shape,
        budget: &mut Budget,
    ) -> Result<bool, Stopped> {
        if self.is_too_cheap(shape) {
            return Ok(false);
        }
        let shaped = ShapedBracket {
            context: self.context,
            shape,
        };
        first_eligible(&shaped, lister, budget)
    }
}

/// A shape that a listing has found: its first candidate is drawn.
#[tactic(auto, unfolding(dutch_bracket::specs::Brackets::shape_of))]
fn drawn_shape(
    context: &Context<'_>,
    found: Option<Shape>,
    lister: &Lister<'_, NarrowedRule<'_>>,
) -> Option<FoundShape>
    requires found { IsFound (eligible_here context.now) (frame_here context.now) found lister.now.drawn }
    requires stands { IfSome found
        (λ shape. StandsBehindFirst context.now shape lister.now.listing lister.now.drawn) }
    requires lists { ListsHere context.now None lister.now.listing }
    ensures { IsFoundShape context.now lister.now result }
{
    match found {
        Some(shape) => Some(FoundShape {
            shape,
            start: Start::Drawn,
        }),
        None => None,
    }
}

/// The shape: by a listing of few steps, then by a matching of least cost, and where that does not tell it, by the
/// whole listing above its floor. A listing that finds it leaves its first candidate drawn.
#[tactic(auto, unfolding(dutch_bracket::specs::Brackets::shape_of))]
#[inline(never)]
pub(crate) fn found_shape<'b>(
    context: &Context<'_>,
    lister: &mut Lister<'_, NarrowedRule<'b>>,
    budget: &mut Budget,
) -> Result<Option<FoundShape>, Stopped>
    requires lists { ListsHere context.now None lister.old.listing }
    ensures answer { MatchResult result (IsFoundShape context.now lister.new)
        (λ _. budget.new.used ≡ budget.new.limit) }
    ensures spends { Spends budget.old budget.new }
{
    let mut shapes = ShapesAboveFloor {
        context,
        floor: ShapeFloor::none(),
    };
    let players = Players::of(context);
    let few = steps_before(players.count());
    if let Some(found) = decided_in_few_steps(&shapes, lister, few, budget)? {
        return Ok(drawn_shape(context, found, lister));
    }
    let told = told_by_cost(&players, budget)?;
    if let Some(shape) = told.shape {
        return Ok(Some(FoundShape {
            shape,
            start: Start::Anew,
        }));
    }
    shapes.floor = told.floor;
    let found = greatest_shape(&shapes, lister, budget)?;
    Ok(drawn_shape(context, found, lister))
}

/// The shape of a bracket of a field above all lower seats by rank: of the shapes that have a candidate, the one with
/// the most pairs, and for them with the most moved-down players. The answer is none if no shape has one.
#[inline(never)]
pub fn shape_of(context: &Context<'_>, budget: &mut Budget) -> Result<Option<Shape>, Stopped>
    ensures answer { MatchFound result
        (λ shape. (shape_here context.now ≡ Some shape) × FitsHere context.now shape)
        (shape_here context.now ≡ None)
        (budget.new.used ≡ budget.new.limit) }
    ensures spends { Spends budget.old budget.new }
{
    let rule = NarrowedRule {
        rule: context.rule(),
        wish: None,
    };
    let mut lister = Lister::new(context.frame(), &rule);
    // One way out, as each one more clears the place of a lister more.
    match found_shape(context, &mut lister, budget) {
        Ok(Some(found)) => Ok(Some(found.shape)),
        Ok(None) => Ok(None),
        Err(Stopped) => Err(Stopped),
    }
}

// The first candidate of a shape that can be chosen (C.04.3 C.4).
ghost use Rattle.std.specs.Prelude.{◌≡◌, true, false, IfOk, None};
ghost use Rattle.dutch_arrangements.specs.Prelude.{MatchDrawn, Spends};
ghost use Rattle.dutch_bracket.specs.Shapes.{IsFirst, has_member};
ghost use Rattle.dutch_bracket.specs.InContext.{frame_here};
ghost use Rattle.dutch_bracket.specs.Shaped.{eligible_in};
ghost use Rattle.dutch_choice.specs.Starts.{ListsHere, StandsBehindFirst};

use dutch_arrangements::{Budget, Stopped};
use dutch_bracket::reached::Seats;
use dutch_bracket::shaped::ShapedBracket;
use dutch_candidates::greatest::Lister;
use dutch_candidates::narrowed::NarrowedRule;
use dutch_completion::eligible::can_be_chosen;

/// Draws the first candidate of a shape that can be chosen. No says that there is none.
#[tactic(auto, using(dutch_completion::proofs::EligibleLemmas::first_fit, dutch_completion::proofs::EligibleLemmas::passes_unfit, dutch_completion::proofs::EligibleLemmas::has_none, dutch_completion::proofs::EligibleLemmas::drawn_behind))]
pub fn first_eligible(
    shaped: &ShapedBracket<'_>,
    lister: &mut Lister<'_, NarrowedRule<'_>>,
    budget: &mut Budget,
) -> Result<bool, Stopped>
    requires lists { ListsHere shaped.now.context.now None lister.old.listing }
    ensures answer { MatchDrawn result
        (IsFirst (eligible_in shaped.now) (frame_here shaped.now.context.now) lister.new.drawn)
        (has_member (eligible_in shaped.now) ≡ false)
        (budget.new.used ≡ budget.new.limit) }
    ensures stands { IfOk result (λ yes. yes ≡ true
        → StandsBehindFirst shaped.now.context.now shaped.now.shape lister.new.listing lister.new.drawn) }
    ensures lists { ListsHere shaped.now.context.now None lister.new.listing }
    ensures spends { Spends budget.old budget.new }
{
    lister.listing.restart(shaped.shape);
    let mut left = Seats::new();
    loop {
        let drawn = lister.listing.put_next(&mut lister.drawn, budget);
        if drawn.found()?.is_none() {
            return Ok(false);
        }
        if can_be_chosen(shaped.context, &lister.drawn, &mut left, budget)? {
            return Ok(true);
        }
    }
}

// The choice in a bracket, and what would stand there instead (C.04.3 B.8), by the finder of `dutch_search`.
ghost use Rattle.std.specs.Prelude.{◌≡◌, IfOk};
ghost use Rattle.dutch_arrangements.specs.Prelude.{Spends};
ghost use Rattle.dutch_bracket.specs.Prelude.{HasCandidate, IsAbove};
ghost use Rattle.dutch_choice.specs.Prelude.{IsChoice};
ghost use Rattle.dutch_rounds.specs.Prelude.{IsInstead, IsStage, above_lower};

use dutch_arrangements::Budget;
use dutch_player::Field;
use dutch_rounds::{Choice, Instead, PairFault, Reached, Stage, Wish};
use dutch_search::WithFloors;
use std::alloc::Global;

/// The choice in a bracket of a field that has a candidate, above all lower seats by rank. In the penultimate bracket
/// only those candidates count that leave over players who can be paired out with all lower ones (C.4).
///
/// # Errors
/// Memory was refused.
pub fn choose(
    alloc: Global,
    field: &Field,
    reached: &Reached,
    lower: &[u16],
    budget: &mut Budget,
) -> Result<Choice, PairFault>
    requires above { IsAbove field.now reached.now lower.now }
    requires candidate { HasCandidate field.now reached.now lower.now }
    ensures answer { IfOk result (IsChoice
        (record { facts = field.now; reached = reached.now; lower = lower.now })
        (budget.new.used ≡ budget.new.limit)) }
    ensures spends { Spends budget.old budget.new }
{
    dutch_rounds::choose::<WithFloors>(alloc, field, reached, lower, budget)
}

/// The best candidate of a bracket's shape that grants a wish and can be chosen (B.8, C.4), or why there is none: what
/// would stand there if the wish were granted. The wish names players by their numbers in the bracket; no candidate
/// pairs a number that the bracket has not. The search has a budget of its own, of `limit` steps.
///
/// # Errors
/// Memory was refused.
pub fn best_instead(
    alloc: Global,
    field: &Field,
    stage: &Stage,
    wish: Wish,
    limit: u64,
) -> Result<Instead, PairFault>
    requires { IsStage field.now stage.now }
    ensures { IfOk result (IsInstead (above_lower field.now stage.now.reached) stage.now.shape wish limit) }
{
    dutch_rounds::best_instead::<WithFloors>(alloc, field, stage, wish, limit)
}

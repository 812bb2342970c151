// The round, its brackets and its stages (C.04.3 A.3, A.9), by the finder of `dutch_search`.
ghost use Rattle.std.specs.Prelude.{IfOk};
ghost use Rattle.dutch_rounds.specs.Outcomes.{AreStages, IsBracketAt, IsOutcome, TellsCompletion, TellsCompletionAt};

use dutch_player::Field;
use dutch_rounds::{AllStages, BracketAt, Outcome, PairFault};
use dutch_search::WithFloors;
use std::alloc::Global;

/// Pairs the next round of a field. Each bracket may make so many steps.
///
/// # Errors
/// Memory was refused.
pub fn pair_round(alloc: Global, field: &Field, limit: u64) -> Result<Outcome, PairFault>
    ensures outcome { IfOk result (IsOutcome field.now limit) }
    ensures completion { IfOk result (TellsCompletion field.now) }
{
    dutch_rounds::pair_round::<WithFloors>(alloc, field, limit)
}

/// The bracket of a number, counted from 1 as the round reaches them, and its shape. No bracket has the number 0. Each
/// bracket may make so many steps.
///
/// # Errors
/// Memory was refused.
pub fn bracket_at(
    alloc: Global,
    field: &Field,
    limit: u64,
    number: u16,
) -> Result<BracketAt, PairFault>
    ensures bracket { IfOk result (IsBracketAt field.now limit number) }
    ensures completion { IfOk result (TellsCompletionAt field.now) }
{
    dutch_rounds::bracket_at::<WithFloors>(alloc, field, limit, number)
}

/// The stages of the next round of a field, as `pair_round` pairs it.
///
/// # Errors
/// Memory was refused.
pub fn stages(alloc: Global, field: &Field, limit: u64) -> Result<AllStages, PairFault>
    ensures { IfOk result (AreStages field.now limit) }
{
    dutch_rounds::stages::<WithFloors>(alloc, field, limit)
}

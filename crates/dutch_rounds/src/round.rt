// The round, bracket by bracket (C.04.3 A.3, A.9), specified by a recursion over the scoregroups.
ghost use Rattle.std.specs.Prelude.{◌≡◌, true, IfOk};
ghost use Rattle.std.specs.Result.{MatchResult};
ghost use Rattle.dutch_bracket.specs.Prelude.{completable};
ghost use Rattle.dutch_rounds.specs.declared.round.AllStages.TheVariants.{Paired};
ghost use Rattle.dutch_rounds.specs.Round.{everybody};
ghost use Rattle.dutch_rounds.specs.Stages.{ArePairs, IsFound, IsHalt};
ghost use Rattle.dutch_rounds.specs.Outcomes.{AreStages, IsOutcome, IsBracketAt, TellsCompletion, TellsCompletionAt};

use crate::boards::{Board, boards};
use crate::stage::Stage;
use crate::walk::{Ground, Halt, Walk, everybody};
use bumpalo::Bump;
use dutch_arrangements::Shape;
use dutch_bracket::fault::PairFault;
use dutch_bracket::reached::{Reached, Seats};
use dutch_bracket::seated::Pair;
use dutch_choice::finder::Finder;
use dutch_player::Field;
use std::alloc::Global;

/// The outcome of pairing a round.
#[derive(Drop)]
pub enum Outcome {
    /// The boards in their order: start ranks of white and of black, 0 for the pairing-allocated bye, which is last.
    Paired(Vec<Board>),
    /// No pairing meets the absolute criteria.
    NoPairing,
    /// The steps of a bracket reached the limit, which is `used`, before it was decided.
    Undecided { bracket: u16, used: u64 },
}

/// The bracket of a number, or why there is none.
#[derive(Drop)]
pub enum BracketAt {
    /// The bracket and its shape.
    Bracket { reached: Reached, shape: Shape },
    /// The round ends before it.
    NotReached,
    /// No pairing meets the absolute criteria.
    NoPairing,
    /// The steps of a bracket reached the limit, which is `used`, before it was known.
    Undecided { bracket: u16, used: u64 },
}

/// The stages of a round, or why there are none.
#[derive(Drop)]
pub enum AllStages {
    /// The brackets that the round reaches, in order, as they are settled, and the seat that has the bye, if one has.
    Paired { stages: Vec<Stage>, bye: Seats },
    /// No pairing meets the absolute criteria.
    NoPairing,
    /// The steps of a bracket reached the limit, which is `used`, before it was decided.
    Undecided { bracket: u16, used: u64 },
}

/// The pairs of the next round of a field, by seat, and the seat that has the bye, if one has.
fn pairs_and_bye<F: Finder>(
    alloc: Global,
    field: &Field,
    limit: u64,
) -> Result<(Vec<Pair>, Seats), Halt>
    ensures { MatchResult result
        (λ made. ArePairs field.now made.0.items made.1.items × (completable field.now (everybody field.now) ≡ true))
        (IsHalt field.now limit) }
{
    let all = everybody(field);
    let arena = Bump::new(alloc);
    let ground = Ground {
        alloc,
        field,
        arena: &arena,
    };
    let mut walk = Walk::start(ground, &all, limit)?;
    let mut room = F::Room::default();
    let mut pairs = Vec::new(alloc);
    while let Some(stage) = walk.settle_next::<F>(&mut room)? {
        stage.put_pairs(field, &mut pairs)?;
    }
    Ok((pairs, walk.bye()))
}

/// Pairs the next round of a field. Each bracket may make so many steps.
#[tactic(auto, using(crate::proofs::NoDeadEnd::all_complete, crate::proofs::NoDeadEnd::not_complete, crate::proofs::NoDeadEnd::not_paired))]
#[inline(never)]
pub fn pair_round<F: Finder>(alloc: Global, field: &Field, limit: u64) -> Result<Outcome, PairFault>
    ensures outcome { IfOk result (IsOutcome field.now limit) }
    ensures completion { IfOk result (TellsCompletion field.now) }
{
    match pairs_and_bye::<F>(alloc, field, limit) {
        Ok((pairs, bye)) => Ok(Outcome::Paired(boards(alloc, field, &pairs, &bye)?)),
        Err(Halt::NoPairing) => Ok(Outcome::NoPairing),
        Err(Halt::Undecided { bracket, used }) => Ok(Outcome::Undecided { bracket, used }),
        Err(Halt::Fault(fault)) => Err(fault),
    }
}

/// The bracket of a number, if the round reaches it, and its shape.
fn bracket_and_shape<F: Finder>(
    alloc: Global,
    field: &Field,
    limit: u64,
    number: u16,
) -> Result<Option<(Reached, Shape)>, Halt>
    ensures { MatchResult result
        (λ found. IsFound field.now number found × (completable field.now (everybody field.now) ≡ true))
        (IsHalt field.now limit) }
{
    let all = everybody(field);
    let arena = Bump::new(alloc);
    let ground = Ground {
        alloc,
        field,
        arena: &arena,
    };
    let mut walk = Walk::start(ground, &all, limit)?;
    let mut room = F::Room::default();
    while walk.number() != number {
        if walk.settle_next::<F>(&mut room)?.is_none() {
            return Ok(None);
        }
    }
    walk.bracket()
}

/// The bracket of a number, counted from 1 as the round reaches them, and its shape. No bracket has the number 0. Each
/// bracket may make so many steps.
#[tactic(auto, using(crate::proofs::NoDeadEnd::all_complete, crate::proofs::NoDeadEnd::not_complete, crate::proofs::NoDeadEnd::not_paired, crate::proofs::NoDeadEnd::nothing_reached, crate::proofs::NoDeadEnd::round_goes))]
#[inline(never)]
pub fn bracket_at<F: Finder>(
    alloc: Global,
    field: &Field,
    limit: u64,
    number: u16,
) -> Result<BracketAt, PairFault>
    ensures bracket { IfOk result (IsBracketAt field.now limit number) }
    ensures completion { IfOk result (TellsCompletionAt field.now) }
{
    match bracket_and_shape::<F>(alloc, field, limit, number) {
        Ok(Some((reached, shape))) => Ok(BracketAt::Bracket { reached, shape }),
        Ok(None) => Ok(BracketAt::NotReached),
        Err(Halt::NoPairing) => Ok(BracketAt::NoPairing),
        Err(Halt::Undecided { bracket, used }) => Ok(BracketAt::Undecided { bracket, used }),
        Err(Halt::Fault(fault)) => Err(fault),
    }
}

/// The stages of the next round of a field, and the seat that has the bye, if one has.
fn all_stages<F: Finder>(
    alloc: Global,
    field: &Field,
    limit: u64,
) -> Result<(Vec<Stage>, Seats), Halt>
    ensures { MatchResult result (λ made. AreStages field.now limit (Paired made.0 made.1)) (IsHalt field.now limit) }
{
    let all = everybody(field);
    let arena = Bump::new(alloc);
    let ground = Ground {
        alloc,
        field,
        arena: &arena,
    };
    let mut walk = Walk::start(ground, &all, limit)?;
    let mut room = F::Room::default();
    let mut stages = Vec::new(alloc);
    while let Some(stage) = walk.settle_next::<F>(&mut room)? {
        stages.push(stage).map_err(PairFault::from)?;
    }
    Ok((stages, walk.bye()))
}

/// The stages of the next round of a field, as `pair_round` pairs it.
#[tactic(auto, using(crate::proofs::NoDeadEnd::not_paired))]
#[inline(never)]
pub fn stages<F: Finder>(alloc: Global, field: &Field, limit: u64) -> Result<AllStages, PairFault>
    ensures { IfOk result (AreStages field.now limit) }
{
    match all_stages::<F>(alloc, field, limit) {
        Ok((stages, bye)) => Ok(AllStages::Paired { stages, bye }),
        Err(Halt::NoPairing) => Ok(AllStages::NoPairing),
        Err(Halt::Undecided { bracket, used }) => Ok(AllStages::Undecided { bracket, used }),
        Err(Halt::Fault(fault)) => Err(fault),
    }
}

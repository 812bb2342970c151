// Whether a round has other boards in a report than those that it is paired with.
ghost use Rattle.std.specs.Prelude.{◌≡◌, ◌++◌, ◌<◌, not, IfOk, OnOk};
ghost use Rattle.std.specs.List.{AllByRecursion, flat_map, list_any};
ghost use Rattle.dutch_rounds.specs.Prelude.{IsStage, own_pairs};
ghost use Rattle.command_line.specs.OtherBoards.{are_among, are_one, are_same, boards_paired, has_other_boards, was_paired};
ghost use Rattle.tables.specs.Prelude.{boards_of};

use dutch_player::Field;
use dutch_rounds::boards::{Board, boards};
use dutch_rounds::{Pair, PairFault, Stage};
use std::alloc::{AllocError, Global};
use tables::boards_of;
use trf16_report::Report;

/// How a round is paired: the brackets that it reached, and the seat that has the bye, if one has.
#[derive(Clone, Copy)]
pub struct Settled<'a> {
    pub field: &'a Field,
    pub stages: &'a [Stage],
    pub bye: &'a [u16],
}

// The boards of a round that is paired: of the pairs that its brackets keep, and of who has the bye.
fn boards_paired(alloc: Global, round: Settled<'_>) -> Result<Vec<Board>, AllocError>
    requires { AllByRecursion (IsStage round.field.now) round.stages.now }
    ensures { IfOk result (λ all. all.items
        ≡ boards_paired round.entry.field.now round.entry.stages.now round.entry.bye.now) }
{
    let mut pairs = Vec::new(alloc);
    put_pairs(round.field, round.stages, &mut pairs)?;
    boards(alloc, round.field, &pairs, round.bye)
}

// Puts the pairs that brackets keep, one bracket behind the other.
fn put_pairs(field: &Field, stages: &[Stage], pairs: &mut Vec<Pair>) -> Result<(), PairFault>
    requires { AllByRecursion (IsStage field.now) stages.now }
    ensures { OnOk result (pairs.new.items ≡ pairs.old.items ++ flat_map own_pairs stages.now) }
{
    for stage in stages {
        stage.put_pairs(field, pairs)?;
    }
    Ok(())
}

/// Yes if the round that is asked for was paired in the report and has not the boards there that it is paired with now,
/// in whatever order: it was paired by hand, or what it stands on was corrected.
///
/// # Errors
/// Memory was refused.
pub fn has_other_boards(
    alloc: Global,
    report: &Report<'_>,
    number: Option<u8>,
    round: Settled<'_>,
) -> Result<bool, AllocError>
    requires { AllByRecursion (IsStage round.field.now) round.stages.now }
    ensures { IfOk result (λ has. has ≡ has_other_boards report.now number
        (boards_paired round.entry.field.now round.entry.stages.now round.entry.bye.now)) }
{
    match number {
        Some(number) if was_paired(report, number) => {
            let paired = boards_paired(alloc, round)?;
            differ_in(alloc, report, number, &paired)
        }
        _ => Ok(false),
    }
}

fn was_paired(report: &Report<'_>, round: u8) -> bool
    ensures { result ≡ was_paired report.now round }
{
    0 < round && round <= report.rounds_played()
}

// Yes if a round that was paired has not these boards in the report, in whatever order.
fn differ_in(
    alloc: Global,
    report: &Report<'_>,
    round: u8,
    paired: &[Board],
) -> Result<bool, AllocError>
    requires { 0 < round }
    ensures { IfOk result (λ differ. differ ≡ not (are_same (boards_of report.now round) paired.now)) }
{
    let there = boards_of(alloc, report, round)?;
    Ok(!are_same(&there, paired))
}

// Two rounds have the same boards, in whatever order.
fn are_same(some: &[Board], others: &[Board]) -> bool
    ensures { result ≡ are_same some.now others.now }
{
    are_among(others, some) && are_among(some, others)
}

// Each of some boards is among others.
fn are_among(others: &[Board], some: &[Board]) -> bool
    ensures { result ≡ are_among others.now some.now }
{
    some.iter().all(|board| is_among(others, *board))
}

fn is_among(others: &[Board], board: Board) -> bool
    ensures { result ≡ list_any (are_one board) others.now }
{
    others.iter().any(|other| are_one(board, *other))
}

// Two boards have the same players with the same colours.
fn are_one(board: Board, other: Board) -> bool
    ensures { result ≡ are_one board other }
{
    board.0 == other.0 && board.1 == other.1
}

// The command `boards`: the boards of a round as they stand in the report.
ghost use Rattle.std.specs.Prelude.{◌≡◌, ◌<◌, ◌≤◌, IfOk, Ok};
ghost use Rattle.trf16_report.specs.Prelude.{verdict};
ghost use Rattle.round_commands.specs.BoardsAnswers.{boards_answer, boards_at, round_text};
ghost use Rattle.replies.specs.Prelude.{answer_of, done};

use crate::pair::tell_ranks;
use replies::refusal::{report_refused, round_not_reached};
use replies::{Reply, wall};
use requests::BoardsOptions;
use std::alloc::{AllocError, Global};
use tables::boards_of;
use trf16_report::{Fault, Report};

/// What `boards` says of the bytes of a report in which the pairing-allocated bye gives `bye` half points.
#[inline(never)]
pub fn boards(
    alloc: Global,
    options: BoardsOptions,
    bytes: &[u8],
    bye: u16,
) -> Result<Reply, AllocError>
    requires { bye ≤ 2 }
    ensures { IfOk result (λ reply. answer_of reply ≡ boards_answer options (verdict bytes.now bye)) }
{
    match trf16_reader::read_with(alloc, bytes, bye) {
        Ok(report) => of_report(alloc, options, &report),
        Err(Fault::OutOfMemory) => Err(AllocError),
        Err(fault) => report_refused(alloc, fault),
    }
}

// What `boards` says of an accepted report.
fn of_report(
    alloc: Global,
    options: BoardsOptions,
    report: &Report<'_>,
) -> Result<Reply, AllocError>
    ensures { IfOk result (λ reply. answer_of reply ≡ boards_answer options (Ok report.now)) }
{
    let round = options.round.unwrap_or(report.rounds_played());
    at_round(alloc, options.names, report, round)
}

// The boards of a round, if it was paired.
fn at_round(alloc: Global, names: bool, report: &Report<'_>, round: u8) -> Result<Reply, AllocError>
    ensures { IfOk result (λ reply. answer_of reply ≡ boards_at names report.now round) }
{
    if round == 0 || report.rounds_played() < round {
        return round_not_reached(alloc, round);
    }
    of_round(alloc, names, report, round)
}

// The boards of a round that was paired.
fn of_round(alloc: Global, names: bool, report: &Report<'_>, round: u8) -> Result<Reply, AllocError>
    requires { 0 < round }
    ensures { IfOk result (λ reply. answer_of reply ≡ done (round_text names report.now round)) }
{
    let boards = boards_of(alloc, report, round)?;
    if names {
        wall::played_boards(alloc, report, round, &boards)
    } else {
        tell_ranks(alloc, &boards)
    }
}

// The command `pair`: the boards of the next round, or the report with that round.
ghost use Rattle.std.specs.Prelude.{◌≡◌, ◌≤◌, ◌++◌, IfOk, Ok, OnOk};
ghost use Rattle.std.specs.List.{flat_map};
ghost use Rattle.dutch_player.specs.Prelude.{facts_of};
ghost use Rattle.trf16_report.specs.Prelude.{verdict, CanBePaired, HasOwnStarts, with_round};
ghost use Rattle.round_commands.specs.PairAnswers.{AnswersPair, PairsField, TellsBoards, TellsOutcome, TellsReport};
ghost use Rattle.round_commands.specs.PairAnswers.{board_text, boards_text};
ghost use Rattle.round_commands.specs.Known.{CanBeTold, HasFewRounds};
ghost use Rattle.replies.specs.Prelude.{answer_of, done, seen_before};

use common_texts::Page;
use dutch_choice::finder::Finder;
use dutch_player::{Field, FieldFault};
use dutch_rounds::boards::Board;
use dutch_rounds::laws::boards_can_be_the_next_round;
use dutch_rounds::{Outcome, pair_round};
use replies::format::reply_with_report;
use replies::refusal::{bracket_undecided, cannot_be_paired, no_pairing};
use replies::views::{not_seen, read_before};
use replies::{Reply, Status, wall};
use requests::{PairOptions, Shown};
use std::alloc::{AllocError, Global};
use trf16_report::Report;
use trf16_writer::with_round;

/// What `pair` says of the bytes of a report in which the pairing-allocated bye gives `bye` half points.
#[inline(never)]
pub fn pair<F: Finder>(
    alloc: Global,
    options: PairOptions,
    bytes: &[u8],
    bye: u16,
) -> Result<Reply, AllocError>
    requires rounds { HasFewRounds options }
    requires worth { bye ≤ 2 }
    ensures { IfOk result
        (λ reply. AnswersPair options (seen_before options.round (verdict bytes.now bye)) (answer_of reply)) }
{
    match read_before(alloc, bytes, bye, options.round)? {
        Ok(report) => of_report::<F>(alloc, options, &report),
        Err(why) => not_seen(alloc, why),
    }
}

// What `pair` says of an accepted report, or of one as it stood before a round.
fn of_report<F: Finder>(
    alloc: Global,
    options: PairOptions,
    report: &Report<'_>,
) -> Result<Reply, AllocError>
    requires few { HasFewRounds options }
    requires own { HasOwnStarts report.now }
    ensures { IfOk result (λ reply. AnswersPair options (Ok report.now) (answer_of reply)) }
{
    match Field::new(alloc, report, options.rounds, options.initial) {
        Ok(field) => of_field::<F>(alloc, options, report, &field),
        Err(FieldFault::OutOfMemory) => Err(AllocError),
        Err(fault) => cannot_be_paired(alloc, fault),
    }
}

// What `pair` says of those whom the next round is paired from.
#[tactic(auto, using(crate::proofs::PairLemmas::can_be_told))]
fn of_field<F: Finder>(
    alloc: Global,
    options: PairOptions,
    report: &Report<'_>,
    field: &Field,
) -> Result<Reply, AllocError>
    requires few { HasFewRounds options }
    requires own { HasOwnStarts report.now }
    requires field { facts_of report.now options.rounds options.initial ≡ Ok field.now }
    ensures { IfOk result (λ reply. PairsField options report.now (Ok field.now) (answer_of reply)) }
{
    // So `tell` may put them into the report.
    boards_can_be_the_next_round();
    let outcome = pair_round::<F>(alloc, field, options.steps)?;
    tell(alloc, options, report, &outcome)
}

// What is said of the outcome of pairing.
fn tell(
    alloc: Global,
    options: PairOptions,
    report: &Report<'_>,
    outcome: &Outcome,
) -> Result<Reply, AllocError>
    requires { CanBeTold report.now outcome.now }
    ensures { IfOk result (λ reply. TellsOutcome options report.now outcome.now (answer_of reply)) }
{
    match outcome {
        Outcome::Paired(boards) => tell_boards(alloc, options.shown, report, boards.as_slice()),
        Outcome::NoPairing => Ok(no_pairing()),
        Outcome::Undecided { bracket, used } => bracket_undecided(alloc, *bracket, *used),
    }
}

// The boards, the boards with names and scores, or the report with them.
fn tell_boards(
    alloc: Global,
    shown: Shown,
    report: &Report<'_>,
    boards: &[Board],
) -> Result<Reply, AllocError>
    requires { CanBePaired boards.now report.now }
    ensures { IfOk result (λ reply. TellsBoards shown report.now boards.now (answer_of reply)) }
{
    match shown {
        Shown::Boards => tell_ranks(alloc, boards),
        Shown::Names => wall::boards(alloc, report, boards),
        Shown::Report => tell_report(alloc, report, boards),
    }
}

/// The boards in start ranks.
pub(crate) fn tell_ranks(alloc: Global, boards: &[Board]) -> Result<Reply, AllocError>
    ensures { IfOk result (λ reply. answer_of reply ≡ done (boards_text boards.now)) }
{
    let mut text = Page::new(alloc);
    put_boards(&mut text, boards)?;
    Ok(Reply::of_page(Status::Done, text))
}

// The report whose next round the boards are.
fn tell_report(alloc: Global, report: &Report<'_>, boards: &[Board]) -> Result<Reply, AllocError>
    requires { CanBePaired boards.now report.now }
    ensures { IfOk result (λ reply. TellsReport report.now boards.now (answer_of reply)) }
{
    let paired = with_round(alloc, report, boards)?;
    reply_with_report(alloc, &paired)
}

// Puts how many boards there are, and a line for each.
fn put_boards(text: &mut Page, boards: &[Board]) -> Result<(), AllocError>
    ensures { OnOk result (text.new ≡ text.old ++ boards_text boards.now) }
{
    let count = boards.len();
    write!(text, "{count}\n")?;
    put_each_board(text, boards)
}

// Puts the lines of boards.
#[tactic(auto, unfolding(crate::specs::PairAnswers::board_text))]
fn put_each_board(text: &mut Page, boards: &[Board]) -> Result<(), AllocError>
    ensures { OnOk result (text.new ≡ text.old ++ flat_map board_text boards.now) }
{
    for board in boards {
        let (white, black) = *board;
        write!(text, "{white} {black}\n")?;
    }
    Ok(())
}

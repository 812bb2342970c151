// The command `explain`: why the next round is paired as it is, bracket by bracket or for one player.
ghost use Rattle.std.specs.Prelude.{◌≡◌, ◌≤◌, ◌++◌, true, IfOk, None, Ok, OnOk, Some};
ghost use Rattle.std.specs.List.{AllByRecursion};
ghost use Rattle.dutch_rounds.specs.Prelude.{IsStage};
ghost use Rattle.trf16_report.specs.Prelude.{verdict};
ghost use Rattle.dutch_player.specs.Prelude.{seat_with};
ghost use Rattle.command_line.specs.ExplainAnswers as answers;
ghost use Rattle.stage_lines.specs.ExplainTexts.{stages_text};
ghost use Rattle.replies.specs.Prelude.{answer_of, done, question_fault, seen_before};

use crate::instead::{AskedInSteps, Paired, instead};
use crate::not_paired::{no_pairing_because, tell_undecided};
use crate::other_boards::{Settled, has_other_boards};
use common_texts::Page;
use dutch_choice::finder::Finder;
use dutch_player::{Field, FieldFault};
use dutch_rounds::{AllStages, stages};
use player_lines::{put_absent, put_player};
use replies::refusal::{cannot_be_asked, cannot_be_paired, report_refused, round_not_reached};
use replies::{Reply, Status, question_fault};
use requests::{ExplainOptions, Question, Wording};
use round_lines::telling::{Telling, in_wording};
use round_lines::{Asked, put_round};
use stage_lines::bracket_lines::put_stages;
use std::alloc::{AllocError, Global};
use trf16_report::{Fault, Report};
use trf16_writer::before_round;

/// What `explain` says of the bytes of a report in which the pairing-allocated bye gives `bye` half points.
#[inline(never)]
pub fn explain<F: Finder>(
    alloc: Global,
    options: ExplainOptions,
    bytes: &[u8],
    bye: u16,
) -> Result<Reply, AllocError>
    requires { bye ≤ 2 }
    ensures { IfOk result (λ reply. answers.AnswersExplain options (verdict bytes.now bye) (answer_of reply)) }
{
    match trf16_reader::read_with(alloc, bytes, bye) {
        Ok(report) => of_report::<F>(alloc, options, &report),
        Err(Fault::OutOfMemory) => Err(AllocError),
        Err(fault) => report_refused(alloc, fault),
    }
}

// What `explain` says of an accepted report.
fn of_report<F: Finder>(
    alloc: Global,
    options: ExplainOptions,
    report: &Report<'_>,
) -> Result<Reply, AllocError>
    ensures { IfOk result (λ reply. answers.AnswersExplain options (Ok report.now) (answer_of reply)) }
{
    match options.round {
        Some(round) => of_report_before::<F>(alloc, options, report, round),
        None => of_view::<F>(alloc, options, report, report),
    }
}

// What `explain` says of an accepted report of which a round is asked for, if the report reaches it.
fn of_report_before<F: Finder>(
    alloc: Global,
    options: ExplainOptions,
    report: &Report<'_>,
    round: u8,
) -> Result<Reply, AllocError>
    ensures { IfOk result (λ reply. answers.ExplainsSeen options report.now
        (seen_before (Some round) (Ok report.now)) (answer_of reply)) }
{
    match before_round(alloc, report, round)? {
        Some(view) => of_view::<F>(alloc, options, report, &view),
        None => round_not_reached(alloc, round),
    }
}

// What `explain` says of a report as it stood before the round that is asked for; the whole one may have boards of that
// round.
fn of_view<'a, F: Finder>(
    alloc: Global,
    options: ExplainOptions,
    whole: &Report<'a>,
    report: &Report<'a>,
) -> Result<Reply, AllocError>
    ensures { IfOk result (λ reply. answers.ExplainsSeen options whole.now (Ok report.now) (answer_of reply)) }
{
    match Field::new(alloc, report, options.rounds, options.initial) {
        Ok(field) => {
            let telling = Telling {
                report,
                field: &field,
                wording: options.wording,
            };
            of_field::<F>(alloc, options, whole, &telling)
        }
        Err(FieldFault::OutOfMemory) => Err(AllocError),
        Err(fault) => cannot_be_paired(alloc, fault),
    }
}

// What `explain` says of those whom the next round is paired from.
fn of_field<F: Finder>(
    alloc: Global,
    options: ExplainOptions,
    whole: &Report<'_>,
    telling: &Telling<'_>,
) -> Result<Reply, AllocError>
    ensures { IfOk result (λ reply. answers.ExplainsAsked options whole.now telling.now
        (question_fault telling.now.sheet options.question) (answer_of reply)) }
{
    match question_fault(telling.report, options.question) {
        Some(fault) => cannot_be_asked(alloc, fault),
        None => of_round::<F>(alloc, options, whole, telling),
    }
}

// What `explain` says of them if nothing is wrong with the question.
fn of_round<F: Finder>(
    alloc: Global,
    options: ExplainOptions,
    whole: &Report<'_>,
    telling: &Telling<'_>,
) -> Result<Reply, AllocError>
    ensures { IfOk result (λ reply. answers.IsExplained options whole.now telling.now (answer_of reply)) }
{
    match stages::<F>(alloc, telling.field, options.steps)? {
        AllStages::Paired { stages, bye } => {
            let settled = Settled {
                field: telling.field,
                stages: &stages,
                bye: &bye,
            };
            let round = Paired {
                telling,
                stages: &stages,
                bye: &bye,
                other_boards: has_other_boards(alloc, whole, options.round, settled)?,
            };
            tell_paired::<F>(alloc, options, &round)
        }
        AllStages::NoPairing => {
            no_pairing_because(alloc, telling, options.question, options.steps)
        }
        AllStages::Undecided { bracket, used } => tell_undecided(
            alloc,
            telling.wording,
            bracket,
            used,
        ),
    }
}

// What `explain` says of a round that is paired.
fn tell_paired<F: Finder>(
    alloc: Global,
    options: ExplainOptions,
    round: &Paired<'_>,
) -> Result<Reply, AllocError>
    requires { AllByRecursion (IsStage round.now.telling.facts) round.now.stages }
    ensures { IfOk result (λ reply. answers.TellsPaired options.question options.steps round.now (answer_of reply)) }
{
    match options.question {
        Some(question) => tell_asked::<F>(alloc, options.steps, round, question),
        None => tell_all(alloc, round),
    }
}

// All brackets of a round.
fn tell_all(alloc: Global, round: &Paired<'_>) -> Result<Reply, AllocError>
    requires { AllByRecursion (IsStage round.now.telling.facts) round.now.stages }
    ensures { IfOk result (λ reply. answer_of reply
        ≡ done (answers.first_text round.now ++ stages_text round.now.telling None round.now.stages)) }
{
    let mut text = Page::new(alloc);
    put_all(&mut text, round)?;
    Ok(Reply::of_page(Status::Done, text))
}

// Puts the line of a round and all its brackets.
fn put_all(text: &mut Page, round: &Paired<'_>) -> Result<(), AllocError>
    requires { AllByRecursion (IsStage round.now.telling.facts) round.now.stages }
    ensures { OnOk result (text.new
        ≡ text.old ++ (answers.first_text round.now ++ stages_text round.now.telling None round.now.stages)) }
{
    put_first(text, round)?;
    put_stages(text, round.telling, round.stages, None)
}

// Puts the line of a round, and behind it that the report has other boards, if it has.
fn put_first(text: &mut Page, round: &Paired<'_>) -> Result<(), AllocError>
    ensures { OnOk result (text.new ≡ text.old ++ answers.first_text round.now) }
{
    let telling = round.telling;
    put_round(text, telling, round.bye)?;
    if round.other_boards {
        put_other_boards(text, telling.wording)?;
    }
    Ok(())
}

// Puts that the round has other boards in the report.
fn put_other_boards(text: &mut Page, wording: Wording) -> Result<(), AllocError>
    ensures { OnOk result (text.new ≡ text.old ++ answers.other_boards_text wording true) }
{
    text.push_str(in_wording(
        wording,
        "report has other boards\n",
        "In the report this round has other boards: it was paired by hand, or what it stands on was corrected.\n",
    ))
}

// What is asked of a player, and of who is named instead, if one is.
fn tell_asked<F: Finder>(
    alloc: Global,
    steps: u64,
    round: &Paired<'_>,
    question: Question,
) -> Result<Reply, AllocError>
    requires { AllByRecursion (IsStage round.now.telling.facts) round.now.stages }
    ensures { IfOk result (λ reply. answers.AnswersQuestion round.now steps question.player question.instead
        (answer_of reply)) }
{
    let player = question.player;
    let mut front = Page::new(alloc);
    put_front(&mut front, round, player)?;
    match question.instead {
        Some(number) => {
            let asked = Asked { player, number };
            tell_behind::<F>(alloc, round, AskedInSteps { asked, steps }, front)
        }
        None => Ok(Reply::of_page(Status::Done, front)),
    }
}

// Behind what is told of a player, what is answered of who is named instead.
fn tell_behind<F: Finder>(
    alloc: Global,
    round: &Paired<'_>,
    asking: AskedInSteps,
    front: Page,
) -> Result<Reply, AllocError>
    requires stages { AllByRecursion (IsStage round.now.telling.facts) round.now.stages }
    requires front { front ≡ answers.front_text round.now asking.asked.player }
    ensures { IfOk result (λ reply. answers.IsToldBehind round.now asking.steps asking.asked.player asking.asked.number
        (answer_of reply)) }
{
    instead::<F>(alloc, round, asking)?.behind(front)
}

// Puts the line of a round, and what is told of a player.
fn put_front(text: &mut Page, round: &Paired<'_>, player: u16) -> Result<(), AllocError>
    requires { AllByRecursion (IsStage round.now.telling.facts) round.now.stages }
    ensures { OnOk result (text.new ≡ text.old ++ answers.front_text round.now player) }
{
    put_first(text, round)?;
    put_about(text, round, player)
}

// Puts what is told of a player: their line and their brackets, or that they are absent.
fn put_about(text: &mut Page, round: &Paired<'_>, player: u16) -> Result<(), AllocError>
    requires { AllByRecursion (IsStage round.now.telling.facts) round.now.stages }
    ensures { OnOk result (text.new
        ≡ text.old ++ answers.about_text round.now player (seat_with round.now.telling.facts player)) }
{
    let telling = round.telling;
    match telling.field.seat_with(player) {
        Some(seat) => put_present(text, round, seat),
        None => put_absent(text, telling, player),
    }
}

// Puts the line of a present player and their brackets.
fn put_present(text: &mut Page, round: &Paired<'_>, seat: u16) -> Result<(), AllocError>
    requires { AllByRecursion (IsStage round.now.telling.facts) round.now.stages }
    ensures { OnOk result (text.new ≡ text.old ++ answers.present_text round.now seat) }
{
    put_player(text, round.telling, seat)?;
    put_stages(text, round.telling, round.stages, Some(seat))
}

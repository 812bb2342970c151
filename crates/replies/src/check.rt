// The command `check`: whether a report is accepted, how many players and rounds it has, and what looks like a mistake.
ghost use Rattle.std.specs.Prelude.{◌≡◌, ℕ, ◌≤◌, IfOk, Ok};
ghost use Rattle.trf16_report.specs.Prelude.{verdict};
ghost use Rattle.replies.specs.ReportAnswers.{check_answer};
ghost use Rattle.replies.specs.Replies.{answer_of};

use crate::notes::put_notes;
use crate::refusal::report_refused;
use crate::refusal_notes::refused_with_note;
use crate::reply::{Reply, Status};
use common_texts::Page;
use requests::CheckOptions;
use std::alloc::{AllocError, Global};
use trf16_report::{Fault, Report};

/// What `check` says of the bytes of a report in which the pairing-allocated bye gives `bye` half points.
pub fn check(
    alloc: Global,
    options: CheckOptions,
    bytes: &[u8],
    bye: u16,
) -> Result<Reply, AllocError>
    requires { bye ≤ 2 }
    ensures { IfOk result (λ reply. answer_of reply
        ≡ check_answer (verdict bytes.now bye) options.notes bytes.now bye) }
{
    match trf16_reader::read_with(alloc, bytes, bye) {
        Ok(report) => of_report(alloc, options, &report, bytes),
        Err(Fault::OutOfMemory) => Err(AllocError),
        Err(fault) if options.notes => refused_with_note(alloc, fault, bytes, bye),
        Err(fault) => report_refused(alloc, fault),
    }
}

// What is said of an accepted report that stands in some bytes.
fn of_report(
    alloc: Global,
    options: CheckOptions,
    report: &Report<'_>,
    bytes: &[u8],
) -> Result<Reply, AllocError>
    ensures { (bye : ℕ) → IfOk result
        (λ reply. answer_of reply ≡ check_answer (Ok report.now) options.notes bytes.now bye) }
{
    let (players, rounds) = (report.players().len(), report.rounds_played());
    let mut text = Page::new(alloc);
    write!(text, "accepted players {players} rounds {rounds}\n")?;
    if options.notes {
        put_notes(&mut text, report, bytes)?;
    }
    Ok(Reply::of_page(Status::Done, text))
}

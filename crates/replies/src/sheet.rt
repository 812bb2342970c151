// The command `sheet`: the tournament as one page.
ghost use Rattle.std.specs.Prelude.{◌≡◌, ◌≤◌, IfOk, Ok};
ghost use Rattle.trf16_report.specs.Prelude.{verdict};
ghost use Rattle.replies.specs.Replies.{answer_of};
ghost use Rattle.replies.specs.SheetAnswers.{sheet_answer};
ghost use Rattle.replies.specs.Views.{seen_before};

use crate::reply::{Reply, Status};
use crate::views::{not_seen, read_before};
use common_texts::Page;
use requests::SheetOptions;
use sheets::document;
use std::alloc::{AllocError, Global};
use trf16_report::Report;

/// What `sheet` says of the bytes of a report in which the pairing-allocated bye gives `bye` half points.
pub fn sheet(
    alloc: Global,
    options: &SheetOptions,
    bytes: &[u8],
    bye: u16,
) -> Result<Reply, AllocError>
    requires { bye ≤ 2 }
    ensures { IfOk result (λ reply. answer_of reply
        ≡ sheet_answer options.now (seen_before options.now.round (verdict bytes.now bye))) }
{
    match read_before(alloc, bytes, bye, options.round)? {
        Ok(report) => of_report(alloc, options, &report),
        Err(why) => not_seen(alloc, why),
    }
}

// What `sheet` says of an accepted report.
fn of_report(
    alloc: Global,
    options: &SheetOptions,
    report: &Report<'_>,
) -> Result<Reply, AllocError>
    ensures { IfOk result (λ reply. answer_of reply ≡ sheet_answer options.now (Ok report.now)) }
{
    let text = document(alloc, report, options.keys.as_slice())?;
    Ok(Reply::of_page(Status::Done, Page::from_bytes(text)))
}

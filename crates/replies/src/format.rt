// The command `format`: a report in canonical columns.
ghost use Rattle.std.specs.Prelude.{◌≡◌, ◌≤◌, IfOk, Ok, Some, true};
ghost use Rattle.trf16_report.specs.Prelude.{renumbered, written};
ghost use Rattle.replies.specs.Views.{seen_before};
ghost use Rattle.replies.specs.ReportAnswers.{format_answer, format_verdict, ranked_answer, written_answer};
ghost use Rattle.replies.specs.Replies.{answer_of};
ghost use Rattle.replies.specs.Statuses.{done};

use crate::refusal::{cannot_be_renumbered, has_no_standings};
use crate::reply::{Reply, Status};
use crate::views::{Seen, not_seen, read_before, read_unsummed_before};
use common_texts::Page;
use ranks::{ranked_text, renumbered_ranked_text};
use requests::{FormatOptions, Keys};
use std::alloc::{AllocError, Global};
use tables::has_standings;
use trf16_report::{Counted, Failed, Report};
use trf16_writer::{first_unread, renumbered_text, summed, write};

/// What `format` says of the bytes of a report in which the pairing-allocated bye gives `bye` half points.
pub fn format(
    alloc: Global,
    options: &FormatOptions,
    bytes: &[u8],
    bye: u16,
) -> Result<Reply, AllocError>
    requires { bye ≤ 2 }
    ensures { IfOk result (λ reply. answer_of reply ≡ format_answer options.now
        (seen_before options.now.round (format_verdict options.now.points bytes.now bye))) }
{
    match read_for(alloc, options, bytes, bye)? {
        Ok(report) => of_report(alloc, options, &report),
        Err(why) => not_seen(alloc, why),
    }
}

// The report, as it stood before a round if one is asked for; where its points fields are to be summed, whatever they
// say.
fn read_for<'a>(
    alloc: Global,
    options: &FormatOptions,
    bytes: &'a [u8],
    bye: u16,
) -> Result<Seen<'a>, AllocError>
    requires { bye ≤ 2 }
    ensures { IfOk result (λ seen. seen
        ≡ seen_before options.now.round (format_verdict options.now.points bytes.now bye)) }
{
    if options.points {
        read_unsummed_before(alloc, bytes, bye, options.round)
    } else {
        read_before(alloc, bytes, bye, options.round)
    }
}

// What `format` says of a report that was read.
fn of_report(
    alloc: Global,
    options: &FormatOptions,
    report: &Report<'_>,
) -> Result<Reply, AllocError>
    ensures { IfOk result (λ reply. answer_of reply ≡ format_answer options.now (Ok report.now)) }
{
    if options.points {
        of_points(alloc, options, &summed(alloc, report)?)
    } else {
        of_points(alloc, options, report)
    }
}

// A report with the points that it is to have: with its own start ranks, or with new ones.
fn of_points(
    alloc: Global,
    options: &FormatOptions,
    report: &Report<'_>,
) -> Result<Reply, AllocError>
    ensures { IfOk result (λ reply. answer_of reply
        ≡ written_answer options.now.renumber options.now.ranks report.now) }
{
    if options.renumber {
        with_new_ranks(alloc, options, report)
    } else {
        with_own_ranks(alloc, options, report)
    }
}

// A report with its own start ranks.
fn with_own_ranks(
    alloc: Global,
    options: &FormatOptions,
    report: &Report<'_>,
) -> Result<Reply, AllocError>
    ensures { IfOk result (λ reply. answer_of reply ≡ ranked_answer options.now.ranks report.now report.now) }
{
    match &options.ranks {
        Some(keys) => with_places(alloc, keys, report),
        None => reply_with_report(alloc, report),
    }
}

// A report with its own start ranks and its players' places, unless it has no standings.
fn with_places(alloc: Global, keys: &Keys, report: &Report<'_>) -> Result<Reply, AllocError>
    ensures { IfOk result (λ reply. answer_of reply ≡ ranked_answer (Some keys.now) report.now report.now) }
{
    match has_standings(report) {
        Ok(()) => Ok(done_with(ranked_text(alloc, report, keys.as_slice())?)),
        Err(fault) => has_no_standings(alloc, fault),
    }
}

// A report with new start ranks, unless a line names players in a way that is not read.
fn with_new_ranks(
    alloc: Global,
    options: &FormatOptions,
    report: &Report<'_>,
) -> Result<Reply, AllocError>
    ensures { IfOk result (λ reply. answer_of reply ≡ written_answer true options.now.ranks report.now) }
{
    if let Some(line) = first_unread(report) {
        return cannot_be_renumbered(alloc, line);
    }
    match &options.ranks {
        Some(keys) => with_new_ranks_and_places(alloc, keys, report),
        None => Ok(done_with(renumbered_text(alloc, report)?)),
    }
}

// A report with new start ranks and its players' places, unless it has no standings.
fn with_new_ranks_and_places(
    alloc: Global,
    keys: &Keys,
    report: &Report<'_>,
) -> Result<Reply, AllocError>
    ensures { IfOk result (λ reply. answer_of reply
        ≡ ranked_answer (Some keys.now) report.now (renumbered report.now)) }
{
    match has_standings(report) {
        Ok(()) => Ok(done_with(renumbered_ranked_text(alloc, report, keys.as_slice())?)),
        Err(fault) => has_no_standings(alloc, fault),
    }
}

/// A report in canonical columns, however long; it is made whole before the first byte is written.
pub fn reply_with_report(alloc: Global, report: &Report<'_>) -> Result<Reply, AllocError>
    ensures { IfOk result (λ reply. answer_of reply ≡ done (written report.now)) }
{
    let mut text = Counted::new(Vec::new(alloc));
    match write(report, &mut text) {
        Ok(()) => Ok(done_with(text.into_inner())),
        Err(Failed) => Err(AllocError),
    }
}

// A report that was written.
fn done_with(report: Vec<u8>) -> Reply
    ensures { answer_of result ≡ done report.items }
{
    Reply::of_page(Status::Done, Page::from_bytes(report))
}

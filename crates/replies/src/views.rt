// The report that a command answers on: the one that some bytes are, or that one as it stood before a round.
ghost use Rattle.std.specs.Prelude.{◌≡◌, ◌≤◌, IfOk, Ok, Some};
ghost use Rattle.trf16_report.specs.Prelude.{verdict, verdict_unsummed};
ghost use Rattle.replies.specs.Replies.{answer_of};
ghost use Rattle.replies.specs.Views.{seen_before, unseen_answer};

use crate::refusal::{report_refused, round_not_reached};
use crate::reply::Reply;
use std::alloc::{AllocError, Global};
use trf16_report::{Fault, Report};
use trf16_writer::before_round;

/// Why there is no report to answer on.
#[derive(Drop)]
pub enum Unseen {
    /// It is refused.
    Refused(Fault),
    /// It does not reach the round that is asked for, which counts from 1.
    NotReached(u8),
}

/// A report, or why there is none.
pub type Seen<'a> = Result<Report<'a>, Unseen>;

/// The report that some bytes are, in which the pairing-allocated bye gives `bye` half points; where a round is asked
/// for, as it stood before that round.
///
/// # Errors
/// Memory was refused.
pub fn read_before<'a>(
    alloc: Global,
    bytes: &'a [u8],
    bye: u16,
    round: Option<u8>,
) -> Result<Seen<'a>, AllocError>
    requires { bye ≤ 2 }
    ensures { IfOk result (λ seen. seen ≡ seen_before round (verdict bytes.now bye)) }
{
    match trf16_reader::read_with(alloc, bytes, bye) {
        Ok(report) => seen_before(alloc, report, round),
        Err(Fault::OutOfMemory) => Err(AllocError),
        Err(fault) => Ok(Err(Unseen::Refused(fault))),
    }
}

/// The report that some bytes are, as `read_before` gives it, but without a comparison of its points fields.
///
/// # Errors
/// Memory was refused.
pub fn read_unsummed_before<'a>(
    alloc: Global,
    bytes: &'a [u8],
    bye: u16,
    round: Option<u8>,
) -> Result<Seen<'a>, AllocError>
    requires { bye ≤ 2 }
    ensures { IfOk result (λ seen. seen ≡ seen_before round (verdict_unsummed bytes.now bye)) }
{
    match trf16_reader::read_unsummed(alloc, bytes, bye) {
        Ok(report) => seen_before(alloc, report, round),
        Err(Fault::OutOfMemory) => Err(AllocError),
        Err(fault) => Ok(Err(Unseen::Refused(fault))),
    }
}

// A report that was read; where a round is asked for, as it stood before that round.
fn seen_before<'a>(
    alloc: Global,
    report: Report<'a>,
    round: Option<u8>,
) -> Result<Seen<'a>, AllocError>
    ensures { IfOk result (λ seen. seen ≡ seen_before round (Ok report.entry)) }
{
    match round {
        Some(round) => stood_before(alloc, &report, round),
        None => Ok(Ok(report)),
    }
}

// A report as it stood before a round.
fn stood_before<'a>(alloc: Global, report: &Report<'a>, round: u8) -> Result<Seen<'a>, AllocError>
    ensures { IfOk result (λ seen. seen ≡ seen_before (Some round) (Ok report.now)) }
{
    match before_round(alloc, report, round)? {
        Some(view) => Ok(Ok(view)),
        None => Ok(Err(Unseen::NotReached(round))),
    }
}

/// What is answered where there is no report to answer on, unless memory was refused.
pub fn not_seen(alloc: Global, why: Unseen) -> Result<Reply, AllocError>
    ensures { IfOk result (λ reply. answer_of reply ≡ unseen_answer why) }
{
    match why {
        Unseen::Refused(fault) => report_refused(alloc, fault),
        Unseen::NotReached(round) => round_not_reached(alloc, round),
    }
}

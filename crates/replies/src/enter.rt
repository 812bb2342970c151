// The command `enter`: a report with results and byes that are entered by hand.
ghost use Rattle.std.specs.Prelude.{◌≡◌, ◌≤◌, ◌++◌, IfOk, OnOk};
ghost use Rattle.trf16_report.specs.Prelude.{verdict_unsummed};
ghost use Rattle.entries.specs.Prelude.{entered};
ghost use Rattle.replies.specs.EnterAnswers.{enter_answer, entered_answer, entry_options, entry_refusal, entry_text};
ghost use Rattle.replies.specs.EnterAnswers.{player_words, round_words};
ghost use Rattle.replies.specs.Replies.{answer_of};

use crate::format::reply_with_report;
use crate::refusal::report_refused;
use crate::refusal_texts::put_fault;
use crate::reply::{Reply, Status};
use crate::texts::put_round_not_reached;
use common_texts::Page;
use entries::{EntryFault, EntryOptions, entered};
use requests::EnterOptions;
use std::alloc::{AllocError, Global};
use trf16_report::{Fault, Report};

/// What `enter` says of the bytes of a report in which the pairing-allocated bye gives `bye` half points.
pub fn enter(
    alloc: Global,
    options: &EnterOptions,
    bytes: &[u8],
    bye: u16,
) -> Result<Reply, AllocError>
    requires { bye ≤ 2 }
    ensures { IfOk result (λ reply. answer_of reply ≡ enter_answer options.now (verdict_unsummed bytes.now bye)) }
{
    match trf16_reader::read_unsummed(alloc, bytes, bye) {
        Ok(report) => with_entries(alloc, options, &report),
        Err(Fault::OutOfMemory) => Err(AllocError),
        Err(fault) => report_refused(alloc, fault),
    }
}

// The report with the entries, or why they are refused.
fn with_entries(
    alloc: Global,
    options: &EnterOptions,
    report: &Report<'_>,
) -> Result<Reply, AllocError>
    ensures { IfOk result (λ reply. answer_of reply
        ≡ entered_answer (entered (entry_options options.now) options.now.entries report.now)) }
{
    let how = EntryOptions {
        round: options.round,
        correct: options.correct,
    };
    match entered(alloc, how, options.entries.as_slice(), report) {
        Ok(with) => reply_with_report(alloc, &with),
        Err(EntryFault::OutOfMemory) => Err(AllocError),
        Err(fault) => cannot_be_entered(alloc, fault),
    }
}

// Why entries are refused, unless memory was.
fn cannot_be_entered(alloc: Global, fault: EntryFault) -> Result<Reply, AllocError>
    ensures { IfOk result (λ reply. answer_of reply ≡ entry_refusal fault) }
{
    match fault {
        EntryFault::OutOfMemory => Err(AllocError),
        EntryFault::Refused(fault) => report_refused(alloc, fault),
        _ => {
            let mut text = Page::new(alloc);
            put_entry_fault(&mut text, fault)?;
            Ok(Reply::of_page(Status::BadWords, text))
        }
    }
}

// Puts why entries are refused.
fn put_entry_fault(text: &mut Page, fault: EntryFault) -> Result<(), AllocError>
    ensures { OnOk result (text.new ≡ text.old ++ entry_text fault) }
{
    match fault {
        EntryFault::NotReached { round } => put_round_not_reached(text, round),
        EntryFault::NotKnown { player } => put_player_words(text, player, " is not known\n"),
        EntryFault::NamedTwice { player } => put_player_words(text, player, " is named twice\n"),
        EntryFault::HasGame { player, round } => {
            put_round_words(text, player, " has a game in round ", round)
        }
        EntryFault::NoGame { player, round } => {
            put_round_words(text, player, " has no game in round ", round)
        }
        EntryFault::NoColour { player, round } => {
            put_round_words(text, player, " has no colour in round ", round)
        }
        EntryFault::HasCell { player, round } => {
            write!(
                text,
                "words: player {player} has a cell in round {round}, which --correct replaces\n"
            )
        }
        EntryFault::Refused(fault) => put_fault(text, fault),
        EntryFault::OutOfMemory => text.push_str("memory: refused\n"),
    }
}

// Puts what is wrong with a player whom an entry names.
fn put_player_words(text: &mut Page, player: u16, what: &str) -> Result<(), AllocError>
    ensures { OnOk result (text.new ≡ text.old ++ player_words player what.now) }
{
    write!(text, "words: player {player}{what}")
}

// Puts what is wrong with a player in a round.
fn put_round_words(text: &mut Page, player: u16, what: &str, round: u8) -> Result<(), AllocError>
    ensures { OnOk result (text.new ≡ text.old ++ round_words player what.now round) }
{
    write!(text, "words: player {player}{what}{round}\n")
}

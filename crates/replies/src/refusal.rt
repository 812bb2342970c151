// The answers that several commands have: to a report that is refused, and if there is no pairing or the steps end
// first.
ghost use Rattle.std.specs.Prelude.{◌≡◌, IfOk};
ghost use Rattle.replies.specs.Statuses.{field_refusal, no_pairing, question_refusal, refusal, round_not_reached};
ghost use Rattle.replies.specs.Statuses.{unread_refusal, words_refusal};
ghost use Rattle.replies.specs.Statuses.{tie_refusal, bracket_undecided};
ghost use Rattle.replies.specs.Replies.{answer_of};

use crate::question::QuestionFault;
use crate::reply::{Reply, Status};
use crate::{refusal_texts, texts};
use common_texts::{Page, put_undecided};
use dutch_player::FieldFault;
use requests::WordFault;
use std::alloc::{AllocError, Global};
use tables::TieFault;
use trf16_report::Fault;

/// What is said where no pairing meets the absolute criteria.
pub const NO_PAIRING: &str = "no pairing\n";

/// Why a report is refused, unless memory was.
pub fn report_refused(alloc: Global, fault: Fault) -> Result<Reply, AllocError>
    ensures { IfOk result (λ reply. answer_of reply ≡ refusal fault) }
{
    match fault {
        Fault::OutOfMemory => Err(AllocError),
        _ => {
            let mut text = Page::new(alloc);
            refusal_texts::put_fault(&mut text, fault)?;
            Ok(Reply::of_page(Status::Refused, text))
        }
    }
}

/// Why a report cannot be renumbered: its first line, from 1, that names players in a way that is not read.
pub fn cannot_be_renumbered(alloc: Global, line: usize) -> Result<Reply, AllocError>
    ensures { IfOk result (λ reply. answer_of reply ≡ unread_refusal line) }
{
    let mut text = Page::new(alloc);
    refusal_texts::put_line(&mut text, line, ": unsupported\n")?;
    Ok(Reply::of_page(Status::Refused, text))
}

/// Why the next round cannot be paired from a report, unless memory was refused.
pub fn cannot_be_paired(alloc: Global, fault: FieldFault) -> Result<Reply, AllocError>
    ensures { IfOk result (λ reply. answer_of reply ≡ field_refusal fault) }
{
    match fault {
        FieldFault::OutOfMemory => Err(AllocError),
        _ => {
            let mut text = Page::new(alloc);
            refusal_texts::put_field_fault(&mut text, fault)?;
            Ok(Reply::of_page(Status::Refused, text))
        }
    }
}

/// Why a report has no standings, unless memory was refused.
pub fn has_no_standings(alloc: Global, fault: TieFault) -> Result<Reply, AllocError>
    ensures { IfOk result (λ reply. answer_of reply ≡ tie_refusal fault) }
{
    match fault {
        TieFault::OutOfMemory => Err(AllocError),
        _ => {
            let mut text = Page::new(alloc);
            refusal_texts::put_tie_fault(&mut text, fault)?;
            Ok(Reply::of_page(Status::Refused, text))
        }
    }
}

/// What is wrong with the players whom a question names.
pub fn cannot_be_asked(alloc: Global, fault: QuestionFault) -> Result<Reply, AllocError>
    ensures { IfOk result (λ reply. answer_of reply ≡ question_refusal fault) }
{
    let mut text = Page::new(alloc);
    texts::put_bad_question(&mut text, fault)?;
    Ok(Reply::of_page(Status::BadWords, text))
}

/// What is wrong with words that clap lets pass.
pub fn words_refused(alloc: Global, fault: WordFault) -> Result<Reply, AllocError>
    ensures { IfOk result (λ reply. answer_of reply ≡ words_refusal fault) }
{
    let mut text = Page::new(alloc);
    texts::put_bad_words(&mut text, fault)?;
    Ok(Reply::of_page(Status::BadWords, text))
}

/// The report does not reach a round.
pub fn round_not_reached(alloc: Global, round: u8) -> Result<Reply, AllocError>
    ensures { IfOk result (λ reply. answer_of reply ≡ round_not_reached round) }
{
    let mut text = Page::new(alloc);
    texts::put_round_not_reached(&mut text, round)?;
    Ok(Reply::of_page(Status::BadWords, text))
}

/// No pairing meets the absolute criteria.
pub fn no_pairing() -> Reply
    ensures { answer_of result ≡ no_pairing }
{
    Reply::of_str(Status::NoPairing, NO_PAIRING)
}

/// The steps of a bracket reached the limit before it was decided.
pub fn bracket_undecided(alloc: Global, number: u16, used: u64) -> Result<Reply, AllocError>
    ensures { IfOk result (λ reply. answer_of reply ≡ bracket_undecided number used) }
{
    let mut text = Page::new(alloc);
    put_undecided(&mut text, number, used)?;
    Ok(Reply::of_page(Status::Undecided, text))
}

// What is wrong with the players whom a question names.
ghost use Rattle.std.specs.Prelude.{◌≡◌};
ghost use Rattle.replies.specs.Questions.{instead_fault, question_fault};

use requests::Question;
use trf16_report::Report;

/// What is wrong with the players whom a question names.
#[derive(Clone, Copy)]
pub enum QuestionFault {
    /// No player of the report has this start rank.
    NotKnown { player: u16 },
    /// It is asked why this player does not meet themselves.
    NamedTwice { player: u16 },
}

/// What is wrong with the players whom a question names: the first who is not one of the report, or one who is named
/// twice.
pub fn question_fault(report: &Report<'_>, question: Option<Question>) -> Option<QuestionFault>
    ensures { result ≡ question_fault report.now question }
{
    let Question { player, instead } = question?;
    if !report.knows(player) {
        return Some(QuestionFault::NotKnown { player });
    }
    instead_fault(report, player, instead)
}

// What is wrong with the one who is asked for instead; 0 is the bye.
fn instead_fault(report: &Report<'_>, player: u16, instead: Option<u16>) -> Option<QuestionFault>
    ensures { result ≡ instead_fault report.now player instead }
{
    let instead = instead?;
    if instead == 0 {
        return None;
    }
    if !report.knows(instead) {
        return Some(QuestionFault::NotKnown { player: instead });
    }
    if instead == player {
        return Some(QuestionFault::NamedTwice { player });
    }
    None
}

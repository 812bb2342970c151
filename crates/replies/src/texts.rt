// The texts of the program, apart from clap's and from why a report is refused.
ghost use Rattle.std.specs.Prelude.{◌≡◌, ◌++◌, OnOk};
ghost use Rattle.replies.specs.Texts.{not_of_bracket_text, not_reached_text};
ghost use Rattle.replies.specs.Texts.{question_text, round_not_reached_text, word_text};

use crate::question::QuestionFault;
use common_texts::Page;
use requests::WordFault;
use std::alloc::AllocError;

/// Puts what is wrong with words that clap lets pass.
pub fn put_bad_words(text: &mut Page, fault: WordFault) -> Result<(), AllocError>
    ensures { OnOk result (text.new ≡ text.old ++ word_text fault) }
{
    match fault {
        WordFault::BadColour => text.push_str("words: bad colour\n"),
        WordFault::BadKeys => text.push_str("words: bad keys\n"),
        WordFault::BadCursor => text.push_str("words: bad cursor\n"),
        WordFault::NamesAndReport => text.push_str("words: names or report, not both\n"),
        WordFault::InsteadAlone => text.push_str("words: instead wants a player\n"),
        WordFault::ByAlone => text.push_str("words: by wants ranks\n"),
        WordFault::BadEntry { place } => write!(text, "words: bad entry {place}\n"),
    }
}

/// Puts what is wrong with the players whom a question names.
pub fn put_bad_question(text: &mut Page, fault: QuestionFault) -> Result<(), AllocError>
    ensures { OnOk result (text.new ≡ text.old ++ question_text fault) }
{
    match fault {
        QuestionFault::NotKnown { player } => write!(text, "words: player {player} is not known\n"),
        QuestionFault::NamedTwice { player } => {
            write!(text, "words: player {player} is named twice\n")
        }
    }
}

/// Puts that the round ends before a bracket.
pub fn put_not_reached(text: &mut Page, number: u16) -> Result<(), AllocError>
    ensures { OnOk result (text.new ≡ text.old ++ not_reached_text number) }
{
    write!(text, "words: bracket {number} is not reached\n")
}

/// Puts that a report does not reach a round.
pub fn put_round_not_reached(text: &mut Page, round: u8) -> Result<(), AllocError>
    ensures { OnOk result (text.new ≡ text.old ++ round_not_reached_text round) }
{
    write!(text, "words: round {round} is not reached\n")
}

/// Puts that a cursor is not one of a bracket.
pub fn put_not_of_bracket(text: &mut Page, number: u16) -> Result<(), AllocError>
    ensures { OnOk result (text.new ≡ text.old ++ not_of_bracket_text number) }
{
    write!(text, "words: cursor is not of bracket {number}\n")
}

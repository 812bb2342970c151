// The lines that tell why a report is refused, cannot be paired further, or has no standings, reason by reason.
ghost use Rattle.std.specs.Prelude.{◌≡◌, ◌++◌, OnOk};
ghost use Rattle.replies.specs.RefusalTexts.{fault_text, field_text, line_text, round_text, tie_text};

use common_texts::Page;
use dutch_player::FieldFault;
use std::alloc::AllocError;
use tables::TieFault;
use trf16_report::{Excess, Fault};

/// Puts why a report is refused.
///
/// # Errors
/// Memory was refused.
pub(crate) fn put_fault(text: &mut Page, fault: Fault) -> Result<(), AllocError>
    ensures { OnOk result (text.new ≡ text.old ++ fault_text fault) }
{
    match fault {
        Fault::BadNumber { line } => put_line(text, line, ": bad number\n"),
        Fault::Duplicate { line } => put_line(text, line, ": duplicate\n"),
        Fault::Misaligned { line, column } => {
            write!(
                text,
                "refused: line {line}: column {column} must be blank\n"
            )
        }
        Fault::BadCell { line, round } => {
            write!(text, "refused: line {line}: round {round}: bad cell\n")
        }
        Fault::BadExtension { line } => put_line(text, line, ": bad extension\n"),
        Fault::TooMany(Excess::Bytes) => text.push_str("refused: too many bytes\n"),
        Fault::TooMany(Excess::Players) => text.push_str("refused: too many players\n"),
        Fault::TooMany(Excess::Rounds) => text.push_str("refused: too many rounds\n"),
        Fault::NoPlayers => text.push_str("refused: no players\n"),
        Fault::NoSuchOpponent { player, round } => {
            put_round(text, player, round, ": no such opponent\n")
        }
        Fault::SelfOpponent { player, round } => {
            put_round(text, player, round, ": own opponent\n")
        }
        Fault::NotMutual { player, round } => put_round(text, player, round, ": not mutual\n"),
        Fault::Colours { player, round } => put_round(text, player, round, ": colours\n"),
        Fault::Results { player, round } => put_round(text, player, round, ": results\n"),
        Fault::Points { player } => write!(text, "refused: player {player}: points\n"),
        Fault::OutOfMemory => text.push_str("memory: refused\n"),
    }
}

/// Puts why the next round cannot be paired from a report.
///
/// # Errors
/// Memory was refused.
pub(crate) fn put_field_fault(text: &mut Page, fault: FieldFault) -> Result<(), AllocError>
    ensures { OnOk result (text.new ≡ text.old ++ field_text fault) }
{
    match fault {
        FieldFault::Unfinished { player, round } => {
            put_round(text, player, round, ": unfinished\n")
        }
        FieldFault::Unsupported { line } => put_line(text, line, ": unsupported\n"),
        FieldFault::RoundsUnknown => text.push_str("refused: rounds unknown\n"),
        FieldFault::RoundsOver => text.push_str("refused: all rounds are played\n"),
        FieldFault::OutOfMemory => text.push_str("memory: refused\n"),
    }
}

/// Puts why a report has no standings.
///
/// # Errors
/// Memory was refused.
pub(crate) fn put_tie_fault(text: &mut Page, fault: TieFault) -> Result<(), AllocError>
    ensures { OnOk result (text.new ≡ text.old ++ tie_text fault) }
{
    match fault {
        TieFault::Unfinished { player, round } => put_round(text, player, round, ": unfinished\n"),
        TieFault::Unsupported { line } => put_line(text, line, ": unsupported\n"),
        TieFault::OutOfMemory => text.push_str("memory: refused\n"),
    }
}

/// Puts what is wrong with a line of a report.
///
/// # Errors
/// Memory was refused.
pub(crate) fn put_line(text: &mut Page, line: usize, what: &str) -> Result<(), AllocError>
    ensures { OnOk result (text.new ≡ text.old ++ line_text line what.now) }
{
    write!(text, "refused: line {line}{what}")
}

// Puts what does not fit in a round of a player.
fn put_round(text: &mut Page, player: u16, round: usize, what: &str) -> Result<(), AllocError>
    ensures { OnOk result (text.new ≡ text.old ++ round_text player round what.now) }
{
    write!(text, "refused: player {player} round {round}{what}")
}

// What stands behind the lines of a report: its rounds, the next one, the order of the start ranks, and that nobody
// says how many rounds there are.
ghost use Rattle.std.specs.Prelude.{◌≡◌, ◌∷◌, [], MatchOption};
ghost use Rattle.trf16_report.specs.Prelude.{Sheet};
ghost use Rattle.report_notes.specs.Notes.{closing_notes};
ghost use Rattle.report_notes.specs.NoteOf.{closing_left_notes, noted};

use crate::note::Note;
use crate::ratings::start_ranks_note;
use crate::rounds::{RoundsLeft, next_of_rounds, nobody_note};
use trf16_report::Report;

/// What is left to tell behind the lines.
#[derive(Clone, Copy)]
pub(crate) struct ClosingLeft {
    pub(crate) rounds: RoundsLeft,
    // whether the round that comes next is still to be looked at
    pub(crate) next_round: bool,
    // whether the order of the start ranks is
    pub(crate) start_ranks: bool,
    // whether the number of rounds is
    pub(crate) total: bool,
}

impl ClosingLeft {
    /// All.
    pub(crate) fn all() -> ClosingLeft
        ensures { (sheet : Sheet) → closing_left_notes sheet result ≡ closing_notes sheet }
    {
        ClosingLeft {
            rounds: RoundsLeft::all(),
            next_round: true,
            start_ranks: true,
            total: true,
        }
    }
}

/// The first note that is left, and what is left behind it.
pub(crate) fn next_of_closing<'a>(
    report: &Report<'_>,
    left: ClosingLeft,
) -> Option<(Note<'a>, ClosingLeft)>
    ensures { MatchOption result (closing_left_notes report.now left ≡ [])
        (λ x. closing_left_notes report.now left ≡ noted x.0 ∷ closing_left_notes report.now x.1) }
{
    if let Some((note, rounds)) = next_of_rounds(report, left.rounds) {
        return Some((note, ClosingLeft { rounds, ..left }));
    }
    let mut after = left;
    if left.next_round
        && let Some(note) = nobody_note(report)
    {
        after.next_round = false;
        return Some((note, after));
    }
    after.next_round = false;
    if left.start_ranks
        && let Some(note) = start_ranks_note(report)
    {
        after.start_ranks = false;
        return Some((note, after));
    }
    after.start_ranks = false;
    if left.total && report.total_rounds().is_none() {
        after.total = false;
        return Some((Note::RoundsUnknown, after));
    }
    None
}

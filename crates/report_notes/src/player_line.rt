// What of a player's line looks like a mistake.
ghost use Rattle.std.specs.Prelude.{◌≡◌, ℕ, ◌∷◌, [], MatchOption};
ghost use Rattle.trf16_report.specs.Prelude.{columns};
ghost use Rattle.report_notes.specs.Notes.{last_column, player_notes};
ghost use Rattle.report_notes.specs.NoteOf.{cells_left_notes, noted, player_left_notes};

use crate::fields::start_in;
use crate::note::Note;
use crate::person::{PersonLeft, next_of_person, person_left};
use crate::player_rounds::{PlayerRoundsLeft, next_of_player_rounds};
use crate::points::counts_to_come;
use trf16_report::{Report, is_blank, split_columns};

/// What is left to tell of a player's line, in the order of its columns.
#[derive(Clone, Copy)]
pub(crate) struct PlayerLeft {
    pub(crate) person: PersonLeft,
    // whether it is that the points count a round to come
    pub(crate) early: bool,
    pub(crate) cells: CellsLeft,
}

/// What is left to tell of the cells of a player's line.
#[derive(Clone, Copy)]
pub(crate) struct CellsLeft {
    pub(crate) rounds: PlayerRoundsLeft,
    // whether it is that something stands behind the columns of the next round
    pub(crate) behind: bool,
}

/// The first note that is left of the line of a player, line n, and what is left behind it.
pub(crate) fn next_of_player<'a>(
    report: &Report<'_>,
    n: usize,
    left: PlayerLeft,
) -> Option<(Note<'a>, PlayerLeft)>
    ensures { MatchOption result (player_left_notes report.now n left ≡ [])
        (λ x. player_left_notes report.now n left ≡ noted x.0 ∷ player_left_notes report.now n x.1) }
{
    if let Some((note, person)) = next_of_person(n, left.person) {
        return Some((note, PlayerLeft { person, ..left }));
    }
    if left.early {
        let after = PlayerLeft {
            early: false,
            ..left
        };
        return Some((Note::EarlyPoints { line: n }, after));
    }
    let (note, cells) = next_of_cells(report, n, left.cells)?;
    Some((note, PlayerLeft { cells, ..left }))
}

// The first note that is left of the cells of a player's line, line n, and what is left behind it.
fn next_of_cells<'a>(
    report: &Report<'_>,
    n: usize,
    left: CellsLeft,
) -> Option<(Note<'a>, CellsLeft)>
    ensures { MatchOption result (cells_left_notes report.now n left ≡ [])
        (λ x. cells_left_notes report.now n left ≡ noted x.0 ∷ cells_left_notes report.now n x.1) }
{
    if let Some((note, rounds)) = next_of_player_rounds(report, n, left.rounds) {
        return Some((note, CellsLeft { rounds, ..left }));
    }
    if !left.behind {
        return None;
    }
    let column = last_column(report);
    let after = CellsLeft {
        behind: false,
        ..left
    };
    Some((Note::BehindColumn { line: n, column }, after))
}

/// All that is to be told of the line of a player.
pub(crate) fn player_left(report: &Report<'_>, line: &[u8]) -> PlayerLeft
    ensures { (n : ℕ) → player_left_notes report.now n result
        ≡ player_notes report.now n (columns report.now.utf8 line.now) }
{
    let utf8 = report.is_utf8();
    let start = start_in(line, utf8);
    let (_, rest) = split_columns(line, utf8, last_column(report));
    PlayerLeft {
        person: person_left(report, line, start),
        early: counts_to_come(report, start),
        cells: CellsLeft {
            rounds: PlayerRoundsLeft::all(start),
            behind: !is_blank(rest),
        },
    }
}

// The last column of the round that comes next.
fn last_column(report: &Report<'_>) -> usize
    ensures { result ≡ last_column report.now }
{
    101 + 10 * usize::from(report.rounds_played())
}

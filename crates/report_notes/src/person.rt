// What of the front of a player's line looks like a mistake: who it says that the player is.
ghost use Rattle.std.specs.Prelude.{◌≡◌, ℕ, ◌∷◌, [], MatchOption};
ghost use Rattle.trf16_report.specs.Prelude.{columns, player_of};
ghost use Rattle.report_notes.specs.Noted.{RatingAbove, SameAs};
ghost use Rattle.report_notes.specs.Notes.{person_notes};
ghost use Rattle.report_notes.specs.NoteOf.{noted, person_left_notes};

use crate::doubles::{Identity, same_before};
use crate::note::Note;
use crate::ratings::{RatedAbove, late_above};
use crate::refusal::columns_in;
use trf16_report::{Report, is_blank};

/// What is left to tell of it, in the order of its columns.
#[derive(Clone, Copy)]
pub(crate) struct PersonLeft {
    // whether it is that something stands in front of the name, in column 14
    pub(crate) before_name: bool,
    // the first earlier player with the same name
    pub(crate) same_name: Option<u16>,
    // whether it is that the name runs into column 48
    pub(crate) long_name: bool,
    // a late entry's rating above that of another player
    pub(crate) rating: Option<RatedAbove>,
    // the first earlier player with the same FIDE number
    pub(crate) same_number: Option<u16>,
}

/// The first note that is left of it, in line n, and what is left behind it.
pub(crate) fn next_of_person<'a>(n: usize, left: PersonLeft) -> Option<(Note<'a>, PersonLeft)>
    ensures { MatchOption result (person_left_notes n left ≡ [])
        (λ x. person_left_notes n left ≡ noted x.0 ∷ person_left_notes n x.1) }
{
    let mut after = left;
    if left.before_name {
        after.before_name = false;
        return Some((Note::BeforeName { line: n }, after));
    }
    if let Some(player) = left.same_name {
        after.same_name = None;
        return Some((same_as(n, Identity::Name, player), after));
    }
    if left.long_name {
        after.long_name = false;
        return Some((Note::LongName { line: n }, after));
    }
    if let Some(above) = left.rating {
        after.rating = None;
        return Some((rating_above(n, above), after));
    }
    if let Some(player) = left.same_number {
        after.same_number = None;
        return Some((same_as(n, Identity::FideNumber, player), after));
    }
    None
}

fn same_as<'a>(line: usize, what: Identity, player: u16) -> Note<'a>
    ensures { noted result ≡ SameAs line what player }
{
    Note::SameAs { line, what, player }
}

fn rating_above<'a>(line: usize, above: RatedAbove) -> Note<'a>
    ensures { noted result ≡ RatingAbove line above.rating above.player }
{
    let RatedAbove { rating, player } = above;
    Note::RatingAbove {
        line,
        rating,
        player,
    }
}

/// All that is to be told of who a line says that its player is.
pub(crate) fn person_left(report: &Report<'_>, line: &[u8], start: u16) -> PersonLeft
    ensures { (n : ℕ) → person_left_notes n result
        ≡ person_notes report.now n (columns report.now.utf8 line.now) (player_of report.now.players start) }
{
    let utf8 = report.is_utf8();
    PersonLeft {
        before_name: !is_blank(columns_in(line, utf8, 14, 14)),
        same_name: same_before(report, Identity::Name, start),
        long_name: !is_blank(columns_in(line, utf8, 48, 48)),
        rating: late_above(report, start),
        same_number: same_before(report, Identity::FideNumber, start),
    }
}

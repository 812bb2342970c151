// Ratings that are above that of a player with a smaller start rank.
ghost use Rattle.std.specs.Prelude.{◌≡◌, ◌∷◌, [], min, option_and_then, Some, MatchOption};
ghost use Rattle.std.specs.List.{cons_option, reduce};
ghost use Rattle.trf16_report.specs.Prelude.{entry_of, player_of};
ghost use Rattle.report_notes.specs.Ratings.{first_above, first_rated_below, is_rated_below, late_above};
ghost use Rattle.report_notes.specs.Ratings.{rated_above, rating_of, start_ranks_notes};
ghost use Rattle.report_notes.specs.NoteOf.{noted};

use crate::fields::number_in;
use crate::note::Note;
use trf16_report::{Player, Report, split_columns};

/// A rating, and the player with the smallest start rank who has a smaller one in front.
#[derive(Clone, Copy)]
pub(crate) struct RatedAbove {
    pub(crate) rating: u16,
    pub(crate) player: u16,
}

// The rating in columns 49 to 52, if it is over 0.
fn rating_of(player: &Player<'_>, utf8: bool) -> Option<u16>
    ensures { result ≡ rating_of utf8 (entry_of player.now) }
{
    let (_, behind) = split_columns(player.left, utf8, 40);
    match number_in(split_columns(behind, utf8, 4).0)? {
        0 => None,
        rating => Some(rating),
    }
}

// Both the start rank and the rating are smaller; a player without a rating is not rated below anybody.
fn is_rated_below(player: &Player<'_>, utf8: bool, start: u16, rating: u16) -> bool
    ensures { result ≡ is_rated_below utf8 start rating (entry_of player.now) }
{
    if start <= player.start {
        return false;
    }
    match rating_of(player, utf8) {
        Some(own) => own < rating,
        None => false,
    }
}

// The smaller of a start rank and of one that may be there.
fn smaller(first: Option<u16>, start: u16) -> u16
    ensures { Some result ≡ reduce min (cons_option first (start ∷ [])) }
{
    match first {
        Some(first) => first.min(start),
        None => start,
    }
}

// The smallest start rank of a player who is rated below.
fn first_rated_below(report: &Report<'_>, start: u16, rating: u16) -> Option<u16>
    ensures { result ≡ first_rated_below report.now start rating }
{
    let mut first = None;
    for player in report.players() {
        if is_rated_below(player, report.is_utf8(), start, rating) {
            first = Some(smaller(first, player.start));
        }
    }
    first
}

// The rating of a player, and of the players who are rated below, though with a smaller start rank, the first by start
// rank.
fn rated_above(report: &Report<'_>, player: &Player<'_>) -> Option<RatedAbove>
    ensures { result ≡ rated_above report.now (entry_of player.now) }
{
    let rating = rating_of(player, report.is_utf8())?;
    let player = first_rated_below(report, player.start, rating)?;
    Some(RatedAbove { rating, player })
}

/// The rating of the player with a start rank, if they come late, and of the players who are rated below, though with a
/// smaller start rank, the first by start rank.
pub(crate) fn late_above(report: &Report<'_>, start: u16) -> Option<RatedAbove>
    ensures { result ≡ option_and_then (late_above report.now) (player_of report.now.players start) }
{
    let player = report.player(start)?;
    // In front of the first round nobody is late.
    let is_late = 0 < report.rounds_played() && player.cells.is_empty();
    if is_late {
        rated_above(report, player)
    } else {
        None
    }
}

/// Before the first round, that start ranks do not follow the ratings: of the first player by line of whom it is so.
pub(crate) fn start_ranks_note<'a>(report: &Report<'_>) -> Option<Note<'a>>
    ensures { MatchOption result (start_ranks_notes report.now ≡ [])
        (λ note. start_ranks_notes report.now ≡ noted note ∷ []) }
{
    if 0 < report.rounds_played() {
        return None;
    }
    first_above(report)
}

// That start ranks do not follow the ratings, whatever was paired: of the first player by line of whom it is so.
fn first_above<'a>(report: &Report<'_>) -> Option<Note<'a>>
    ensures { MatchOption result (first_above report.now report.now.players ≡ [])
        (λ note. first_above report.now report.now.players ≡ noted note ∷ []) }
{
    for player in report.players() {
        if let Some(above) = rated_above(report, player) {
            return Some(Note::StartRanks {
                rating: above.rating,
                player: player.start,
                other: above.player,
            });
        }
    }
    None
}

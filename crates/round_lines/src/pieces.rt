// The pieces of which a line and its sentence are put together, side by side: texts, numbers, players, and lists of
// them. Each call that tells something names the pieces of both.
ghost use Rattle.std.specs.Prelude.{◌≡◌, ◌++◌, OnOk};
ghost use Rattle.std.specs.List.{flat_map};
ghost use Rattle.round_lines.specs.Pieces.{piece_text, pieces_text};
ghost use Rattle.round_lines.specs.Tellings.{in_wording};

use crate::lists::{put_differences, put_listed, put_ranks, put_scored, put_scored_words};
use crate::preference_texts::put_preferring;
use crate::telling::{Telling, put_one, put_players, put_seat, put_seats, start_at};
use common_texts::{HalfPoints, Page};
use requests::Wording;
use std::alloc::AllocError;

/// A piece of a line or of a sentence.
#[derive(Clone, Copy)]
pub enum Piece<'a> {
    /// A text as it stands.
    Text(&'static str),
    /// A number.
    Number(u16),
    /// How many there are of something.
    Count(usize),
    /// Half points, as points.
    Points(u16),
    /// The start rank of a seat.
    Rank(u16),
    /// The start ranks of seats, each behind a blank.
    Ranks(&'a [u16]),
    /// The start ranks of seats with their scores, each behind a blank.
    Scored(&'a [u16]),
    /// Differences as points, each behind a blank; a dash for none.
    Differences(&'a [u16]),
    /// A player with their name, by start rank.
    Player(u16),
    /// Players with their names, by start rank.
    Players(&'a [u16]),
    /// A player with their name, by seat.
    Seat(u16),
    /// Players with their names, by seat.
    Seats(&'a [u16]),
    /// A player with their name and the colour they prefer, by seat.
    Preferring(u16),
    /// Players with their names and scores, by seat.
    ScoredSeats(&'a [u16]),
    /// Differences as points in a sentence.
    DifferencesWords(&'a [u16]),
}

// Puts a piece.
fn put_piece(text: &mut Page, telling: &Telling<'_>, piece: &Piece<'_>) -> Result<(), AllocError>
    ensures { OnOk result (text.new ≡ text.old ++ piece_text telling.now piece.now) }
{
    match *piece {
        Piece::Text(piece) => text.push_str(piece),
        Piece::Number(number) => write!(text, "{number}"),
        Piece::Count(count) => write!(text, "{count}"),
        Piece::Points(halves) => {
            let points = HalfPoints(u32::from(halves));
            write!(text, "{points}")
        }
        Piece::Rank(seat) => {
            let start = start_at(telling.field, seat);
            write!(text, "{start}")
        }
        Piece::Ranks(seats) => put_ranks(text, telling.field, seats),
        Piece::Scored(seats) => put_scored(text, telling, seats),
        Piece::Differences(differences) => put_differences(text, differences),
        Piece::Player(start) => put_one(text, telling.report, start),
        Piece::Players(starts) => put_players(text, telling.report, starts),
        Piece::Seat(seat) => put_seat(text, telling, seat),
        Piece::Seats(seats) => put_seats(text, telling, seats),
        Piece::Preferring(seat) => put_preferring(text, telling, seat),
        Piece::ScoredSeats(seats) => put_scored_words(text, telling, seats),
        Piece::DifferencesWords(differences) => put_listed(text, Wording::Words, differences),
    }
}

// Puts pieces, one after the other.
fn put_each(text: &mut Page, telling: &Telling<'_>, pieces: &[Piece<'_>]) -> Result<(), AllocError>
    ensures { OnOk result (text.new ≡ text.old ++ flat_map (piece_text telling.now) pieces.now) }
{
    for piece in pieces {
        put_piece(text, telling, piece)?;
    }
    Ok(())
}

/// Puts the pieces of a text, in whatever wording a round is told.
///
/// # Errors
/// Memory was refused.
pub fn put(text: &mut Page, telling: &Telling<'_>, pieces: &[Piece<'_>]) -> Result<(), AllocError>
    ensures { OnOk result (text.new ≡ text.old ++ pieces_text telling.now pieces.now) }
{
    put_each(text, telling, pieces)
}

/// Puts the pieces of a line, or those of its sentence, as the wording says.
///
/// # Errors
/// Memory was refused.
pub fn say(
    text: &mut Page,
    telling: &Telling<'_>,
    line: &[Piece<'_>],
    words: &[Piece<'_>],
) -> Result<(), AllocError>
    ensures { OnOk result (text.new ≡ text.old ++ in_wording telling.now.wording
        (pieces_text telling.now line.now) (pieces_text telling.now words.now)) }
{
    match telling.wording {
        Wording::Plain => put(text, telling, line),
        Wording::Words => put(text, telling, words),
    }
}

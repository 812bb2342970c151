// How a round is told, and how players stand in a sentence: with their names.
ghost use Rattle.std.specs.Prelude.{◌≡◌, ◌++◌, IfOk, OnOk, codes, map};
ghost use Rattle.std.specs.List.{flat_map};
ghost use Rattle.dutch_player.specs.Prelude.{seat_at};
ghost use Rattle.round_lines.specs.Tellings.{in_wording, player_words, players_words, rank_and_name, seat_words, seats_words};

use common_texts::{Page, name_or_dash};
use dutch_player::Field;
use requests::Wording;
use std::alloc::{AllocError, Global};
use std::marker::Model;
use trf16_report::Report;

/// A round as it is told: its report, those whom it is paired from, and how the lines are worded.
#[derive(Drop)]
pub struct Telling<'a> {
    pub report: &'a Report<'a>,
    pub field: &'a Field,
    pub wording: Wording,
}

impl<'a> Model for Telling<'a> {
    ghost use Rattle.round_lines.specs.Tellings.{TellingFacts};

    ghost Value = { TellingFacts };

    ghost view = { λ t. record { sheet = t.report.now; facts = t.field.now; wording = t.wording } };
}

/// The plain text, or the words, as the wording says.
pub fn in_wording(wording: Wording, line: &'static str, words: &'static str) -> &'static str
    ensures { result.now ≡ in_wording wording line.now words.now }
{
    match wording {
        Wording::Plain => line,
        Wording::Words => words,
    }
}

// Puts a start rank, and behind it a name as it is shown; a dash is no name.
fn put_named(text: &mut Page, start: u16, name: &[u8]) -> Result<(), AllocError>
    ensures { OnOk result (text.new ≡ text.old ++ rank_and_name start name.now) }
{
    write!(text, "{start}")?;
    if name == b"-".as_slice() {
        return Ok(());
    }
    text.push_str(" ")?;
    text.push_bytes(name)
}

/// Puts a player, by start rank: the start rank, and behind it the name as it is shown, if there is one.
///
/// # Errors
/// Memory was refused.
pub fn put_one(text: &mut Page, report: &Report<'_>, start: u16) -> Result<(), AllocError>
    ensures { OnOk result (text.new ≡ text.old ++ player_words report.now start) }
{
    let name = name_or_dash(text.allocator(), report.name(start))?;
    put_named(text, start, name.as_slice())
}

// Puts a player behind another one.
fn put_other(text: &mut Page, report: &Report<'_>, start: u16) -> Result<(), AllocError>
    ensures { OnOk result (text.new ≡ text.old ++ (codes "; " ++ player_words report.now start)) }
{
    text.push_str("; ")?;
    put_one(text, report, start)
}

// Puts players behind another one.
fn put_others(text: &mut Page, report: &Report<'_>, starts: &[u16]) -> Result<(), AllocError>
    ensures { OnOk result (text.new
        ≡ text.old ++ flat_map (λ start. codes "; " ++ player_words report.now start) starts.now) }
{
    for start in starts {
        put_other(text, report, *start)?;
    }
    Ok(())
}

/// Puts players, by start ranks, with a semicolon between two of them, or that there are none.
///
/// # Errors
/// Memory was refused.
pub fn put_players(text: &mut Page, report: &Report<'_>, starts: &[u16]) -> Result<(), AllocError>
    ensures { OnOk result (text.new ≡ text.old ++ players_words report.now starts.now) }
{
    let [first, others @ ..] = starts else {
        return text.push_str("none");
    };
    put_one(text, report, *first)?;
    put_others(text, report, others)
}

/// The start rank of a seat; 0 behind the last one.
pub fn start_at(field: &Field, seat: u16) -> u16
    ensures { result ≡ (seat_at field.now seat).start }
{
    if usize::from(seat) < field.len() {
        field.start_rank(seat)
    } else {
        0
    }
}

// The start ranks of seats.
fn starts_of(alloc: Global, field: &Field, seats: &[u16]) -> Result<Vec<u16>, AllocError>
    ensures { IfOk result (λ starts. starts.items ≡ map (λ seat. (seat_at field.now seat).start) seats.now) }
{
    seats
        .iter()
        .map(|seat| start_at(field, *seat))
        .collect(alloc)
}

/// Puts a player, by seat.
///
/// # Errors
/// Memory was refused.
pub fn put_seat(text: &mut Page, telling: &Telling<'_>, seat: u16) -> Result<(), AllocError>
    ensures { OnOk result (text.new ≡ text.old ++ seat_words telling.now seat) }
{
    put_one(text, telling.report, start_at(telling.field, seat))
}

/// Puts players, by seats, with a semicolon between two of them, or that there are none.
///
/// # Errors
/// Memory was refused.
pub fn put_seats(text: &mut Page, telling: &Telling<'_>, seats: &[u16]) -> Result<(), AllocError>
    ensures { OnOk result (text.new ≡ text.old ++ seats_words telling.now seats.now) }
{
    let starts = starts_of(text.allocator(), telling.field, seats)?;
    put_players(text, telling.report, starts.as_slice())
}

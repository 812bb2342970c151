// What a player brings to the next round, in one line or in five sentences; and that a player is absent. Each part is
// put in either wording by one function.
ghost use Rattle.std.specs.Prelude.{◌≡◌, ◌++◌, IfOk, OnOk, codes};
ghost use Rattle.std.specs.List.{flat_map};
ghost use Rattle.std.specs.Fmt.{decimal};
ghost use Rattle.player_lines.specs.PlayerTexts as texts;

use common_texts::Page;
use dutch_player::{Float, colour_played};
use requests::Wording;
use round_lines::pieces::Piece::{Number, Player, Players, Points, Text};
use round_lines::pieces::{put, say};
use round_lines::preference_texts::preference;
use round_lines::telling::{Telling, in_wording};
use std::alloc::{AllocError, Global};
use trf16_report::Colour;

/// Puts what a present player of a report brings to the next round: their score, the colours of their games round by
/// round, what these come to (A.6), their floats in the last round and in the one before it (A.4), whom they have met
/// (C.1), and whether they are a topscorer (A.7) and may have the bye (C.2). In words these are five sentences, each
/// on a line.
///
/// # Errors
/// Memory was refused.
#[tactic(auto, unfolding(crate::specs::PlayerTexts::player_text))]
pub fn put_player(text: &mut Page, telling: &Telling<'_>, seat: u16) -> Result<(), AllocError>
    ensures { OnOk result (text.new ≡ text.old ++ texts.player_text telling.now seat) }
{
    put_score(text, telling, seat)?;
    put_colours(text, telling, seat)?;
    put_floats(text, telling, seat)?;
    put_met(text, telling, seat)?;
    put_rights(text, telling, seat)
}

/// Puts that a player is absent.
///
/// # Errors
/// Memory was refused.
pub fn put_absent(text: &mut Page, telling: &Telling<'_>, start: u16) -> Result<(), AllocError>
    ensures { OnOk result (text.new ≡ text.old ++ texts.absent_text telling.now start) }
{
    say(
        text,
        telling,
        &[Text("player "), Number(start), Text(" absent\n")],
        &[Player(start), Text(" is absent.\n")],
    )
}

// Puts who a player is, and their score.
fn put_score(text: &mut Page, telling: &Telling<'_>, seat: u16) -> Result<(), AllocError>
    ensures { OnOk result (text.new ≡ text.old ++ texts.score_text telling.now seat) }
{
    let start = telling.field.start_rank(seat);
    let score = Points(telling.field.score(seat));
    say(
        text,
        telling,
        &[Text("player "), Number(start), Text(" score "), score],
        &[Player(start), Text(" has "), score, Text(" points.\n")],
    )
}

// Puts a player's colours, and what they come to.
fn put_colours(text: &mut Page, telling: &Telling<'_>, seat: u16) -> Result<(), AllocError>
    ensures { OnOk result (text.new ≡ text.old ++ texts.colours_text telling.now seat) }
{
    text.push_str(in_wording(telling.wording, " colours", "Colours so far:"))?;
    put_games(text, telling, seat)?;
    put_difference(text, telling, seat)?;
    put_preference(text, telling, seat)
}

// Puts the colours of a player's games, round by round, or that no round was paired.
fn put_games(text: &mut Page, telling: &Telling<'_>, seat: u16) -> Result<(), AllocError>
    ensures { OnOk result (text.new ≡ text.old ++ texts.all_games_text telling.now seat) }
{
    let (start, rounds) = (
        telling.field.start_rank(seat),
        telling.report.rounds_played(),
    );
    if rounds == 0 {
        return text.push_str(in_wording(telling.wording, " -", " none"));
    }
    for round in 0..rounds {
        let cell = telling.report.cell(start, round + 1);
        put_game(text, telling.wording, round, colour_played(&cell))?;
    }
    Ok(())
}

// Puts the colour of a game behind those of the rounds before it, so many, or that it was not played.
#[tactic(auto, unfolding(crate::specs::PlayerTexts::game_text))]
fn put_game(
    text: &mut Page,
    wording: Wording,
    before: u8,
    played: Option<Colour>,
) -> Result<(), AllocError>
    ensures { OnOk result (text.new ≡ text.old ++ texts.game_text wording before played) }
{
    text.push_str(mark(wording, before))?;
    text.push_str(colour(wording, played))
}

// What parts a game from what stands before it, by how many games do.
fn mark(wording: Wording, before: u8) -> &'static str
    ensures { result.now ≡ texts.mark_text wording before }
{
    if before == 0 {
        " "
    } else {
        in_wording(wording, " ", ", ")
    }
}

// The colour of a game that was played.
fn colour(wording: Wording, played: Option<Colour>) -> &'static str
    ensures { result.now ≡ texts.played_text wording played }
{
    match played {
        Some(Colour::White) => in_wording(wording, "w", "white"),
        Some(Colour::Black) => in_wording(wording, "b", "black"),
        None => in_wording(wording, ".", "none"),
    }
}

// Puts a player's colour difference with its sign, which a line alone has.
fn put_difference(text: &mut Page, telling: &Telling<'_>, seat: u16) -> Result<(), AllocError>
    ensures { OnOk result (text.new ≡ text.old ++ texts.difference_text telling.now seat) }
{
    let difference = telling.field.difference(seat);
    let sign = if 0 < difference { "+" } else { "" };
    match telling.wording {
        Wording::Plain => write!(text, " difference {sign}{difference}"),
        Wording::Words => Ok(()),
    }
}

// Puts the colour that a player prefers.
fn put_preference(text: &mut Page, telling: &Telling<'_>, seat: u16) -> Result<(), AllocError>
    ensures { OnOk result (text.new ≡ text.old ++ texts.prefers_text telling.now seat) }
{
    let (line, words) = preference(telling.field.preference(seat));
    say(
        text,
        telling,
        &[Text(" prefers "), Text(line)],
        &[Text(". Preference: "), Text(words), Text(".\n")],
    )
}

fn float(float: Option<Float>) -> &'static str
    ensures { result.now ≡ texts.float_text float }
{
    match float {
        Some(Float::Up) => "up",
        Some(Float::Down) => "down",
        None => "none",
    }
}

// Puts a player's floats in the last two rounds.
fn put_floats(text: &mut Page, telling: &Telling<'_>, seat: u16) -> Result<(), AllocError>
    ensures { OnOk result (text.new ≡ text.old ++ texts.floats_text telling.now seat) }
{
    let latest = Text(float(telling.field.float(seat, 1)));
    let earlier = Text(float(telling.field.float(seat, 2)));
    let (last, before) = (" in the last round, ", " in the round before.\n");
    say(
        text,
        telling,
        &[Text(" floats "), latest, Text(" "), earlier],
        &[Text("Floats: "), latest, Text(last), earlier, Text(before)],
    )
}

// Puts a number to its place among ascending ones, where it does not stand among them.
#[tactic(auto, using(crate::proofs::PlayerLemmas::along_more, crate::proofs::PlayerLemmas::along_same, crate::proofs::PlayerLemmas::along_stop, crate::proofs::PlayerLemmas::along_end))]
fn place(numbers: &mut Vec<u16>, number: u16) -> Result<(), AllocError>
    ensures { OnOk result (numbers.new.items ≡ texts.with_number number numbers.old.items) }
{
    for at in 0..numbers.len() {
        let other = numbers[at];
        if number == other {
            return Ok(());
        }
        if number < other {
            numbers.insert(at, number)?;
            return Ok(());
        }
    }
    numbers.push(number)?;
    Ok(())
}

// Some numbers, ascending and each once, put to their places from the last one on.
fn ascending_numbers(alloc: Global, numbers: &[u16]) -> Result<Vec<u16>, AllocError>
    ensures { IfOk result (λ all. all.items ≡ texts.ascending_numbers numbers.now) }
{
    let [first, others @ ..] = numbers else {
        return Ok(Vec::new(alloc));
    };
    let mut all = ascending_numbers(alloc, others)?;
    place(&mut all, *first)?;
    Ok(all)
}

// Puts start ranks in a line, each behind a blank, or a dash for none.
fn put_starts(text: &mut Page, starts: &[u16]) -> Result<(), AllocError>
    ensures { OnOk result (text.new ≡ text.old ++ texts.starts_text starts.now) }
{
    if starts.is_empty() {
        return text.push_str(" -");
    }
    for start in starts {
        let one = *start;
        write!(text, " {one}")?;
    }
    Ok(())
}

// Puts those whom a player has met.
fn put_met(text: &mut Page, telling: &Telling<'_>, seat: u16) -> Result<(), AllocError>
    ensures { OnOk result (text.new ≡ text.old ++ texts.met_text telling.now seat) }
{
    let met = ascending_numbers(text.allocator(), telling.field.opponents(seat))?;
    let players = Players(met.as_slice());
    match telling.wording {
        Wording::Plain => {
            text.push_str(" met")?;
            put_starts(text, met.as_slice())
        }
        Wording::Words => put(text, telling, &[Text("Has met: "), players, Text(".\n")]),
    }
}

fn yes(holds: bool) -> &'static str
    ensures { result.now ≡ texts.yes_text holds }
{
    if holds { "yes" } else { "no" }
}

// Puts whether a player is a topscorer, and whether they may have the bye.
fn put_rights(text: &mut Page, telling: &Telling<'_>, seat: u16) -> Result<(), AllocError>
    ensures { OnOk result (text.new ≡ text.old ++ texts.rights_text telling.now seat) }
{
    let topscorer = Text(yes(telling.field.topscorer(seat)));
    let bye = Text(yes(telling.field.may_bye(seat)));
    let (line, words) = (Text(" bye "), Text(". May have the bye: "));
    say(
        text,
        telling,
        &[Text(" topscorer "), topscorer, line, bye, Text("\n")],
        &[Text("Topscorer: "), topscorer, words, bye, Text(".\n")],
    )
}

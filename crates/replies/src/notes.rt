// The lines of `check --notes`: what of an accepted report looks like a mistake.
ghost use Rattle.std.specs.Prelude.{◌≡◌, ◌++◌, OnOk, option_map};
ghost use Rattle.std.specs.List.{find};
ghost use Rattle.trf16_report.specs.Prelude.{is_word};
ghost use Rattle.report_notes.specs.Notes.{notes_of};
ghost use Rattle.report_notes.specs.NoteOf.{noted};
ghost use Rattle.replies.specs.NoteTexts as texts;

use common_texts::{Page, put_without_controls};
use report_notes::{Identity, Note, Place, RoundNote, next_note};
use std::alloc::AllocError;
use trf16_report::{Report, is_word};

/// Puts a line for each note of a report that stands in some bytes.
pub fn put_notes(text: &mut Page, report: &Report<'_>, bytes: &[u8]) -> Result<(), AllocError>
    ensures { OnOk result (text.new ≡ text.old ++ texts.notes_text (notes_of report.now bytes.now)) }
{
    let mut place = Place::first(bytes);
    while let Some((note, after)) = next_note(report, place) {
        put_note(text, note)?;
        place = after;
    }
    Ok(())
}

/// Puts the line of a note.
pub(crate) fn put_note(text: &mut Page, note: Note<'_>) -> Result<(), AllocError>
    ensures { OnOk result (text.new ≡ text.old ++ texts.note_text (noted note.entry)) }
{
    put_front(text, note)?;
    put_told_of_kind(text, note)?;
    text.push_str("\n")
}

// Puts the line of a note up to what is told of a kind.
#[tactic(auto, unfolding(crate::specs::NoteTexts::front_text))]
fn put_front(text: &mut Page, note: Note<'_>) -> Result<(), AllocError>
    ensures { OnOk result (text.new ≡ text.old ++ texts.front_text (noted note.entry)) }
{
    match note {
        Note::NoPlayer { line, number } => write!(text, "note line {line}: no player {number}"),
        Note::PlayedLast { line, number } => {
            write!(
                text,
                "note line {line}: player {number} played the last round"
            )
        }
        Note::UnknownKind { line, .. } | Note::BlankBefore { line, .. } => put_line(
            text, line, ": ",
        ),
        Note::OnePlayer { line } => put_line(text, line, ": names one player"),
        Note::ManyRounds { line } => put_line(text, line, ": more rounds than opponents"),
        Note::OtherCount {
            line,
            said,
            players,
        } => write!(text, "note line {line}: 062 says {said}, players {players}"),
        Note::BeforeName { line } => put_line(text, line, ": column 14 is not blank"),
        Note::SameAs { line, what, player } => {
            let what = identity_text(what);
            write!(text, "note line {line}: same {what} as player {player}")
        }
        Note::LongName { line } => put_line(text, line, ": the name runs into column 48"),
        Note::RatingAbove {
            line,
            rating,
            player,
        } => write!(
            text,
            "note line {line}: rating {rating} is above that of player {player}"
        ),
        Note::EarlyPoints { line } => put_line(text, line, ": the points count a round to come"),
        Note::InRound { line, round, what } => {
            write!(text, "note line {line}: round {round}")?;
            put_round_note(text, what)
        }
        Note::BehindColumn { line, column } => {
            write!(
                text,
                "note line {line}: behind column {column} nothing is read"
            )
        }
        _ => put_closing(text, note),
    }
}

// Puts what is told of a note that stands behind those on lines, and of one on a line nothing.
#[tactic(auto, unfolding(crate::specs::NoteTexts::closing_text))]
fn put_closing(text: &mut Page, note: Note<'_>) -> Result<(), AllocError>
    ensures { OnOk result (text.new ≡ text.old ++ texts.closing_text (noted note.entry)) }
{
    match note {
        Note::NoGame { round } => write!(text, "note round {round}: no game"),
        Note::Byes { round, players } => {
            write!(text, "note round {round}: {players} players have the bye")
        }
        Note::NobodyPresent { round } => write!(text, "note round {round}: nobody is present"),
        Note::StartRanks {
            rating,
            player,
            other,
        } => write!(
            text,
            "note start ranks: rating {rating} of player {player} is above that of player {other}"
        ),
        Note::RoundsUnknown => text.push_str("note rounds unknown"),
        _ => Ok(()),
    }
}

// What two players share.
fn identity_text(what: Identity) -> &'static str
    ensures { result.now ≡ texts.identity_text what }
{
    match what {
        Identity::Name => "name",
        Identity::FideNumber => "FIDE number",
    }
}

// Puts what is told of a line.
fn put_line(text: &mut Page, line: usize, what: &str) -> Result<(), AllocError>
    ensures { OnOk result (text.new ≡ text.old ++ texts.line_front line what.now) }
{
    write!(text, "note line {line}{what}")
}

// Puts what is noted of a round, behind the round's number.
#[tactic(auto, unfolding(crate::specs::NoteTexts::round_note_text))]
fn put_round_note(text: &mut Page, what: RoundNote) -> Result<(), AllocError>
    ensures { OnOk result (text.new ≡ text.old ++ texts.round_note_text what) }
{
    match what {
        RoundNote::NoResult => text.push_str(" has no result"),
        RoundNote::MeetsAgain { player } => write!(text, " meets player {player} again"),
        RoundNote::AnotherBye => text.push_str(" is another bye"),
        RoundNote::HalfPoint => text.push_str(" gives half a point in all"),
        RoundNote::NoPoint => text.push_str(" gives no point in all"),
        RoundNote::NoCell => text.push_str(" has no cell"),
    }
}

// Puts what a note tells of a kind, or nothing.
fn put_told_of_kind(text: &mut Page, note: Note<'_>) -> Result<(), AllocError>
    ensures { OnOk result (text.new ≡ text.old ++ texts.told_of_kind (noted note.entry)) }
{
    match note {
        Note::UnknownKind { kind, .. } => put_unknown(text, kind),
        Note::BlankBefore { kind, .. } => put_kind(text, "blank before ", kind),
        _ => Ok(()),
    }
}

// Puts what is told of an unknown kind.
fn put_unknown(text: &mut Page, kind: &[u8]) -> Result<(), AllocError>
    ensures { OnOk result (text.new ≡ text.old ++ texts.unknown_text kind.now) }
{
    match other_kind(kind) {
        Some((name, said)) => { write!(text, "{name} {said}") }
        None => put_kind(text, "unknown kind ", kind),
    }
}

// The kinds of lines that other programs write and that are not read: what such a line says, and what to use instead.
const OTHER_KINDS: [(&str, &str); 11] = [
    (
        "BBW",
        "gives the points of a win: if not 1.0, use another program",
    ),
    (
        "BBD",
        "gives the points of a draw: if not 0.5, use another program",
    ),
    (
        "BBL",
        "gives the points of a loss: if not 0.0, use another program",
    ),
    (
        "BBZ",
        "gives the points of an absence: if not 0.0, use another program",
    ),
    (
        "BBF",
        "gives the points of a forfeit loss: if not 0.0, use another program",
    ),
    (
        "BBU",
        "gives the points of the pairing-allocated bye: use --bye, in half points",
    ),
    (
        "162",
        "gives the points of results: if unusual, use --bye or another program",
    ),
    (
        "172",
        "names the method of the start ranks: use those in columns 5 to 8",
    ),
    (
        "240",
        "gives byes that players asked for: use enter with H, F or Z",
    ),
    ("250", "accelerates the pairing: use another program"),
    ("260", "keeps players apart in another format: use XXP"),
];

// A kind among these, in either case: its name, and what a line of it says.
fn other_kind(kind: &[u8]) -> Option<(&'static str, &'static str)>
    ensures { option_map (λ other. (other.0.now, other.1.now)) result
        ≡ find (λ other. is_word kind.now other.0) texts.other_kinds }
{
    OTHER_KINDS
        .iter()
        .copied()
        .find(|other| is_word(kind, other.0.as_bytes()))
}

// Puts a text, and behind it a kind without its control characters.
fn put_kind(text: &mut Page, front: &str, kind: &[u8]) -> Result<(), AllocError>
    ensures { OnOk result (text.new ≡ text.old ++ texts.kind_text front.now kind.now) }
{
    text.push_str(front)?;
    put_without_controls(text, kind)
}

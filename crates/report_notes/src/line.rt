// What of one line looks like a mistake.
ghost use Rattle.std.specs.Prelude.{◌≡◌, ◌∷◌, [], MatchOption};
ghost use Rattle.trf16_report.specs.Prelude.{columns, words};
ghost use Rattle.report_notes.specs.Notes.{carried_notes, count_notes, extension_notes, has_many_rounds, line_notes, note_if};
ghost use Rattle.report_notes.specs.Notes.{other_count};
ghost use Rattle.report_notes.specs.Noted.{ManyRounds};
ghost use Rattle.report_notes.specs.NoteOf.{left_notes, noted};

use crate::fields::number_in;
use crate::kinds::{begins_blank, is_known, kind_in};
use crate::names::{names_one, next_absent, next_stranger};
use crate::note::Note;
use crate::player_line::{PlayerLeft, next_of_player, player_left};
use trf16_report::{Report, is_blank, is_word, split_kind};

/// What is left to tell of a line.
#[derive(Clone, Copy)]
pub(crate) enum Left<'a> {
    /// Nothing.
    Nothing,
    /// One note.
    One(Note<'a>),
    /// Of a line `XXP`: those of some words that are the start rank of no player; and then, if so, that all of the line
    /// name one player.
    Names { names: &'a [u8], alone: bool },
    /// Of a line `XXZ`: what is to be told of some words.
    Absent(&'a [u8]),
    /// Of a player's line.
    Player(PlayerLeft),
}

/// The first note that is left of line n, and what is left behind it.
pub(crate) fn next_left<'a>(
    report: &Report<'_>,
    n: usize,
    left: Left<'a>,
) -> Option<(Note<'a>, Left<'a>)>
    ensures { MatchOption result (left_notes report.now n left.entry ≡ [])
        (λ x. left_notes report.now n left.entry ≡ noted x.0 ∷ left_notes report.now n x.1) }
{
    match left {
        Left::Nothing => None,
        Left::One(note) => Some((note, Left::Nothing)),
        Left::Names { names, alone } => next_name(report, n, names, alone),
        Left::Absent(names) => {
            let (note, rest) = next_absent(report, n, names)?;
            Some((note, Left::Absent(rest)))
        }
        Left::Player(left) => {
            let (note, rest) = next_of_player(report, n, left)?;
            Some((note, Left::Player(rest)))
        }
    }
}

// The first note that is left of the words of a line `XXP`, and what is left behind it.
fn next_name<'a>(
    report: &Report<'_>,
    n: usize,
    names: &'a [u8],
    alone: bool,
) -> Option<(Note<'a>, Left<'a>)>
    ensures { MatchOption result (left_notes report.now n (Left.Names names.entry alone) ≡ [])
        (λ x. left_notes report.now n (Left.Names names.entry alone) ≡ noted x.0 ∷ left_notes report.now n x.1) }
{
    if let Some((number, after)) = next_stranger(report, names) {
        let left = Left::Names {
            names: after,
            alone,
        };
        return Some((Note::NoPlayer { line: n, number }, left));
    }
    if alone {
        Some((Note::OnePlayer { line: n }, Left::Nothing))
    } else {
        None
    }
}

/// All that is to be told of line n.
pub(crate) fn line_left<'a>(report: &Report<'_>, n: usize, line: &'a [u8]) -> Left<'a>
    ensures { left_notes report.now n result ≡ line_notes report.now n line.now }
{
    let (kind, _) = split_kind(line, report.is_utf8());
    if kind == b"001".as_slice() {
        Left::Player(player_left(report, line))
    } else {
        carried_left(report, n, line)
    }
}

// All that is to be told of line n, if it is carried.
fn carried_left<'a>(report: &Report<'_>, n: usize, line: &'a [u8]) -> Left<'a>
    ensures { left_notes report.now n result ≡ carried_notes report.now n line.now }
{
    let kind = kind_in(line, report.is_utf8());
    if is_blank(line) {
        Left::Nothing
    } else if !is_known(kind) {
        Left::One(Note::UnknownKind { line: n, kind })
    } else if begins_blank(line) {
        Left::One(Note::BlankBefore { line: n, kind })
    } else {
        extension_left(report, n, line)
    }
}

// All that is to be told of line n, if its kind is known: of what `XXZ` and `XXP` name, of how many rounds `XXR` says,
// and of how many players `062` says.
fn extension_left<'a>(report: &Report<'_>, n: usize, line: &'a [u8]) -> Left<'a>
    ensures { left_notes report.now n result ≡ extension_notes report.now n (columns report.now.utf8 line.now) }
{
    let (kind, names) = split_kind(line, report.is_utf8());
    if is_word(kind, b"XXZ") {
        Left::Absent(names)
    } else if is_word(kind, b"XXP") {
        let alone = names_one(names);
        Left::Names { names, alone }
    } else if is_word(kind, b"XXR") {
        rounds_left(report, n)
    } else if is_word(kind, b"062") {
        count_left(report, n, names)
    } else {
        Left::Nothing
    }
}

// All that is to be told of a line `XXR`: as many rounds as there are players, or more.
fn rounds_left<'a>(report: &Report<'_>, n: usize) -> Left<'a>
    ensures { left_notes report.now n result ≡ note_if (has_many_rounds report.now) (ManyRounds n) }
{
    if has_many_rounds(report) {
        Left::One(Note::ManyRounds { line: n })
    } else {
        Left::Nothing
    }
}

// All that is to be told of a line `062`, by what stands behind its kind: a number of players that is not that of the
// report.
fn count_left<'a>(report: &Report<'_>, n: usize, count: &[u8]) -> Left<'a>
    ensures { left_notes report.now n result ≡ count_notes report.now n (other_count report.now (words count.now)) }
{
    let players = report.players().len();
    match number_in(count) {
        Some(said) if usize::from(said) != players => Left::One(Note::OtherCount {
            line: n,
            said,
            players,
        }),
        _ => Left::Nothing,
    }
}

// So many rounds are more than a player has opponents.
fn has_many_rounds(report: &Report<'_>) -> bool
    ensures { result ≡ has_many_rounds report.now }
{
    match report.total_rounds() {
        Some(total) => report.players().len() <= usize::from(total),
        None => false,
    }
}

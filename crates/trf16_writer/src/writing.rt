// Writing a report as its canonical text: the lines that are carried as they stand, and the lines of the players
// afresh.
ghost use Rattle.std.specs.Prelude.{◌≡◌, ◌++◌, ◌∷◌, ◌≤◌, ◌/◌, [], codes, decimal, map, option_copied};
ghost use Rattle.std.specs.List.{flat_map};
ghost use Rattle.trf16_report.specs.Output.{use_of, Puts};
ghost use Rattle.trf16_writer.specs.Steps.{next_text, players_behind};
ghost use Rattle.trf16_report.specs.Sheet.{entry_of};
ghost use Rattle.trf16_report.specs.Written as texts;

use indexmap::map::Values;
use itoa::Buffer;
use trf16_report as report;
use trf16_report::{Cell, Colour, Failed, GameOutcome, Player, Report, Sink};

// As many blanks as the widest field has columns.
const BLANKS: [u8; 72] = [b' '; 72];

fn put_blanks<W: Sink>(w: &mut W, count: usize) -> Result<(), Failed>
    requires { count ≤ 72 }
    ensures { Puts (texts.blanks count) (use_of W.held W.failures w.old w.new) result }
{
    report::put_all(w, BLANKS.split_at(count).0)
}

// A text at the right of four columns.
#[tactic(auto, using(trf16_report::proofs::OutputLemmas::put_both, trf16_report::proofs::OutputLemmas::put_neither))]
fn put_right<W: Sink>(w: &mut W, text: &[u8]) -> Result<(), Failed>
    ensures { Puts (texts.right_in_four text.now) (use_of W.held W.failures w.old w.new) result }
{
    put_blanks(w, 4usize.saturating_sub(text.len()))?;
    report::put_all(w, text)
}

fn put_number<W: Sink>(w: &mut W, number: u16) -> Result<(), Failed>
    ensures { Puts (texts.right_in_four (decimal number)) (use_of W.held W.failures w.old w.new) result }
{
    let mut buffer = Buffer::new();
    put_right(w, buffer.format(number).as_bytes())
}

// Half points as points with one decimal.
fn put_decimal<W: Sink>(w: &mut W, whole: &[u8], points: u16) -> Result<(), Failed>
    requires { whole.now ≡ decimal (points / 2) }
    ensures { Puts (texts.points_text points) (use_of W.held W.failures w.old w.new) result }
{
    report::put_all(w, whole)?;
    report::put_all(w, if points % 2 == 0 { b".0" } else { b".5" })
}

// Half points as points, right in four columns.
fn put_points<W: Sink>(w: &mut W, points: u16) -> Result<(), Failed>
    ensures { Puts (texts.right_in_four (texts.points_text points)) (use_of W.held W.failures w.old w.new) result }
{
    let mut buffer = Buffer::new();
    let whole = buffer.format(points / 2).as_bytes();
    put_blanks(w, 4usize.saturating_sub(whole.len() + 2))?;
    put_decimal(w, whole, points)
}

fn put_points_field<W: Sink>(w: &mut W, points: Option<u16>) -> Result<(), Failed>
    ensures { Puts (texts.points_field points) (use_of W.held W.failures w.old w.new) result }
{
    match points {
        Some(points) => put_points(w, points),
        None => put_blanks(w, 4),
    }
}

// A text at the left of some columns.
fn put_left<W: Sink>(w: &mut W, utf8: bool, width: usize, text: &[u8]) -> Result<(), Failed>
    requires { width ≤ 72 }
    ensures { Puts (texts.left_in utf8 width text.now) (use_of W.held W.failures w.old w.new) result }
{
    report::put_all(w, text)?;
    put_blanks(w, width.saturating_sub(report::column_count(text, utf8)))
}

fn bye_text(bye: report::Bye) -> &'static [u8]
    ensures { result.now ≡ codes "0000 - " ++ (texts.bye_letter bye ∷ []) }
{
    match bye {
        report::Bye::Half => b"0000 - H",
        report::Bye::Full => b"0000 - F",
        report::Bye::Allocated => b"0000 - U",
        report::Bye::Zero => b"0000 - Z",
    }
}

fn colour_letter(colour: Option<Colour>) -> u8
    ensures { result ≡ texts.colour_letter colour }
{
    match colour {
        None => b'-',
        Some(Colour::White) => b'w',
        Some(Colour::Black) => b'b',
    }
}

fn outcome_letter(rated: bool, got: GameOutcome) -> u8
    ensures { result ≡ texts.outcome_letter rated got }
{
    match (rated, got) {
        (true, GameOutcome::Win) => b'1',
        (true, GameOutcome::Draw) => b'=',
        (true, GameOutcome::Loss) => b'0',
        (false, GameOutcome::Win) => b'W',
        (false, GameOutcome::Draw) => b'D',
        (false, GameOutcome::Loss) => b'L',
    }
}

// Opponent, colour and the letter of the result.
fn put_meeting<W: Sink>(
    w: &mut W,
    opponent: u16,
    colour: Option<Colour>,
    letter: u8,
) -> Result<(), Failed>
    ensures { Puts (texts.meeting_text opponent colour letter) (use_of W.held W.failures w.old w.new) result }
{
    put_number(w, opponent)?;
    report::put_all(w, &[b' ', colour_letter(colour), b' ', letter])
}

fn put_cell<W: Sink>(w: &mut W, cell: &Cell) -> Result<(), Failed>
    ensures { Puts (texts.cell_text cell.now) (use_of W.held W.failures w.old w.new) result }
{
    match *cell {
        Cell::Blank => put_blanks(w, 8),
        Cell::Bye(bye) => report::put_all(w, bye_text(bye)),
        Cell::Game {
            opponent,
            colour,
            rated,
            got,
        } => put_meeting(w, opponent, Some(colour), outcome_letter(rated, got)),
        Cell::Forfeit {
            opponent,
            colour,
            won,
        } => put_meeting(w, opponent, colour, if won { b'+' } else { b'-' }),
        Cell::Unfinished { opponent, colour } => put_meeting(w, opponent, Some(colour), b' '),
    }
}

fn put_round<W: Sink>(w: &mut W, cell: &Cell) -> Result<(), Failed>
    ensures { Puts (texts.round_text cell.now) (use_of W.held W.failures w.old w.new) result }
{
    report::put_all(w, b"  ")?;
    put_cell(w, cell)
}

fn put_rounds<W: Sink>(w: &mut W, cells: &[Cell]) -> Result<(), Failed>
    ensures { Puts (flat_map texts.round_text cells.now) (use_of W.held W.failures w.old w.new) result }
{
    for cell in cells {
        put_round(w, cell)?;
    }
    Ok(())
}

fn put_player<W: Sink>(w: &mut W, utf8: bool, player: &Player<'_>) -> Result<(), Failed>
    ensures { Puts (texts.player_text utf8 (entry_of player.now)) (use_of W.held W.failures w.old w.new) result }
{
    report::put_all(w, b"001 ")?;
    put_number(w, player.start)?;
    put_left(w, utf8, 72, player.left)?;
    put_points_field(w, player.points)?;
    put_left(w, utf8, 5, player.right)?;
    put_rounds(w, &player.cells)
}

// A line that is carried, with its end.
#[tactic(auto, using(trf16_report::proofs::OutputLemmas::put_both, trf16_report::proofs::OutputLemmas::put_neither))]
fn put_line<W: Sink>(w: &mut W, line: &[u8]) -> Result<(), Failed>
    ensures { Puts (line.now ++ (10 ∷ [])) (use_of W.held W.failures w.old w.new) result }
{
    report::put_all(w, line)?;
    report::put_all(w, b"\n")
}

/// Puts the line of a player in TRF16's columns, with LF behind it; a column is a character if the report is UTF-8,
/// otherwise a byte.
pub(crate) fn put_player_line<W: Sink>(
    w: &mut W,
    utf8: bool,
    player: &Player<'_>,
) -> Result<(), Failed>
    ensures { Puts (texts.player_text utf8 (entry_of player.now)
        ++ (10 ∷ [])) (use_of W.held W.failures w.old w.new) result }
{
    put_player(w, utf8, player)?;
    report::put_all(w, b"\n")
}

// The next line: one that is carried, or that of the next player.
fn put_next<W: Sink>(
    w: &mut W,
    utf8: bool,
    carried: Option<&[u8]>,
    players: &mut Values<'_, u16, Player<'_>>,
) -> Result<(), Failed>
    ensures text { Puts (next_text utf8 (option_copied carried.entry) (map entry_of players.old))
        (use_of W.held W.failures w.old w.new) result }
    ensures players { map entry_of players.new
        ≡ players_behind (option_copied carried.entry) (map entry_of players.old) }
{
    match carried {
        Some(line) => put_line(w, line),
        None => match players.next() {
            Some(player) => put_player_line(w, utf8, player),
            None => Ok(()),
        },
    }
}

/// Writes a report as its canonical text: each line that is no player's as it stands, and each player's line anew in
/// TRF16's columns, all ended by LF, with no byte order mark in front. It fails only if the sink does; then a part of
/// the text was written, which ends before the text does.
pub fn write<W: Sink>(report: &Report<'_>, w: &mut W) -> Result<(), Failed>
    ensures { Puts (texts.written report.now) (use_of W.held W.failures w.old w.new) result }
{
    let mut players = report.players();
    let mut lines = report.carried_lines();
    while let Some(line) = lines.next() {
        put_next(w, report.is_utf8(), line, &mut players)?;
    }
    Ok(())
}

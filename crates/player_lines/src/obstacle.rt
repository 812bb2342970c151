// What stands against a meeting in the next round, or against the bye, whatever is chosen in a bracket (C.04.3 C.1 to
// C.3).
ghost use Rattle.std.specs.Prelude.{◌≡◌, ◌<◌, ◌++◌, OnOk};
ghost use Rattle.player_lines.specs.declared.obstacle.Obstacle.TheVariants.{Absent};
ghost use Rattle.player_lines.specs.Obstacles.{against_bye, against_meeting, first_bye, first_meeting, obstacle_text};

use common_texts::Page;
use dutch_player::{Field, bars_bye, opponent_played};
use round_lines::Asked;
use round_lines::pieces::Piece::{Number, Player, Text};
use round_lines::pieces::say;
use round_lines::telling::Telling;
use std::alloc::AllocError;
use trf16_report::Report;

/// Why a player does not meet another one in the next round, or does not have the bye, whatever is chosen in a bracket.
#[derive(Clone, Copy)]
pub enum Obstacle {
    /// One of the two is absent.
    Absent,
    /// They have met, in this round for the first time (C.1).
    Met { round: u8 },
    /// A line `XXP` keeps them apart.
    Apart,
    /// Both have absolute preferences for one colour, and neither is a topscorer (C.3).
    Colours,
    /// The player may not have the bye (C.2): they had it, or a point without a game, in this round for the first time.
    HadBye { round: u8 },
    /// Nobody has the bye.
    Even,
}

// The first round in which two players have played against each other.
fn first_meeting(report: &Report<'_>, one: u16, other: u16) -> Option<u8>
    ensures { result ≡ first_meeting report.now one other }
{
    (1..report.rounds_played() + 1).find(
        |round|
            requires { 0 < round.now }
        { opponent_played(&report.cell(one, *round)) == Some(other) },
    )
}

/// What stands first against a meeting of two seats: a game (C.1), a line `XXP`, their colours (C.3).
pub fn against_meeting(report: &Report<'_>, field: &Field, one: u16, other: u16) -> Option<Obstacle>
    ensures { result ≡ against_meeting report.now field.now one other }
{
    let (first, second) = (field.start_rank(one), field.start_rank(other));
    if let Some(round) = first_meeting(report, first, second) {
        return Some(Obstacle::Met { round });
    }
    if report.apart(first, second) {
        return Some(Obstacle::Apart);
    }
    if field.colours_allow(one, other) {
        None
    } else {
        Some(Obstacle::Colours)
    }
}

// The first round in which a player had the bye, or a point without a game.
fn first_bye(report: &Report<'_>, start: u16) -> Option<u8>
    ensures { result ≡ first_bye report.now start }
{
    (1..report.rounds_played() + 1).find(
        |round|
            requires { 0 < round.now }
        { bars_bye(&report.cell(start, *round)) },
    )
}

/// What stands first against the bye of a seat, if these have it: C.2, or that nobody has it.
pub fn against_bye(report: &Report<'_>, field: &Field, bye: &[u16], seat: u16) -> Option<Obstacle>
    ensures { result ≡ against_bye report.now field.now bye.now seat }
{
    if !field.may_bye(seat) {
        let round = first_bye(report, field.start_rank(seat)).unwrap_or(0);
        return Some(Obstacle::HadBye { round });
    }
    if bye.is_empty() {
        return Some(Obstacle::Even);
    }
    None
}

/// Puts what stands against it, without the end of a line.
///
/// # Errors
/// Memory was refused.
pub fn put_obstacle(
    text: &mut Page,
    telling: &Telling<'_>,
    asked: Asked,
    obstacle: Obstacle,
) -> Result<(), AllocError>
    ensures { OnOk result (text.new
        ≡ text.old ++ obstacle_text telling.now asked.player asked.number obstacle) }
{
    match obstacle {
        Obstacle::Absent => put_absence(text, telling, asked),
        Obstacle::Met { round } => {
            let (met, round) = (Text("They met in round "), Number(u16::from(round)));
            let line = [Text("met round "), round, Text(" C.1")];
            say(text, telling, &line, &[met, round, Text(" (C.1).")])
        }
        Obstacle::Apart => {
            let words = Text("An XXP line keeps them apart.");
            say(text, telling, &[Text("apart XXP")], &[words])
        }
        Obstacle::Colours => {
            let words = Text("Both have to get the same colour (C.3).");
            say(text, telling, &[Text("colours C.3")], &[words])
        }
        Obstacle::HadBye { round } => {
            let (player, round) = (Player(asked.player), Number(u16::from(round)));
            let why = Text(" has had the bye, or a point without a game, in round ");
            let words = [player, why, round, Text(" (C.2).")];
            say(text, telling, &[Text("bye C.2")], &words)
        }
        Obstacle::Even => {
            let words = Text("The number of players present is even.");
            say(text, telling, &[Text("even")], &[words])
        }
    }
}

// Puts that one of two is absent, or, if the player asks for the bye, that they are.
fn put_absence(text: &mut Page, telling: &Telling<'_>, asked: Asked) -> Result<(), AllocError>
    ensures { OnOk result (text.new
        ≡ text.old ++ obstacle_text telling.now asked.player asked.number Absent) }
{
    let (line, player) = (Text("absent"), Player(asked.player));
    if asked.number == 0 {
        return say(text, telling, &[line], &[player, Text(" is absent.")]);
    }
    say(text, telling, &[line], &[Text("One of them is absent.")])
}

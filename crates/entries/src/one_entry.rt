// The cells that one entry puts, or why it is refused.
ghost use Rattle.std.specs.Prelude.{◌≡◌, ◌<◌, IfOk};
ghost use Rattle.entries.specs.Outcomes.{Gives};
ghost use Rattle.entries.specs.Steps.{AreOfRound};
ghost use Rattle.entries.specs.Entered.{are_known, are_named_once, cells_by, cell_by_colour, game_cells, meeting_cells};
ghost use Rattle.entries.specs.Entered.{named_alone, named_cell, second_of};
ghost use Rattle.entries.specs.Games.{cell_of_game, cell_with, cell_without, other_game, other_outcome, other_side};

use crate::entry::{Event, GameOf, GameResult, HandEntry, NewCell, NewCells, Slot};
use crate::fault::EntryFault;
use crate::new_cells::{cell_now, is_named};
use trf16_report::{Bye, Cell, Colour, GameOutcome, Report};

fn other_outcome(got: GameOutcome) -> GameOutcome
    ensures { result ≡ other_outcome got }
{
    match got {
        GameOutcome::Win => GameOutcome::Loss,
        GameOutcome::Draw => GameOutcome::Draw,
        GameOutcome::Loss => GameOutcome::Win,
    }
}

// The result as the other player has it.
fn other_side(score: Option<GameResult>) -> Option<GameResult>
    ensures { result ≡ other_side score }
{
    match score {
        None => None,
        Some(GameResult::Played { rated, got }) => Some(GameResult::Played {
            rated,
            got: other_outcome(got),
        }),
        Some(GameResult::Forfeited { won }) => Some(GameResult::Forfeited { won: !won }),
    }
}

// A game as the other player has it.
fn other_game(game: GameOf) -> GameOf
    ensures { result ≡ other_game game }
{
    GameOf {
        slot: Slot {
            player: game.opponent,
            round: game.slot.round,
        },
        opponent: game.slot.player,
        score: other_side(game.score),
    }
}

// The cell of a game of a player who has a colour.
fn cell_with(opponent: u16, score: Option<GameResult>, colour: Colour) -> Cell
    ensures { result ≡ cell_with opponent score colour }
{
    match score {
        None => Cell::Unfinished { opponent, colour },
        Some(GameResult::Played { rated, got }) => Cell::Game {
            opponent,
            colour,
            rated,
            got,
        },
        Some(GameResult::Forfeited { won }) => Cell::Forfeit {
            opponent,
            colour: Some(colour),
            won,
        },
    }
}

// The cell of a game of a player who has no colour: it must not have been played.
fn cell_without(opponent: u16, score: Option<GameResult>) -> Option<Cell>
    ensures { result ≡ cell_without opponent score }
{
    match score {
        Some(GameResult::Forfeited { won }) => Some(Cell::Forfeit {
            opponent,
            colour: None,
            won,
        }),
        _ => None,
    }
}

// The cell of a game of a player who has a colour or none.
fn cell_of_game(opponent: u16, score: Option<GameResult>, colour: Option<Colour>) -> Option<Cell>
    ensures { result ≡ cell_of_game opponent score colour }
{
    match colour {
        None => cell_without(opponent, score),
        Some(colour) => Some(cell_with(opponent, score, colour)),
    }
}

/// Whoever an entry names is a player of the report, the first one first.
#[tactic(auto, unfolding(crate::specs::Entered::are_known))]
pub(crate) fn are_known(report: &Report<'_>, entry: HandEntry) -> Result<(), EntryFault>
    ensures { Gives (λ x. x) result (are_known report.now entry) }
{
    if !report.knows(entry.player) {
        return Err(EntryFault::NotKnown {
            player: entry.player,
        });
    }
    match second_of(entry.event) {
        Some(black) if !report.knows(black) => Err(EntryFault::NotKnown { player: black }),
        _ => Ok(()),
    }
}

// The second player whom an entry names: the one with Black.
fn second_of(event: Event) -> Option<u16>
    ensures { result ≡ second_of event }
{
    match event {
        Event::Meets { black, .. } => Some(black),
        _ => None,
    }
}

/// Whoever an entry names is named for the first time in the round, the first one first.
#[tactic(auto, unfolding(crate::specs::Entered::are_named_once))]
pub(crate) fn are_named_once(
    so_far: &[NewCell],
    round: u8,
    entry: HandEntry,
) -> Result<(), EntryFault>
    ensures { Gives (λ x. x) result (are_named_once so_far.now round entry) }
{
    let player = entry.player;
    if is_named(so_far, Slot { player, round }) {
        return Err(EntryFault::NamedTwice { player });
    }
    match second_of(entry.event) {
        Some(black)
            if black == player
                || is_named(
                    so_far,
                    Slot {
                        player: black,
                        round,
                    },
                ) => { Err(EntryFault::NamedTwice { player: black }) }
        _ => Ok(()),
    }
}

// The cell of a game of a player who has the colour that another cell says.
#[tactic(auto, unfolding(crate::specs::Entered::cell_by_colour))]
fn cell_by_colour(game: GameOf, cell: Cell) -> Result<Cell, EntryFault>
    ensures { Gives (λ x. x) result (cell_by_colour game cell) }
{
    match cell_of_game(game.opponent, game.score, cell.colour()) {
        Some(cell) => Ok(cell),
        None => Err(EntryFault::NoColour {
            player: game.slot.player,
            round: game.slot.round,
        }),
    }
}

fn named_cell(slot: Slot, cell: Cell) -> NewCell
    ensures { result ≡ named_cell slot cell }
{
    NewCell {
        slot,
        cell,
        named: true,
    }
}

// The cell of the one player whom an entry names, and no other cell.
fn named_alone(slot: Slot, cell: Cell) -> NewCells
    ensures { result ≡ named_alone slot cell }
{
    NewCells {
        first: named_cell(slot, cell),
        second: None,
    }
}

// The cells of a game whose result is entered, or taken away.
#[tactic(auto, unfolding(crate::specs::Entered::game_cells))]
fn game_cells(report: &Report<'_>, so_far: &[NewCell], game: GameOf) -> Result<NewCells, EntryFault>
    requires { 0 < game.slot.round }
    ensures given { Gives (λ x. x) result (game_cells report.now so_far.now game) }
    ensures round { IfOk result (AreOfRound game.slot.round) }
{
    let other = other_game(game);
    let mine = cell_by_colour(game, cell_now(report, so_far, game.slot))?;
    if is_named(so_far, other.slot) {
        return Ok(named_alone(game.slot, mine));
    }
    let theirs = cell_by_colour(other, cell_now(report, so_far, other.slot))?;
    Ok(NewCells {
        first: named_cell(game.slot, mine),
        second: Some(NewCell {
            slot: other.slot,
            cell: theirs,
            named: false,
        }),
    })
}

// Two play each other, the first with White.
fn meeting_cells(game: GameOf) -> NewCells
    ensures { result ≡ meeting_cells game }
{
    let other = other_game(game);
    NewCells {
        first: named_cell(
            game.slot,
            cell_with(game.opponent, game.score, Colour::White),
        ),
        second: Some(named_cell(
            other.slot,
            cell_with(other.opponent, other.score, Colour::Black),
        )),
    }
}

/// The cells that an entry puts into a slot and perhaps that of an opponent.
pub(crate) fn cells_by(
    report: &Report<'_>,
    so_far: &[NewCell],
    slot: Slot,
    event: Event,
) -> Result<NewCells, EntryFault>
    requires { 0 < slot.round }
    ensures given { Gives (λ x. x) result (cells_by report.now so_far.now slot event) }
    ensures round { IfOk result (AreOfRound slot.round) }
{
    let now = cell_now(report, so_far, slot).opponent();
    match (event, now) {
        (Event::Scores(score), Some(opponent)) => {
            let score = Some(score);
            game_cells(
                report,
                so_far,
                GameOf {
                    slot,
                    opponent,
                    score,
                },
            )
        }
        (Event::Scores(_), None) => Err(EntryFault::NoGame {
            player: slot.player,
            round: slot.round,
        }),
        (Event::NoResult, Some(opponent)) => {
            let score = None;
            game_cells(
                report,
                so_far,
                GameOf {
                    slot,
                    opponent,
                    score,
                },
            )
        }
        (Event::NoResult, None) => Ok(named_alone(slot, Cell::Blank)),
        (Event::Asked(_), Some(_)) => Err(EntryFault::HasGame {
            player: slot.player,
            round: slot.round,
        }),
        (Event::Asked(bye), None) => Ok(named_alone(slot, Cell::Bye(bye))),
        (Event::Meets { black, score }, _) => {
            let opponent = black;
            Ok(meeting_cells(GameOf {
                slot,
                opponent,
                score,
            }))
        }
        (Event::Allocated, _) => Ok(named_alone(slot, Cell::Bye(Bye::Allocated))),
    }
}

// The rules on two players who name each other in a round, and on the sum of a player's points.
ghost use Rattle.std.specs.Prelude.{◌≡◌, ◌==◌, ◌<◌, ◌≤◌, false, length};
ghost use Rattle.std.specs.Option.{option_map_or};
ghost use Rattle.trf16_report.specs.Outcomes.{Gives};
ghost use Rattle.trf16_report.specs.Sheet.{entry_of, opponent_in_cell, rounds_played};
ghost use Rattle.trf16_report.specs.Summed.{all_cells_fit};
ghost use Rattle.trf16_report.specs.Answering.{are_opposite, is_forfeit, are_of_one_class, pair_fits, cell_fits, cells_fit};
ghost use Rattle.trf16_report.specs.Answering.{points_fit, player_fits, players_fit};
ghost use Rattle.trf16_report.specs.declared.limits.TheConstants.{MOST_ROUNDS};

use trf16_report::{Cell, Colour, Fault, Player, Report, front};

// One had white and the other black.
fn are_opposite(mine: Option<Colour>, theirs: Option<Colour>) -> bool
    ensures { result ≡ are_opposite mine theirs }
{
    match (mine, theirs) {
        (Some(Colour::White), Some(Colour::Black)) | (Some(Colour::Black), Some(Colour::White)) =>
            true,
        _ => false,
    }
}

fn is_forfeit(cell: &Cell) -> bool
    ensures { result ≡ is_forfeit cell.now }
{
    match cell {
        Cell::Forfeit { .. } => true,
        _ => false,
    }
}

// Rated games, games that are not rated, forfeits, or games without a result.
fn are_of_one_class(mine: &Cell, theirs: &Cell) -> bool
    ensures { result ≡ are_of_one_class mine.now theirs.now }
{
    match (mine, theirs) {
        (Cell::Game { rated, .. }, Cell::Game { rated: other, .. }) => *rated == *other,
        (Cell::Forfeit { .. }, Cell::Forfeit { .. }) => true,
        (Cell::Unfinished { .. }, Cell::Unfinished { .. }) => true,
        _ => false,
    }
}

// The cells of two who meet answer each other.
#[tactic(auto, unfolding(trf16_report::specs::Answering::pair_fits))]
fn pair_fits(player: u16, round: usize, mine: &Cell, theirs: &Cell) -> Result<(), Fault>
    ensures { Gives (λ x. x) result (pair_fits player round mine.now theirs.now) }
{
    let opposite = are_opposite(mine.colour(), theirs.colour());
    let forfeits = is_forfeit(mine) && is_forfeit(theirs);
    if !(opposite || forfeits) {
        return Err(Fault::Colours { player, round });
    }
    if !are_of_one_class(mine, theirs) || 2 < mine.game_points() + theirs.game_points() {
        return Err(Fault::Results { player, round });
    }
    Ok(())
}

// A cell of a player in a round names another player of the report, who names the first one too.
#[tactic(auto, unfolding(trf16_report::specs::Answering::cell_fits))]
fn cell_fits(report: &Report<'_>, player: u16, round: u8, cell: &Cell) -> Result<(), Fault>
    requires { 0 < round }
    ensures { Gives (λ x. x) result (cell_fits report.now player round cell.now) }
{
    let round_number = usize::from(round);
    let Some(opponent) = cell.opponent() else {
        return Ok(());
    };
    if !report.knows(opponent) {
        return Err(Fault::NoSuchOpponent {
            player,
            round: round_number,
        });
    }
    if opponent == player {
        return Err(Fault::SelfOpponent {
            player,
            round: round_number,
        });
    }
    let theirs = report.cell(opponent, round);
    if !names(&theirs, player) {
        return Err(Fault::NotMutual {
            player,
            round: round_number,
        });
    }
    pair_fits(player, round_number, cell, &theirs)
}

fn names(cell: &Cell, player: u16) -> bool
    ensures { result ≡ option_map_or (λ o. o == player) (opponent_in_cell cell.now) false }
{
    match cell.opponent() {
        Some(opponent) => opponent == player,
        None => false,
    }
}

// All cells of a player.
fn cells_fit(report: &Report<'_>, player: u16, cells: &[Cell]) -> Result<(), Fault>
    requires { length cells.now ≤ MOST_ROUNDS }
    ensures { Gives (λ x. x) result (cells_fit report.now player 1 cells.now) }
{
    for (i, cell) in cells.iter().enumerate() {
        cell_fits(report, player, i as u8 + 1, cell)?;
    }
    Ok(())
}

// The points field of a player, of the rounds that were played.
#[tactic(auto, unfolding(trf16_report::specs::Answering::points_fit))]
fn points_fit(report: &Report<'_>, player: &Player<'_>, rounds: u8) -> Result<(), Fault>
    requires { rounds ≡ rounds_played report.now }
    ensures { Gives (λ x. x) result (points_fit report.now (entry_of player.now)) }
{
    let Some(points) = player.points else {
        return Ok(());
    };
    if points == report.points_over(front(&player.cells, rounds))
        || points == report.points_over(&player.cells)
    {
        return Ok(());
    }
    if points < 200 && report.has_other_points() {
        return Ok(());
    }
    Err(Fault::Points {
        player: player.start,
    })
}

// The rounds of a player, and then their points.
#[tactic(auto, unfolding(trf16_report::specs::Answering::player_fits))]
fn player_fits(report: &Report<'_>, player: &Player<'_>, rounds: u8) -> Result<(), Fault>
    requires { rounds ≡ rounds_played report.now }
    ensures { Gives (λ x. x) result (player_fits report.now (entry_of player.now)) }
{
    cells_fit(report, player.start, &player.cells)?;
    points_fit(report, player, rounds)
}

/// All players, in the order of their lines.
pub(crate) fn players_fit(report: &Report<'_>) -> Result<(), Fault>
    ensures { Gives (λ x. x) result (players_fit report.now report.now.players) }
{
    let rounds = report.rounds_played();
    for player in report.players() {
        player_fits(report, player, rounds)?;
    }
    Ok(())
}

/// Looks at the rounds of all players, whatever their points fields say: whoever names an opponent in a round is
/// answered by that opponent.
///
/// # Errors
/// The first cell that is not answered, by the order of the players' lines and then by round.
pub fn all_cells_fit(report: &Report<'_>) -> Result<(), Fault>
    ensures { Gives (λ x. x) result (all_cells_fit report.now report.now.players) }
{
    for player in report.players() {
        cells_fit(report, player.start, &player.cells)?;
    }
    Ok(())
}

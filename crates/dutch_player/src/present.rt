// The present players of a report, by rank.
ghost use Rattle.std.specs.Prelude.{◌≡◌, ◌≤◌, map, IfOk, vec_len};
ghost use Rattle.trf16_report.specs.Prelude.{entry_of, rounds_played};
ghost use Rattle.dutch_player.specs.SeatOf.{facts_in};
ghost use Rattle.dutch_player.specs.Facts.{seat_of, seats_of, seats_by_rank};
ghost use Rattle.trf16_report.specs.declared.limits.TheConstants.{MOST_PLAYERS};

use crate::history::{colours_played, float_in, may_bye, opponents};
use crate::preference::preference;
use crate::ranking::seats_by_rank;
use crate::seat::Seat;
use std::alloc::{AllocError, Global};
use trf16_report::{Player, Report, front};

// What the rounds that were paired make of a player.
#[tactic(auto, unfolding(crate::specs::Facts::seat_of))]
fn seat_of(
    alloc: Global,
    report: &Report<'_>,
    player: &Player<'_>,
    rounds: u8,
) -> Result<Seat, AllocError>
    requires { rounds ≡ rounds_played report.now }
    ensures { IfOk result (λ seat. facts_in seat ≡ seat_of report.now (entry_of player.now)) }
{
    let cells = front(&player.cells, rounds);
    let played = colours_played(alloc, cells)?;
    let opponents = opponents(alloc, cells)?;
    Ok(Seat {
        start: player.start,
        score: report.points_over(cells),
        preference: preference(&played),
        played,
        opponents,
        apart: report.apart_from(alloc, player.start)?,
        latest: float_in(report, cells, rounds),
        earlier: float_in(report, cells, rounds.saturating_sub(1)),
        may_bye: may_bye(cells),
    })
}

// The seats of the present players, in the order of their lines.
fn seats_in_lines(alloc: Global, report: &Report<'_>) -> Result<Vec<Seat>, AllocError>
    ensures value { IfOk result (λ seats. map facts_in seats.items ≡ seats_of report.now report.now.players) }
    ensures few { IfOk result (λ seats. vec_len seats ≤ MOST_PLAYERS) }
{
    let rounds = report.rounds_played();
    let mut seats = Vec::new(alloc);
    for player in report.players() {
        if !report.absent(player.start) {
            let seat = seat_of(alloc, report, player, rounds)?;
            seats.push(seat)?;
        }
    }
    Ok(seats)
}

/// The seats of the present players, by rank.
pub(crate) fn seats_of(alloc: Global, report: &Report<'_>) -> Result<Vec<Seat>, AllocError>
    ensures value { IfOk result (λ seats. map facts_in seats.items
        ≡ seats_by_rank (seats_of report.now report.now.players)) }
    ensures few { IfOk result (λ seats. vec_len seats ≤ MOST_PLAYERS) }
{
    let seats = seats_in_lines(alloc, report)?;
    seats_by_rank(alloc, seats)
}

// Which rounds a player's points field counts.
ghost use Rattle.std.specs.Prelude.{◌≡◌, false};
ghost use Rattle.std.specs.Option.{option_map_or};
ghost use Rattle.trf16_report.specs.Prelude.{player_of};
ghost use Rattle.report_notes.specs.Games.{counts_to_come};

use trf16_report::{Report, front};

/// Such a points field is accepted, but may not be meant.
pub(crate) fn counts_to_come(report: &Report<'_>, start: u16) -> bool
    ensures { result ≡ option_map_or (counts_to_come report.now) (player_of report.now.players start) false }
{
    let Some(player) = report.player(start) else {
        return false;
    };
    let Some(points) = player.points else {
        return false;
    };
    let paired = front(&player.cells, report.rounds_played());
    points == report.points_over(&player.cells) && points != report.points_over(paired)
}

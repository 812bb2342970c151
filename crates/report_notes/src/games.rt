// The games of a player: that of the last round.
ghost use Rattle.std.specs.Prelude.{◌≡◌};
ghost use Rattle.report_notes.specs.Games.{played_last};

use trf16_report::{Cell, Report};

/// A forfeit is not played, and before the first round nobody has played.
pub(crate) fn played_last(report: &Report<'_>, start: u16) -> bool
    ensures { result ≡ played_last report.now start }
{
    let last = report.rounds_played();
    if last == 0 {
        return false;
    }
    match report.cell(start, last) {
        Cell::Game { .. } => true,
        _ => false,
    }
}

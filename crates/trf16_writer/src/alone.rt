// The players of a report alone, with their new start ranks.
ghost use Rattle.std.specs.Prelude.{◌≡◌, ◌≤◌, nat_eq, false, length, IfOk};
ghost use Rattle.std.specs.List.{IsDistinct};
ghost use Rattle.trf16_report.specs.Prelude.{entry_of, known, new_start, renumbered, starts_of, with_player};
ghost use Rattle.trf16_report.specs.declared.limits.TheConstants.{MOST_PLAYERS};
ghost use Rattle.trf16_writer.specs.Alone.{players_alone};
ghost use Rattle.trf16_writer.specs.StartTable.{new_in};

use crate::new_starts::NewStarts;
use crate::renumbered_players::renumbered_player;
use std::alloc::{AllocError, Global};
use trf16_report::{Draft, Notes, Player, Report};

// Puts a player behind those of a draft.
fn enter<'a>(draft: &mut Draft<'a>, player: Player<'a>) -> Result<(), AllocError>
    requires { known draft.old player.start ≡ false }
    ensures { IfOk result (λ _. draft.new ≡ with_player draft.old (entry_of player.entry)) }
{
    match draft.enter(player) {
        Ok(()) => Ok(()),
        Err(_) => Err(AllocError),
    }
}

// A draft with all players, in the order of their lines, and without a line.
fn players_alone<'a>(
    alloc: Global,
    report: &Report<'a>,
    new: &NewStarts,
) -> Result<Draft<'a>, AllocError>
    requires new { new_in new.now ≡ new_start report.now }
    requires own { IsDistinct nat_eq (starts_of report.now.players) }
    ensures alone { IfOk result (λ draft. draft ≡ players_alone (renumbered report.now)) }
    ensures few { IfOk result (λ draft. length draft.players ≤ MOST_PLAYERS) }
{
    let mut draft = Draft::new(alloc, &[], report.is_utf8(), report.bye());
    for player in report.players() {
        let renumbered = renumbered_player(alloc, player, new)?;
        enter(&mut draft, renumbered)?;
    }
    Ok(draft)
}

/// The players of a report with their new start ranks, without its other lines: what depends on the players alone, as
/// standings do, is that of the report `renumbered`.
///
/// # Errors
/// Memory was refused.
pub fn renumbered_players_alone<'a>(
    alloc: Global,
    report: &Report<'a>,
) -> Result<Report<'a>, AllocError>
    ensures { IfOk result (λ alone. alone ≡ players_alone (renumbered report.now)) }
{
    // no two of the players have the same start rank
    let _ = report.count();
    let new = NewStarts::of(alloc, report)?;
    let draft = players_alone(alloc, report, &new)?;
    let notes = Notes::new(alloc)?;
    let apart = draft.apart(alloc, &notes)?;
    Ok(draft.into_report(notes, apart))
}

// Why a further round cannot be paired from a report.
ghost use Rattle.std.specs.Prelude.{◌≡◌, ◌≢◌, IfErr};
ghost use Rattle.dutch_player.specs.declared.fault.FieldFault.TheVariants.{OutOfMemory};
ghost use Rattle.dutch_player.specs.Facts.{total_for};

use crate::fault::FieldFault;
use trf16_report::{LineKind, Report};

/// The total of rounds, if a further round can be paired.
#[tactic(auto, unfolding(crate::specs::Facts::total_for))]
pub(crate) fn total_for(report: &Report<'_>, asked: Option<u8>) -> Result<u8, FieldFault>
    ensures value { result ≡ total_for report.now asked }
    ensures no_memory { IfErr result (λ fault. fault ≢ OutOfMemory) }
{
    if let Some((player, round)) = report.unfinished() {
        return Err(FieldFault::Unfinished { player, round });
    }
    if let Some(line) = report.unsupported(&[LineKind::Xxa, LineKind::Xxs, LineKind::Rank]) {
        return Err(FieldFault::Unsupported { line });
    }
    let Some(total) = asked.or(report.total_rounds()) else {
        return Err(FieldFault::RoundsUnknown);
    };
    if total < report.rounds_played() + 1 {
        return Err(FieldFault::RoundsOver);
    }
    Ok(total)
}

// The reports that have no standings.
ghost use Rattle.std.specs.Prelude.{◌≡◌, ◌≢◌, IfErr};
ghost use Rattle.tables.specs.declared.fault.TieFault.TheVariants.{OutOfMemory};
ghost use Rattle.tables.specs.Standings.{has_standings};

use crate::fault::TieFault;
use trf16_report::{LineKind, Report};

/// Refuses a report that has no standings: for the first game without a result, by the players' lines and then by
/// round, or else for the first line `XXS`, which gives games other points.
#[tactic(auto, unfolding(crate::specs::Standings::has_standings))]
pub fn has_standings(report: &Report<'_>) -> Result<(), TieFault>
    ensures value { result ≡ has_standings report.now }
    ensures no_memory { IfErr result (λ fault. fault ≢ OutOfMemory) }
{
    if let Some((player, round)) = report.unfinished() {
        return Err(TieFault::Unfinished { player, round });
    }
    if let Some(line) = report.unsupported(&[LineKind::Xxs]) {
        return Err(TieFault::Unsupported { line });
    }
    Ok(())
}

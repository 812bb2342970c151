// Laws of every field, which need what a `Field` keeps. Those of the definitions alone stand in `report_laws`.
ghost use Rattle.std.specs.Prelude.{◌≡◌, ◌<◌, ◌≤◌, ℕ, false, length};
ghost use Rattle.dutch_player.specs.Facts.{seat_at, goes_before};
ghost use Rattle.trf16_report.specs.declared.limits.TheConstants.{MOST_PLAYERS};

use crate::field::Field;

/// Of two seats the one in front has no smaller score, and the other does not go before it (A.2).
#[tactic(auto, using(crate::proofs::RankLemmas::goes_behind, crate::proofs::RankLemmas::scores_fall))]
pub fn seats_are_ranked(field: &Field, a: u16, b: u16)
    requires order { a < b }
    requires inside { b < length field.now.seats }
    ensures scores { (seat_at field.now b).score ≤ (seat_at field.now a).score }
    ensures ranks { goes_before (seat_at field.now b) (seat_at field.now a) ≡ false }
{
    let _ = &field.seats;
}

/// Scores do not ascend along the seats of a field, of which there are at most `MOST_PLAYERS` of `trf16_report` (A.2).
#[tactic(auto, using(crate::proofs::RankLemmas::scores_fall))]
pub fn scores_do_not_ascend(field: &Field)
    ensures scores { (a b : ℕ) → a < b → b < length field.now.seats
        → (seat_at field.now b).score ≤ (seat_at field.now a).score }
    ensures few { length field.now.seats ≤ MOST_PLAYERS }
{
    let _ = &field.seats;
}

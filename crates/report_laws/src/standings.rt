// Laws of all standings.
ghost use Rattle.std.specs.Prelude.{◌≡◌, ◌<◌, false, true, is_some, length, List};
ghost use Rattle.trf16_report.specs.Prelude.{Sheet};
ghost use Rattle.tables.specs.declared.key.Key.{Key};
ghost use Rattle.tables.specs.declared.key.Key.TheVariants.{Direct};
ghost use Rattle.tables.specs.Keys.{RowFacts, is_level, value_of};
ghost use Rattle.tables.specs.Standings.{row_at, row_goes_before};
ghost use Rattle.report_laws.specs.Standings.{HasEachOnce, HasEachKey};

use tables::Standings;

/// The rows are those of all players, each once.
pub fn each_player_has_one_row()
    ensures { (sheet : Sheet) (keys : List Key) → HasEachOnce sheet keys }
{}

/// Each row has a value for each key.
pub fn each_row_has_each_key()
    ensures { (sheet : Sheet) (keys : List Key) → HasEachKey sheet keys }
{}

/// No row goes before one that stands in front of it.
#[tactic(auto, using(crate::proofs::StandingOrder::goes_behind))]
pub fn rows_are_ranked(standings: &Standings, a: usize, b: usize)
    requires order { a < b }
    requires inside { b < length standings.now }
    ensures { row_goes_before (row_at standings.now b) (row_at standings.now a) ≡ false }
{
    let _ = standings.rows();
}

/// Direct encounter tells something of all who are level with each other, or of none of them.
pub fn direct_values_come_together()
    ensures { (sheet : Sheet) (rows : List RowFacts) (a b : RowFacts) → is_level a b ≡ true
        → is_some (value_of sheet rows Direct a) ≡ is_some (value_of sheet rows Direct b) }
{}

// Laws of the report with the players' places.
ghost use Rattle.std.specs.Prelude.{◌≡◌, List};
ghost use Rattle.trf16_report.specs.Prelude.{Sheet};
ghost use Rattle.tables.specs.declared.key.Key.{Key};
ghost use Rattle.tables.specs.Standings.{standings_of};
ghost use Rattle.ranks.specs.Ranks.{with_ranks};

/// The places in the rank columns change no standings, by whatever keys; so `standings` puts each player to the place
/// that stands there.
pub fn ranks_change_no_standings()
    ensures { (sheet : Sheet) (keys other : List Key) → standings_of (with_ranks keys sheet) other ≡ standings_of sheet other }
{}

/// A report that is ranked twice by the same keys is the report that is ranked once.
pub fn ranking_twice_is_ranking_once()
    ensures { (sheet : Sheet) (keys : List Key) → with_ranks keys (with_ranks keys sheet) ≡ with_ranks keys sheet }
{}

// Which players are named together by lines `XXP`.
ghost use Rattle.std.specs.Prelude.{◌≤◌};
ghost use Rattle.trf16_report.specs.declared.limits.TheConstants.{MOST_PLAYERS};

/// A mark for each two players, by their places in the order of the lines; no mark at all if no line names two.
#[derive(Drop)]
pub struct Apart {
    // how many players there are
    pub(crate) count: usize,
    // the row of one player after the other, of a place for each player
    pub(crate) marks: Vec<bool>,
    ghost few: { count ≤ MOST_PLAYERS },
}

// The keys that break ties.

/// What tells players of one score apart.
#[derive(Clone, Copy)]
pub enum Key {
    /// Direct encounter: the half points of the games among those who are level so far, if all of them have met.
    Direct,
    /// Buchholz: the sum of the opponents' scores, in half points.
    Buchholz,
    /// Sonneborn-Berger: the sum of the opponents' scores, each times what the player got, in quarters of a point.
    SonnebornBerger,
}

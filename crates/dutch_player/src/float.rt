// Floats: who met somebody of another score (C.04.3 A.4).

/// A float of a player in a round.
#[derive(Clone, Copy, PartialEq)]
pub enum Float {
    /// The player met an opponent with a higher score.
    Up,
    /// The player met an opponent with a lower score, or did not play.
    Down,
}

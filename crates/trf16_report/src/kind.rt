// The kinds of lines that are known and not supported by every call.

/// A kind of line that changes what a report means.
#[derive(Clone, Copy)]
pub enum LineKind {
    /// `XXA`: accelerated pairings.
    Xxa,
    /// `XXS`: other points for games.
    Xxs,
    /// `XXC` with the word `rank`: the columns 86 to 89 as the ranking.
    Rank,
}

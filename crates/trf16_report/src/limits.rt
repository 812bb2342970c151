// The limits of a report, each of them once.

/// The most players.
pub const MOST_PLAYERS: usize = 1024;

/// The most rounds.
pub const MOST_ROUNDS: usize = 64;

/// The most bytes of a text.
pub const MOST_BYTES: usize = 1_048_576;

/// The last column of a player's line that may be other than blank: it ends the last round, and each round has ten
/// columns.
pub const LAST_COLUMN: usize = 91 + 10 * MOST_ROUNDS;

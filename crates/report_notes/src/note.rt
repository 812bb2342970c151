// What looks like a mistake.

use crate::doubles::Identity;

/// What of a round of a player looks like a mistake.
#[derive(Clone, Copy)]
pub enum RoundNote {
    /// The game has no result.
    NoResult,
    /// The game is against a player whom a game of an earlier round was against too. Forfeits are no games.
    MeetsAgain { player: u16 },
    /// The pairing-allocated bye, of a player who has had it, a bye of a full point, or a forfeit win before (C.2).
    AnotherBye,
    /// The game was played, and gives half a point to both players together.
    HalfPoint,
    /// The game was played, and gives nothing to both players together.
    NoPoint,
    /// Nothing is said of the last round that was paired, though something of an earlier one, and no line `XXZ` names
    /// the player.
    NoCell,
}

/// One thing of an accepted report that looks like a mistake. Lines, columns and rounds count from 1.
#[derive(Clone, Copy)]
pub enum Note<'a> {
    /// A word of a line `XXZ` or `XXP` is the start rank of no player.
    NoPlayer {
        line: usize,
        number: u16,
    },
    /// A word of a line `XXZ` is the start rank of a player who played a game in the last round that was paired.
    PlayedLast {
        line: usize,
        number: u16,
    },
    /// A line is of a kind that is neither read nor one of TRF16's. The kind is what stands in its first three columns,
    /// or in the first three behind blanks in front.
    UnknownKind {
        line: usize,
        kind: &'a [u8],
    },
    /// Blanks stand in front of a kind that is known, so the line is carried and not read.
    BlankBefore {
        line: usize,
        kind: &'a [u8],
    },
    /// A line `XXP` names one player alone, so it keeps nobody apart.
    OnePlayer {
        line: usize,
    },
    /// A line `XXR` names at least as many rounds as there are players: more than a player has opponents.
    ManyRounds {
        line: usize,
    },
    /// A line `062` names another number of players than there are.
    OtherCount {
        line: usize,
        said: u16,
        players: usize,
    },
    /// Column 14 of a player's line, between title and name, is not blank.
    BeforeName {
        line: usize,
    },
    /// A player in an earlier line has the same name, or the same FIDE number. This is the first of them.
    SameAs {
        line: usize,
        what: Identity,
        player: u16,
    },
    /// Column 48 of a player's line, between name and rating, is not blank.
    LongName {
        line: usize,
    },
    /// The rating of a player without any cell, while some round was paired, is above that of a player with a smaller
    /// start rank, of whom this is the first by start rank.
    RatingAbove {
        line: usize,
        rating: u16,
        player: u16,
    },
    /// The points field of a player's line is the sum over all rounds, and not over those that were paired.
    EarlyPoints {
        line: usize,
    },
    /// A round of the player.
    InRound {
        line: usize,
        round: u8,
        what: RoundNote,
    },
    /// Something stands behind the columns of the round that comes next, of which this is the last. It says nothing of
    /// that round.
    BehindColumn {
        line: usize,
        column: usize,
    },
    /// Nobody has an opponent in a round that is not behind the last one that was paired.
    NoGame {
        round: u8,
    },
    /// Several players have the pairing-allocated bye in a round.
    Byes {
        round: u8,
        players: usize,
    },
    /// Every player is absent from the round that comes next, which can be played: it is not behind the last one of a
    /// line `XXR`, nor of a report.
    NobodyPresent {
        round: u8,
    },
    /// No round is paired, and the rating of a player, the first by line, is above that of another with a smaller start
    /// rank, of whom this is the first by start rank.
    StartRanks {
        rating: u16,
        player: u16,
        other: u16,
    },
    /// No line `XXR` says how many rounds there are.
    RoundsUnknown,
}

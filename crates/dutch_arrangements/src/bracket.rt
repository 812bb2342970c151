// A bracket and the shape of its arrangements, specified by the list of its players' scores.
ghost use Rattle.std.specs.Prelude.{◌≡◌, ◌≤◌, length};
ghost use Rattle.std.specs.List.Sorted.{IsStrictlyIncreasing};
ghost use Rattle.dutch_arrangements.specs.Arrangements.{Fits, IsBracket, players_of, residents_of};
ghost use Rattle.dutch_arrangements.specs.Cursors.{moved_down_of};
ghost use Rattle.dutch_sequence.specs.declared.numbers.TheConstants.{LIMIT};

use arrayvec::ArrayVec;
use dutch_sequence::numbers::put_numbered;
use dutch_sequence::{Numbers, numbered_from};
use std::marker::Model;

/// How many pairs an arrangement makes, and how many moved-down players are in them (C.04.3 C.5, B.1).
#[derive(Clone, Copy, PartialEq, Eq)]
pub struct Shape {
    /// All pairs.
    pub pairs: usize,
    /// Moved-down players who are paired.
    pub mdps: usize,
}

/// A bracket (C.04.3 A.3): its players by rank, the moved-down players before the residents. A player's number in the
/// bracket is their place, from 1.
#[derive(Drop)]
pub struct Bracket {
    // in half points, by number
    scores: Numbers,
    mdps: usize,
    last: bool,
}

impl Model for Bracket {
    ghost use Rattle.dutch_arrangements.specs.Arrangements.{Frame, IsBracket};

    ghost Value = { Frame };

    ghost view = { λ b. record { scores = b.scores.items; mdps = b.mdps; last = b.last } };

    ghost invariant = { λ b. IsBracket b.scores.items b.mdps };
}

impl Bracket {
    /// A bracket of players with these scores in half points, at most `LIMIT`, which do not ascend. The first `mdps` of
    /// them are moved down, so their scores are above those of the residents. `last` says that it may leave over at
    /// most one player, as the last bracket of a round and a collapsed one.
    pub fn new(scores: &[u16], mdps: usize, last: bool) -> Bracket
        requires { IsBracket scores.now mdps }
        ensures { result ≡ record { scores = scores.now; mdps = mdps; last = last } }
    {
        let mut own = ArrayVec::new();
        for score in scores {
            own.push(*score);
        }
        Bracket {
            scores: own,
            mdps,
            last,
        }
    }

    /// How many players there are: at most `LIMIT`.
    pub fn len(&self) -> usize
        ensures { result ≡ length self.now.scores }
    {
        self.scores.len()
    }

    /// How many of them are moved down.
    pub fn mdps(&self) -> usize
        ensures { result ≡ self.now.mdps }
    {
        self.mdps
    }

    /// The numbers of all players, by rank.
    pub fn players(&self) -> Numbers
        ensures { result.items ≡ players_of self.now }
    {
        numbered_from(1, self.scores.len())
    }

    /// Yes if at most one player may be left over, as in the last bracket and in a collapsed one.
    pub fn is_last(&self) -> bool
        ensures { result ≡ self.now.last }
    {
        self.last
    }

    /// The scores by number, in half points.
    pub fn scores(&self) -> &[u16]
        ensures scores { result.now ≡ self.now.scores }
        ensures bracket { IsBracket self.now.scores self.now.mdps }
    {
        &self.scores
    }

    /// The numbers of the moved-down players.
    pub fn moved_down(&self) -> Numbers
        ensures items { result.items ≡ moved_down_of self.now }
        ensures few { self.now.mdps ≤ LIMIT }
    {
        numbered_from(1, self.mdps)
    }

    /// Fills a list with the numbers of the residents.
    pub fn put_residents(&self, residents: &mut Numbers)
        ensures items { residents.new.items ≡ residents_of self.now }
        ensures ascends { IsStrictlyIncreasing residents.new.items }
        ensures few { length self.now.scores ≤ LIMIT }
    {
        put_numbered(self.mdps + 1, self.scores.len() - self.mdps, residents);
    }

    /// The numbers of the residents.
    pub fn residents(&self) -> Numbers
        ensures items { result.items ≡ residents_of self.now }
        ensures ascends { IsStrictlyIncreasing result.items }
        ensures few { length self.now.scores ≤ LIMIT }
    {
        let mut residents = ArrayVec::new();
        self.put_residents(&mut residents);
        residents
    }
}

/// A shape that fits its bracket: the bracket has players enough for it.
#[derive(Clone, Copy)]
pub struct FittingShape<'a> {
    pub bracket: &'a Bracket,
    pub shape: Shape,
    ghost fits: { Fits bracket.now shape },
}

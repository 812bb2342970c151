// A candidate of a bracket, specified by its four lists of numbers.
ghost use Rattle.std.specs.Prelude.{◌≡◌};

use crate::arrangement::Arrangement;
use crate::cursor::Cursor;
use arrayvec::ArrayVec;
use dutch_sequence::Numbers;
use dutch_sequence::numbers::fill;
use std::marker::Model;

/// A legal arrangement of a bracket (C.04.3 B.2, B.3), and those whom it leaves over. Players are named by their
/// numbers in the bracket.
#[derive(Drop)]
pub struct Candidate {
    pub lists: Arrangement,
    pub down: Numbers,
}

impl Model for Candidate {
    ghost use Rattle.dutch_arrangements.specs.Candidates.{Candidate};

    ghost Value = { Candidate };

    ghost view = { λ c. record { lists = c.lists; down = c.down.items } };
}

impl Candidate {
    /// A place for a candidate, into which calls as `put_next` write one. No clause says what stands in it before.
    pub fn empty() -> Candidate {
        Candidate {
            lists: Arrangement::empty(),
            down: ArrayVec::new(),
        }
    }

    /// Becomes another candidate.
    pub fn fill(&mut self, other: &Candidate)
        ensures { self.new ≡ other.now }
    {
        self.lists.fill(&other.lists);
        fill(&mut self.down, &other.down);
    }

    /// The same candidate once more.
    pub fn copied(&self) -> Candidate
        ensures { result ≡ self.now }
    {
        let mut copy = Candidate::empty();
        copy.fill(self);
        copy
    }

    /// S1: the moved-down players who are paired, ascending.
    pub fn s1(&self) -> &[u16]
        ensures { result.now ≡ self.now.lists.s1 }
    {
        &self.lists.s1
    }

    /// S2: their opponents, place by place.
    pub fn s2(&self) -> &[u16]
        ensures { result.now ≡ self.now.lists.s2 }
    {
        &self.lists.s2
    }

    /// S1R: residents of the remainder, ascending.
    pub fn s1r(&self) -> &[u16]
        ensures { result.now ≡ self.now.lists.s1r }
    {
        &self.lists.s1r
    }

    /// S2R: their opponents, place by place.
    pub fn s2r(&self) -> &[u16]
        ensures { result.now ≡ self.now.lists.s2r }
    {
        &self.lists.s2r
    }

    /// The downfloaters, by rank.
    pub fn down(&self) -> &[u16]
        ensures { result.now ≡ self.now.down }
    {
        &self.down
    }

    /// Where a listing stands that has just handed it out.
    pub fn cursor(&self) -> Cursor
        ensures { result ≡ self.now.lists }
    {
        Cursor {
            lists: self.lists.copy(),
        }
    }
}

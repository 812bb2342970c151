// An arrangement of a bracket, specified by its four lists of numbers.
ghost use Rattle.std.specs.Prelude.{◌≡◌, Some, None, is_some, option_copied};

use crate::cursor::Cursor;
use arrayvec::ArrayVec;
use dutch_sequence::Numbers;
use dutch_sequence::numbers::refill;
use std::marker::Model;

/// An arrangement, legal or not (C.04.3 B.2). Players are named by their numbers in the bracket.
#[derive(Drop)]
pub struct Arrangement {
    pub s1: Numbers,
    pub s2: Numbers,
    pub s1r: Numbers,
    pub s2r: Numbers,
}

impl Model for Arrangement {
    ghost use Rattle.dutch_arrangements.specs.Arrangements.{Arrangement};

    ghost Value = { Arrangement };

    ghost view = { λ a. record { s1 = a.s1.items; s2 = a.s2.items; s1r = a.s1r.items; s2r = a.s2r.items } };
}

impl Arrangement {
    /// A place for an arrangement. No clause says what stands in it before one is written into it.
    pub fn empty() -> Arrangement {
        Arrangement {
            s1: ArrayVec::new(),
            s2: ArrayVec::new(),
            s1r: ArrayVec::new(),
            s2r: ArrayVec::new(),
        }
    }

    /// Becomes another arrangement.
    pub fn fill(&mut self, other: &Arrangement)
        ensures { self.new ≡ other.now }
    {
        refill(&mut self.s1, &other.s1);
        refill(&mut self.s2, &other.s2);
        refill(&mut self.s1r, &other.s1r);
        refill(&mut self.s2r, &other.s2r);
    }

    /// The same arrangement once more.
    pub fn copy(&self) -> Arrangement
        ensures { result ≡ self.now }
    {
        let mut copy = Arrangement::empty();
        copy.fill(self);
        copy
    }
}

/// A place that an arrangement may stand in.
#[derive(Drop)]
pub struct LastArrangement {
    is_held: bool,
    lists: Arrangement,
}

impl Model for LastArrangement {
    ghost use Rattle.std.specs.Prelude.{Option};
    ghost use Rattle.dutch_arrangements.specs.Arrangements.{Arrangement};
    ghost use Rattle.dutch_arrangements.specs.Listings.{only_if};

    ghost Value = { Option Arrangement };

    ghost view = { λ h. only_if h.is_held h.lists };
}

impl LastArrangement {
    /// An empty place.
    pub fn none() -> LastArrangement
        ensures { result ≡ None }
    {
        LastArrangement {
            is_held: false,
            lists: Arrangement::empty(),
        }
    }

    /// Empties it.
    pub fn clear(&mut self)
        ensures { self.new ≡ None }
    {
        self.is_held = false;
    }

    /// Puts an arrangement there, or empties the place if there is none.
    pub fn put(&mut self, lists: Option<&Arrangement>)
        ensures { self.new ≡ option_copied lists.entry }
    {
        match lists {
            Some(lists) => self.hold(lists),
            None => self.clear(),
        }
    }

    /// Yes if an arrangement stands there.
    pub fn is_held(&self) -> bool
        ensures { result ≡ is_some self.now }
    {
        self.is_held
    }

    /// What stands there.
    pub fn get(&self) -> Option<&Arrangement>
        ensures { option_copied result ≡ self.now }
    {
        if self.is_held {
            Some(&self.lists)
        } else {
            None
        }
    }

    /// Puts an arrangement there.
    pub fn hold(&mut self, lists: &Arrangement)
        ensures { self.new ≡ Some lists.now }
    {
        self.is_held = true;
        self.lists.fill(lists);
    }

    /// What stands there, as a cursor.
    pub fn cursor(&self) -> Option<Cursor>
        ensures { result ≡ self.now }
    {
        if self.is_held {
            Some(Cursor {
                lists: self.lists.copy(),
            })
        } else {
            None
        }
    }
}

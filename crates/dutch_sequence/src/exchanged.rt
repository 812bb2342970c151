// A class of exchanges, specified by its lists and numbers.
ghost use Rattle.std.specs.Prelude.{◌≡◌};

use std::marker::Model;

/// A class of S1R, of arrangements whose S1 and S2 are chosen (C.04.3 D.2): by how many players each differs from the
/// original one, and by how much the sum of its numbers is greater; some who are in it; and some who are not. Players
/// are named by their numbers in the bracket.
#[derive(Drop)]
pub struct Exchange<'a> {
    pub(crate) original: &'a [u16],
    pub(crate) others: &'a [u16],
    pub(crate) size: usize,
    pub(crate) difference: usize,
    pub(crate) held: &'a [u16],
    pub(crate) barred: &'a [u16],
}

impl<'a> Model for Exchange<'a> {
    ghost use Rattle.dutch_sequence.specs.Exchanged.{ExchangeClass};

    ghost Value = { ExchangeClass };

    ghost view = { λ e. record {
      original = e.original.now;
      others = e.others.now;
      size = e.size;
      difference = e.difference;
      held = e.held.now;
      barred = e.barred.now;
    } };
}

impl<'a> Exchange<'a> {
    /// The original S1R, which is the first of the remainder, ascending.
    pub fn original(&self) -> &[u16]
        ensures { result.now ≡ self.now.original }
    {
        self.original
    }

    /// The others of the remainder, ascending.
    pub fn others(&self) -> &[u16]
        ensures { result.now ≡ self.now.others }
    {
        self.others
    }

    /// How many of the others are in S1R.
    pub fn size(&self) -> usize
        ensures { result ≡ self.now.size }
    {
        self.size
    }

    /// By how much the sum of S1R is greater than that of the original one.
    pub fn difference(&self) -> usize
        ensures { result ≡ self.now.difference }
    {
        self.difference
    }

    /// Some who are in S1R.
    pub fn held_numbers(&self) -> &[u16]
        ensures { result.now ≡ self.now.held }
    {
        self.held
    }

    /// Some who are not in it.
    pub fn barred_numbers(&self) -> &[u16]
        ensures { result.now ≡ self.now.barred }
    {
        self.barred
    }
}

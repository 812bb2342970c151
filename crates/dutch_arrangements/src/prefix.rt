// The beginning of an arrangement, specified by its lists.
ghost use Rattle.std.specs.Prelude.{◌≡◌};
ghost use Rattle.dutch_arrangements.specs.declared.prefix.Filling.TheVariants.{ChoosingS1};
ghost use Rattle.dutch_arrangements.specs.Prefixes.{with_list};

use std::marker::Model;

/// Which list of an arrangement a beginning is filling (C.04.3 B.6, B.7).
#[derive(Clone, Copy, PartialEq, Eq)]
pub enum Filling {
    /// None is chosen yet, not even S1.
    ChoosingS1,
    /// S1 is chosen, and a part of S2.
    S2,
    /// S1, S2 and S1R are chosen, and a part of S2R.
    S2r,
}

/// A beginning of an arrangement: nothing; or S1 and a part of S2; or S1, S2 and S1R and a part of S2R. Players are
/// named by their numbers in the bracket. A list that is not reached yet is empty.
#[derive(Drop)]
pub struct Prefix<'a> {
    pub filling: Filling,
    pub s1: &'a [u16],
    pub s2: &'a [u16],
    pub s1r: &'a [u16],
    pub s2r: &'a [u16],
}

impl<'a> Model for Prefix<'a> {
    ghost use Rattle.dutch_arrangements.specs.Prefixes.{Beginning};

    ghost Value = { Beginning };

    ghost view = { λ p. record {
      filling = p.filling;
      lists = record { s1 = p.s1.now; s2 = p.s2.now; s1r = p.s1r.now; s2r = p.s2r.now };
    } };
}

impl<'a> Prefix<'a> {
    /// The beginning of every arrangement.
    pub fn nothing() -> Prefix<'a>
        ensures { result.filling ≡ ChoosingS1 }
    {
        Prefix {
            filling: Filling::ChoosingS1,
            s1: &[],
            s2: &[],
            s1r: &[],
            s2r: &[],
        }
    }

    /// The beginning with so much of the list that is being filled, S2 or S2R.
    pub fn with<'n>(&'n self, list: &'n [u16]) -> Prefix<'n>
        ensures { result ≡ with_list self.now list.now }
    {
        if self.filling == Filling::S2r {
            Prefix {
                filling: self.filling,
                s1: self.s1,
                s2: self.s2,
                s1r: self.s1r,
                s2r: list,
            }
        } else {
            Prefix {
                filling: self.filling,
                s1: self.s1,
                s2: list,
                s1r: self.s1r,
                s2r: self.s2r,
            }
        }
    }

    /// Which list is being filled.
    pub fn filling(&self) -> Filling
        ensures { result ≡ self.now.filling }
    {
        self.filling
    }

    /// The moved-down players who are paired, ascending.
    pub fn s1(&self) -> &[u16]
        ensures { result.now ≡ self.now.lists.s1 }
    {
        self.s1
    }

    /// Their opponents so far, place by place.
    pub fn s2(&self) -> &[u16]
        ensures { result.now ≡ self.now.lists.s2 }
    {
        self.s2
    }

    /// Residents of the remainder, ascending.
    pub fn s1r(&self) -> &[u16]
        ensures { result.now ≡ self.now.lists.s1r }
    {
        self.s1r
    }

    /// Their opponents so far, place by place.
    pub fn s2r(&self) -> &[u16]
        ensures { result.now ≡ self.now.lists.s2r }
    {
        self.s2r
    }
}

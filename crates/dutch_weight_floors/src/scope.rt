// Which arrangements of a bracket a floor is for (C.04.3 B.3, B.6, B.7): all of them, those with an S1, or those with
// an S1 and an S1R.
//
// Behind an S1 no other moved-down player is in a pair. Behind an S1R each pair of residents has one in S1R and one
// outside of it. So fewer pairs are possible than in all arrangements, and a floor can be higher.
ghost use Rattle.std.specs.Prelude.{◌≡◌, ◌<◌, ◌≤◌, IfSome, true};
ghost use Rattle.dutch_arrangements.specs.declared.prefix.Filling.TheVariants.{S2r};
ghost use Rattle.dutch_bracket.specs.Beginnings.{has_s1};
ghost use Rattle.dutch_arrangements.specs.Prelude.{is_member};
ghost use Rattle.dutch_weight_floors.specs.Scopes.{Covers, is_joined, is_within, may_stay, moved_down_standing, resident_standing};
ghost use Rattle.dutch_weight_floors.specs.Scopes.{standing_of};

use crate::order::Halves;
use dutch_arrangements::{Filling, Numbers, Prefix};
use dutch_bracket::reached::copied;
use dutch_candidates::fixed_lists::has_s1;
use std::marker::Model;

/// Where a player of a bracket stands in the arrangements of a scope.
#[derive(Default, Clone, Copy, PartialEq, Eq)]
pub enum Standing {
    /// Anywhere.
    #[default]
    Any,
    /// A moved-down player outside of S1, who goes down.
    Outside,
    /// A moved-down player of S1, who is in a pair.
    First,
    /// A resident; no S1R is known.
    Resident,
    /// A resident of S1R, who is in a pair.
    FirstResident,
    /// A resident outside of S1R.
    OtherResident,
}

impl Standing {
    /// Yes if two who stand so may be a pair in an arrangement of the scope.
    pub fn is_joined(self, other: Standing) -> bool
        ensures { result ≡ is_joined self other }
    {
        match (self, other) {
            (Standing::Any, Standing::Any) => true,
            (Standing::First, Standing::Resident) => true,
            (Standing::Resident, Standing::First) => true,
            (Standing::First, Standing::OtherResident) => true,
            (Standing::OtherResident, Standing::First) => true,
            (Standing::Resident, Standing::Resident) => true,
            (Standing::FirstResident, Standing::OtherResident) => true,
            (Standing::OtherResident, Standing::FirstResident) => true,
            _ => false,
        }
    }

    /// Yes if one who stands so now may be in fewer pairs than before, or in the same.
    pub(crate) fn is_within(self, before: Standing) -> bool
        ensures { result ≡ is_within before self }
    {
        match (before, self) {
            (Standing::Any, _) => true,
            (Standing::Resident, Standing::FirstResident | Standing::OtherResident) => true,
            _ => self == before,
        }
    }

    /// Yes if one who stands so may be in no pair. Members of S1 and of S1R are each in one.
    pub fn may_stay(self) -> bool
        ensures { result ≡ may_stay self }
    {
        match self {
            Standing::First => false,
            Standing::FirstResident => false,
            _ => true,
        }
    }
}

/// All arrangements of a bracket, or those with an S1, or those with an S1 and an S1R.
#[derive(Drop)]
pub struct Scope {
    filling: Filling,
    s1: Numbers,
    s1r: Numbers,
}

impl Model for Scope {
    ghost use Rattle.dutch_weight_floors.specs.Scopes.{Scope};

    ghost Value = { Scope };

    ghost view = { λ s. record { filling = s.filling; s1 = s.s1.items; s1r = s.s1r.items } };
}

impl Default for Scope {
    fn default() -> Scope {
        Scope::all()
    }
}

/// Fills a list anew with the numbers of another one. (There is room for all numbers of a bracket.)
fn refill(list: &mut Numbers, numbers: &[u16]) {
    list.clear();
    let _all = list.try_extend_from_slice(numbers);
}

fn has(list: &[u16], number: u16) -> bool
    ensures { result ≡ is_member number list.now }
{
    list.contains(&number)
}

impl Scope {
    /// All arrangements.
    pub fn all() -> Scope {
        Scope {
            filling: Filling::ChoosingS1,
            s1: Numbers::new(),
            s1r: Numbers::new(),
        }
    }

    /// Those with the S1 and the S1R of a beginning, as far as it has them.
    pub fn note(&mut self, prefix: &Prefix<'_>) {
        self.filling = prefix.filling();
        refill(&mut self.s1, prefix.s1());
        refill(&mut self.s1r, prefix.s1r());
    }

    /// How many of so many pairs of a beginning are those of its S1, if all of these are there.
    pub fn pairs_of_s1(&self, count: usize) -> Option<usize>
        ensures { IfSome result (λ n. n ≤ count) }
    {
        match self.filling {
            Filling::ChoosingS1 => None,
            Filling::S2 | Filling::S2r => {
                if self.s1.len() <= count {
                    Some(self.s1.len())
                } else {
                    None
                }
            }
        }
    }

    /// Yes if its S1R is chosen, and is not the original one: it has a number that is not of the upper half.
    pub(crate) fn exchanges(&self, halves: &Halves) -> bool {
        self.filling == Filling::S2r && self.s1r.iter().any(|number| !halves.is_upper(*number))
    }

    /// All arrangements with its S1.
    pub fn of_s1(&self) -> Scope {
        Scope {
            filling: Filling::S2,
            s1: copied(&self.s1),
            s1r: Numbers::new(),
        }
    }

    /// The same scope once more.
    pub fn copied(&self) -> Scope
        ensures { result ≡ self.now }
    {
        Scope {
            filling: self.filling,
            s1: copied(&self.s1),
            s1r: copied(&self.s1r),
        }
    }

    /// Yes if both are for the same S1 and S1R, as far as these are chosen.
    pub fn is(&self, other: &Scope) -> bool {
        self.filling == other.filling && self.s1 == other.s1 && self.s1r == other.s1r
    }

    /// A yes means that a floor for it holds behind a beginning: all arrangements with the beginning are among its own.
    /// A no says nothing.
    pub fn covers(&self, prefix: &Prefix<'_>) -> bool
        ensures { result ≡ true → Covers self.now prefix.now }
    {
        match self.filling {
            Filling::ChoosingS1 => true,
            Filling::S2 => self.has_s1_of(prefix),
            Filling::S2r => self.has_s1r_of(prefix),
        }
    }

    fn has_s1_of(&self, prefix: &Prefix<'_>) -> bool
        ensures { result ≡ true → (has_s1 prefix.now.filling ≡ true) × (prefix.now.lists.s1 ≡ self.now.s1) }
    {
        has_s1(prefix.filling()) && prefix.s1() == self.s1.as_slice()
    }

    fn has_s1r_of(&self, prefix: &Prefix<'_>) -> bool
        ensures { result ≡ true → (prefix.now.filling ≡ S2r) × (prefix.now.lists.s1 ≡ self.now.s1)
            × (prefix.now.lists.s1r ≡ self.now.s1r) }
    {
        prefix.filling() == Filling::S2r
            && prefix.s1() == self.s1.as_slice()
            && prefix.s1r() == self.s1r.as_slice()
    }

    /// Where a resident stands.
    fn resident(&self, number: u16) -> Standing
        ensures { result ≡ resident_standing self.now.filling self.now.s1r number }
    {
        match self.filling {
            Filling::ChoosingS1 => Standing::Any,
            Filling::S2 => Standing::Resident,
            Filling::S2r => {
                if has(&self.s1r, number) {
                    Standing::FirstResident
                } else {
                    Standing::OtherResident
                }
            }
        }
    }

    /// Where a moved-down player stands.
    fn moved_down(&self, number: u16) -> Standing
        ensures { result ≡ moved_down_standing self.now.filling self.now.s1 number }
    {
        match self.filling {
            Filling::ChoosingS1 => Standing::Any,
            Filling::S2 | Filling::S2r => {
                if has(&self.s1, number) {
                    Standing::First
                } else {
                    Standing::Outside
                }
            }
        }
    }

    /// Where a number stands in a bracket with so many moved-down players.
    pub fn standing(&self, mdps: usize, number: u16) -> Standing
        ensures { result ≡ standing_of mdps self.now number }
    {
        if mdps < usize::from(number) {
            self.resident(number)
        } else {
            self.moved_down(number)
        }
    }
}

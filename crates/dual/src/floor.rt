// A floor: what every matching costs at least, and what each known pair and each player known to be left over adds. It
// keeps what the check computed: so a caller asks it about one beginning after another, and nothing is computed again.
ghost use Rattle.std.specs.Prelude.{◌≡◌, ℕ, List, [], slice_index_or};
ghost use Rattle.dual.specs.Duals.{Certificate};
ghost use Rattle.dual.specs.Floors.{IsChecked, slack_in, slack_left_in};
ghost use Rattle.dual.specs.Matchings.{Costs};

use crate::wide::Wide;
use crate::wide_table::WideTable;
use std::marker::Model;

/// A floor: what every matching costs at least, and what each known pair and each player known to be left over adds.
/// The base and all that is known add up to no more than the debt and what the matching costs.
#[derive(Drop)]
pub struct Floor {
    pub(crate) base: Wide,
    pub(crate) debt: Wide,
    pub(crate) size: usize,
    // by the first player's number times the size, and the second's
    pub(crate) slacks: WideTable,
    pub(crate) slacks_left: Vec<Wide>,
}

impl Model for Floor {
    ghost use Rattle.std.specs.Prelude.{◌≤◌};
    ghost use Rattle.dual.specs.Floors.{FloorTable};

    ghost Value = { FloorTable };

    ghost view = { λ f. record {
      base = f.base;
      debt = f.debt;
      size = f.size;
      slacks = f.slacks;
      slacks_left = f.slacks_left.items;
    } };

    ghost invariant = { λ f. f.size ≤ 65536 };
}

// A number of a list, 0 past its end.
fn at(numbers: &[Wide], index: usize) -> Wide
    ensures { result ≡ slice_index_or numbers.now index 0 }
{
    if index < numbers.len() {
        numbers[index]
    } else {
        Wide::zero()
    }
}

impl Floor {
    /// What every matching costs at least, beside what is owed.
    pub fn base(&self) -> Wide
        ensures { result ≡ self.now.base }
    {
        self.base
    }

    /// What is owed: whatever the base and all that is known come to, a matching may cost so much less.
    pub fn debt(&self) -> Wide
        ensures { result ≡ self.now.debt }
    {
        self.debt
    }

    /// What a pair adds, 0 outside of the table.
    pub fn slack(&self, a: u16, b: u16) -> Wide
        ensures { result ≡ slack_in self.now (a, b) }
    {
        let b = usize::from(b);
        if b < self.size {
            self.slacks.get(usize::from(a) * self.size + b)
        } else {
            Wide::zero()
        }
    }

    /// The floor without what players left over add.
    pub fn without_left(self) -> Floor
        ensures checked { (costs : Costs) (players : List ℕ) (certificate : Certificate)
            → IsChecked costs players certificate self → IsChecked costs players certificate result }
        ensures value { result ≡ record {
          base = self.base;
          debt = self.debt;
          size = self.size;
          slacks = self.slacks;
          slacks_left = [];
        } }
    {
        let mut floor = self;
        floor.slacks_left.clear();
        floor
    }

    /// What a player left over adds, 0 outside of the table.
    pub fn slack_left(&self, a: u16) -> Wide
        ensures { result ≡ slack_left_in self.now a }
    {
        at(&self.slacks_left, usize::from(a))
    }
}

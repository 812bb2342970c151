// Rules of players by number, and a limit that rises by one.

use dutch_order::{Budget, Rule};

// A rule by which all may meet, and each may be left over.
#[derive(Drop)]
pub(crate) struct Free;

impl Rule for Free {
    ghost use Rattle.std.specs.Prelude.{true, refl};

    ghost meets = { λ r a b. true };

    ghost may_be_left = { λ r a. true };

    fn may_meet(&self, _a: u16, _b: u16) -> bool {
        true
    }

    fn last_ok(&self, _a: u16) -> bool {
        true
    }

    ghost symmetric = { λ r a b p q. refl };
}

// A rule by which nobody may meet, and each may be left over.
#[derive(Drop)]
pub(crate) struct Strangers;

impl Rule for Strangers {
    ghost use Rattle.std.specs.Prelude.{true, false, refl};

    ghost meets = { λ r a b. false };

    ghost may_be_left = { λ r a. true };

    fn may_meet(&self, _a: u16, _b: u16) -> bool {
        false
    }

    fn last_ok(&self, _a: u16) -> bool {
        true
    }

    ghost symmetric = { λ r a b p q. refl };
}

// A rule by which all but these two may meet, and each may be left over.
#[derive(Drop)]
pub(crate) struct Apart(pub(crate) u16, pub(crate) u16);

impl Rule for Apart {
    ghost use Rattle.std.specs.Prelude.{◌==◌, ◌&&◌, not, true};
    ghost use Rattle.std.proofs.Math.Bool.{and_comm};

    ghost meets = { λ r a b. not (a == r.0 && b == r.1) && not (b == r.0 && a == r.1) };

    ghost may_be_left = { λ r a. true };

    fn may_meet(&self, a: u16, b: u16) -> bool {
        !(a == self.0 && b == self.1) && !(b == self.0 && a == self.1)
    }

    fn last_ok(&self, _a: u16) -> bool {
        true
    }

    ghost symmetric = { λ r a b p q. and_comm (not (a == r.0 && b == r.1)) (not (b == r.0 && a == r.1)) };
}

// More steps than any test makes.
pub(crate) const AMPLE: u64 = 1_000_000;

// Raises a limit that was reached by one, unless it is ample; whether it did.
pub(crate) fn raised(budget: &mut Budget) -> bool {
    if budget.limit >= AMPLE {
        return false;
    }
    budget.limit += 1;
    true
}

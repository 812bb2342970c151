// The players below a bracket that a round reaches (C.04.3 A.3).
ghost use Rattle.std.specs.Prelude.{◌≡◌, ◌≤◌, filter, length};
ghost use Rattle.dutch_sequence.specs.declared.numbers.TheConstants.{LIMIT};
ghost use Rattle.dutch_rounds.specs.Lower.{is_below, lower_of};

use crate::walk::everybody;
use dutch_bracket::reached::{Reached, Seats};
use dutch_player::Field;

#[tactic(auto, using(crate::proofs::LowerLemmas::below_more, crate::proofs::LowerLemmas::below_not, crate::proofs::LowerLemmas::below_end))]
fn is_below(field: &Field, seats: &[u16], seat: u16) -> bool
    ensures { result ≡ is_below field.now seats.now seat }
{
    for other in seats {
        if field.score(*other) <= field.score(seat) {
            return false;
        }
    }
    true
}

#[tactic(auto, using(crate::proofs::LowerLemmas::kept_more, crate::proofs::LowerLemmas::passed_over, crate::proofs::LowerLemmas::kept_end))]
fn those_below(field: &Field, seats: &[u16], all: &[u16]) -> Seats
    requires { length all.now ≤ LIMIT }
    ensures { result.items ≡ filter (is_below field.now seats.now) all.now }
{
    let mut lower = Seats::new();
    for seat in all {
        if is_below(field, seats, *seat) {
            lower.push(*seat);
        }
    }
    lower
}

/// The seats of the present players with a lower score than all of a bracket, by rank, for the field that it comes
/// from. There may be none.
#[tactic(auto, using(crate::proofs::GroupWalk::everybody_few))]
pub fn lower_of(field: &Field, reached: &Reached) -> Seats
    ensures { result.items ≡ lower_of field.now reached.now }
{
    those_below(field, reached.seats(), &everybody(field))
}

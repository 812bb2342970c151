// The lists that a beginning fixes, and the pairs that they make (C.04.3 B.6, B.7).
ghost use Rattle.std.specs.Prelude.{◌≡◌, ◌≤◌, ◌&&◌, true};
ghost use Rattle.arrayvec.specs.ArrayVec.{array_vec_len};
ghost use Rattle.dutch_sequence.specs.declared.numbers.TheConstants.{LIMIT};
ghost use Rattle.dutch_bracket.specs.Seated.{all_pairs};
ghost use Rattle.dutch_bracket.specs.Beginnings.{HasFewPairs, fixed, fixed_lists, has_s1, is_of_shape};

use arrayvec::ArrayVec;
use dutch_arrangements::{Filling, LIMIT, Prefix, Shape};
use dutch_bracket::context::Context;
use dutch_bracket::seated::{Pair, Seated, push_pairs};
use std::marker::Model;

/// The lists that a beginning fixes.
#[derive(Drop)]
pub struct FixedLists<'a> {
    pub s1: &'a [u16],
    pub s2: &'a [u16],
    pub s1r: &'a [u16],
    pub s2r: &'a [u16],
}

impl<'a> Model for FixedLists<'a> {
    ghost use Rattle.dutch_arrangements.specs.Prelude.{Arrangement};

    ghost Value = { Arrangement };

    ghost view = { λ b. record { s1 = b.s1.now; s2 = b.s2.now; s1r = b.s1r.now; s2r = b.s2r.now } };
}

/// The lists that a beginning fixes.
pub fn fixed_lists<'a>(prefix: &'a Prefix<'_>) -> FixedLists<'a>
    ensures { result ≡ fixed_lists prefix.now }
{
    match prefix.filling() {
        Filling::ChoosingS1 => {
            return FixedLists {
                s1: &[],
                s2: &[],
                s1r: &[],
                s2r: &[],
            };
        }
        Filling::S2 => {
            return FixedLists {
                s1: prefix.s1(),
                s2: prefix.s2(),
                s1r: &[],
                s2r: &[],
            };
        }
        Filling::S2r => {
            return FixedLists {
                s1: prefix.s1(),
                s2: prefix.s2(),
                s1r: prefix.s1r(),
                s2r: prefix.s2r(),
            };
        }
    }
}

/// S1 is chosen.
pub fn has_s1(filling: Filling) -> bool
    ensures { result ≡ has_s1 filling }
{
    match filling {
        Filling::ChoosingS1 => false,
        Filling::S2 | Filling::S2r => true,
    }
}

/// Yes if lists have room in a shape, and of those who meet the second is not the longer one (B.1).
pub fn is_of_shape(shape: Shape, lists: &FixedLists<'_>) -> bool
    ensures { result ≡ is_of_shape shape lists.now }
{
    let moved_down = lists.s1.len() <= shape.mdps && lists.s2.len() <= lists.s1.len();
    let residents = lists.s1r.len() <= shape.pairs.saturating_sub(shape.mdps)
        && lists.s2r.len() <= lists.s1r.len();
    moved_down && residents
}

/// Fills a list with the pairs that lists make, by seats.
#[tactic(auto, using(crate::proofs::FixedListsLemmas::front_pairs))]
fn fill_pairs(context: &Context<'_>, lists: &FixedLists<'_>, pairs: &mut ArrayVec<Pair, LIMIT>)
    requires { HasFewPairs lists.now }
    ensures items { pairs.new.items ≡ all_pairs context.now.reached.seats lists.now }
    ensures few { array_vec_len pairs.new ≤ LIMIT }
{
    let seats = context.reached().seats();
    pairs.clear();
    push_pairs(seats, &lists.s1[..lists.s2.len()], lists.s2, pairs);
    push_pairs(seats, &lists.s1r[..lists.s2r.len()], lists.s2r, pairs);
}

/// Fills in lists by seats: their pairs, and nobody who goes down.
pub fn fill_fixed(context: &Context<'_>, lists: &FixedLists<'_>, seated: &mut Seated)
    requires { HasFewPairs lists.now }
    ensures { seated.new ≡ fixed context.now.facts context.now.reached lists.now }
{
    fill_pairs(context, lists, &mut seated.pairs);
    seated.down.clear();
    seated.lowest = context.lowest();
}

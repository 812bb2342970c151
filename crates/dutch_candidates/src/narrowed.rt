// The rules of a bracket, narrowed to what is wished (C.04.3 B.3): who looks for a candidate that grants a wish lists
// those candidates alone whose pairs fit it. By the narrower rules two who are to meet could also both be left over, so
// each candidate is still asked whether it grants the wish.
use crate::wish::{Wish, fits_as_left, fits_as_pair};
use dutch_arrangements::Rule;
use dutch_bracket::reached::ByNumber;

/// Who may meet and who may be left over in a bracket (C.1 to C.3), by number, in a candidate that grants what is
/// wished.
#[derive(Drop)]
pub struct NarrowedRule<'a> {
    pub rule: ByNumber<'a>,
    pub wish: Option<Wish>,
}

impl<'a> Rule for NarrowedRule<'a> {
    ghost use Rattle.dutch_bracket.specs.Reached.{numbers_meet, number_may_be_left};
    ghost use Rattle.dutch_candidates.specs.Wishes.{left_narrowed, meets_narrowed};
    ghost use Rattle.dutch_candidates.specs.NarrowedLaws.{narrowed_sym};

    ghost meets = { λ r. meets_narrowed r.wish (numbers_meet r.rule.field.now r.rule.reached.now) };

    ghost may_be_left = { λ r. left_narrowed r.wish (number_may_be_left r.rule.field.now r.rule.reached.now) };

    ghost symmetric = { λ r a b la lb. narrowed_sym r.wish r.rule.field.now r.rule.reached.now a b };

    fn may_meet(&self, a: u16, b: u16) -> bool {
        fits_as_pair(self.wish, a, b) && self.rule.may_meet(a, b)
    }

    fn last_ok(&self, a: u16) -> bool {
        fits_as_left(self.wish, a) && self.rule.last_ok(a)
    }
}

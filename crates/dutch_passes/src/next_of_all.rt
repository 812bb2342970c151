// What the next bracket can be below all candidates of a shape that leaves nobody over (C.04.3 C.7): one value, whoever
// is paired with whom.
ghost use Rattle.std.specs.Prelude.{◌≡◌, ◌*◌, length, true};
ghost use Rattle.std.specs.Option.{ForSome};
ghost use Rattle.std.specs.Result.{MatchResult};
ghost use Rattle.dutch_arrangements.specs.Prelude.{Spends};
ghost use Rattle.dutch_passes.specs.NextOfAll.{IsNextOfAll};
ghost use Rattle.dutch_passes.specs.Remembered.{LooksBelow, LooksFrom};

use crate::remembered::{Look, LookAhead};
use dutch_arrangements::{Budget, Numbers, Stopped};
use dutch_bracket::quality::NextValue;
use dutch_bracket::shaped::ShapedBracket;
use std::alloc::Global;

/// Yes if all candidates of a shape pair everybody.
pub(crate) fn leaves_nobody(shaped: &ShapedBracket<'_>) -> bool
    ensures { result ≡ true → length shaped.now.context.now.reached.seats ≡ 2 * shaped.now.shape.pairs }
{
    let pairs = shaped.shape.pairs;
    shaped.context.len().checked_sub(pairs) == Some(pairs)
}

/// A value on the heap; none if memory is refused.
fn boxed(alloc: Global, pairs: usize, psd: Numbers) -> Option<Box<NextValue>>
    ensures { ForSome result (λ value. value.value ≡ record { pairs = pairs; psd = psd.items }) }
{
    Box::new(alloc, NextValue { pairs, psd }).ok()
}

/// What the next bracket can be below each candidate of a shape that leaves nobody over; none if memory is refused.
fn value_for_nobody(
    shaped: &ShapedBracket<'_>,
    look: &mut LookAhead<'_>,
    budget: &mut Budget,
) -> Result<Option<Box<NextValue>>, Stopped>
    requires look { LooksFrom shaped.now.context.now look.old }
    requires all { length shaped.now.context.now.reached.seats ≡ 2 * shaped.now.shape.pairs }
    ensures answer { MatchResult result
        (λ next. ForSome next (λ value. IsNextOfAll shaped.now value.value))
        (λ _. budget.new.used ≡ budget.new.limit) }
    ensures look { LooksFrom shaped.now.context.now look.new }
    ensures spends { Spends budget.old budget.new }
{
    // (the bracket tells that it is one of the field)
    let _reached = shaped.context.reached();
    match look.value(&[], budget) {
        Look::Value { pairs, psd } => Ok(boxed(shaped.context.alloc(), pairs, psd)),
        Look::Undecided => Err(Stopped),
    }
}

/// What the next bracket can be below each candidate, if the shape leaves nobody over. None if it leaves somebody over,
/// if there is no next bracket, or if memory is refused.
pub(crate) fn next_of_all(
    shaped: &ShapedBracket<'_>,
    look: &mut Option<LookAhead<'_>>,
    budget: &mut Budget,
) -> Result<Option<Box<NextValue>>, Stopped>
    requires { LooksBelow shaped.now.context.now look.old }
    ensures answer { MatchResult result
        (λ next. ForSome next (λ value. IsNextOfAll shaped.now value.value))
        (λ _. budget.new.used ≡ budget.new.limit) }
    ensures look { LooksBelow shaped.now.context.now look.new }
    ensures spends { Spends budget.old budget.new }
{
    match look {
        Some(look) if leaves_nobody(shaped) => value_for_nobody(shaped, look, budget),
        _ => Ok(None),
    }
}

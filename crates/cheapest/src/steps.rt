// Steps, and sums that may not fit.
ghost use Rattle.std.specs.Prelude.{◌≡◌, ◌+◌, ◌-◌};
ghost use Rattle.std.specs.Result.{MatchResult};
ghost use Rattle.cheapest.specs.declared.fault.Fault.TheVariants.{Stopped, TooGreat};

use crate::fault::Fault;
use dual::Wide;

/// Takes a step, if one is left.
pub(crate) fn take_step(left: &mut u64) -> Result<(), Fault>
    ensures { MatchResult result
        (λ _. left.new + 1 ≡ left.old)
        (λ fault. (fault ≡ Stopped) × (left.new ≡ 0) × (left.old ≡ 0)) }
{
    if *left == 0 {
        return Err(Fault::Stopped);
    }
    *left -= 1;
    Ok(())
}

/// The greater of two numbers.
pub(crate) fn greater(a: Wide, b: Wide) -> Wide {
    if a.is_less(b) { b } else { a }
}

/// The sum of two numbers, if it fits.
pub(crate) fn sum(a: Wide, b: Wide) -> Result<Wide, Fault>
    ensures { MatchResult result (λ sum. sum ≡ a + b) (λ fault. fault ≡ TooGreat) }
{
    a.plus(b).ok_or(Fault::TooGreat)
}

/// What is left of a number, or 0 if as much is not there.
pub(crate) fn rest(a: Wide, b: Wide) -> Wide
    ensures { result ≡ a - b }
{
    match a.minus(b) {
        Some(rest) => rest,
        None => Wide::zero(),
    }
}

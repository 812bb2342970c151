// One pass over the candidates of a shape (C.04.3 B.8): what it seeks, and the best candidate that it has found so far.
ghost use Rattle.std.specs.Prelude.{◌≡◌, true, false};
ghost use Rattle.std.specs.Option.{ForSome};
ghost use Rattle.dutch_arrangements.specs.Prelude.{Arrangement, IsExchange, IsIn};
ghost use Rattle.dutch_bracket.specs.Prelude.{OfEachWithBeginning, candidates_in, quality_in};
ghost use Rattle.dutch_candidates.specs.Wishes.{is_wished};
ghost use Rattle.dutch_passes.specs.NextOfAll.{IsNextOfAll};
ghost use Rattle.dutch_passes.specs.Targets.{target_in, loses};

use crate::incumbent::Incumbent;
use crate::target::Target;
use dutch_arrangements::{Exchange, Prefix};
use dutch_bracket::quality::{NextValue, Quality};
use dutch_bracket::shaped::ShapedBracket;
use dutch_candidates::wish::Wish;
use dutch_choice::barred::{rules_out, rules_out_with};

/// One pass over the candidates of a shape, in a bracket above all lower seats by rank. With a target it seeks only
/// those that the target is not better than, and with a wish only those that grant it.
#[derive(Drop)]
pub struct Pass<'a> {
    pub shaped: ShapedBracket<'a>,
    pub wish: Option<Wish>,
    pub target: Target,
    /// What the next bracket can be below each candidate (C.7), if it is one value for all and is known. (On the heap,
    /// as it is large.)
    pub next: Option<Box<NextValue>>,
    ghost same: { ForSome next (λ value. IsNextOfAll shaped value.value) },
}

/// A pass, and its incumbent so far.
#[derive(Clone, Copy)]
pub struct PassSoFar<'a, 'k> {
    pub pass: &'a Pass<'a>,
    pub incumbent: &'k Incumbent,
}

/// Yes if the target is better, or if the quality is not better than that of the incumbent: then no candidate
/// with it takes the place of that one.
pub fn loses(quality: &Quality, target: &Target, incumbent: &Incumbent) -> bool
    ensures { result ≡ loses (target_in target.now) incumbent.now (quality_in quality.now) }
{
    if let Some(target) = target.quality() {
        if target.is_better(quality) {
            return true;
        }
    }
    match incumbent.best() {
        Some(best) => !quality.is_better(&best.quality),
        None => false,
    }
}

/// Yes if the shape or the beginning rules out what is wished, so that the pass may skip all that begins so. A no says
/// nothing.
pub fn is_barred(pass: &Pass<'_>, prefix: &Prefix<'_>) -> bool
    ensures { result ≡ true → OfEachWithBeginning pass.now.shaped prefix.now
        (λ a. is_wished pass.now.wish a ≡ false) }
{
    match pass.wish {
        Some(wish) => rules_out(&pass.shaped, wish, prefix),
        None => false,
    }
}

/// Yes if every S1R that is such an exchange rules out what is wished, so that the pass may skip all candidates with
/// one. A no says nothing.
pub fn is_barred_with(pass: &Pass<'_>, exchange: &Exchange<'_>) -> bool
    ensures { result ≡ true → (a : Arrangement) → IsIn a (candidates_in pass.now.shaped)
        → IsExchange exchange.now a.s1r → is_wished pass.now.wish a ≡ false }
{
    match pass.wish {
        Some(wish) => rules_out_with(&pass.shaped, wish, exchange),
        None => false,
    }
}

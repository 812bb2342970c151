// What is known of the candidates of a bracket and a shape by floors of both kinds.
ghost use Rattle.std.specs.Prelude.{◌≡◌, IfOk, None};
ghost use Rattle.dutch_floors.specs.Behind.{IsBasisFor};

use dutch_bracket::context::Context;
use dutch_bracket::fault::PairFault;
use dutch_bracket::shaped::ShapedBracket;
use dutch_bracket::tuning::MOST_WEIGHED;
use dutch_floors::floor::Floors;
use dutch_weight_floors::weight_floor::WeightFloors;
use std::alloc::Global;

/// Floors by counts, and floors by weight, where they were asked for.
#[derive(Drop)]
pub(crate) struct BothFloors<'a> {
    pub(crate) shaped: ShapedBracket<'a>,
    pub(crate) counts: Floors<'a>,
    // (on the heap, as they are large)
    pub(crate) weights: Box<Option<WeightFloors<'a>>>,
    // the steps of the next turn, where pairs are weighed
    pub(crate) steps: u64,
    ghost basis: { IsBasisFor shaped counts },
}

/// A place for floors by weight. (Apart from its caller, as it is large until it stands on the heap.)
#[inline(never)]
fn no_weights<'a>(alloc: Global) -> Result<Box<Option<WeightFloors<'a>>>, PairFault>
    ensures { IfOk result (λ weights. weights.value ≡ None) }
{
    Ok(Box::new(alloc, None)?)
}

impl<'a> BothFloors<'a> {
    /// Floors by counts alone.
    #[inline(never)]
    pub(crate) fn by_counts(shaped: &ShapedBracket<'a>) -> Result<BothFloors<'a>, PairFault>
        ensures shaped { IfOk result (λ floors. floors.shaped ≡ shaped.now) }
        ensures counts { IfOk result (λ floors. IsBasisFor shaped.now floors.counts) }
        ensures weights { IfOk result (λ floors. floors.weights.value ≡ None) }
    {
        Ok(BothFloors {
            shaped: *shaped,
            counts: Floors::by_counts(shaped)?,
            weights: no_weights(shaped.context.alloc())?,
            steps: 1,
        })
    }
}

/// Yes if pairs are weighed: of the bracket alone always; with those of the next lower scoregroup, if the weights are to
/// tell of that, unless they are too many together.
pub(crate) fn is_weighed(context: &Context<'_>, next: bool) -> bool {
    !next || context.len_below() <= MOST_WEIGHED
}

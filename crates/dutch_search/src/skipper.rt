// What tells which beginnings a pass may skip. (How it tells it stands in a file of its own: the definitions that its
// clauses name speak of the skipper.)
ghost use Rattle.dutch_passes.specs.Prelude.{target_in, incumbent_in};
ghost use Rattle.dutch_weight_floors.specs.Prelude.{HasBar};
ghost use Rattle.dutch_floors.specs.Behind.{IsBasisFor};
ghost use Rattle.dutch_search.specs.Searching.{HasWeights};

use dutch_floors::floor::Floors;
use dutch_passes::PassSoFar;
use dutch_weight_floors::asking::Bars;
use dutch_weight_floors::weight_floor::WeightFloors;

/// Tells which beginnings a pass may skip, by what it seeks and by its incumbent.
#[derive(Drop)]
pub(crate) struct Skipper<'a, 'k> {
    pub(crate) so_far: PassSoFar<'a, 'k>,
    /// What is known by counts.
    pub(crate) counts: &'k Floors<'k>,
    /// What is known by weight.
    pub(crate) weights: &'k Option<WeightFloors<'k>>,
    /// The bars of the target and of the incumbent.
    pub(crate) bars: &'k Bars,
    ghost basis: { IsBasisFor so_far.pass.now.shaped counts.now },
    ghost weighed: { HasWeights so_far.pass.now weights.now },
    ghost target: { ∥ HasBar weights.now (target_in so_far.pass.now.target) bars.now.target ∥₁ },
    ghost best: { ∥ HasBar weights.now (incumbent_in so_far.incumbent.now) bars.now.incumbent ∥₁ },
}

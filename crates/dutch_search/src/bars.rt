// The bars of a pass: what its target weighs, and its incumbent.
ghost use Rattle.std.specs.Prelude.{Some};
ghost use Rattle.dutch_bracket.specs.Prelude.{quality_in};
ghost use Rattle.dutch_weight_floors.specs.Prelude.{HasBar};
ghost use Rattle.dutch_passes.specs.Prelude.{target_in, incumbent_in};

use dutch_bracket::quality::Quality;
use dutch_passes::{Incumbent, Pass, PassSoFar};
use dutch_weight_floors::asking::Bars;
use dutch_weight_floors::weight_floor::{Bar, WeightFloors};

/// The bar of a quality on the scale of floors, if both are there.
fn bar_of(weights: &Option<WeightFloors<'_>>, quality: &Quality) -> Option<Bar>
    ensures { HasBar weights.now (Some (quality_in quality.now)) result }
{
    match weights {
        Some(weights) => return weights.bar(quality),
        None => return None,
    }
}

/// The bar of the target of a pass.
fn target_bar(pass: &Pass<'_>, weights: &Option<WeightFloors<'_>>) -> Option<Bar>
    ensures { HasBar weights.now (target_in pass.now.target) result }
{
    match pass.target.quality() {
        Some(target) => return bar_of(weights, target),
        None => return None,
    }
}

/// The bar of the incumbent.
fn incumbent_bar(incumbent: &Incumbent, weights: &Option<WeightFloors<'_>>) -> Option<Bar>
    ensures { HasBar weights.now (incumbent_in incumbent.now) result }
{
    match incumbent.best() {
        Some(best) => return bar_of(weights, &best.quality),
        None => return None,
    }
}

/// The bars of the target of a pass and of the incumbent.
pub(crate) fn bars_of(so_far: PassSoFar<'_, '_>, weights: &Option<WeightFloors<'_>>) -> Bars
    ensures target { HasBar weights.now (target_in so_far.entry.pass.now.target) result.target }
    ensures incumbent { HasBar weights.now (incumbent_in so_far.entry.incumbent.now) result.incumbent }
{
    Bars {
        target: target_bar(so_far.pass, weights),
        incumbent: incumbent_bar(so_far.incumbent, weights),
    }
}

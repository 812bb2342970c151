// A bracket with a shape that it has room for (C.04.3 B.1, C.5). Whoever asks for both asks for one value of this
// type.
ghost use Rattle.dutch_bracket.specs.InContext.{FitsHere};

use crate::context::Context;
use dutch_arrangements::Shape;

/// A bracket above all lower seats by rank, with a shape that it has room for: players enough for so many pairs, and
/// moved-down players enough for those in them (C.04.3 C.5).
#[derive(Clone, Copy)]
pub struct ShapedBracket<'a> {
    pub context: &'a Context<'a>,
    pub shape: Shape,
    pub ghost fits: { FitsHere context.now shape },
}

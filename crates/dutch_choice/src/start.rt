// Where the candidates of a bracket's shape begin, for whoever looks through them with a lister that is lent.

use dutch_arrangements::Shape;

/// Where a lister stands.
#[derive(Clone, Copy)]
pub enum Start {
    /// Somewhere: the listing has to be begun anew.
    Anew,
    /// The first candidate of a shape that can be chosen is drawn, and the listing goes on behind it.
    Drawn,
}

/// The shape of a bracket, and where the lister stands that looked for it.
#[derive(Clone, Copy)]
pub struct FoundShape {
    pub shape: Shape,
    pub start: Start,
}

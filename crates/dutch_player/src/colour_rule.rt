// By which rule the colours of two players are decided (C.04.3 E).

/// The first rule of article E that decides who of two players gets which colour.
#[derive(Clone, Copy, PartialEq)]
pub enum ColourRule {
    /// E.1: both get what they prefer; a player without a preference is content with either colour.
    BothPreferences,
    /// E.2: both prefer the same colour, and the one with the stronger preference gets it.
    StrongerPreference,
    /// E.3: both prefer the same colour, neither more strongly. Seen from the last game back, at the first place where
    /// one had white and the other black, each had the colour that they do not get now.
    Alternation,
    /// E.4: both prefer the same colour, neither more strongly, and there is no such place; the higher ranked gets it.
    HigherRank,
    /// E.5: nobody has a preference; by their start rank the higher ranked player gets the initial colour or the other
    /// one.
    InitialColour,
}

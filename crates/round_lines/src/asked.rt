// What a player asks for in place of what is chosen.

/// What a player asks for, by start ranks: to meet the player of a number, or for 0 to have the bye.
#[derive(Clone, Copy)]
pub struct Asked {
    pub player: u16,
    pub number: u16,
}

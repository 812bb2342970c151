// What floors are asked, and what they note from one question to the next.
ghost use Rattle.dutch_floors.specs.Behind.{Basis};
ghost use Rattle.dutch_floors.specs.KnownPairs.{AreKnown};

use crate::known_pairs::KnownPairs;
use crate::lonely::LonelyRoom;
use dutch_arrangements::Prefix;

/// A beginning whose floor is asked for. By C.10 the floor does not lose with fewer than `fewest` players who miss
/// their preference, and loses with more than `most`: so it is told whether it is worth while to look for lonely
/// players. No floor is wrong by these counts.
#[derive(Drop)]
pub struct FloorQuestion<'q, 'p> {
    pub prefix: &'q Prefix<'p>,
    pub fewest: u16,
    pub most: u16,
}

/// The pairs of the last beginning with what they add up to, and where lonely players were looked for. Whoever asks
/// lends it.
#[derive(Default, Drop)]
pub struct FloorNotes {
    pub known: KnownPairs,
    pub(crate) lonely: LonelyRoom,
}

impl FloorNotes {
    /// Forgets all pairs of a bracket of so many players, and who leans on whom.
    pub fn clear(&mut self, players: usize)
        ensures { (basis : Basis) → AreKnown basis self.new.known }
    {
        self.known.clear();
        self.lonely.clear(players);
    }
}

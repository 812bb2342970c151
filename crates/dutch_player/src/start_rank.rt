// The seat of a player by their start rank.
ghost use Rattle.std.specs.Prelude.{◌≡◌, ◌≤◌, length, map};
ghost use Rattle.std.specs.List.{position_from};
ghost use Rattle.dutch_player.specs.SeatOf.{facts_in};
ghost use Rattle.dutch_player.specs.StartRanks.{has_start, seat_with, TellsSeat};
ghost use Rattle.trf16_report.specs.declared.limits.TheConstants.{MOST_PLAYERS};

use crate::field::Field;
use crate::seat::Seat;

// The first place at which a player with a start rank stands.
#[tactic(auto, using(crate::proofs::StartLemmas::passed, crate::proofs::StartLemmas::found_here, crate::proofs::StartLemmas::not_found))]
fn place_of(seats: &[Seat], start: u16) -> Option<u16>
    requires { length seats.now ≤ MOST_PLAYERS }
    ensures { result ≡ position_from (has_start start) 0 (map facts_in seats.now) }
{
    for (i, seat) in seats.iter().enumerate() {
        if seat.start == start {
            return Some(i as u16);
        }
    }
    None
}

impl Field {
    /// The seat of the present player with a start rank; none if nobody present has it.
    #[tactic(auto, using(crate::proofs::StartLemmas::tells_seat))]
    pub fn seat_with(&self, start: u16) -> Option<u16>
        ensures value { result ≡ seat_with self.now start }
        ensures tells { TellsSeat self.now start result }
    {
        place_of(&self.seats, start)
    }
}

// Who stands behind the last seat: so that each number of a seat can be asked about, and no call has to require that it
// is one.
ghost use Rattle.std.specs.Prelude.{◌≡◌};
ghost use Rattle.dutch_player.specs.Facts.{no_seat};
ghost use Rattle.dutch_player.specs.SeatOf.{facts_in};

use crate::seat::Seat;
use std::alloc::Global;

/// Nobody: no score, no games, no bye.
pub(crate) fn nobody(alloc: Global) -> Seat
    ensures { facts_in result ≡ no_seat }
{
    Seat {
        start: 0,
        score: 0,
        played: Vec::new(alloc),
        preference: None,
        opponents: Vec::new(alloc),
        apart: Vec::new(alloc),
        latest: None,
        earlier: None,
        may_bye: false,
    }
}

// Who may meet whom (C.04.3 C.1, C.3): who has met, who is kept apart, and whose absolute preferences clash.
ghost use Rattle.std.specs.Prelude.{◌≡◌};
ghost use Rattle.dutch_player.specs.SeatOf.{facts_in};
ghost use Rattle.dutch_player.specs.Meetings.{has_met, have_met, is_kept_from, are_apart, is_absolute, clash};

use crate::preference::{Pref, Strength, is_same};
use crate::seat::Seat;

fn has_met(a: &Seat, b: &Seat) -> bool
    ensures { result ≡ has_met (facts_in a.now) (facts_in b.now) }
{
    a.opponents.contains(&b.start)
}

/// Only a game that was played counts.
pub(crate) fn have_met(a: &Seat, b: &Seat) -> bool
    ensures { result ≡ have_met (facts_in a.now) (facts_in b.now) }
{
    has_met(a, b) || has_met(b, a)
}

// A line `XXP` of the report keeps them apart.
fn is_kept_from(a: &Seat, b: &Seat) -> bool
    ensures { result ≡ is_kept_from (facts_in a.now) (facts_in b.now) }
{
    a.apart.contains(&b.start)
}

pub(crate) fn are_apart(a: &Seat, b: &Seat) -> bool
    ensures { result ≡ are_apart (facts_in a.now) (facts_in b.now) }
{
    is_kept_from(a, b) || is_kept_from(b, a)
}

pub(crate) fn is_absolute(strength: Strength) -> bool
    ensures { result ≡ is_absolute strength }
{
    match strength {
        Strength::Absolute => true,
        Strength::Strong | Strength::Mild => false,
    }
}

/// Only absolute preferences clash (C.3).
pub(crate) fn clash(a: Option<Pref>, b: Option<Pref>) -> bool
    ensures { result ≡ clash a b }
{
    match (a, b) {
        (Some(a), Some(b)) => is_absolute(a.strength)
            && is_absolute(b.strength)
            && is_same(a.colour, b.colour),
        _ => false,
    }
}

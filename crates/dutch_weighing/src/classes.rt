// Which players of a bracket weigh alike in pairs (C.04.3 C.6, C.8 to C.19). Most do: what a pair weighs depends on the
// scores, the preferences and the last floats of the two. So it is worked out once for each two classes of players.
//
// In the last round it may depend on more: which of two players with absolute preferences for one colour gets it is a
// matter of all their games (E.2, E.3), and C.8 and C.9 count what the other one gets. So such a player is of a class
// of their own then.
ghost use Rattle.std.specs.Prelude.{◌≡◌};
ghost use Rattle.dutch_weighing.specs.Classes as classes;

use dutch_player::{Field, Float, Pref, Strength};

/// What the weight of a pair depends on, of each of the two.
#[derive(Clone, Copy, PartialEq)]
pub(crate) struct PlayerClass {
    // in half points
    score: u16,
    preference: Option<Pref>,
    // the floats of the last round and of the one before it
    latest: Option<Float>,
    earlier: Option<Float>,
    // the seat of a player of a class of their own
    single: Option<u16>,
}

/// Yes for an absolute preference.
fn is_absolute(preference: Option<Pref>) -> bool
    ensures { result ≡ classes.is_absolute_if_any preference }
{
    match preference {
        Some(wanted) => matches!(wanted.strength, Strength::Absolute),
        None => false,
    }
}

/// Yes if a player is of a class of their own.
fn is_single(field: &Field, seat: u16) -> bool
    ensures { result ≡ classes.is_single field.now seat }
{
    field.round() == field.total() && is_absolute(field.preference(seat))
}

/// The class of a player.
pub(crate) fn class_at(field: &Field, seat: u16) -> PlayerClass
    ensures { result ≡ classes.class_at field.now seat }
{
    PlayerClass {
        score: field.score(seat),
        preference: field.preference(seat),
        latest: field.float(seat, 1),
        earlier: field.float(seat, 2),
        single: if is_single(field, seat) {
            Some(seat)
        } else {
            None
        },
    }
}

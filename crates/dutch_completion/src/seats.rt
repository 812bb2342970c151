// The rule of a field by seat, specified by the facts of its players.
ghost use Rattle.std.specs.Prelude.{◌≡◌};
ghost use Rattle.dutch_bracket.specs.Seats.{is_seat, seats_meet, seats_may_be_left};

use dual::Wide;
use dutch_arrangements::Rule;
use dutch_player::Field;
use std::marker::Model;

/// The players of a field by seat: who may meet whom, and who may have the bye. It says false for a number that is no
/// seat, and for two equal ones.
#[derive(Drop)]
pub struct BySeat<'a> {
    field: &'a Field,
}

impl<'a> Model for BySeat<'a> {
    ghost use Rattle.dutch_player.specs.Prelude.{Facts};

    ghost Value = { Facts };

    ghost view = { λ s. s.field.now };
}

/// The rule of a field by seat.
pub fn seats<'a>(field: &'a Field) -> BySeat<'a>
    ensures facts { result ≡ field.now }
    ensures meets { ⟦<BySeat<'a> as Rule>⟧.meets result ≡ seats_meet field.now }
    ensures may_be_left { ⟦<BySeat<'a> as Rule>⟧.may_be_left result ≡ seats_may_be_left field.now }
{
    BySeat { field }
}

impl<'a> BySeat<'a> {
    fn has(&self, seat: u16) -> bool
        ensures { result ≡ is_seat self.now seat }
    {
        usize::from(seat) < self.field.len()
    }
}

impl<'a> Rule for BySeat<'a> {
    ghost use Rattle.dutch_bracket.specs.SeatLaws.{seats_meet_sym};
    ghost use Rattle.dutch_bracket.specs.Seats.{seats_meet, seats_may_be_left};

    ghost meets = { seats_meet };

    ghost may_be_left = { seats_may_be_left };

    #[tactic(auto, unfolding(dutch_bracket::specs::Seats::seats_meet))]
    fn may_meet(&self, a: u16, b: u16) -> bool {
        self.has(a) && self.has(b) && a != b && self.field.may_meet(a, b)
    }

    #[tactic(auto, unfolding(dutch_bracket::specs::Seats::seats_may_be_left))]
    fn last_ok(&self, a: u16) -> bool {
        self.has(a) && self.field.may_bye(a)
    }

    ghost symmetric = { λ facts a b _ _. seats_meet_sym facts a b };
}

// (for a matching only who may meet and who may be left over counts)
impl<'a> dual::MatchingRule for BySeat<'a> {
    ghost use Rattle.dutch_bracket.specs.Seats.{costs_nothing};

    ghost costs = { costs_nothing };

    ghost knows = { λ _ _. Unit {0} };

    fn may_meet(&self, a: u16, b: u16) -> bool {
        Rule::may_meet(self, a, b)
    }

    fn weight(&self, _a: u16, _b: u16) -> Wide {
        Wide::zero()
    }

    fn may_be_left(&self, a: u16) -> bool {
        Rule::last_ok(self, a)
    }

    fn left_cost(&self, _a: u16) -> Wide {
        Wide::zero()
    }
}

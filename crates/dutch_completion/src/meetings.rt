// Seats as a graph, for whoever finds matchings (C.04.3 A.9, C.1 to C.3).
ghost use Rattle.std.specs.Prelude.{◌≡◌, ◌≤◌, length};
ghost use Rattle.dutch_sequence.specs.declared.numbers.TheConstants.{LIMIT};
ghost use Rattle.dutch_bracket.specs.Meetings.{joined_seats};

use crate::seats::seats;
use dutch_arrangements::{LIMIT, Rule};
use dutch_player::Field;
use matching::Graph;
use std::marker::Model;

/// Seats of a field, joined if they may meet. Of an odd number a vertex behind them is the bye, joined to those who may
/// have it.
#[derive(Drop)]
pub struct Meetings<'a> {
    field: &'a Field,
    players: &'a [u16],
}

impl<'a> Model for Meetings<'a> {
    ghost use Rattle.std.specs.Prelude.{◌≤◌, length};
    ghost use Rattle.dutch_sequence.specs.declared.numbers.TheConstants.{LIMIT};
    ghost use Rattle.dutch_bracket.specs.Meetings.{Meetings};

    ghost Value = { Meetings };

    ghost view = { λ m. record { facts = m.field.now; players = m.players.now } };

    ghost invariant = { λ m. length m.players.now ≤ LIMIT };
}

impl<'a> Meetings<'a> {
    /// The graph of a list of seats.
    pub fn new(field: &'a Field, players: &'a [u16]) -> Meetings<'a>
        requires few { length players.now ≤ LIMIT }
        ensures { result ≡ record { facts = field.now; players = players.now } }
    {
        Meetings { field, players }
    }

    fn are_joined(&self, a: Option<u16>, b: Option<u16>) -> bool
        ensures { result ≡ joined_seats self.now.facts a b }
    {
        let rule = seats(self.field);
        match (a, b) {
            (Some(a), Some(b)) => rule.may_meet(a, b),
            (Some(seat), None) | (None, Some(seat)) => rule.last_ok(seat),
            (None, None) => false,
        }
    }
}

impl<'a> Graph for Meetings<'a> {
    ghost use Rattle.dutch_bracket.specs.Meetings.{vertices, joined};

    ghost vertices = { vertices };

    ghost joined = { joined };

    fn size(&self) -> u16 {
        let size = self.players.len();
        (size + size % 2) as u16
    }

    fn joins(&self, a: u16, b: u16) -> bool {
        let first = self.players.get(usize::from(a)).copied();
        let second = self.players.get(usize::from(b)).copied();
        self.are_joined(first, second)
    }
}

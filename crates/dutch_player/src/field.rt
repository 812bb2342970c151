// The present players by rank, and what the next round asks of them.
ghost use Rattle.std.specs.Prelude.{◌≡◌, ◌<◌, ◌≤◌, ◌*◌, ◌-ℤ◌, ◌≤ℤ◌, pos, length, if◌then◌else◌, ◌==◌};
ghost use Rattle.dutch_player.specs.Preferences.{difference, last_two, preference};
ghost use Rattle.dutch_player.specs.Facts.{seat_at, facts_of};
ghost use Rattle.dutch_player.specs.Outcomes.{Gives};
ghost use Rattle.dutch_player.specs.SeatOf.{facts_in};
ghost use Rattle.dutch_player.specs.Meetings.{colours_allow, is_topscorer, may_meet};
ghost use Rattle.dutch_player.specs.Colours.{colours, colour_rule, decision_of};
ghost use Rattle.trf16_report.specs.declared.limits.TheConstants.{MOST_PLAYERS, MOST_ROUNDS};

use crate::colour_rule::ColourRule;
use crate::colours::{Decision, decision_between, with_colour};
use crate::fault::FieldFault;
use crate::float::Float;
use crate::meetings::{are_apart, clash, have_met};
use crate::nobody::nobody;
use crate::preference::{Pref, difference, last_two};
use crate::present::seats_of;
use crate::refusals::total_for;
use crate::seat::Seat;
use std::alloc::Global;
use std::marker::Model;
use trf16_report::{Colour, Report};

/// The present players by rank: higher score first, then smaller start rank (A.2). A seat is a place in that order,
/// from 0.
#[derive(Drop)]
pub struct Field {
    pub(crate) seats: Vec<Seat>,
    // the number of the round that is to be paired
    pub(crate) round: u8,
    pub(crate) total: u8,
    pub(crate) initial: Colour,
    // who stands behind the last seat
    pub(crate) nobody: Seat,
}

impl Model for Field {
    ghost use Rattle.std.specs.Prelude.{map, vec_len, ◌≡◌, ◌≤◌, ◌<◌};
    ghost use Rattle.dutch_player.specs.Facts.{Facts, IsRanked, no_seat};
    ghost use Rattle.dutch_player.specs.SeatOf.{facts_in};
    ghost use Rattle.trf16_report.specs.declared.limits.TheConstants.{MOST_PLAYERS};

    ghost Value = { Facts };

    ghost view = { λ f. record {
      seats = map facts_in f.seats.items;
      round = f.round;
      total = f.total;
      initial = f.initial;
    } };

    ghost invariant = { λ f. (vec_len f.seats ≤ MOST_PLAYERS) × (0 < f.round) × IsRanked (map facts_in f.seats.items)
        × (facts_in f.nobody ≡ no_seat) };
}

impl Field {
    /// The present players of a report, as they are before the round that comes after the last paired one. A total of
    /// rounds or an initial colour that is given goes before the report's; the initial colour is white if nothing names
    /// it. If there is no further round, the reason is the first of these: a game without a result (by the players'
    /// lines, then by round), the first line that is not supported, a total that is not known, a round after the last
    /// one, memory.
    #[tactic(auto, unfolding(crate::specs::Facts::facts_of))]
    pub fn new(
        alloc: Global,
        report: &Report<'_>,
        total: Option<u8>,
        initial: Option<Colour>,
    ) -> Result<Field, FieldFault>
        ensures { Gives result (facts_of report.now total initial) }
    {
        let total = total_for(report, total)?;
        let seats = seats_of(alloc, report)?;
        Ok(Field {
            seats,
            round: report.rounds_played() + 1,
            total,
            initial: initial.or(report.initial()).unwrap_or(Colour::White),
            nobody: nobody(alloc),
        })
    }

    /// How many players are present: at most `MOST_PLAYERS` of `trf16_report`.
    pub fn len(&self) -> usize
        ensures value { result ≡ length self.now.seats }
        ensures few { result ≤ MOST_PLAYERS }
    {
        self.seats.len()
    }

    /// The number of the round that is to be paired, from 1.
    pub fn round(&self) -> u8
        ensures { result ≡ self.now.round }
    {
        self.round
    }

    /// The total of rounds of the tournament.
    pub fn total(&self) -> u8
        ensures { result ≡ self.now.total }
    {
        self.total
    }

    // Who has a seat; nobody behind the last one.
    fn seat(&self, seat: u16) -> &Seat
        ensures { facts_in result.now ≡ seat_at self.now seat }
    {
        match self.seats.get(usize::from(seat)) {
            Some(found) => found,
            None => &self.nobody,
        }
    }

    /// The start rank, 1 to 9999.
    pub fn start_rank(&self, seat: u16) -> u16
        ensures { result ≡ (seat_at self.now seat).start }
    {
        self.seat(seat).start
    }

    /// The score in half points (A.2): at most two for each of `MOST_ROUNDS`.
    pub fn score(&self, seat: u16) -> u16
        ensures value { result ≡ (seat_at self.now seat).score }
        ensures few { result ≤ 2 * MOST_ROUNDS }
    {
        self.seat(seat).score
    }

    /// The start ranks of those with whom the player has played a game (C.1), round by round.
    pub fn opponents(&self, seat: u16) -> &[u16]
        ensures { result.now ≡ (seat_at self.now seat).opponents }
    {
        &self.seat(seat).opponents
    }

    /// The float (A.4) in the last round that was paired (1), or else in the one before it.
    pub fn float(&self, seat: u16, back: u8) -> Option<Float>
        ensures { result ≡ (if back == 1 then (seat_at self.now seat).latest else (seat_at self.now seat).earlier) }
    {
        let seat = self.seat(seat);
        if back == 1 { seat.latest } else { seat.earlier }
    }

    /// The colour difference (A.6): games with white minus games with black, each at most `MOST_ROUNDS`.
    pub fn difference(&self, seat: u16) -> i16
        ensures value { result ≡ difference (seat_at self.now seat).played }
        ensures low { (pos 0 -ℤ pos MOST_ROUNDS) ≤ℤ result }
        ensures high { result ≤ℤ pos MOST_ROUNDS }
    {
        difference(&self.seat(seat).played)
    }

    /// The colour of the last two games, if there are two and both have it (A.6).
    pub fn last_two(&self, seat: u16) -> Option<Colour>
        ensures { result ≡ last_two (seat_at self.now seat).played }
    {
        last_two(&self.seat(seat).played)
    }

    /// The colour preference (A.6); none for a player without games.
    pub fn preference(&self, seat: u16) -> Option<Pref>
        ensures { result ≡ preference (seat_at self.now seat).played }
    {
        self.seat(seat).preference
    }

    /// Yes for a topscorer (A.7): they have more than half of the points that could be had, and only the last round is
    /// left.
    pub fn topscorer(&self, seat: u16) -> bool
        ensures { result ≡ is_topscorer self.now (seat_at self.now seat) }
    {
        self.round == self.total && u16::from(self.round) - 1 < self.seat(seat).score
    }

    /// The two may meet (C.1, C.3): they have not met yet, no line `XXP` names both, and their colours allow it.
    pub fn may_meet(&self, a: u16, b: u16) -> bool
        ensures { result ≡ may_meet self.now a b }
    {
        let (first, second) = (self.seat(a), self.seat(b));
        if have_met(first, second) || are_apart(first, second) {
            return false;
        }
        self.colours_allow(a, b)
    }

    /// The colours of the two let them meet (C.3): one of them is a topscorer, or they do not both have an absolute
    /// preference for the same colour.
    pub fn colours_allow(&self, a: u16, b: u16) -> bool
        ensures { result ≡ colours_allow self.now (seat_at self.now a) (seat_at self.now b) }
    {
        self.topscorer(a) || self.topscorer(b) || !clash(self.preference(a), self.preference(b))
    }

    /// Yes if the player may have the pairing-allocated bye (C.2).
    pub fn may_bye(&self, seat: u16) -> bool
        ensures { result ≡ (seat_at self.now seat).may_bye }
    {
        self.seat(seat).may_bye
    }

    // How the colours of two are decided; the first of them ranks higher.
    fn decision_of(&self, high: u16, low: u16) -> Decision
        ensures { result ≡ decision_of self.now high low }
    {
        decision_between(self.initial, self.seat(high), self.seat(low))
    }

    /// The seat that has white and the seat that has black (E), of two players in any order.
    pub fn colours(&self, a: u16, b: u16) -> (u16, u16)
        ensures { result ≡ colours self.now a b }
    {
        if a < b {
            with_colour(a, b, self.decision_of(a, b).colour)
        } else {
            with_colour(b, a, self.decision_of(b, a).colour)
        }
    }

    /// The first rule that decides who of two players, in any order, gets which colour (E).
    pub fn colour_rule(&self, a: u16, b: u16) -> ColourRule
        ensures { result ≡ colour_rule self.now a b }
    {
        if a < b {
            self.decision_of(a, b).rule
        } else {
            self.decision_of(b, a).rule
        }
    }
}

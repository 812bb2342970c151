// A bracket that a round reaches, by the seats of its players (C.04.3 A.3, A.9). It has a bracket of
// `dutch_arrangements`, and a rule by number. `Reached::seat` leads from a number in the bracket to a seat of the
// field; only `boards` turns seats into start ranks.
ghost use Rattle.std.specs.Prelude.{◌≡◌, ◌+◌, ◌*◌, ◌≤◌, ◌++◌, ℕ, length, map, slice_index};
ghost use Rattle.arrayvec.specs.ArrayVec.{array_vec_len};
ghost use Rattle.dutch_arrangements.specs.Prelude.{IsBracket};
ghost use Rattle.dutch_sequence.specs.declared.numbers.TheConstants.{LIMIT};
ghost use Rattle.dutch_bracket.specs.Seated.{seat_of, score_at};
ghost use Rattle.dutch_bracket.specs.Brackets.{bracket, is_penultimate};
ghost use Rattle.trf16_report.specs.declared.limits.TheConstants.{MOST_ROUNDS};
ghost use Rattle.dutch_bracket.specs.ColourFloors.{residents_down};
ghost use Rattle.dutch_bracket.specs.Reached.{IsOf, ends_round, frame_of, is_number, numbers_meet, number_may_be_left};

use crate::seated::seat_of;
use arrayvec::ArrayVec;
use dutch_arrangements::{Bracket, LIMIT, Numbers, Rule, Shape};
use dutch_player::Field;
use std::marker::Model;

/// What a bracket is for the round.
#[derive(Clone, Copy)]
pub enum BracketKind {
    /// Its downfloaters move down to the next one.
    Ordinary,
    /// No player stands below it.
    Last,
    /// It is paired again so that those left over can be paired with all lower players (C.4).
    Penultimate,
    /// Those left over by the penultimate one with all lower players; it ends the round.
    Collapsed,
}

impl BracketKind {
    /// Yes if the round ends with this bracket, so that it may leave over at most one player.
    pub fn ends_round(self) -> bool
        ensures { result ≡ ends_round self }
    {
        match self {
            BracketKind::Last | BracketKind::Collapsed => true,
            BracketKind::Ordinary | BracketKind::Penultimate => false,
        }
    }

    /// Yes for the bracket that is paired again so that all lower players can be paired out.
    pub fn is_penultimate(self) -> bool
        ensures { result ≡ is_penultimate self }
    {
        matches!(self, BracketKind::Penultimate)
    }
}

/// Seats of players.
pub type Seats = ArrayVec<u16, LIMIT>;

/// A bracket that a round reaches: the players moved down and then the residents, all by rank. A player's number in it
/// is their place, from 1.
#[derive(Drop)]
pub struct Reached {
    pub number: u16,
    pub kind: BracketKind,
    pub mdps: usize,
    pub seats: Seats,
}

impl Model for Reached {
    ghost use Rattle.dutch_bracket.specs.Reached.{Reached};

    ghost Value = { Reached };

    ghost view = { λ r. record { number = r.number; kind = r.kind; mdps = r.mdps; seats = r.seats.items } };
}

impl Reached {
    /// The number of the bracket, from 1 in the order in which the round reaches them.
    pub fn number(&self) -> u16
        ensures { result ≡ self.now.number }
    {
        self.number
    }

    /// What the bracket is for the round.
    pub fn kind(&self) -> BracketKind
        ensures { result ≡ self.now.kind }
    {
        self.kind
    }

    /// How many of its players were moved down.
    pub fn mdps(&self) -> usize
        ensures { result ≡ self.now.mdps }
    {
        self.mdps
    }

    /// The seats of its players in the field, by number.
    pub fn seats(&self) -> &[u16]
        ensures { result.now ≡ self.now.seats }
    {
        &self.seats
    }

    /// A copy.
    pub fn copied(&self) -> Reached
        ensures { result ≡ self.now }
    {
        Reached {
            number: self.number,
            kind: self.kind,
            mdps: self.mdps,
            seats: copied(&self.seats),
        }
    }

    /// Yes for the numbers of the bracket: 1 to the count of players.
    pub fn has(&self, number: u16) -> bool
        ensures { result ≡ is_number self.now number }
    {
        1 <= number && usize::from(number) <= self.seats.len()
    }

    /// The seat of a number of the bracket; 0 behind its last number.
    pub fn seat(&self, number: u16) -> u16
        ensures { result ≡ seat_of self.now.seats number }
    {
        seat_of(&self.seats, number)
    }

    /// The bracket by scores, for the field that it comes from.
    pub fn frame(&self, field: &Field) -> Bracket
        requires { IsOf field.now self.now }
        ensures value { result ≡ frame_of field.now self.now }
        ensures small { (i : ℕ) → slice_index result.scores i ≤ 65535 }
    {
        let mut scores = Seats::new();
        push_scores(field, &self.seats, &mut scores);
        by_scores(&scores, self.mdps, self.kind.ends_round())
    }

    /// Who may meet, and who may be left over, by number in the bracket, for the field that it comes from (C.1 to C.3).
    /// It says no of a number that is not the bracket's, and of two equal ones.
    pub fn rule<'a>(&'a self, field: &'a Field) -> ByNumber<'a>
        requires { IsOf field.now self.now }
        ensures field { result.field.now ≡ field.now }
        ensures reached { result.reached.now ≡ self.now }
        ensures meets { ⟦<ByNumber<'a> as Rule>⟧.meets result ≡ numbers_meet field.now self.now }
        ensures may_be_left { ⟦<ByNumber<'a> as Rule>⟧.may_be_left result ≡ number_may_be_left field.now self.now }
    {
        ByNumber {
            reached: self,
            field,
        }
    }
}

/// Adds seats to some.
pub fn push_all(more: &[u16], seats: &mut Seats)
    requires { array_vec_len seats.old + length more.now ≤ LIMIT }
    ensures { seats.new.items ≡ seats.old.items ++ more.now }
{
    // there is room
    let _all = seats.try_extend_from_slice(more);
}

/// A copy of seats.
pub fn copied(seats: &[u16]) -> Seats
    requires { length seats.now ≤ LIMIT }
    ensures { result.items ≡ seats.now }
{
    let mut copy = Seats::new();
    push_all(seats, &mut copy);
    copy
}

/// A bracket of some moved down and some residents.
pub fn bracket(number: u16, kind: BracketKind, moved_down: &[u16], residents: &[u16]) -> Reached
    requires { length moved_down.now + length residents.now ≤ LIMIT }
    ensures { result ≡ bracket number kind moved_down.now residents.now }
{
    let mut seats = Seats::new();
    push_all(moved_down, &mut seats);
    push_all(residents, &mut seats);
    Reached {
        number,
        kind,
        mdps: moved_down.len(),
        seats,
    }
}

/// A bracket by the scores of its players, in half points.
fn by_scores(scores: &[u16], mdps: usize, last: bool) -> Bracket
    requires { IsBracket scores.now mdps }
    ensures value { result ≡ record { scores = scores.now; mdps = mdps; last = last } }
    ensures small { (i : ℕ) → slice_index result.scores i ≤ 65535 }
{
    Bracket::new(scores, mdps, last)
}

/// Adds the scores of seats, in half points.
pub fn push_scores(field: &Field, seats: &[u16], scores: &mut Numbers)
    requires { array_vec_len scores.old + length seats.now ≤ LIMIT }
    ensures { scores.new.items ≡ scores.old.items ++ map (score_at field.now) seats.now }
{
    for seat in seats {
        scores.push(field.score(*seat));
    }
}

/// The rules on two players and on the bye by numbers of a bracket.
#[derive(Clone, Copy)]
pub struct ByNumber<'a> {
    pub reached: &'a Reached,
    pub field: &'a Field,
    ghost sound: { IsOf field.now reached.now },
}

impl<'a> Rule for ByNumber<'a> {
    ghost use Rattle.dutch_bracket.specs.Reached.{numbers_meet, number_may_be_left};
    ghost use Rattle.dutch_bracket.specs.SeatLaws.{numbers_meet_sym};

    ghost meets = { λ r. numbers_meet r.field.now r.reached.now };

    ghost may_be_left = { λ r. number_may_be_left r.field.now r.reached.now };

    ghost symmetric = { λ r a b la lb. numbers_meet_sym r.field.now r.reached.now a b };

    #[tactic(auto, unfolding(crate::specs::Reached::numbers_meet))]
    fn may_meet(&self, a: u16, b: u16) -> bool {
        if !self.reached.has(a) || !self.reached.has(b) || a == b {
            return false;
        }
        self.field
            .may_meet(self.reached.seat(a), self.reached.seat(b))
    }

    #[tactic(auto, unfolding(crate::specs::Reached::number_may_be_left))]
    fn last_ok(&self, a: u16) -> bool {
        self.reached.has(a) && self.field.may_bye(self.reached.seat(a))
    }
}

impl<'a> ByNumber<'a> {
    /// How many players the bracket has.
    pub fn len(&self) -> usize
        ensures value { result ≡ length self.now.reached.now.seats }
        ensures few { result ≤ LIMIT }
    {
        self.reached.seats().len()
    }

    /// The score of a number, in half points.
    pub fn score(&self, number: u16) -> u16
        ensures value { result ≡ score_at self.now.field.now (seat_of self.now.reached.now.seats number) }
        ensures few { result ≤ 2 * MOST_ROUNDS }
    {
        self.field.score(self.reached.seat(number))
    }

    /// How many residents go down with a shape.
    pub fn residents_down(&self, shape: Shape) -> usize
        ensures { result ≡ residents_down self.now.reached.now shape }
    {
        let residents = self.len().saturating_sub(self.reached.mdps());
        let pairs = shape.pairs.saturating_sub(shape.mdps);
        residents
            .saturating_sub(shape.mdps)
            .saturating_sub(pairs.saturating_mul(2))
    }
}

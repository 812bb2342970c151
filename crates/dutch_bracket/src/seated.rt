// A candidate by the seats of its players: its pairs, and who goes down or up in them (C.04.3 A.8).
ghost use Rattle.std.specs.Prelude.{◌≡◌, ◌+◌, ◌≤◌, ◌++◌, length, map};
ghost use Rattle.arrayvec.specs.ArrayVec.{array_vec_len};
ghost use Rattle.dutch_bracket.specs.Seated as seating;

use arrayvec::ArrayVec;
use dutch_arrangements::{Candidate, LIMIT, Numbers};
use dutch_player::{Field, Float};
use std::marker::Model;

/// A player who goes down or up, and by how much.
#[derive(Clone, Copy)]
pub struct Floater {
    pub seat: u16,
    pub by: u16,
}

/// Two players who meet, by their seats.
pub type Pair = (u16, u16);

/// A candidate by seats, with at most as many pairs and downfloaters as a list has room for.
#[derive(Default, Drop)]
pub struct Seated {
    pub pairs: ArrayVec<Pair, LIMIT>,
    pub down: Numbers,
    // the lowest score in the bracket
    pub lowest: u16,
}

impl Model for Seated {
    ghost use Rattle.std.specs.Prelude.{◌+◌, ◌≤◌};
    ghost use Rattle.arrayvec.specs.ArrayVec.{array_vec_len};
    ghost use Rattle.dutch_sequence.specs.declared.numbers.TheConstants.{LIMIT};
    ghost use Rattle.dutch_bracket.specs.Seated.{Seated};

    ghost Value = { Seated };

    ghost view = { λ s. record { pairs = s.pairs.items; down = s.down.items; lowest = s.lowest } };

    ghost invariant = { λ s. array_vec_len s.pairs + array_vec_len s.down ≤ LIMIT };
}

/// The seat of a number in a bracket; 0 behind its last number.
pub(crate) fn seat_of(seats: &[u16], number: u16) -> u16
    ensures { result ≡ seating.seat_of seats.now number }
{
    match seats.get(usize::from(number).saturating_sub(1)) {
        Some(seat) => *seat,
        None => 0,
    }
}

/// The lowest of a score and those of some seats.
fn lowest_upto(field: &Field, least: u16, seats: &[u16]) -> u16
    ensures { result ≡ seating.lowest_upto field.now least seats.now }
{
    let mut least = least;
    for seat in seats {
        least = least.min(field.score(*seat));
    }
    least
}

/// The lowest score of some seats.
pub fn lowest(field: &Field, seats: &[u16]) -> u16
    ensures { result ≡ seating.lowest field.now seats.now }
{
    match seats {
        [seat, others @ ..] => lowest_upto(field, field.score(*seat), others),
        _ => 0,
    }
}

/// The difference of a pair.
pub fn difference(field: &Field, pair: Pair) -> u16
    ensures { result ≡ seating.difference field.now pair }
{
    field.score(pair.0).abs_diff(field.score(pair.1))
}

/// The difference of a downfloater.
pub fn difference_down(field: &Field, least: u16, seat: u16) -> u16
    ensures { result ≡ seating.difference_down field.now least seat }
{
    field.score(seat).saturating_sub(least) + 2
}

/// The players of a pair have different scores.
pub fn is_uneven(field: &Field, pair: Pair) -> bool
    ensures { result ≡ seating.is_uneven field.now pair }
{
    field.score(pair.0) != field.score(pair.1)
}

/// The player of a pair with different scores who floats so.
pub fn goes(field: &Field, float: Float, pair: Pair) -> Floater
    ensures { result ≡ seating.goes field.now float pair }
{
    let by = difference(field, pair);
    let first_is_lower = field.score(pair.0) < field.score(pair.1);
    match (float, first_is_lower) {
        (Float::Up, true) | (Float::Down, false) => Floater { seat: pair.0, by },
        (Float::Up, false) | (Float::Down, true) => Floater { seat: pair.1, by },
    }
}

/// Adds the pairs of two lists of numbers, place by place.
pub fn push_pairs(seats: &[u16], firsts: &[u16], seconds: &[u16], pairs: &mut ArrayVec<Pair, LIMIT>)
    requires equal { length firsts.now ≡ length seconds.now }
    requires room { array_vec_len pairs.old + length firsts.now ≤ LIMIT }
    ensures items { pairs.new.items ≡ pairs.old.items ++ seating.pairs_of seats.now firsts.now seconds.now }
    ensures len { array_vec_len pairs.new ≡ array_vec_len pairs.old + length firsts.now }
{
    for (i, first) in firsts.iter().enumerate() {
        pairs.push((seat_of(seats, *first), seat_of(seats, seconds[i])));
    }
}

/// Adds the seats of numbers.
pub fn push_seats(seats: &[u16], numbers: &[u16], own: &mut Numbers)
    requires { array_vec_len own.old + length numbers.now ≤ LIMIT }
    ensures { own.new.items ≡ own.old.items ++ map (seating.seat_of seats.now) numbers.now }
{
    for number in numbers {
        own.push(seat_of(seats, *number));
    }
}

/// The seats of numbers.
pub fn seats_of(seats: &[u16], numbers: &[u16]) -> Numbers
    requires { length numbers.now ≤ LIMIT }
    ensures { result.items ≡ map (seating.seat_of seats.now) numbers.now }
{
    let mut own = Numbers::new();
    push_seats(seats, numbers, &mut own);
    own
}

impl Seated {
    /// Fills it with a candidate of a bracket with these seats.
    pub(crate) fn fill(&mut self, field: &Field, seats: &[u16], candidate: &Candidate)
        requires { seating.IsCandidate candidate.now }
        ensures { self.new ≡ seating.by_seats field.now seats.now candidate.now }
    {
        self.pairs.clear();
        push_pairs(seats, candidate.s1(), candidate.s2(), &mut self.pairs);
        push_pairs(seats, candidate.s1r(), candidate.s2r(), &mut self.pairs);
        self.down.clear();
        push_seats(seats, candidate.down(), &mut self.down);
        self.lowest = lowest(field, seats);
    }
}

/// A candidate of a bracket with these seats, by seats.
pub fn by_seats(field: &Field, seats: &[u16], candidate: &Candidate) -> Seated
    requires { seating.IsCandidate candidate.now }
    ensures { result ≡ seating.by_seats field.now seats.now candidate.now }
{
    let mut seated = Seated::default();
    seated.fill(field, seats, candidate);
    seated
}

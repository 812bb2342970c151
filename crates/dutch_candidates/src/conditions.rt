// The conditions of the calls on the next bracket (C.04.3 C.7), as tests that a caller can make.
ghost use Rattle.std.specs.Prelude.{◌≡◌, ℕ, ◌<◌, ◌↔◌, true, length, slice_index};
ghost use Rattle.dutch_bracket.specs.Seated.{score_at, AreSeats};
ghost use Rattle.dutch_bracket.specs.NextBracket.{IsNext, AreLeft};

use dutch_arrangements::LIMIT;
use dutch_bracket::reached::{BracketKind, Reached};
use dutch_player::Field;

/// Yes if the numbers are of the bracket and ascend, as those of a candidate's downfloaters do.
pub fn are_left(reached: &Reached, down: &[u16]) -> bool
    ensures { (result ≡ true) ↔ AreLeft reached.now down.now }
{
    let mut last = 0;
    for number in down {
        if *number <= last || !reached.has(*number) {
            return false;
        }
        last = *number;
    }
    true
}

fn are_seats(field: &Field, seats: &[u16]) -> bool
    ensures { (result ≡ true) ↔ AreSeats field.now seats.now }
{
    seats.iter().all(|seat| usize::from(*seat) < field.len())
}

fn have_score(field: &Field, seats: &[u16], score: u16) -> bool
    ensures { (result ≡ true) ↔
        ((i : ℕ) → i < length seats.now → score_at field.now (slice_index seats.now i) ≡ score) }
{
    for seat in seats {
        if field.score(*seat) != score {
            return false;
        }
    }
    true
}

fn are_above(field: &Field, seats: &[u16], score: u16) -> bool
    ensures { (result ≡ true) ↔
        ((i : ℕ) → i < length seats.now → score < score_at field.now (slice_index seats.now i)) }
{
    for seat in seats {
        if field.score(*seat) <= score {
            return false;
        }
    }
    true
}

/// Yes if the seats can be the next lower scoregroup of a bracket: of one score, below the bracket's, with which there
/// are at most `LIMIT`; below an ordinary bracket there is one.
pub fn is_next(field: &Field, reached: &Reached, next: &[u16]) -> bool
    ensures { (result ≡ true) ↔ IsNext field.now reached.now next.now }
{
    if !are_seats(field, next) || reached.seats().len() + next.len() > LIMIT {
        return false;
    }
    let Some(first) = next.first() else {
        return !matches!(reached.kind(), BracketKind::Ordinary);
    };
    let score = field.score(*first);
    have_score(field, next, score) && are_above(field, reached.seats(), score)
}

// The first scoregroup of seats by rank (C.04.3 A.3).
ghost use Rattle.std.specs.Prelude.{◌≡◌, ◌≤◌, ◌++◌, drop, length};
ghost use Rattle.dutch_bracket.specs.Groups.{front_with};
ghost use Rattle.dutch_bracket.specs.Brackets.{first_group, scoregroups};

use dutch_player::Field;

/// How many seats at the front have a score.
pub(crate) fn front_with(field: &Field, score: u16, seats: &[u16]) -> usize
    ensures count { result ≡ front_with field.now score seats.now }
    ensures few { result ≤ length seats.now }
{
    let mut count = 0;
    for seat in seats {
        if field.score(*seat) != score {
            return count;
        }
        count += 1;
    }
    count
}

/// The first scoregroup of seats by rank, and the seats behind it; two empty lists where there is no seat.
#[tactic(auto, using(crate::proofs::GroupLemmas::first_group_taken, crate::proofs::GroupLemmas::others_dropped))]
pub fn split_first_group<'a>(field: &Field, seats: &'a [u16]) -> (&'a [u16], &'a [u16])
    ensures whole { result.0.now ++ result.1.now ≡ seats.now }
    ensures first { result.0.now ≡ first_group field.now (scoregroups field.now seats.now) }
    ensures others { scoregroups field.now result.1.now ≡ drop 1 (scoregroups field.now seats.now) }
{
    let Some((first, others)) = seats.split_first() else {
        return (seats, seats);
    };
    let count = front_with(field, field.score(*first), others);
    seats.split_at(count + 1)
}

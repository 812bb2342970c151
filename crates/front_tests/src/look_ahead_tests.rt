// The look-ahead from a bracket of eight to a scoregroup of four, and which of its values are kept.
ghost use Rattle.std.specs.Prelude.{◌≡◌, IfOk};
ghost use Rattle.dutch_pair.specs.Prelude.{IsOf};

use crate::reports::{Line, field_of};
use dutch_order::{Budget, Numbers};
use dutch_pair::{BracketAt, BracketKind, Look, LookAhead, Reached, are_left, bracket_at, is_next};
use dutch_player::Field;
use std::alloc::Global;
use std::test::Fail;

// Eight with a full-point bye, by rank, above four who drew.
const TWELVE: [Line; 12] = [
    ("001    1", "0000 - F"),
    ("001    2", "0000 - F"),
    ("001    3", "0000 - F"),
    ("001    4", "0000 - F"),
    ("001    5", "0000 - F"),
    ("001    6", "0000 - F"),
    ("001    7", "0000 - F"),
    ("001    8", "0000 - F"),
    ("001    9", "  10 w ="),
    ("001   10", "   9 b ="),
    ("001   11", "  12 w ="),
    ("001   12", "  11 b ="),
];

// The seats of the four.
const FOUR: [u16; 4] = [8, 9, 10, 11];

// The bracket of the eight.
fn eight(alloc: Global, field: &Field) -> Result<Reached, Fail>
    ensures { IfOk result (λ reached. IsOf field.now reached) }
{
    match bracket_at(alloc, field, 100_000, 1)? {
        BracketAt::Bracket {
            reached,
            shape: _shape,
        } => Ok(reached),
        _ => Err(Fail::new("no bracket")),
    }
}

// The look-ahead from the eight to the four.
fn look_at_four<'a>(
    alloc: Global,
    field: &'a Field,
    reached: &'a Reached,
) -> Result<LookAhead<'a>, Fail>
    requires { IsOf field.now reached.now }
    ensures { IfOk result (λ look. look.reached ≡ reached.now) }
{
    match reached.kind() {
        BracketKind::Ordinary => {}
        _ => return Err(Fail::new("not ordinary")),
    }
    if !is_next(field, reached, &FOUR) {
        return Err(Fail::new("no next scoregroup"));
    }
    Ok(LookAhead::new(alloc, field, reached, &FOUR)?)
}

// The places of the ones of a number, counted from 1: lists that differ, of numbers up to 8.
fn places_of_ones(alloc: Global, number: u16) -> Result<Vec<u16>, Fail> {
    let mut places = Vec::new(alloc);
    for place in 0..8 {
        if number >> place & 1 == 1 {
            places.push(place + 1)?;
        }
    }
    Ok(places)
}

// What the look-ahead answers for numbers of its bracket.
fn look_of(
    look: &mut LookAhead<'_>,
    reached: &Reached,
    down: &[u16],
    budget: &mut Budget,
) -> Result<Look, Fail>
    requires reached { look.old.reached ≡ reached.now }
    ensures reached { look.new.reached ≡ reached.now }
{
    if !are_left(reached, down) {
        return Err(Fail::new("not numbers of the bracket"));
    }
    match look.value(down, budget) {
        Look::Value { pairs, psd } => Ok(Look::Value { pairs, psd }),
        Look::Undecided => Ok(Look::Undecided),
    }
}

// A value; it fails where the limit was reached.
fn value_of(
    look: &mut LookAhead<'_>,
    reached: &Reached,
    down: &[u16],
    budget: &mut Budget,
) -> Result<(usize, Numbers), Fail>
    requires reached { look.old.reached ≡ reached.now }
    ensures reached { look.new.reached ≡ reached.now }
{
    match look_of(look, reached, down, budget)? {
        Look::Value { pairs, psd } => Ok((pairs, psd)),
        Look::Undecided => Err(Fail::new("undecided")),
    }
}

// A value that was kept is there again with no step left; it fails where nothing was kept.
fn is_kept(look: &mut LookAhead<'_>, reached: &Reached) -> Result<bool, Fail>
    requires reached { look.old.reached ≡ reached.now }
{
    let mut budget = Budget {
        limit: 100_000,
        used: 0,
    };
    let (pairs, psd) = value_of(look, reached, &[3, 8], &mut budget)?;
    let used = budget.used;
    let mut spent = Budget { limit: used, used };
    let (same, again) = value_of(look, reached, &[3, 8], &mut spent)?;
    Ok(
        used > 0
            && (pairs, same) == (3, 3)
            && psd.as_slice() == [1, 1, 0].as_slice()
            && again.as_slice() == psd.as_slice(),
    )
}

#[test]
fn a_value_that_is_kept_takes_no_step(rt: HostRuntime) -> Result<(), Fail> {
    let field = field_of(rt.alloc(), &TWELVE, Some(5))?;
    let reached = eight(rt.alloc(), &field)?;
    let mut look = look_at_four(rt.alloc(), &field, &reached)?;
    assert!(rt; is_kept(&mut look, &reached)?);
    Ok(())
}

// Looks up the values of the lists of 2 to 65, with no step to look for one that is not kept: then it fails.
fn look_up_the_last_64(
    alloc: Global,
    look: &mut LookAhead<'_>,
    reached: &Reached,
) -> Result<(), Fail>
    requires reached { look.old.reached ≡ reached.now }
    ensures reached { look.new.reached ≡ reached.now }
{
    let mut none = Budget { limit: 0, used: 0 };
    for number in 2..66 {
        let down = places_of_ones(alloc, number)?;
        value_of(look, reached, &down, &mut none)?;
    }
    Ok(())
}

// Looks up the values of the lists of 1 to 65; it fails where one is not kept, beside the 63 before it.
fn look_up_the_first_65(
    alloc: Global,
    look: &mut LookAhead<'_>,
    reached: &Reached,
    budget: &mut Budget,
) -> Result<(), Fail>
    requires reached { look.old.reached ≡ reached.now }
    ensures reached { look.new.reached ≡ reached.now }
{
    for number in 1..66 {
        let down = places_of_ones(alloc, number)?;
        value_of(look, reached, &down, budget)?;
        if look.len() < usize::from(number.min(64)) {
            return Err(Fail::new("out of memory"));
        }
    }
    Ok(())
}

#[test]
fn the_last_64_values_are_kept(rt: HostRuntime) -> Result<(), Fail> {
    let field = field_of(rt.alloc(), &TWELVE, Some(5))?;
    let reached = eight(rt.alloc(), &field)?;
    let mut look = look_at_four(rt.alloc(), &field, &reached)?;
    let mut budget = Budget {
        limit: 1_000_000,
        used: 0,
    };
    look_up_the_first_65(rt.alloc(), &mut look, &reached, &mut budget)?;
    assert!(rt; look.len() == 64);
    look_up_the_last_64(rt.alloc(), &mut look, &reached)?;
    let before = budget.used;
    value_of(&mut look, &reached, &[1], &mut budget)?;
    assert!(rt; budget.used > before);
    Ok(())
}

fn is_undecided(look: &mut LookAhead<'_>, reached: &Reached) -> Result<bool, Fail>
    requires reached { look.old.reached ≡ reached.now }
{
    let mut none = Budget { limit: 0, used: 0 };
    let answer = look_of(look, reached, &[1], &mut none)?;
    Ok(matches!(answer, Look::Undecided))
}

#[test]
fn an_undecided_value_is_not_kept(rt: HostRuntime) -> Result<(), Fail> {
    let field = field_of(rt.alloc(), &TWELVE, Some(5))?;
    let reached = eight(rt.alloc(), &field)?;
    let mut look = look_at_four(rt.alloc(), &field, &reached)?;
    assert!(rt; is_undecided(&mut look, &reached)? && look.len() == 0);
    Ok(())
}

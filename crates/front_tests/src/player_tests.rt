// Players before a round: their differences, preferences, floats and colours.

use crate::reports::{Line, THREE_ARE_ABSENT, TWO_LEAD, field_of};
use dutch_player::{Field, Float, Pref, Strength};
use std::test::Fail;
use trf16::Colour;

// The seat of a start rank, who must be present.
fn seat_of(field: &Field, start: u16) -> Result<u16, Fail> {
    match field.seat_with(start) {
        Some(seat) => Ok(seat),
        None => Err(Fail::new("not present")),
    }
}

fn has_preference(field: &Field, seat: u16, strength: Strength, colour: Colour) -> bool {
    field.preference(seat) == Some(Pref { strength, colour })
}

// Four games with white, and then two with black.
const FOUR_WHITES: [Line; 7] = [
    (
        "001    1",
        "   2 w =     3 w =     4 w =     5 w =     6 b =     7 b =",
    ),
    ("001    2", "   1 b ="),
    ("001    3", "             1 b ="),
    ("001    4", "                       1 b ="),
    ("001    5", "                                 1 b ="),
    (
        "001    6",
        "                                           1 w =",
    ),
    (
        "001    7",
        "                                                     1 w =",
    ),
];

#[test]
fn the_difference_decides_if_the_causes_disagree(rt: HostRuntime) -> Result<(), Fail> {
    let field = field_of(rt.alloc(), &FOUR_WHITES, Some(9))?;
    let first = seat_of(&field, 1)?;
    assert_eq!(rt; field.difference(first), 2);
    assert!(rt; has_preference(&field, first, Strength::Absolute, Colour::Black));
    Ok(())
}

// Two games with white, and then two with black.
const TWO_OF_EACH: [Line; 5] = [
    ("001    1", "   2 w =     3 w =     4 b =     5 b ="),
    ("001    2", "   1 b ="),
    ("001    3", "             1 b ="),
    ("001    4", "                       1 w ="),
    ("001    5", "                                 1 w ="),
];

#[test]
fn two_blacks_in_a_row_want_white(rt: HostRuntime) -> Result<(), Fail> {
    let field = field_of(rt.alloc(), &TWO_OF_EACH, Some(9))?;
    let first = seat_of(&field, 1)?;
    assert_eq!(rt; field.difference(first), 0);
    assert!(rt; has_preference(&field, first, Strength::Absolute, Colour::White));
    assert!(rt; field.last_two(first) == Some(Colour::Black));
    Ok(())
}

// Two of whom the first had black, white, white and black, and the second white, black, white and black.
const UNLIKE_HISTORIES: [Line; 6] = [
    ("001    1", "   3 b =     4 w =     5 w =     6 b ="),
    ("001    2", "   4 w =     5 b =     6 w =     3 b ="),
    ("001    3", "   1 w =                         2 w ="),
    ("001    4", "   2 b =     1 b ="),
    ("001    5", "             2 w =     1 b ="),
    ("001    6", "                       2 b =     1 w ="),
];

#[test]
fn the_last_unlike_colours_decide(rt: HostRuntime) -> Result<(), Fail> {
    let field = field_of(rt.alloc(), &UNLIKE_HISTORIES, Some(9))?;
    let (one, two) = (seat_of(&field, 1)?, seat_of(&field, 2)?);
    assert!(rt; has_preference(&field, one, Strength::Mild, Colour::White));
    assert!(rt; has_preference(&field, two, Strength::Mild, Colour::White));
    assert!(rt; field.colours(one, two) == (two, one) && field.colours(two, one) == (two, one));
    Ok(())
}

// The float in the second round, for the start ranks 1 to 6; in the first round nobody floats.
const FLOATS: [Option<Float>; 6] = [
    Some(Float::Down),
    Some(Float::Down),
    None,
    None,
    Some(Float::Up),
    Some(Float::Up),
];

fn have_floats(field: &Field) -> Result<bool, Fail> {
    for (place, float) in FLOATS.iter().enumerate() {
        let seat = seat_of(field, place as u16 + 1)?;
        if field.float(seat, 1) != *float || field.float(seat, 2).is_some() {
            return Ok(false);
        }
    }
    Ok(true)
}

#[test]
fn the_floats_of_two_rounds(rt: HostRuntime) -> Result<(), Fail> {
    let field = field_of(rt.alloc(), &TWO_LEAD, Some(9))?;
    assert!(rt; have_floats(&field)?);
    Ok(())
}

#[test]
fn who_won_by_forfeit(rt: HostRuntime) -> Result<(), Fail> {
    let field = field_of(rt.alloc(), &THREE_ARE_ABSENT, Some(9))?;
    let third = seat_of(&field, 3)?;
    assert!(rt; field.float(third, 1) == Some(Float::Down));
    assert!(rt; field.preference(third).is_none() && !field.may_bye(third));
    Ok(())
}

// Both leaders have more than half of the points, which counts in the last round alone.
#[test]
fn topscorers(rt: HostRuntime) -> Result<(), Fail> {
    for (total, is_last) in [(3, true), (4, false)] {
        let field = field_of(rt.alloc(), &TWO_LEAD, Some(total))?;
        assert_eq!(rt; field.score(0), 4);
        assert!(rt; field.topscorer(0) == is_last && field.topscorer(1) == is_last);
        assert!(rt; field.may_meet(0, 1) == is_last && !field.topscorer(2));
    }
    Ok(())
}

// Reports as their lines, and the fields that they are. Nothing is promised of them.

use dutch_player::Field;
use std::alloc::{AllocError, Global};
use std::test::Fail;
use trf16::{Colour, read};

// A line: of a player what stands in front of column 9, and what stands from column 92 on; of another line all of it,
// and nothing.
pub(crate) type Line = (&'static str, &'static str);

// Columns 9 to 91 of a player's line, without a name and without points.
const BLANK: &str =
    "                                                                                   ";

// The text of some lines.
pub(crate) fn text_of(alloc: Global, lines: &[Line]) -> Result<String, AllocError> {
    let mut text = String::new(alloc);
    for (front, cells) in lines {
        text.push_str(*front)?;
        if !cells.is_empty() {
            text.push_str(BLANK)?;
            text.push_str(*cells)?;
        }
        text.push_str("\n")?;
    }
    Ok(text)
}

// The field of some lines, for a total of rounds that is asked for, and white as the initial colour.
pub(crate) fn field_of(alloc: Global, lines: &[Line], total: Option<u8>) -> Result<Field, Fail> {
    let text = text_of(alloc, lines)?;
    let report = read(alloc, text.as_bytes()).map_err(|_| "the report is refused")?;
    Ok(Field::new(alloc, &report, total, Some(Colour::White)).map_err(|_| "no round is paired")?)
}

// Four players, and no round.
pub(crate) const FOUR: [Line; 4] = [
    ("001    1", ""),
    ("001    2", ""),
    ("001    3", ""),
    ("001    4", ""),
];

// Five players, and no round.
pub(crate) const FIVE: [Line; 5] = [
    ("001    1", ""),
    ("001    2", ""),
    ("001    3", ""),
    ("001    4", ""),
    ("001    5", ""),
];

// The first won against the third, and the others drew: the first moves down to the second and the fourth.
pub(crate) const ONE_MOVES_DOWN: [Line; 5] = [
    ("XXR 5", ""),
    ("001    1", "   3 w 1"),
    ("001    2", "   4 b ="),
    ("001    3", "   1 b 0"),
    ("001    4", "   2 w ="),
];

// Each of four has met the others.
pub(crate) const ALL_HAVE_MET: [Line; 5] = [
    ("XXR 4", ""),
    ("001    1", "   3 w =     2 b =     4 w ="),
    ("001    2", "   4 b =     1 w =     3 w ="),
    ("001    3", "   1 b =     4 w =     2 b ="),
    ("001    4", "   2 w =     3 b =     1 b ="),
];

// Of four, three are kept apart.
pub(crate) const THREE_ARE_APART: [Line; 5] = [
    ("XXP 1 2 3", ""),
    ("001    1", ""),
    ("001    2", ""),
    ("001    3", ""),
    ("001    4", ""),
];

// Two with a full-point bye, above two who have met.
pub(crate) const TWO_HAVE_MET: [Line; 5] = [
    ("XXR 3", ""),
    ("001    1", "0000 - F"),
    ("001    2", "0000 - F"),
    ("001    3", "   4 w ="),
    ("001    4", "   3 b ="),
];

// Two who have met, and two who asked for a bye, with half a point each.
pub(crate) const HALF_A_POINT_EACH: [Line; 4] = [
    ("001    1", "   3 w ="),
    ("001    2", "0000 - H"),
    ("001    3", "   1 b ="),
    ("001    4", "0000 - H"),
];

// Two who won both games, above four.
pub(crate) const TWO_LEAD: [Line; 6] = [
    ("001    1", "   3 w 1     5 w 1"),
    ("001    2", "   4 w 1     6 w 1"),
    ("001    3", "   1 b 0     4 w ="),
    ("001    4", "   2 b 0     3 b ="),
    ("001    5", "   6 w =     1 b 0"),
    ("001    6", "   5 b =     2 b 0"),
];

// Three are present, of whom one won by forfeit.
pub(crate) const THREE_ARE_ABSENT: [Line; 8] = [
    ("XXR 5", ""),
    ("XXZ 4 5 6", ""),
    ("001    1", "   5 w 1"),
    ("001    2", "   6 b 1"),
    ("001    3", "   4 w +"),
    ("001    4", "   3 b -"),
    ("001    5", "   1 b 0"),
    ("001    6", "   2 w 0"),
];

// A bye of half a point, a forfeit, and the pairing-allocated bye.
pub(crate) const HALF_AND_FORFEIT: [Line; 3] = [
    ("001    1", "0000 - H     2 w +"),
    ("001    2", "   3 w 1     1 b -"),
    ("001    3", "   2 b 0  0000 - U"),
];

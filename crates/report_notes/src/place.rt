// A place in the text of a report, in front of some of its notes. It is a slice of the text, the number of a line, and
// what is left to tell of that line. So there is no list, and no memory is taken.
ghost use Rattle.std.specs.Prelude.{◌+◌, ◌<◌, ◌^◌, length};

use crate::closing::ClosingLeft;
use crate::line::Left;

/// A place in front of some notes of a report.
#[derive(Clone, Copy)]
pub struct Place<'a> {
    // the lines behind the one in hand
    pub(crate) text: &'a [u8],
    // the number of the line in hand, from 1; 0 in front of the first
    pub(crate) line: usize,
    // what is still to be told of it
    pub(crate) left: Left<'a>,
    // what is still to be told behind all lines
    pub(crate) closing: ClosingLeft,
    ghost few: { line + length text.now < 2 ^ 64 },
}

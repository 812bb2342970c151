// A player of a report: what their line says, field by field.
ghost use Rattle.std.specs.Prelude.{◌≡◌, ◌≤◌, IfOk, vec_len};
ghost use Rattle.trf16_report.specs.declared.limits.TheConstants.{MOST_ROUNDS};

use crate::cell::Cell;
use std::alloc::{AllocError, Global};

/// What a line of the kind `001` says.
#[derive(Drop)]
pub struct Player<'a> {
    /// The start rank, 1 to 9999.
    pub start: u16,
    /// The number of the line, from 1.
    pub line: usize,
    /// The points field in half points, if it is not blank.
    pub points: Option<u16>,
    /// Columns 9 to 80 (sex, title, name, rating, federation, FIDE number, birth date), without the blanks at their
    /// end.
    pub left: &'a [u8],
    /// Columns 85 to 89 (rank), without the blanks at their end.
    pub right: &'a [u8],
    /// The rounds from the first to the last that is not blank.
    pub cells: Vec<Cell>,
    ghost few_cells: { vec_len cells ≤ MOST_ROUNDS },
}

impl<'a> Player<'a> {
    ghost use Rattle.trf16_report.specs.Sheet.{entry_of};

    /// The same once more.
    ///
    /// # Errors
    /// Memory was refused.
    pub fn copy(&self, alloc: Global) -> Result<Player<'a>, AllocError>
        ensures { IfOk result (λ player. entry_of player ≡ entry_of self.now) }
    {
        Ok(Player {
            start: self.start,
            line: self.line,
            points: self.points,
            left: self.left,
            right: self.right,
            cells: Vec::from_slice(alloc, &self.cells)?,
        })
    }
}

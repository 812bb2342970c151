// The lines of a report one by one, with what is carried of each.
ghost use Rattle.std.specs.Prelude.{◌≡◌, ◌<◌, ◌^◌, ◌∷◌, [], length, option_copied, MatchOption};

use crate::lines::next_line;
use crate::report::{Report, carried_as};
use std::marker::Model;

/// What is still to come of the lines of a report: each that is carried as it stands, and nothing at a player's line.
/// In a report as it stood before a round a line `XXZ` is its first three characters.
#[derive(Drop)]
pub struct CarriedLines<'a> {
    rest: &'a [u8],
    utf8: bool,
    bare_absences: bool,
}

impl<'a> Model for CarriedLines<'a> {
    ghost use Rattle.std.specs.Prelude.{List, Option, ℕ, map};
    ghost use Rattle.trf16_report.specs.Lines.{lines};
    ghost use Rattle.trf16_report.specs.Steps.{carried_as};

    ghost Value = { List (Option (List ℕ)) };

    ghost view = { λ l. map (carried_as l.bare_absences l.utf8) (lines l.rest.now) };
}

impl<'a> CarriedLines<'a> {
    /// The next line, with what is carried of it; nothing behind the last line.
    pub fn next(&mut self) -> Option<Option<&'a [u8]>>
        ensures { MatchOption result (self.old ≡ [])
            (λ line. self.old ≡ option_copied line ∷ self.new) }
    {
        if self.rest.is_empty() {
            return None;
        }
        let (line, after) = next_line(self.rest);
        self.rest = after;
        Some(carried_as(line, self.utf8, self.bare_absences))
    }
}

impl<'a> Report<'a> {
    /// All lines, in their order, with what is carried of each.
    pub fn carried_lines(&self) -> CarriedLines<'a>
        ensures lines { result ≡ self.now.carried }
        ensures few { length result < 2 ^ 63 }
    {
        CarriedLines {
            rest: self.text,
            utf8: self.utf8,
            bare_absences: self.bare_absences,
        }
    }
}

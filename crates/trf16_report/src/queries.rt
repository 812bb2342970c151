// What a report says of the round that comes next: who is absent, the points so far, which game has no result, and what
// is not supported.
ghost use Rattle.std.specs.Prelude.{◌≡◌, ◌<◌, ◌∷◌, [], length, map, slice_index_or, IfOk, IfSome};
ghost use Rattle.trf16_report.specs.Absence.{is_absence, is_named_absent, absent, apart, apart_from, some_carried, first_of};
ghost use Rattle.trf16_report.specs.Extensions.{names_both};
ghost use Rattle.trf16_report.specs.Sheet.{points_upto};
ghost use Rattle.trf16_report.specs.Answering.{has_other_points};
ghost use Rattle.trf16_report.specs.Unfinished.{unfinished};
ghost use Rattle.trf16_report.specs.declared.limits.TheConstants.{MOST_PLAYERS};

use crate::cell::{Bye, Cell};
use crate::cells::{first_unfinished, front};
use crate::extensions::names_both;
use crate::kind::LineKind;
use crate::lines::next_line;
use crate::noting::earlier;
use crate::report::Report;
use std::alloc::{AllocError, Global};

// A cell that says that a player does not play.
fn is_absence(cell: &Cell) -> bool
    ensures { result ≡ is_absence cell.now }
{
    match cell {
        Cell::Bye(Bye::Half | Bye::Full | Bye::Zero) => true,
        _ => false,
    }
}

impl<'a> Report<'a> {
    /// Yes if a line `XXZ` names a player: then they are absent from the next round, whatever their cells say.
    pub fn is_named_absent(&self, start: u16) -> bool
        ensures { result ≡ is_named_absent self.now start }
    {
        self.notes.absent.has(start)
    }

    fn first_line(&self, kind: LineKind) -> Option<usize>
        ensures { result ≡ first_of (kind ∷ []) self.now }
    {
        self.notes.first(kind)
    }

    /// Yes if a line `XXS` gives games other points: then a points field need not be the sum of the cells.
    pub fn has_other_points(&self) -> bool
        ensures { result ≡ has_other_points self.now }
    {
        self.first_line(LineKind::Xxs).is_some()
    }

    /// Yes if a player is absent from the round after the last one that was paired: a line `XXZ` names them, or their
    /// cell there is `H`, `F` or `Z`.
    pub fn absent(&self, start: u16) -> bool
        ensures { result ≡ absent self.now start }
    {
        self.is_named_absent(start) || is_absence(&self.cell(start, self.rounds_played() + 1))
    }

    // The place of a player in the order of the lines.
    fn place(&self, start: u16) -> Option<usize>
        ensures start { IfSome result (λ i. slice_index_or (map (λ entry. entry.start) self.now.players) i 0 ≡ start) }
        ensures within { IfSome result (λ i. i < length self.now.players) }
        ensures few { IfSome result (λ i. i < MOST_PLAYERS) }
    {
        self.players.get_index_of(&start)
    }

    // Yes if a line `XXP` names both numbers, found by walking the text.
    fn are_named_together(&self, a: u16, b: u16) -> bool
        ensures { result ≡ some_carried (names_both a b) self.now }
    {
        let mut rest = self.text;
        while !rest.is_empty() {
            let (line, after) = next_line(rest);
            if names_both(line, self.utf8, a, b) {
                return true;
            }
            rest = after;
        }
        false
    }

    // Yes if a line `XXP` names both numbers: looked up where both are start ranks of players, else found in the text.
    fn are_together(&self, a: u16, b: u16) -> bool
        ensures { result ≡ some_carried (names_both a b) self.now }
    {
        if !self.notes.together {
            return false;
        }
        match (self.place(a), self.place(b)) {
            (Some(i), Some(j)) => self.apart.has(i, j),
            _ => self.are_named_together(a, b),
        }
    }

    /// Yes if a line `XXP` names two different numbers: then the players with these start ranks do not meet in the next
    /// round. For players it is looked up; for a number that no player has, the time grows with the text.
    pub fn apart(&self, a: u16, b: u16) -> bool
        ensures { result ≡ apart self.now a b }
    {
        a != b && self.are_together(a, b)
    }

    /// The start ranks of the players whom one does not meet in the next round by a line `XXP`, in the order of their
    /// lines.
    ///
    /// # Errors
    /// Memory was refused.
    pub fn apart_from(&self, alloc: Global, start: u16) -> Result<Vec<u16>, AllocError>
        ensures { IfOk result (λ starts. starts.items ≡ apart_from self.now start) }
    {
        let mut starts = Vec::new(alloc);
        if !self.notes.together {
            return Ok(starts);
        }
        for player in self.players() {
            if self.apart(start, player.start) {
                starts.push(player.start)?;
            }
        }
        Ok(starts)
    }

    /// The half points of a player in the rounds 1 to `upto`.
    pub fn points(&self, start: u16, upto: u8) -> u16
        ensures value { result ≡ points_upto self.now start upto }
    {
        match self.player(start) {
            Some(player) => self.points_over(front(&player.cells, upto)),
            None => 0,
        }
    }

    /// The player and the round of the first game that has no result, by the order of the players' lines and then by
    /// round.
    pub fn unfinished(&self) -> Option<(u16, usize)>
        ensures { result ≡ unfinished self.now }
    {
        for player in self.players() {
            if let Some(round) = first_unfinished(&player.cells) {
                return Some((player.start, round));
            }
        }
        None
    }

    /// The number of the first line of one of some kinds, from 1.
    pub fn unsupported(&self, kinds: &[LineKind]) -> Option<usize>
        ensures { result ≡ first_of kinds.now self.now }
    {
        let mut first = None;
        for kind in kinds {
            first = earlier(first, self.first_line(*kind));
        }
        first
    }
}

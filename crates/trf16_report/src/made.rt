// A report made of another one: with other players, or with nobody absent by its lines `XXZ`. Of the lines `XXZ` of a
// report as it stood before a round only the first three characters are carried (`bare_absences`), and nobody is noted
// as absent by them.
ghost use Rattle.std.specs.Prelude.{◌≡◌, IfOk, map, option_map};
ghost use Rattle.std.specs.Map.{keys_of};
ghost use Rattle.trf16_report.specs.BeforeRound.{line_back};
ghost use Rattle.trf16_report.specs.Sheet.{entry_of};

use crate::player::Player;
use crate::report::{Report, last_round_of};
use indexmap::IndexMap;
use std::alloc::{AllocError, Global};

impl<'a> Report<'a> {
    /// The report with other players, by their start ranks, which are those of its own players in the same order.
    ///
    /// # Errors
    /// Memory was refused.
    pub fn with_players(
        &self,
        alloc: Global,
        players: IndexMap<u16, Player<'a>>,
    ) -> Result<Report<'a>, AllocError>
        requires keyed { keys_of players.entries ≡ map (λ e. e.1.start) players.entries }
        requires same { map (λ e. e.1.start) players.entries ≡ map (λ entry. entry.start) self.now.players }
        ensures { IfOk result (λ report. report ≡ record self.now { players = map (λ e. entry_of e.1) players.entry.entries }) }
    {
        let notes = self.notes.copy(alloc)?;
        let apart = self.apart.copy(alloc)?;
        let rounds = last_round_of(&players);
        Ok(Report {
            utf8: self.utf8,
            text: self.text,
            bare_absences: self.bare_absences,
            players,
            total: self.total,
            initial: self.initial,
            rounds,
            notes,
            bye: self.bye,
            apart,
        })
    }

    /// The report, of whose lines `XXZ` the first three characters alone are carried; so nobody is absent by them.
    pub fn with_bare_absences(self) -> Report<'a>
        ensures { result ≡ record self.entry {
          carried = map (option_map (line_back self.entry.utf8)) self.entry.carried;
        } }
    {
        let mut report = self;
        report.notes.forget_absences();
        report.bare_absences = true;
        report
    }
}

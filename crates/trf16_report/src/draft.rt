// What the lines so far say: a report whose lines are still being read. It becomes a `Report` once the limits are
// looked at.
ghost use Rattle.std.specs.Prelude.{◌≡◌, ◌≤◌, false, length, map, is_some, IfOk, Ok, Some};
ghost use Rattle.trf16_report.specs.Lines.{lines};
ghost use Rattle.trf16_report.specs.Outcomes.{Gives};
ghost use Rattle.trf16_report.specs.Sheet.{entry_of, with_player, known};
ghost use Rattle.trf16_report.specs.Verdict.{without_players, names_too_many_rounds};
ghost use Rattle.trf16_report.specs.Notes.{Tells, TellsApart};
ghost use Rattle.trf16_report.specs.declared.limits.TheConstants.{MOST_PLAYERS};

use crate::apart::Apart;
use crate::cell::Colour;
use crate::fault::Fault;
use crate::limits::MOST_ROUNDS;
use crate::notes::Notes;
use crate::player::Player;
use crate::report::{Report, last_round_of};
use indexmap::IndexMap;
use std::alloc::{AllocError, Global};
use std::marker::Model;

// The same as a report, but for its limits, which are looked at after all lines.
#[derive(Drop)]
pub struct Draft<'a> {
    utf8: bool,
    // everything behind the byte order marks
    text: &'a [u8],
    players: IndexMap<u16, Player<'a>>,
    total: Option<u16>,
    initial: Option<Colour>,
    // what the pairing-allocated bye gives, in half points
    bye: u16,
}

impl<'a> Model for Draft<'a> {
    ghost use Rattle.std.specs.Prelude.{◌≡◌, ◌≤◌, map};
    ghost use Rattle.std.specs.Map.{keys_of};
    ghost use Rattle.trf16_report.specs.Lines.{lines};
    ghost use Rattle.trf16_report.specs.Sheet.{Sheet, entry_of};
    ghost use Rattle.trf16_report.specs.Verdict.{carried_line};

    ghost Value = { Sheet };

    ghost view = { λ r. record {
      utf8 = r.utf8;
      carried = map (carried_line r.utf8) (lines r.text.now);
      players = map (λ e. entry_of e.1) r.players.entries;
      total = r.total;
      initial = r.initial;
      bye = r.bye;
    } };

    ghost invariant = { λ r. (keys_of r.players.entries ≡ map (λ e. e.1.start) r.players.entries) × (r.bye ≤ 2) };
}

impl<'a> Draft<'a> {
    /// A report of which no line is read yet.
    pub fn new(alloc: Global, text: &'a [u8], utf8: bool, bye: u16) -> Draft<'a>
        requires { bye ≤ 2 }
        ensures { result ≡ without_players utf8 (lines text.now) bye }
    {
        Draft {
            utf8,
            text,
            players: IndexMap::new(alloc),
            total: None,
            initial: None,
            bye,
        }
    }

    /// If so, a column is a character; otherwise it is a byte.
    pub fn is_utf8(&self) -> bool
        ensures { result ≡ self.now.utf8 }
    {
        self.utf8
    }

    /// Yes if a player of the lines so far has this start rank.
    pub fn knows(&self, start: u16) -> bool
        ensures { result ≡ known self.now start }
    {
        self.players.contains_key(&start)
    }

    /// How many players there are.
    pub fn count(&self) -> usize
        ensures { result ≡ length self.now.players }
    {
        self.players.len()
    }

    /// Adds the player of the next line.
    pub fn enter(&mut self, player: Player<'a>) -> Result<(), Fault>
        requires { known self.old player.start ≡ false }
        ensures { Gives (λ _. self.new) result (Ok (with_player self.old (entry_of player.entry))) }
    {
        self.players.insert(player.start, player)?;
        Ok(())
    }

    /// Yes if the lines so far name the total of rounds.
    pub fn has_total(&self) -> bool
        ensures { result ≡ is_some self.now.total }
    {
        self.total.is_some()
    }

    /// Names the total of rounds.
    pub fn set_total(&mut self, rounds: u16)
        ensures { self.new ≡ record self.old { total = Some rounds } }
    {
        self.total = Some(rounds);
    }

    /// The initial colour that the lines so far name.
    pub fn initial(&self) -> Option<Colour>
        ensures { result ≡ self.now.initial }
    {
        self.initial
    }

    /// Names the initial colour, or none.
    pub fn set_initial(&mut self, initial: Option<Colour>)
        ensures { self.new ≡ record self.old { initial = initial } }
    {
        self.initial = initial;
    }

    /// Yes if the lines so far name a total of more than `MOST_ROUNDS` rounds.
    pub fn names_too_many_rounds(&self) -> bool
        ensures { result ≡ names_too_many_rounds self.now }
    {
        match self.total {
            Some(rounds) => MOST_ROUNDS < usize::from(rounds),
            None => false,
        }
    }

    /// Who is named together by lines `XXP`, where it is noted whether there is one.
    pub fn apart(&self, alloc: Global, notes: &Notes) -> Result<Apart, AllocError>
        requires noted { Tells notes.now self.now }
        requires few { length self.now.players ≤ MOST_PLAYERS }
        ensures { IfOk result (λ apart. TellsApart apart self.now) }
    {
        if notes.together {
            Apart::read(alloc, &self.players, self.text, self.utf8)
        } else {
            Ok(Apart::none(alloc, self.players.len()))
        }
    }

    /// The report, once its limits are looked at and all of its lines are noted.
    pub fn into_report(self, notes: Notes, apart: Apart) -> Report<'a>
        requires noted { Tells notes self }
        requires told_apart { TellsApart apart self }
        requires few_players { length self.players ≤ MOST_PLAYERS }
        requires few_rounds { names_too_many_rounds self ≡ false }
        ensures { result ≡ self.entry }
    {
        let Draft {
            utf8,
            text,
            players,
            total,
            initial,
            bye,
        } = self;
        let rounds = last_round_of(&players);
        Report {
            utf8,
            text,
            bare_absences: false,
            players,
            total: total.map(|rounds| rounds as u8),
            initial,
            rounds,
            notes,
            bye,
            apart,
        }
    }
}

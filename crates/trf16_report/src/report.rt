// A report that was accepted, and what it says.
ghost use Rattle.std.specs.Prelude.{◌≡◌, ◌<◌, ◌≤◌, ◌*◌, map, length, option_copied, option_map, IfSome, [], sum_by};
ghost use Rattle.std.specs.Prelude.{nat_eq};
ghost use Rattle.std.specs.List.{IsDistinct};
ghost use Rattle.std.specs.Option.{option_map_or};
ghost use Rattle.trf16_report.specs.Names.{player_of};
ghost use Rattle.trf16_report.specs.Sheet.{entry_of, known, cells_of, cell_in, carried_in, half_points, last_paired_of};
ghost use Rattle.trf16_report.specs.Sheet.{rounds_played};
ghost use Rattle.trf16_report.specs.StartRanks.{starts_of};
ghost use Rattle.trf16_report.specs.Steps.{carried_as};
ghost use Rattle.trf16_report.specs.declared.limits.TheConstants.{MOST_PLAYERS, MOST_ROUNDS};

use crate::apart::Apart;
use crate::cell::{Cell, Colour};
use crate::cells::{cell_at, last_paired, points_of};
use crate::columns::split_kind;
use crate::extensions::is_word;
use crate::lines::next_line;
use crate::notes::Notes;
use crate::player::Player;
use indexmap::IndexMap;
use indexmap::map::Values;
use std::marker::Model;

/// A report: its lines as they stand, and its players by start rank, in the order of their lines.
#[derive(Drop)]
pub struct Report<'a> {
    pub(crate) utf8: bool,
    // everything behind the byte order marks
    pub(crate) text: &'a [u8],
    // of a line `XXZ` the first three characters alone are carried, and nobody is absent by it
    pub(crate) bare_absences: bool,
    pub(crate) players: IndexMap<u16, Player<'a>>,
    pub(crate) total: Option<u8>,
    pub(crate) initial: Option<Colour>,
    // the last round that was paired
    pub(crate) rounds: u8,
    // what the carried lines say beside total and colour
    pub(crate) notes: Notes,
    // what the pairing-allocated bye gives, in half points
    pub(crate) bye: u16,
    // who is named together by lines `XXP`
    pub(crate) apart: Apart,
}

impl<'a> Model for Report<'a> {
    ghost use Rattle.std.specs.Prelude.{◌≡◌, ◌≤◌, map, length};
    ghost use Rattle.std.specs.Option.{ForSome};
    ghost use Rattle.std.specs.Map.{keys_of};
    ghost use Rattle.trf16_report.specs.Lines.{lines};
    ghost use Rattle.trf16_report.specs.Sheet.{Sheet, entry_of, last_paired_of};
    ghost use Rattle.trf16_report.specs.Notes.{Tells, TellsApart};
    ghost use Rattle.trf16_report.specs.Steps.{carried_as, lines_carried};
    ghost use Rattle.trf16_report.specs.declared.limits.TheConstants.{MOST_PLAYERS, MOST_ROUNDS};

    ghost Value = { Sheet };

    ghost view = { λ r. record {
      utf8 = r.utf8;
      carried = map (carried_as r.bare_absences r.utf8) (lines r.text.now);
      players = map (λ e. entry_of e.1) r.players.entries;
      total = r.total;
      initial = r.initial;
      bye = r.bye;
    } };

    ghost invariant = { λ r. (keys_of r.players.entries ≡ map (λ e. e.1.start) r.players.entries)
        × (length r.players.entries ≤ MOST_PLAYERS) × ForSome r.total (λ total. total ≤ MOST_ROUNDS)
        × (r.rounds ≡ last_paired_of (map (λ e. entry_of e.1) r.players.entries)) × (r.rounds ≤ MOST_ROUNDS)
        × Tells r.notes (lines_carried r.bare_absences r.utf8 (lines r.text.now) r.bye) × (r.bye ≤ 2)
        × TellsApart r.apart (record (lines_carried r.bare_absences r.utf8 (lines r.text.now) r.bye) {
          players = map
              (λ e. entry_of e.1) r.players.entries;
        }) };
}

impl<'a> Report<'a> {
    /// The players, in the order of their lines.
    pub fn players(&self) -> Values<'_, u16, Player<'a>>
        ensures players { map entry_of result ≡ self.now.players }
        ensures few { length result ≤ MOST_PLAYERS }
    {
        self.players.values()
    }

    /// How many players there are; no two of them have the same start rank.
    pub fn count(&self) -> usize
        ensures count { result ≡ length self.now.players }
        ensures own { IsDistinct nat_eq (starts_of self.now.players) }
    {
        self.players.len()
    }

    /// The total of rounds that a line `XXR` names, 1 to `MOST_ROUNDS`.
    pub fn total_rounds(&self) -> Option<u8>
        ensures value { result ≡ self.now.total }
        ensures few { IfSome result (λ total. total ≤ MOST_ROUNDS) }
    {
        self.total
    }

    /// The initial colour that a line `XXC` names.
    pub fn initial(&self) -> Option<Colour>
        ensures { result ≡ self.now.initial }
    {
        self.initial
    }

    /// What the pairing-allocated bye gives, in half points: 0, 1 or 2.
    pub fn bye(&self) -> u16
        ensures value { result ≡ self.now.bye }
        ensures few { result ≤ 2 }
    {
        self.bye
    }

    /// The half points of some rounds, by what the pairing-allocated bye gives in this report.
    pub fn points_over(&self, cells: &[Cell]) -> u16
        requires { length cells.now ≤ MOST_ROUNDS }
        ensures value { result ≡ sum_by (half_points self.now.bye) cells.now }
        ensures few { result ≤ 2 * MOST_ROUNDS }
    {
        points_of(cells, self.bye)
    }

    /// Yes if a player of the report has the start rank.
    pub fn knows(&self, start: u16) -> bool
        ensures { result ≡ known self.now start }
    {
        self.players.contains_key(&start)
    }

    /// The player with a start rank, if a player has it.
    pub fn player(&self, start: u16) -> Option<&Player<'a>>
        ensures cells { option_map_or (λ p. p.now.cells.items) result [] ≡ cells_of self.now.players start }
        ensures entry { option_map (λ p. entry_of p.now) result ≡ player_of self.now.players start }
    {
        self.players.get(&start)
    }

    /// The cell of a player in a round, which counts from 1; behind their last cell it is blank.
    pub fn cell(&self, start: u16, round: u8) -> Cell
        requires { 0 < round }
        ensures { result ≡ cell_in self.now start round }
    {
        match self.player(start) {
            Some(player) => cell_at(&player.cells, round),
            None => Cell::Blank,
        }
    }

    /// The last round in which some player has an opponent or the pairing-allocated bye; 0 if there is none.
    pub fn rounds_played(&self) -> u8
        ensures value { result ≡ rounds_played self.now }
        ensures few { result ≤ MOST_ROUNDS }
    {
        self.rounds
    }

    /// The line of a number, from 1, as it stands; none if it is a player's line, or if the text has no such line. In a
    /// report as it stood before a round a line `XXZ` is its first three characters. The time grows with the text.
    pub fn carried(&self, line: usize) -> Option<&'a [u8]>
        requires { 0 < line }
        ensures { option_copied result ≡ carried_in self.now line }
    {
        let mut rest = self.text;
        let mut left = line;
        while !rest.is_empty() {
            let (first, after) = next_line(rest);
            if left == 1 {
                return carried_as(first, self.utf8, self.bare_absences);
            }
            left -= 1;
            rest = after;
        }
        None
    }
}

/// The last round in which one of some players is paired.
pub(crate) fn last_round_of(players: &IndexMap<u16, Player<'_>>) -> u8
    ensures value { result ≡ last_paired_of (map (λ e. entry_of e.1) players.now.entries) }
    ensures few { result ≤ MOST_ROUNDS }
{
    let mut last = 0u8;
    for player in players.values() {
        last = last.max(last_paired(&player.cells));
    }
    last
}

// A line, unless it is a player's; if absences are bare, of a line `XXZ` the kind alone.
pub(crate) fn carried_as(line: &[u8], utf8: bool, bare_absences: bool) -> Option<&[u8]>
    ensures { option_copied result ≡ carried_as bare_absences utf8 line.now }
{
    let (kind, _) = split_kind(line, utf8);
    if kind == b"001".as_slice() {
        return None;
    }
    if bare_absences && is_word(kind, b"XXZ") {
        Some(kind)
    } else {
        Some(line)
    }
}

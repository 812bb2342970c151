// Marking which players are named together by lines `XXP`: each line names a set, and each two of it are marked.
ghost use Rattle.std.specs.Prelude.{◌≡◌, ℕ, ◌<◌, ◌≤◌, ◌&&◌, ◌||◌, ◌==◌, ◌+◌, ◌*◌, [], false, length, slice_index_or};
ghost use Rattle.std.specs.Prelude.{IfOk, vec_len};
ghost use Rattle.std.specs.Map.{keys_of};
ghost use Rattle.trf16_report.specs.Lines.{lines, columns};
ghost use Rattle.trf16_report.specs.Extensions.{names_both};
ghost use Rattle.trf16_report.specs.Places.{is_place};
ghost use Rattle.trf16_report.specs.Notes.{are_marked, start_at};
ghost use Rattle.trf16_report.specs.Verdict.{without_players};
ghost use Rattle.trf16_report.specs.Absence.{some_carried};
ghost use Rattle.trf16_report.specs.declared.limits.TheConstants.{MOST_PLAYERS};

use crate::apart::Apart;
use crate::columns::split_kind;
use crate::extensions::is_word;
use crate::lines::next_line;
use crate::named::Named;
use crate::player::Player;
use indexmap::IndexMap;
use std::alloc::{AllocError, Global};

// A line as it stands, and whether its columns are characters.
#[derive(Clone, Copy, Drop)]
struct RawLine<'t> {
    bytes: &'t [u8],
    utf8: bool,
}

impl Apart {
    /// Nobody of so many players is named together with another.
    pub(crate) fn none(alloc: Global, count: usize) -> Apart
        requires { count ≤ MOST_PLAYERS }
        ensures none { (i j : ℕ) → are_marked result i j ≡ false }
        ensures count { result.count ≡ count }
    {
        Apart {
            count,
            marks: Vec::new(alloc),
        }
    }

    // Nobody is named together with another, with room for a mark for each two.
    fn with_room(alloc: Global, count: usize) -> Result<Apart, AllocError>
        requires { count ≤ MOST_PLAYERS }
        ensures none { IfOk result (λ apart. (i j : ℕ) → are_marked apart i j ≡ false) }
        ensures count { IfOk result (λ apart. apart.count ≡ count) }
        ensures room { IfOk result (λ apart. vec_len apart.marks ≡ count * count) }
    {
        Ok(Apart {
            count,
            marks: Vec::from_elem(alloc, false, count * count)?,
        })
    }

    pub(crate) fn copy(&self, alloc: Global) -> Result<Apart, AllocError>
        ensures both { IfOk result (λ apart. (i j : ℕ) → are_marked apart i j ≡ are_marked self.now i j) }
        ensures count { IfOk result (λ apart. apart.count ≡ self.now.count) }
    {
        Ok(Apart {
            count: self.count,
            marks: Vec::from_slice(alloc, &self.marks)?,
        })
    }

    pub(crate) fn has(&self, i: usize, j: usize) -> bool
        requires first { i < MOST_PLAYERS }
        requires second { j < MOST_PLAYERS }
        ensures { result ≡ are_marked self.now i j }
    {
        match self.marks.get(self.count * i + j) {
            Some(marked) => *marked,
            None => false,
        }
    }

    // Marks each two of those who are named.
    fn mark_each_two(&mut self, named: &Named)
        requires count { vec_len named.now.marks ≡ self.old.count }
        requires room { vec_len self.old.marks ≡ self.old.count * self.old.count }
        ensures marked { (k l : ℕ) → l < self.old.count → are_marked self.new k l
            ≡ (are_marked self.old k l || (is_place named.now.places.items k && is_place named.now.places.items l)) }
        ensures same { self.new.count ≡ self.old.count }
        ensures room { vec_len self.new.marks ≡ self.new.count * self.new.count }
    {
        for place in &named.places {
            mark_row(&mut self.marks, *place, &named.marks);
        }
    }

    // Marks each two whom a line names, if it is of the kind `XXP`. Nobody is named before it and behind it.
    fn mark_line(
        &mut self,
        players: &IndexMap<u16, Player<'_>>,
        named: &mut Named,
        line: RawLine<'_>,
    ) -> Result<(), AllocError>
        requires count { self.old.count ≡ length players.now.entries }
        requires room { vec_len self.old.marks ≡ self.old.count * self.old.count }
        requires nobody { named.old.places.items ≡ [] }
        requires all { vec_len named.old.marks ≡ length players.now.entries }
        ensures marked { IfOk result (λ _. (k l : ℕ) → k < self.old.count → l < self.old.count
            → are_marked self.new k l ≡ (are_marked self.old k l || names_both (start_at (keys_of players.now.entries) k)
            (start_at (keys_of players.now.entries) l) (columns line.entry.utf8 line.entry.bytes.now))) }
        ensures same { self.new.count ≡ self.old.count }
        ensures room { vec_len self.new.marks ≡ self.new.count * self.new.count }
        ensures nobody { IfOk result (λ _. named.new.places.items ≡ []) }
        ensures all { vec_len named.new.marks ≡ vec_len named.old.marks }
    {
        let (kind, rest) = split_kind(line.bytes, line.utf8);
        if !is_word(kind, b"XXP") {
            return Ok(());
        }
        named.add_words(players, rest)?;
        self.mark_each_two(named);
        named.clear();
        Ok(())
    }

    /// Who is named together by the lines of a text.
    pub(crate) fn read(
        alloc: Global,
        players: &IndexMap<u16, Player<'_>>,
        text: &[u8],
        utf8: bool,
    ) -> Result<Apart, AllocError>
        requires { length players.now.entries ≤ MOST_PLAYERS }
        ensures both { IfOk result (λ apart. (i j : ℕ) → i < apart.count → j < apart.count
            → are_marked apart i j ≡ some_carried (names_both (start_at (keys_of players.now.entries) i)
            (start_at (keys_of players.now.entries) j)) (without_players utf8 (lines text.now) 0)) }
        ensures count { IfOk result (λ apart. apart.count ≡ length players.now.entries) }
    {
        let mut apart = Apart::with_room(alloc, players.len())?;
        let mut named = Named::none(alloc, players.len())?;
        let mut rest = text;
        while !rest.is_empty() {
            let (line, after) = next_line(rest);
            apart.mark_line(players, &mut named, RawLine { bytes: line, utf8 })?;
            rest = after;
        }
        Ok(apart)
    }
}

// Marks in the row of a player each who is named.
fn mark_row(marks: &mut [bool], i: usize, named: &[bool])
    requires row { i < length named.now }
    requires few { length named.now ≤ MOST_PLAYERS }
    requires room { length marks.old ≡ length named.now * length named.now }
    ensures marked { let n = length named.now in (k l : ℕ) → l < n → slice_index_or marks.new (n * k + l) false
        ≡ (slice_index_or marks.old (n * k + l) false || ((i == k) && slice_index_or named.now l false)) }
    ensures len { length marks.new ≡ length marks.old }
{
    let front = named.len() * i;
    for place in 0..named.len() {
        marks[front + place] |= named[place];
    }
}

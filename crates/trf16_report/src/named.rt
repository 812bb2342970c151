// The players whom a line names: a list that is cleared by what it held, so a line takes time in step with its words
// and with those whom it names.
ghost use Rattle.std.specs.Prelude.{◌≡◌, ℕ, ◌<◌, ◌&&◌, ◌||◌, ◌==◌, [], false, not, length, slice_index_or, vec_len};
ghost use Rattle.std.specs.Prelude.{IfOk, IfSome};
ghost use Rattle.std.proofs.Props.{props};
ghost use Rattle.std.specs.List.{AllByRecursion};
ghost use Rattle.std.specs.Map.{keys_of};
ghost use Rattle.std.specs.Option.{option_map_or};
ghost use Rattle.trf16_report.specs.Fields.{words, number_of};
ghost use Rattle.trf16_report.specs.Extensions.{is_named};
ghost use Rattle.trf16_report.specs.Notes.{start_at};
ghost use Rattle.trf16_report.specs.Places.{is_place};

use crate::fields::{next_word, number_of};
use crate::player::Player;
use indexmap::IndexMap;
use std::alloc::{AllocError, Global};

/// Players by their places in the order of the lines.
#[derive(Drop)]
pub(crate) struct Named {
    // by place: whether the player is named
    pub(crate) marks: Vec<bool>,
    // the places of those who are, each once
    pub(crate) places: Vec<usize>,
    ghost same: { (k : ℕ) → slice_index_or marks.items k false ≡ is_place places.items k },
    ghost inside: { AllByRecursion (λ place. place < vec_len marks) places.items } by { Prim.hlevel props },
}

impl Named {
    /// Nobody of so many players.
    pub(crate) fn none(alloc: Global, count: usize) -> Result<Named, AllocError>
        ensures none { IfOk result (λ named. named.places.items ≡ []) }
        ensures count { IfOk result (λ named. vec_len named.marks ≡ count) }
    {
        Ok(Named {
            marks: Vec::from_elem(alloc, false, count)?,
            places: Vec::new(alloc),
        })
    }

    // One player more.
    fn add(&mut self, place: usize) -> Result<(), AllocError>
        requires { place < vec_len self.old.marks }
        ensures more { IfOk result (λ _. (k : ℕ)
            → is_place self.new.places.items k ≡ (is_place self.old.places.items k || (place == k))) }
        ensures count { vec_len self.new.marks ≡ vec_len self.old.marks }
    {
        if self.marks[place] {
            return Ok(());
        }
        self.places.push(place)?;
        self.marks[place] = true;
        Ok(())
    }

    // The player whom a word names more, if it names one.
    fn add_word(
        &mut self,
        players: &IndexMap<u16, Player<'_>>,
        word: &[u8],
    ) -> Result<(), AllocError>
        requires { vec_len self.old.marks ≡ length players.now.entries }
        ensures more { IfOk result (λ _. (k : ℕ) → k < length players.now.entries
            → is_place self.new.places.items k ≡ (is_place self.old.places.items k || option_map_or
            (λ n. n == start_at (keys_of players.now.entries) k) (number_of word.now) false)) }
        ensures count { vec_len self.new.marks ≡ vec_len self.old.marks }
    {
        match place_of(players, word) {
            Some(place) => self.add(place),
            None => Ok(()),
        }
    }

    /// Each player whom some words name more.
    pub(crate) fn add_words(
        &mut self,
        players: &IndexMap<u16, Player<'_>>,
        bytes: &[u8],
    ) -> Result<(), AllocError>
        requires { vec_len self.old.marks ≡ length players.now.entries }
        ensures more { IfOk result (λ _. (k : ℕ) → k < length players.now.entries
            → is_place self.new.places.items k ≡ (is_place self.old.places.items k || is_named (words bytes.now)
            (start_at (keys_of players.now.entries) k))) }
        ensures count { vec_len self.new.marks ≡ vec_len self.old.marks }
    {
        let mut rest = bytes;
        while let Some((word, after)) = next_word(rest) {
            self.add_word(players, word)?;
            rest = after;
        }
        Ok(())
    }

    /// Nobody any more.
    pub(crate) fn clear(&mut self)
        ensures none { self.new.places.items ≡ [] }
        ensures count { vec_len self.new.marks ≡ vec_len self.old.marks }
    {
        unmark(&mut self.marks, &self.places);
        self.places.clear();
    }
}

// The place of the player whose start rank a word is.
fn place_of(players: &IndexMap<u16, Player<'_>>, word: &[u8]) -> Option<usize>
    ensures place { (k : ℕ) → k < length players.now.entries → option_map_or (λ place. place == k) result false
        ≡ option_map_or (λ n. n == start_at (keys_of players.now.entries) k) (number_of word.now) false }
    ensures within { IfSome result (λ place. place < length players.now.entries) }
{
    let start = number_of(word)?;
    players.get_index_of(&start)
}

// Takes the marks at some places away.
fn unmark(marks: &mut [bool], places: &[usize])
    requires { AllByRecursion (λ place. place < length marks.old) places.now }
    ensures away { (k : ℕ) → slice_index_or marks.new k false
        ≡ (slice_index_or marks.old k false && not (is_place places.now k)) }
    ensures len { length marks.new ≡ length marks.old }
{
    for place in places {
        marks[*place] = false;
    }
}

// The path of a search, specified by a list of numbers. Each number has a mark, so that it need not be looked for in
// the path at each trial. A mark is flipped, and not set, when its number is put behind the path or taken back: so it
// is right whatever the search puts there, also where a number comes twice.
ghost use Rattle.std.specs.Prelude.{◌≡◌, ◌+◌, ◌*◌, ◌<◌, ℕ, [], ◌∷◌, ◌++◌, length, not, if◌then◌else◌, ◌==◌, eqb};
ghost use Rattle.std.specs.List.{list_any};
ghost use Rattle.std.specs.Option.{MatchOption};
ghost use Rattle.dutch_sequence.specs.Keys.{HasEachOnce};
ghost use Rattle.dutch_sequence.specs.Marks.{has_mark};
ghost use Rattle.dutch_sequence.specs.declared.path.TheConstants.{PLACES};

use crate::numbers::LIMIT;
use arrayvec::ArrayVec;
use std::marker::Model;

/// The most places of a search: a set of moved-down players fills two for each number. All other searches fill no more
/// than `LIMIT`, since an exchange moves as many numbers in as out.
pub const PLACES: usize = 2 * LIMIT;

/// The bits of a word.
const WORD: usize = 64;

/// The numbers at places, one after another, with room for so many.
pub type Places<const ROOM: usize> = ArrayVec<u16, ROOM>;

/// A mark for each number below `PLACES`.
type Marks = [u64; PLACES / WORD];

/// The mark of a number; from `PLACES` on there is none.
#[tactic(auto, unfolding(crate::specs::Marks::has_mark))]
fn has_mark(marks: &[u64], number: usize) -> bool
    ensures { result ≡ has_mark marks.now number }
{
    match marks.get(number / WORD) {
        Some(word) => (word >> (number % WORD)) & 1 == 1,
        None => false,
    }
}

/// Flips the mark of a number, if it has one.
fn flip(marks: &mut Marks, number: usize)
    ensures { (i : ℕ) → i < PLACES
        → has_mark marks.new i ≡ (if number == i then not (has_mark marks.old i) else has_mark marks.old i) }
{
    if number < PLACES {
        marks[number / WORD] ^= 1u64 << (number % WORD);
    }
}

/// The numbers at the places of a search that are filled, one after another, with room for so many.
#[derive(Drop)]
pub struct Path<const ROOM: usize> {
    places: Places<ROOM>,
    marks: Marks,
}

impl<const ROOM: usize> Model for Path<ROOM> {
    ghost use Rattle.std.specs.Prelude.{◌≡◌, ◌<◌, ℕ, List};
    ghost use Rattle.dutch_sequence.specs.Marks.{has_mark, stands_oddly};
    ghost use Rattle.dutch_sequence.specs.declared.path.TheConstants.{PLACES};

    ghost Value = { List ℕ };

    ghost view = { λ t. t.places.items };

    ghost invariant = { λ t. (i : ℕ) → i < PLACES → has_mark t.marks i ≡ stands_oddly i t.places.items };
}

impl<const ROOM: usize> Path<ROOM> {
    /// One that fills no place.
    pub fn new() -> Path<ROOM>
        ensures { result ≡ [] }
    {
        Path {
            places: ArrayVec::new(),
            marks: [0; PLACES / WORD],
        }
    }

    /// Takes all numbers back.
    pub fn clear(&mut self)
        ensures { self.new ≡ [] }
    {
        self.places.clear();
        self.marks = [0; PLACES / WORD];
    }

    /// Puts a number at the next place.
    pub fn push(&mut self, number: u16)
        requires room { length self.old < ROOM }
        ensures { self.new ≡ self.old ++ number ∷ [] }
    {
        self.places.push(number);
        flip(&mut self.marks, number as usize);
    }

    /// Takes the last number back.
    pub fn pop(&mut self) -> Option<u16>
        ensures { MatchOption result ((self.old ≡ []) × (self.new ≡ [])) (λ number. self.old ≡ self.new ++ number ∷ []) }
    {
        let number = self.places.pop()?;
        flip(&mut self.marks, number as usize);
        Some(number)
    }

    /// The numbers.
    pub fn as_slice(&self) -> &[u16]
        ensures { result.now ≡ self.now }
    {
        &self.places
    }

    /// How many there are.
    pub fn len(&self) -> usize
        ensures { result ≡ length self.now }
    {
        self.places.len()
    }

    /// Yes if the number is one of them. The cost is the same however long the path is.
    pub fn has(&self, number: u16) -> bool
        requires once { HasEachOnce self.now }
        requires low { number < PLACES }
        ensures { result ≡ list_any (eqb number) self.now }
    {
        has_mark(&self.marks, number as usize)
    }
}

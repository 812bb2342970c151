// Numbers by place, of which few are distinct: what pairs weigh, and what they have beyond their potentials. It keeps
// each number once, as a rule, and of each place in four bytes where its number stands.
//
// Where a number stands is found by a guess, its hash, and then compared. Where the guess fails, the number is kept once
// more: so each number is found in a few looks, whatever the numbers are, and nothing depends on the guess.
ghost use Rattle.std.specs.Prelude.{◌≡◌, ◌<◌, All, IfOk, IfSome, OnOk, OnErr, length, slice_index_or, slice_set};
ghost use Rattle.dual.specs.WideTables.{Extends, IsAt};

use crate::wide::Wide;
use std::alloc::{AllocError, Global};
use std::marker::Model;

// A place that no number has.
const NO_INDEX: u32 = u32::MAX;

// The slots of the first number. With more, a small table takes more memory; with fewer, it is made anew more often.
const FIRST_SLOTS: usize = 63;

// How many slots are looked at for a number. With fewer, more numbers are kept twice; with more, a new one takes longer.
const MOST_LOOKS: usize = 8;

// Numbers, each once as a rule.
#[derive(Drop)]
struct Distinct {
    numbers: Vec<Wide>,
    // where numbers stand: each near the slot that its hash names, if there was room
    slots: Vec<u32>,
}

/// Numbers by place, of which few are distinct.
#[derive(Drop)]
pub struct WideTable {
    distinct: Distinct,
    // where the number of each place stands
    indices: Vec<u32>,
}

impl Model for WideTable {
    ghost use Rattle.std.specs.Prelude.{ℕ, ◌<◌, List, All, length};
    ghost use Rattle.dual.specs.WideTables.{numbers_at};

    ghost Value = { List ℕ };

    ghost view = { λ t. numbers_at t.distinct.numbers.items t.indices.items };

    ghost invariant = { λ t. All (λ i. i < length t.distinct.numbers.items) t.indices.items };
}

// The slot that a number's hash names.
fn first_slot(slots: &[u32], number: Wide) -> usize {
    let count = (slots.len() as u64).max(1);
    (number.hash() % count) as usize
}

// The slot of a number that stands among some; else one for it that is free, or may be made free.
fn slot_of(slots: &[u32], numbers: &[Wide], number: Wide) -> usize {
    let first = first_slot(slots, number);
    for slot in first..slots.len().min(first.saturating_add(MOST_LOOKS)) {
        match numbers.get(slots[slot] as usize) {
            Some(other) if *other != number => (),
            _ => return slot,
        }
    }
    first
}

// Writes into a slot where a number stands.
fn put(slots: &mut [u32], slot: usize, index: usize) {
    if slot < slots.len() {
        slots[slot] = u32::try_from(index).unwrap_or(NO_INDEX);
    }
}

// More slots for some numbers.
fn more_slots(slots: &[u32], numbers: &[Wide], alloc: Global) -> Result<Vec<u32>, AllocError> {
    let count = slots.len().saturating_mul(2).saturating_add(FIRST_SLOTS);
    let mut more = vec![in alloc; NO_INDEX; count]?;
    for (index, number) in numbers.iter().enumerate() {
        let slot = slot_of(&more, numbers, *number);
        put(&mut more, slot, index);
    }
    Ok(more)
}

impl Distinct {
    // None so far.
    fn new(alloc: Global) -> Distinct {
        Distinct {
            numbers: Vec::new(alloc),
            slots: Vec::new(alloc),
        }
    }

    // Where a number stands that a slot names; none if it names another one.
    fn index_in(&self, slot: usize, number: Wide) -> Option<u32>
        ensures { IfSome result (IsAt self.now.numbers.items number) }
    {
        let index = *self.slots.get(slot)?;
        if *self.numbers.get(index as usize)? == number {
            Some(index)
        } else {
            None
        }
    }

    // Makes room for more slots than numbers.
    fn widen(&mut self) -> Result<(), AllocError>
        ensures { self.new.numbers ≡ self.old.numbers }
    {
        if self.slots.len() / 2 <= self.numbers.len() {
            self.slots = more_slots(&self.slots, &self.numbers, *self.numbers.allocator())?;
        }
        Ok(())
    }

    // Keeps one number more, and tells where it stands.
    fn add(&mut self, number: Wide) -> Result<u32, AllocError>
        ensures kept { Extends self.old.numbers.items self.new.numbers.items }
        ensures value { IfOk result (IsAt self.new.numbers.items number) }
    {
        self.widen()?;
        let Ok(index) = u32::try_from(self.numbers.len()) else {
            return Err(AllocError);
        };
        let slot = slot_of(&self.slots, &self.numbers, number);
        put(&mut self.slots, slot, self.numbers.len());
        self.numbers.push(number)?;
        Ok(index)
    }

    // Where a number stands; if it stands nowhere, it is kept.
    fn index_of(&mut self, number: Wide) -> Result<u32, AllocError>
        ensures kept { Extends self.old.numbers.items self.new.numbers.items }
        ensures value { IfOk result (IsAt self.new.numbers.items number) }
    {
        let slot = slot_of(&self.slots, &self.numbers, number);
        match self.index_in(slot, number) {
            Some(index) => Ok(index),
            None => self.add(number),
        }
    }
}

impl WideTable {
    /// A table of so many places, with 0 at each.
    pub fn zeros(alloc: Global, count: usize) -> Result<WideTable, AllocError>
        ensures count { IfOk result (λ table. length table ≡ count) }
        ensures zeros { IfOk result (λ table. All (λ number. number ≡ 0) table) }
    {
        let mut distinct = Distinct::new(alloc);
        let zero = distinct.index_of(Wide::zero())?;
        let indices = vec![in alloc; zero; count]?;
        Ok(WideTable { distinct, indices })
    }

    /// A copy.
    pub fn copied(&self) -> Result<WideTable, AllocError>
        ensures { IfOk result (λ table. table ≡ self.now) }
    {
        let numbers = self.distinct.numbers.clone()?;
        let slots = self.distinct.slots.clone()?;
        let indices = self.indices.clone()?;
        let distinct = Distinct { numbers, slots };
        Ok(WideTable { distinct, indices })
    }

    // How many places there are.
    pub(crate) fn len(&self) -> usize
        ensures { result ≡ length self.now }
    {
        self.indices.len()
    }

    // How many numbers are kept.
    pub(crate) fn kept(&self) -> usize {
        self.distinct.numbers.len()
    }

    /// The number of a place, 0 past the end.
    pub fn get(&self, place: usize) -> Wide
        ensures { result ≡ slice_index_or self.now place 0 }
    {
        match self.indices.get(place) {
            Some(index) => self.distinct.numbers[*index as usize],
            None => Wide::zero(),
        }
    }

    /// Writes at a place the number of another one.
    pub fn repeat(&mut self, place: usize, from: usize)
        requires place { place < length self.old }
        requires from { from < length self.old }
        ensures { self.new ≡ slice_set self.old place (slice_index_or self.old from 0) }
    {
        self.indices[place] = self.indices[from];
    }

    /// Writes the number of a place. If memory is refused, or 2^32 numbers are kept, the table stays as it was.
    pub fn set(&mut self, place: usize, number: Wide) -> Result<(), AllocError>
        requires { place < length self.old }
        ensures written { OnOk result (self.new ≡ slice_set self.old place number) }
        ensures refused { OnErr result (self.new ≡ self.old) }
    {
        let index = self.distinct.index_of(number)?;
        self.indices[place] = index;
        Ok(())
    }
}

// A value for each vertex or blossom. Outside there is the blank one, so that no place has to be shown to be inside.
use std::alloc::{AllocError, Global};

/// A value for each of so many places, and one that stands for all others.
#[derive(Drop)]
pub(crate) struct Places<T: Copy + Drop> {
    items: Vec<T>,
    blank: T,
}

impl<T: Copy + Drop> Places<T> {
    /// No place yet: all there is, is blank.
    pub(crate) fn new(alloc: Global, blank: T) -> Places<T> {
        Places {
            items: Vec::new(alloc),
            blank,
        }
    }

    /// Makes so many places more, all blank.
    pub(crate) fn grow(&mut self, count: usize) -> Result<(), AllocError> {
        self.items.reserve_exact(count)?;
        for _ in 0..count {
            self.items.push(self.blank)?;
        }
        Ok(())
    }

    /// The value at a place.
    pub(crate) fn at(&self, place: usize) -> T {
        if place < self.items.len() {
            self.items[place]
        } else {
            self.blank
        }
    }

    /// Puts a value at a place.
    pub(crate) fn put(&mut self, place: usize, value: T) {
        if place < self.items.len() {
            self.items[place] = value;
        }
    }

    /// Makes all places blank.
    pub(crate) fn clear(&mut self) {
        for place in 0..self.items.len() {
            self.items[place] = self.blank;
        }
    }
}

// A set of start ranks: making it from words, and asking it.
ghost use Rattle.std.specs.Prelude.{◌≡◌, ℕ, ◌<◌, ◌||◌, ◌==◌, false, IfOk};
ghost use Rattle.std.specs.Option.{option_map_or};
ghost use Rattle.trf16_report.specs.Fields.{words, number_of};
ghost use Rattle.trf16_report.specs.Extensions.{is_named};
ghost use Rattle.trf16_report.specs.Notes.{has_start};

use crate::fields::{next_word, number_of};
use crate::start_ranks::StartRanks;
use std::alloc::{AllocError, Global};

// Start ranks are below this.
const START_RANKS: usize = 10_000;

impl StartRanks {
    /// No start rank.
    pub(crate) fn new(alloc: Global) -> Result<StartRanks, AllocError>
        ensures { IfOk result (λ starts. (start : ℕ) → has_start starts start ≡ false) }
    {
        Ok(StartRanks {
            marks: Vec::from_elem(alloc, false, START_RANKS)?,
        })
    }

    pub(crate) fn copy(&self, alloc: Global) -> Result<StartRanks, AllocError>
        ensures { IfOk result (λ starts. (start : ℕ) → has_start starts start ≡ has_start self.now start) }
    {
        Ok(StartRanks {
            marks: Vec::from_slice(alloc, &self.marks)?,
        })
    }

    pub(crate) fn clear(&mut self)
        ensures { (start : ℕ) → has_start self.new start ≡ false }
    {
        self.marks.fill(false);
    }

    pub(crate) fn has(&self, start: u16) -> bool
        ensures { result ≡ has_start self.now start }
    {
        match self.marks.get(usize::from(start)) {
            Some(marked) => *marked,
            None => false,
        }
    }

    fn mark(&mut self, start: u16)
        requires { start < 10000 }
        ensures { (i : ℕ) → has_start self.new i ≡ (has_start self.old i || (start == i)) }
    {
        self.marks[usize::from(start)] = true;
    }

    // A word that is no number adds nothing.
    fn mark_word(&mut self, word: &[u8])
        ensures { (i : ℕ) → has_start self.new i
            ≡ (has_start self.old i || option_map_or (λ n. n == i) (number_of word.now) false) }
    {
        if let Some(start) = number_of(word) {
            self.mark(start);
        }
    }

    pub(crate) fn mark_words(&mut self, bytes: &[u8])
        ensures { (i : ℕ) → has_start self.new i ≡ (has_start self.old i || is_named (words bytes.now) i) }
    {
        let mut rest = bytes;
        while let Some((word, after)) = next_word(rest) {
            self.mark_word(word);
            rest = after;
        }
    }
}

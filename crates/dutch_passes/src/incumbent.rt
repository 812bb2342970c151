// The best candidate that a pass has found so far, if it has found one. Its place is on the heap, as it is large.
ghost use Rattle.std.specs.Prelude.{◌≡◌, None, Some, IfOk, option_copied, option_map};

use dutch_arrangements::Candidate;
use dutch_bracket::fault::PairFault;
use dutch_bracket::quality::Quality;
use dutch_choice::finder::Best;
use std::alloc::Global;
use std::marker::Model;

/// A place for the best candidate so far, with its quality.
#[derive(Drop)]
pub struct Incumbent {
    best: Box<Best>,
    is_there: bool,
}

impl Model for Incumbent {
    ghost use Rattle.std.specs.Prelude.{Option};
    ghost use Rattle.dutch_arrangements.specs.Prelude.{only_if};
    ghost use Rattle.dutch_choice.specs.declared.finder.Best.{Best};

    ghost Value = { Option Best };

    ghost view = { λ k. only_if k.is_there k.best.value };
}

impl Incumbent {
    /// An empty place.
    pub fn none(alloc: Global) -> Result<Incumbent, PairFault>
        ensures { IfOk result (λ incumbent. incumbent ≡ None) }
    {
        Ok(Incumbent {
            best: Box::new(alloc, Best::empty())?,
            is_there: false,
        })
    }

    /// The incumbent, if there is one.
    pub fn best(&self) -> Option<&Best>
        ensures { option_copied result ≡ self.now }
    {
        if self.is_there {
            Some(&*self.best)
        } else {
            None
        }
    }

    /// Empties the place.
    pub fn clear(&mut self)
        ensures { self.new ≡ None }
    {
        self.is_there = false;
    }

    /// Keeps a candidate and its quality, in place of the one before.
    pub fn keep(&mut self, candidate: &Candidate, quality: &Quality)
        ensures { self.new ≡ Some (record { candidate = candidate.now; quality = quality.now }) }
    {
        self.best.candidate.fill(candidate);
        self.best.quality.fill(quality);
        self.is_there = true;
    }

    /// Hands out the incumbent in its place, if there is one.
    pub fn into_best(self) -> Option<Box<Best>>
        ensures { option_map (λ best. best.value) result ≡ self }
    {
        if self.is_there { Some(self.best) } else { None }
    }
}

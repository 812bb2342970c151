// The target of a pass: it seeks only candidates that this quality is not better than. Its place is on the heap, as it is
// large, and is kept for the next pass.
ghost use Rattle.std.specs.Prelude.{◌≡◌, None, Some, IfOk, option_copied};

use dutch_bracket::fault::PairFault;
use dutch_bracket::quality::Quality;
use std::alloc::Global;
use std::marker::Model;

/// A place for the target of a pass.
#[derive(Drop)]
pub struct Target {
    quality: Box<Quality>,
    is_there: bool,
}

impl Model for Target {
    ghost use Rattle.std.specs.Prelude.{Option};
    ghost use Rattle.dutch_arrangements.specs.Prelude.{only_if};
    ghost use Rattle.dutch_bracket.specs.declared.quality.Quality.{Quality};

    ghost Value = { Option Quality };

    ghost view = { λ t. only_if t.is_there t.quality.value };
}

impl Target {
    /// An empty place. (Apart from its caller, as it is large until it stands on the heap.)
    #[inline(never)]
    pub fn none(alloc: Global) -> Result<Target, PairFault>
        ensures { IfOk result (λ target. target ≡ None) }
    {
        Ok(Target {
            quality: Box::new(alloc, Quality::default())?,
            is_there: false,
        })
    }

    /// The target, if there is one.
    pub fn quality(&self) -> Option<&Quality>
        ensures { option_copied result ≡ self.now }
    {
        if self.is_there {
            Some(&*self.quality)
        } else {
            None
        }
    }

    /// Empties the place.
    pub fn clear(&mut self)
        ensures { self.new ≡ None }
    {
        self.is_there = false;
    }

    /// Keeps a quality, in place of the one before.
    pub fn keep(&mut self, quality: &Quality)
        ensures { self.new ≡ Some quality.now }
    {
        self.quality.fill(quality);
        self.is_there = true;
    }
}

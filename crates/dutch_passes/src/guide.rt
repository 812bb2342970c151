// What draws the candidates of a bracket for a pass (C.04.3 B.8).
//
// A guide may pass over candidates without a look at them, by whatever it knows of those that begin alike. It passes
// over only those that are pruned. Where few steps do not suffice it may weigh the pairs, and so know more.
ghost use Rattle.std.specs.Prelude.{◌≡◌, [], Option};
ghost use Rattle.std.specs.Result.{MatchResult};
ghost use Rattle.dutch_bracket.specs.Prelude.{Context};
ghost use Rattle.dutch_candidates.specs.declared.wish.Wish.{Wish};
ghost use Rattle.dutch_passes.specs.Passes.{Draws, ListsFor, PassesPruned};
ghost use Rattle.dutch_arrangements.specs.Prelude.{MatchDrawn, Spends};
ghost use Rattle.dutch_arrangements.specs.declared.bracket.Shape.{Shape};

use crate::pass::PassSoFar;
use dutch_arrangements::{Budget, Stopped};
use dutch_bracket::quality::QualityLists;
use dutch_bracket::reached::Seats;
use dutch_candidates::greatest::Lister;
use dutch_candidates::narrowed::NarrowedRule;
use dutch_candidates::wish::Wish;

/// Where the questions of a pass are worked out, and what its guide notes of a walk from one question to the next.
#[derive(Default, Drop)]
pub struct Workroom<N: Drop> {
    pub room: QualityLists,
    /// Those whom a candidate leaves over and all lower players, filled anew for each candidate.
    pub left: Seats,
    pub notes: N,
}

/// Draws the candidates of a bracket and a shape for a pass.
pub trait Guide {
    /// What it notes of a walk.
    type Notes: Drop;

    /// What it knows holds of the candidates that grant what is wished: those of a shape, in a bracket above its lower
    /// seats.
    ghost knows: { Self → Context → Shape → Option Wish → Type 0 };

    /// Draws the next candidate of a pass that it does not know to be pruned. Those that it passes over are pruned. A
    /// no says that there is no other.
    fn draw(
        &mut self,
        so_far: PassSoFar<'_, '_>,
        lister: &mut Lister<'_, NarrowedRule<'_>>,
        work: &mut Workroom<Self::Notes>,
        budget: &mut Budget,
    ) -> Result<bool, Stopped>
        requires known { knows self.old so_far.pass.now.shaped.context.now so_far.pass.now.shaped.shape
            so_far.pass.now.wish }
        requires lists { ListsFor so_far.pass.now lister.old.listing }
        requires shape { lister.old.listing.shape ≡ so_far.pass.now.shaped.shape }
        ensures answer { MatchDrawn result (Draws so_far.entry lister.old lister.new)
            (PassesPruned so_far.entry lister.old.listing.coming [])
            (budget.new.used ≡ budget.new.limit) }
        ensures known { knows self.new so_far.entry.pass.now.shaped.context.now so_far.entry.pass.now.shaped.shape
            so_far.entry.pass.now.wish }
        ensures frame { lister.new.listing.frame ≡ lister.old.listing.frame }
        ensures shape { lister.new.listing.shape ≡ lister.old.listing.shape }
        ensures rule { lister.new.listing.rule ≡ lister.old.listing.rule }
        ensures spends { Spends budget.old budget.new };

    /// Yes if it can weigh the pairs of the bracket, and those of the next one if that is wanted.
    fn can_weigh(&self, next: bool) -> bool;

    /// Weighs the pairs of the bracket, and of the next one, if that is wanted (C.7), so that it knows more of the
    /// candidates that grant what is wished. A yes says that a pass may have the quality in the workroom as its target,
    /// of which nothing is promised.
    fn weigh(
        &mut self,
        wish: Option<Wish>,
        next: bool,
        work: &mut Workroom<Self::Notes>,
        budget: &mut Budget,
    ) -> Result<bool, Stopped>
        ensures known { (context : Context) (shape : Shape) → knows self.old context shape wish
            → knows self.new context shape wish }
        ensures stopped { MatchResult result (λ _. Unit {0}) (λ _. budget.new.used ≡ budget.new.limit) }
        ensures spends { Spends budget.old budget.new };
}

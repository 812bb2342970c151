// A bracket that a round reaches, as it is settled: its choice, and whether it is paired again (C.04.3 B.8, A.9).
ghost use Rattle.std.specs.Prelude.{◌≡◌, ◌≤◌, ◌++◌, None, false, length, map, IfOk, OnOk};
ghost use Rattle.std.specs.Option.{MatchOption};
ghost use Rattle.dutch_arrangements.specs.Prelude.{Spends};
ghost use Rattle.dutch_bracket.specs.Prelude.{seat_of, HasCandidate, completable, Decides};
ghost use Rattle.dutch_choice.specs.Prelude.{ListsHere};
ghost use Rattle.dutch_rounds.specs.Outcomes.{IsStage};
ghost use Rattle.dutch_rounds.specs.Stages.{IsSettled, is_again, own_pairs};

use dutch_arrangements::{Budget, Candidate, Shape, Stopped};
use dutch_bracket::context::Context;
use dutch_bracket::fault::PairFault;
use dutch_bracket::quality::Quality;
use dutch_bracket::reached::{BracketKind, Reached, Seats};
use dutch_bracket::seated::{Pair, by_seats};
use dutch_candidates::greatest::Lister;
use dutch_candidates::narrowed::NarrowedRule;
use dutch_choice::choice::choose_in;
use dutch_choice::finder::{Best, Finder};
use dutch_completion::eligible::leaves_completable;
use dutch_player::Field;
use std::marker::Model;

/// A bracket that a round reaches, and what is chosen in it.
#[derive(Drop)]
pub struct Stage {
    pub(crate) reached: Reached,
    pub(crate) shape: Shape,
    // (on the heap, as it is large)
    pub(crate) best: Box<Best>,
    // it is paired again, so its pairs do not count
    pub(crate) again: bool,
}

impl Model for Stage {
    ghost use Rattle.dutch_rounds.specs.Stage.{Stage};

    ghost Value = { Stage };

    ghost view = { λ s. record {
      reached = s.reached;
      shape = s.shape;
      candidate = s.best.value.candidate;
      quality = s.best.value.quality;
      again = s.again;
    } };
}

/// An ordinary bracket is paired again if those that it leaves over cannot be paired out with all lower players (C.4).
fn is_again(
    context: &Context<'_>,
    candidate: &Candidate,
    budget: &mut Budget,
) -> Result<bool, Stopped>
    requires { length candidate.now.down ≤ length context.now.reached.seats }
    ensures answer { Decides result (is_again context.now.reached.kind
        (completable context.now.facts
        (map (seat_of context.now.reached.seats) candidate.now.down ++ context.now.lower)))
        (budget.new.used ≡ budget.new.limit) }
    ensures spends { Spends budget.old budget.new }
{
    match context.reached().kind() {
        BracketKind::Ordinary => {
            let completable = leaves_completable(context, candidate, &mut Seats::new(), budget)?;
            Ok(!completable)
        }
        BracketKind::Last | BracketKind::Penultimate | BracketKind::Collapsed => Ok(false),
    }
}

/// Settles a bracket that has a candidate, with a lister of it. None says that the budget's limit was reached first, by
/// its choice or by the test behind it.
#[inline(never)]
pub(crate) fn settle<F: Finder>(
    context: &Context<'_>,
    lister: &mut Lister<'_, NarrowedRule<'_>>,
    room: &mut F::Room,
    budget: &mut Budget,
) -> Result<Option<Stage>, PairFault>
    requires candidate { HasCandidate context.now.facts context.now.reached context.now.lower }
    requires lists { ListsHere context.now None lister.old.listing }
    ensures answer { IfOk result (λ settled. MatchOption settled (budget.new.used ≡ budget.new.limit)
        (λ stage. (stage.reached ≡ context.now.reached) × IsSettled context.now.facts context.now.lower stage)) }
    ensures spends { Spends budget.old budget.new }
{
    let Some(chosen) = choose_in::<F>(context, lister, room, budget)? else {
        return Ok(None);
    };
    let Ok(again) = is_again(context, &chosen.best.candidate, budget) else {
        return Ok(None);
    };
    Ok(Some(Stage {
        reached: context.reached().copied(),
        shape: chosen.shape,
        best: chosen.best,
        again,
    }))
}

impl Stage {
    /// The bracket.
    pub fn reached(&self) -> &Reached
        ensures { result.now ≡ self.now.reached }
    {
        &self.reached
    }

    /// Its shape.
    pub fn shape(&self) -> Shape
        ensures { result ≡ self.now.shape }
    {
        self.shape
    }

    /// What is chosen in it.
    pub fn candidate(&self) -> &Candidate
        ensures { result.now ≡ self.now.candidate }
    {
        &self.best.candidate
    }

    /// The quality of what is chosen in it (C.6 to C.19).
    pub fn quality(&self) -> &Quality
        ensures { result.now ≡ self.now.quality }
    {
        &self.best.quality
    }

    /// Yes if it is paired again, as the next one (C.4): then its pairs do not count.
    pub fn is_again(&self) -> bool
        ensures { result ≡ self.now.again }
    {
        self.again
    }

    /// Puts its pairs by seat behind others: none if it is paired again.
    #[tactic(auto, using(crate::proofs::WalkEnds::candidate_is))]
    #[inline(never)]
    pub fn put_pairs(&self, field: &Field, pairs: &mut Vec<Pair>) -> Result<(), PairFault>
        requires { IsStage field.now self.now }
        ensures { OnOk result (pairs.new.items ≡ pairs.old.items ++ own_pairs self.now) }
    {
        if self.again {
            return Ok(());
        }
        let seated = by_seats(field, self.reached.seats(), &self.best.candidate);
        Ok(pairs.extend_from_slice(&seated.pairs)?)
    }
}

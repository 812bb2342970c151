// The choice in a bracket (C.04.3 B.8): its shape, and the first candidate of it that none is better than, by any
// finder.
ghost use Rattle.std.specs.Prelude.{◌≡◌, IfOk, None};
ghost use Rattle.std.specs.Option.{MatchOption};
ghost use Rattle.dutch_arrangements.specs.Prelude.{Spends};
ghost use Rattle.dutch_bracket.specs.Prelude.{IsAbove, HasCandidate};
ghost use Rattle.dutch_choice.specs.Chosen.{IsChoice, IsChosenBest};
ghost use Rattle.dutch_choice.specs.Starts.{ListsHere};

use crate::finder::{Best, Finder, FinderRequest};
use crate::shape::found_shape;
use dutch_arrangements::{Budget, Candidate, Shape, Step, Stopped};
use dutch_bracket::context::Context;
use dutch_bracket::fault::PairFault;
use dutch_bracket::quality::Quality;
use dutch_bracket::reached::Reached;
use dutch_bracket::shaped::ShapedBracket;
use dutch_candidates::greatest::Lister;
use dutch_candidates::narrowed::NarrowedRule;
use dutch_player::Field;
use std::alloc::Global;

/// What is chosen in a bracket.
#[derive(Drop)]
pub enum Choice {
    /// The shape, and the first candidate of it that none is better than, with its quality.
    Chosen {
        shape: Shape,
        candidate: Candidate,
        quality: Quality,
    },
    /// The budget's limit was reached first.
    Undecided,
}

/// What is chosen in a bracket, on the heap: its shape, and the best candidate.
#[derive(Drop)]
pub struct ChosenBest {
    pub shape: Shape,
    pub best: Box<Best>,
}

/// The choice in a bracket that has a candidate, on the heap, by one lister for its shape and for the best candidate.
/// None says that the budget's limit was reached first.
#[tactic(auto, using(crate::proofs::BestLemmas::choice_is_best, crate::proofs::BestLemmas::shape_has_one))]
#[inline(never)]
pub fn choose_in<F: Finder>(
    context: &Context<'_>,
    lister: &mut Lister<'_, NarrowedRule<'_>>,
    room: &mut F::Room,
    budget: &mut Budget,
) -> Result<Option<ChosenBest>, PairFault>
    requires candidate { HasCandidate context.now.facts context.now.reached context.now.lower }
    requires lists { ListsHere context.now None lister.old.listing }
    ensures answer { IfOk result
        (λ found. MatchOption found (budget.new.used ≡ budget.new.limit) (IsChosenBest context.now)) }
    ensures spends { Spends budget.old budget.new }
{
    let found = match found_shape(context, lister, budget) {
        Ok(Some(found)) => found,
        Ok(None) => unreachable!(),
        Err(Stopped) => return Ok(None),
    };
    let shape = found.shape;
    let asked = FinderRequest {
        shaped: ShapedBracket { context, shape },
        wish: None,
        start: found.start,
    };
    match F::best_of(&asked, lister, room, budget)? {
        Step::Found(best) => Ok(Some(ChosenBest { shape, best })),
        Step::End => unreachable!(),
        Step::Undecided => Ok(None),
    }
}

/// The choice in a bracket that has a candidate, with a lister and a room of its own. None says that the budget's limit
/// was reached first.
#[inline(never)]
fn choose_alone<F: Finder>(
    context: &Context<'_>,
    budget: &mut Budget,
) -> Result<Option<ChosenBest>, PairFault>
    requires candidate { HasCandidate context.now.facts context.now.reached context.now.lower }
    ensures answer { IfOk result
        (λ found. MatchOption found (budget.new.used ≡ budget.new.limit) (IsChosenBest context.now)) }
    ensures spends { Spends budget.old budget.new }
{
    let rule = NarrowedRule {
        rule: context.rule(),
        wish: None,
    };
    let mut lister = Lister::boxed(context.alloc(), context.frame(), &rule)?;
    choose_in::<F>(context, &mut lister, &mut F::Room::default(), budget)
}

/// The choice in a bracket of a field that has a candidate, above all lower seats by rank. In the penultimate bracket
/// only those candidates count that leave over players who can be paired out with all lower ones (C.4).
pub fn choose<F: Finder>(
    alloc: Global,
    field: &Field,
    reached: &Reached,
    lower: &[u16],
    budget: &mut Budget,
) -> Result<Choice, PairFault>
    requires above { IsAbove field.now reached.now lower.now }
    requires candidate { HasCandidate field.now reached.now lower.now }
    ensures answer { IfOk result (IsChoice
        (record { facts = field.now; reached = reached.now; lower = lower.now })
        (budget.new.used ≡ budget.new.limit)) }
    ensures spends { Spends budget.old budget.new }
{
    let context = Context::new(alloc, field, reached, lower);
    let Some(chosen) = choose_alone::<F>(&context, budget)? else {
        return Ok(Choice::Undecided);
    };
    let best = Box::into_inner(chosen.best);
    Ok(Choice::Chosen {
        shape: chosen.shape,
        candidate: best.candidate,
        quality: best.quality,
    })
}

// Who finds the best candidate of a shape (C.04.3 B.8, B.3).
//
// The choice in a bracket is the same whoever finds it. So what pairs a round asks for a finder, and does not wait for
// one: what is known of the candidates behind a beginning is proved beside it.
ghost use Rattle.std.specs.Prelude.{◌≡◌, None, IfOk};
ghost use Rattle.dutch_arrangements.specs.Prelude.{MatchStep, Spends};
ghost use Rattle.dutch_choice.specs.Found.{IsBest, best_wished};
ghost use Rattle.dutch_choice.specs.Starts.{IsLent};

use crate::start::Start;
use dutch_arrangements::{Budget, Candidate, Step};
use dutch_bracket::fault::PairFault;
use dutch_bracket::quality::Quality;
use dutch_bracket::shaped::ShapedBracket;
use dutch_candidates::greatest::Lister;
use dutch_candidates::narrowed::NarrowedRule;
use dutch_candidates::wish::Wish;

/// The best candidate, with its quality. (It is large, so it is handed on on the heap.)
#[derive(Drop)]
pub struct Best {
    pub candidate: Candidate,
    pub quality: Quality,
}

impl Best {
    /// A place for a candidate and its quality. No clause says what stands in it before they are put there.
    pub fn empty() -> Best {
        Best {
            candidate: Candidate::empty(),
            quality: Quality::default(),
        }
    }
}

/// What a finder is asked for: the best candidate of a shape, of those that grant the wish if there is one. The lister
/// that is lent with it lists by the rules as they are narrowed to the wish, and stands so.
#[derive(Clone, Copy)]
pub struct FinderRequest<'a> {
    pub shaped: ShapedBracket<'a>,
    pub wish: Option<Wish>,
    pub start: Start,
}

/// Finds the best candidate of a shape.
pub trait Finder {
    /// Room in which it works. A round makes it once, and lends it for each bracket. What stands in it may spare memory,
    /// and changes no answer.
    type Room: Default + Drop;

    /// Of the candidates of a shape that can be chosen, and that grant the wish if there is one, the first that none of
    /// them is better than. `End` says that there is none.
    fn best_of(
        asked: &FinderRequest<'_>,
        lister: &mut Lister<'_, NarrowedRule<'_>>,
        room: &mut Self::Room,
        budget: &mut Budget,
    ) -> Result<Step<Box<Best>>, PairFault>
        requires lister { IsLent asked.now.shaped.context.now asked.now.wish asked.now.shaped.shape asked.now.start
            lister.old }
        ensures answer { let context = asked.now.shaped.context.now in
            let best = best_wished context asked.now.wish asked.now.shaped.shape in IfOk result (λ step. MatchStep step
            (λ found. IsBest context best found.value) (best ≡ None) (budget.new.used ≡ budget.new.limit)) }
        ensures spends { Spends budget.old budget.new };
}

/// The best candidate of a shape by any finder, with a lister and a room of its own.
#[inline(never)]
pub fn best_by<F: Finder>(
    shaped: &ShapedBracket<'_>,
    wish: Option<Wish>,
    budget: &mut Budget,
) -> Result<Step<Box<Best>>, PairFault>
    ensures answer { let context = shaped.now.context.now in
        let best = best_wished context wish shaped.now.shape in IfOk result (λ step. MatchStep step
        (λ found. IsBest context best found.value) (best ≡ None) (budget.new.used ≡ budget.new.limit)) }
    ensures spends { Spends budget.old budget.new }
{
    let rule = NarrowedRule {
        rule: shaped.context.rule(),
        wish,
    };
    let mut lister = Lister::boxed(shaped.context.alloc(), shaped.context.frame(), &rule)?;
    let asked = FinderRequest {
        shaped: *shaped,
        wish,
        start: Start::Anew,
    };
    F::best_of(&asked, &mut lister, &mut F::Room::default(), budget)
}

// The best candidate of a shape (C.04.3 B.8), found within floors of both kinds.
ghost use Rattle.std.specs.Prelude.{◌≡◌, IfOk, None};
ghost use Rattle.dutch_arrangements.specs.Prelude.{MatchStep, Spends};
ghost use Rattle.dutch_choice.specs.Prelude.{IsBest};
ghost use Rattle.dutch_passes.specs.Prelude.{IsLentFor, LooksBelow, LooksFor, wished_of};
ghost use Rattle.dutch_search.specs.Searching.{AreFor};
ghost use Rattle.dutch_floors.specs.Behind.{IsBasisFor};

use crate::both::BothFloors;
use crate::last_beginning::WalkNotes;
use dutch_arrangements::{Budget, Step};
use dutch_bracket::fault::PairFault;
use dutch_bracket::shaped::ShapedBracket;
use dutch_candidates::greatest::Lister;
use dutch_candidates::narrowed::NarrowedRule;
use dutch_choice::finder::{Best, Finder, FinderRequest};
use dutch_passes::{
    Incumbent, Pass, PassRoom, PassState, Target, Workroom, best_in_time, look_below,
};
use std::alloc::Global;

/// Room for the passes of each bracket of a round. What is there is taken from it, and put back when the passes are
/// over.
#[derive(Default, Drop)]
pub struct SearchRoom {
    work: Option<Box<Workroom<WalkNotes>>>,
    target: Option<Target>,
}

impl SearchRoom {
    /// Where questions are worked out: the place that there is, with nothing noted in it, or else a new one. (Apart
    /// from its caller, as it is large until it stands on the heap.)
    #[inline(never)]
    fn workroom(&mut self, alloc: Global) -> Result<Box<Workroom<WalkNotes>>, PairFault> {
        match self.work.take() {
            Some(mut work) => {
                work.notes.clear();
                Ok(work)
            }
            None => Ok(Box::new(alloc, Workroom::default())?),
        }
    }

    /// An empty place for a target: the one that there is, or else a new one.
    fn no_target(&mut self, alloc: Global) -> Result<Target, PairFault> {
        match self.target.take() {
            Some(mut target) => {
                target.clear();
                Ok(target)
            }
            None => Target::none(alloc),
        }
    }
}

/// The state in which the passes of a bracket begin.
fn state_for<'a>(
    shaped: &ShapedBracket<'a>,
    room: &mut SearchRoom,
) -> Result<Box<PassState<'a, BothFloors<'a>>>, PairFault>
    ensures look { IfOk result (λ state. LooksBelow shaped.now.context.now state.value.look) }
    ensures shaped { IfOk result (λ state. state.value.guide.value.shaped ≡ shaped.now) }
    ensures counts { IfOk result (λ state. IsBasisFor shaped.now state.value.guide.value.counts) }
    ensures weights { IfOk result (λ state. state.value.guide.value.weights.value ≡ None) }
{
    let alloc = shaped.context.alloc();
    let state = PassState {
        look: look_below(shaped.context)?,
        work: room.workroom(alloc)?,
        incumbent: Incumbent::none(alloc)?,
        guide: Box::new(alloc, BothFloors::by_counts(shaped)?)?,
    };
    Ok(Box::new(alloc, state)?)
}

/// A pass over the candidates that are asked for, with what floors by counts tell as its target.
fn first_pass<'a>(
    asked: &FinderRequest<'a>,
    state: &mut PassState<'_, BothFloors<'_>>,
    room: &mut SearchRoom,
) -> Result<Pass<'a>, PairFault>
    ensures shaped { IfOk result (λ pass. pass.shaped ≡ asked.now.shaped) }
    ensures wish { IfOk result (λ pass. pass.wish ≡ asked.now.wish) }
    ensures look { state.new.look ≡ state.old.look }
    ensures guide { state.new.guide ≡ state.old.guide }
{
    let mut pass = Pass {
        shaped: asked.shaped,
        wish: asked.wish,
        target: room.no_target(asked.shaped.context.alloc())?,
        next: None,
    };
    if state.guide.fill_target(&None, &mut *state.work) {
        pass.target.keep(&state.work.room.quality);
    }
    Ok(pass)
}

/// What the passes end with. (Apart from where the search is made ready, as that owns much.)
fn search_in_passes(
    pass: &mut Pass<'_>,
    search: PassRoom<'_, '_, '_, '_, BothFloors<'_>>,
    room: &mut SearchRoom,
    budget: &mut Budget,
) -> Result<Step<Box<Best>>, PairFault>
    requires lister { IsLentFor pass.old search.start search.lister.now }
    requires look { LooksFor pass.old search.state.value.look }
    requires context { search.state.value.guide.value.shaped.context.now ≡ pass.old.shaped.context.now }
    requires shape { search.state.value.guide.value.shaped.shape ≡ pass.old.shaped.shape }
    requires guide { AreFor pass.old search.state.value.guide.value }
    ensures answer { IfOk result (λ step. MatchStep step
        (λ found. IsBest pass.old.shaped.context.now (wished_of pass.old) found.value)
        (wished_of pass.old ≡ None) (budget.new.used ≡ budget.new.limit)) }
    ensures spends { Spends budget.old budget.new }
{
    let mut search = search;
    if best_in_time(pass, &mut search, budget).is_err() {
        return Ok(Step::Undecided);
    }
    let state = Box::into_inner(search.state);
    room.work = Some(state.work);
    match state.incumbent.into_best() {
        Some(best) => Ok(Step::Found(best)),
        None => Ok(Step::End),
    }
}

/// The finder with floors by counts and by weight. It answers what a pass with a target finds; if that finds nothing,
/// what a pass without one finds.
#[derive(Drop)]
pub struct WithFloors;

impl Finder for WithFloors {
    type Room = SearchRoom;

    fn best_of(
        asked: &FinderRequest<'_>,
        lister: &mut Lister<'_, NarrowedRule<'_>>,
        room: &mut SearchRoom,
        budget: &mut Budget,
    ) -> Result<Step<Box<Best>>, PairFault> {
        let mut state = state_for(&asked.shaped, room)?;
        let mut pass = first_pass(asked, &mut *state, room)?;
        let search = PassRoom {
            state,
            lister,
            start: asked.start,
        };
        let found = search_in_passes(&mut pass, search, room, budget)?;
        room.target = Some(pass.target);
        Ok(found)
    }
}

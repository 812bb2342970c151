// The choice among the candidates of a shape (C.04.3 B.8): the first of them that none is better than, by passes over a
// listing that keep the best candidate so far. A guide draws the candidates, and may pass over some. The passes first
// have few steps. If these do not suffice, the pairs of the bracket are weighed, with those of the next bracket where the
// candidates differ in it (C.7).
ghost use Rattle.std.specs.Prelude.{◌≡◌, None, IfSome, true};
ghost use Rattle.std.specs.Option.{MatchOption};
ghost use Rattle.std.specs.Result.{MatchResult};
ghost use Rattle.dutch_arrangements.specs.Prelude.{Spends};
ghost use Rattle.dutch_arrangements.specs.declared.bracket.Shape.{Shape};
ghost use Rattle.dutch_bracket.specs.Prelude.{Context};
ghost use Rattle.dutch_choice.specs.Prelude.{IsBest};
ghost use Rattle.dutch_choice.specs.declared.start.Start.TheVariants.{Anew};
ghost use Rattle.dutch_passes.specs.Incumbent.{IsIncumbent};
ghost use Rattle.dutch_passes.specs.Passes as passes;

use crate::guide::Guide;
use crate::next_of_all::{leaves_nobody, next_of_all};
use crate::pass::{Pass, PassSoFar, loses};
use crate::remembered::{PassState, judge_candidate};
use dutch_arrangements::{Budget, Candidate, Stopped};
use dutch_bracket::context::Context;
use dutch_bracket::quality::Quality;
use dutch_bracket::reached::BracketKind;
use dutch_bracket::spending::at_most;
use dutch_bracket::tuning::first_pass_steps;
use dutch_candidates::greatest::Lister;
use dutch_candidates::narrowed::NarrowedRule;
use dutch_candidates::wish::{Wish, is_wished};
use dutch_choice::start::Start;
use dutch_completion::eligible::can_be_chosen;

// The first passes of a bracket have as many steps as those of brackets of so many players together. (With more, hard
// brackets are weighed later: those of over 600 players need a million steps more where one bracket counts for all.)
const TOGETHER: usize = 32;

// The most players of a bracket whose candidates are so few that passes look through them before players of the next
// scoregroup are weighed with it, which takes far longer. (Without this, first brackets of 5 to 11 players took up to two
// million steps, where the next one had 600 to 980.)
const FEW: usize = 12;

/// How many steps passes make before the pairs of a bracket are weighed. (Where something is wished, few candidates are
/// left, and a bracket counts whole: 960 players before round 1 took eighteen times as long otherwise.)
fn steps_at_first(context: &Context<'_>, wish: Option<Wish>) -> u64 {
    let count = context.len();
    if wish.is_some() {
        return first_pass_steps(count);
    }
    let brackets = (count / TOGETHER) as u64 + 1;
    let steps = first_pass_steps(count.min(TOGETHER)).saturating_mul(brackets);
    if count <= FEW {
        let below = context.len_below() as u64;
        steps.saturating_add(below.saturating_mul(below))
    } else {
        steps
    }
}

/// What the passes over the candidates of a shape are made with: their state, and the lister that draws the candidates,
/// with where it begins.
#[derive(Drop)]
pub struct PassRoom<'a, 'l, 'r, 'n, G: Guide> {
    // (on the heap, as it is large)
    pub state: Box<PassState<'a, G>>,
    pub lister: &'l mut Lister<'r, NarrowedRule<'n>>,
    pub start: Start,
}

/// Keeps a candidate in place of the incumbent, if it grants what is wished, does not lose and can be chosen.
#[tactic(auto, using(crate::proofs::TargetLemmas::unwished_passed, crate::proofs::TargetLemmas::loser_passed, crate::proofs::TargetLemmas::winner_kept, crate::proofs::TargetLemmas::unfit_passed))]
fn consider<G: Guide>(
    pass: &Pass<'_>,
    candidate: &Candidate,
    state: &mut PassState<'_, G>,
    budget: &mut Budget,
) -> Result<(), Stopped>
    requires candidate { passes.IsHere pass.now.shaped.context.now candidate.now }
    requires incumbent { IsIncumbent pass.now.shaped.context.now state.old.incumbent }
    requires look { passes.LooksFor pass.now state.old.look }
    ensures answer { MatchResult result
        (λ _. passes.IsChosenNext pass.now state.old.incumbent state.new.incumbent candidate.now.lists)
        (λ _. budget.new.used ≡ budget.new.limit) }
    ensures incumbent { IsIncumbent pass.now.shaped.context.now state.new.incumbent }
    ensures look { passes.LooksFor pass.now state.new.look }
    ensures guide { state.new.guide ≡ state.old.guide }
    ensures spends { Spends budget.old budget.new }
{
    if !is_wished(pass.wish, candidate) {
        return Ok(());
    }
    judge_candidate(pass.shaped.context, candidate, state, budget)?;
    let work = &mut *state.work;
    if loses(&work.room.quality, &pass.target, &state.incumbent) {
        return Ok(());
    }
    if can_be_chosen(pass.shaped.context, candidate, &mut work.left, budget)? {
        state.incumbent.keep(candidate, &work.room.quality);
    }
    Ok(())
}

/// Begins a pass: with the first candidate that can be chosen, if that is drawn already, else with the listing anew.
#[tactic(auto, using(crate::proofs::BeginLemmas::begun_anew))]
fn begin<G: Guide>(
    pass: &Pass<'_>,
    search: &mut PassRoom<'_, '_, '_, '_, G>,
    budget: &mut Budget,
) -> Result<(), Stopped>
    requires lister { passes.IsLentFor pass.now search.old.start search.old.lister.now }
    requires look { passes.LooksFor pass.now search.old.state.value.look }
    ensures answer { MatchResult result
        (λ _. passes.LooksThrough pass.now search.new.state.value.incumbent search.new.lister.now.listing)
        (λ _. budget.new.used ≡ budget.new.limit) }
    ensures lists { passes.ListsFor pass.now search.new.lister.now.listing }
    ensures start { search.new.start ≡ Anew }
    ensures look { passes.LooksFor pass.now search.new.state.value.look }
    ensures guide { search.new.state.value.guide ≡ search.old.state.value.guide }
    ensures spends { Spends budget.old budget.new }
{
    let state = &mut *search.state;
    state.incumbent.clear();
    match search.start {
        Start::Drawn => {
            search.start = Start::Anew;
            consider(pass, &search.lister.drawn, state, budget)?;
            Ok(())
        }
        Start::Anew => {
            search.lister.listing.restart(pass.shaped.shape);
            Ok(())
        }
    }
}

/// Goes on with a pass that looks through a listing, to the end of it.
fn go_on<'a, G: Guide>(
    pass: &'a Pass<'a>,
    lister: &mut Lister<'_, NarrowedRule<'_>>,
    state: &mut PassState<'_, G>,
    budget: &mut Budget,
) -> Result<(), Stopped>
    requires looks { passes.LooksThrough pass.now state.old.incumbent lister.old.listing }
    requires lists { passes.ListsFor pass.now lister.old.listing }
    requires look { passes.LooksFor pass.now state.old.look }
    requires guide { G.knows state.old.guide.value pass.now.shaped.context.now pass.now.shaped.shape pass.now.wish }
    ensures answer { MatchResult result
        (λ _. MatchOption state.new.incumbent (passes.near_of pass.now ≡ None)
        (IsBest pass.now.shaped.context.now (passes.near_of pass.now)))
        (λ _. budget.new.used ≡ budget.new.limit) }
    ensures lists { passes.ListsFor pass.now lister.new.listing }
    ensures look { passes.LooksFor pass.now state.new.look }
    ensures guide { G.knows state.new.guide.value pass.now.shaped.context.now pass.now.shaped.shape pass.now.wish }
    ensures spends { Spends budget.old budget.new }
{
    while state.guide.draw(
        PassSoFar {
            pass,
            incumbent: &state.incumbent,
        },
        lister,
        &mut *state.work,
        budget,
    )? {
        consider(pass, &lister.drawn, state, budget)?;
    }
    Ok(())
}

/// Keeps the best of the candidates that a pass seeks and that can be chosen: the first that none is better than. It
/// keeps none if there is none.
#[tactic(auto, using(crate::proofs::BeginLemmas::lent_anew))]
fn best_near<'a, G: Guide>(
    pass: &'a Pass<'a>,
    search: &mut PassRoom<'_, '_, '_, '_, G>,
    budget: &mut Budget,
) -> Result<(), Stopped>
    requires lister { passes.IsLentFor pass.now search.old.start search.old.lister.now }
    requires look { passes.LooksFor pass.now search.old.state.value.look }
    requires guide { G.knows search.old.state.value.guide.value pass.now.shaped.context.now pass.now.shaped.shape
        pass.now.wish }
    ensures answer { MatchResult result
        (λ _. MatchOption search.new.state.value.incumbent (passes.near_of pass.now ≡ None)
        (IsBest pass.now.shaped.context.now (passes.near_of pass.now)))
        (λ _. budget.new.used ≡ budget.new.limit) }
    ensures lister { passes.IsLentFor pass.now search.new.start search.new.lister.now }
    ensures look { passes.LooksFor pass.now search.new.state.value.look }
    ensures guide { G.knows search.new.state.value.guide.value pass.now.shaped.context.now pass.now.shaped.shape
        pass.now.wish }
    ensures spends { Spends budget.old budget.new }
{
    begin(pass, search, budget)?;
    go_on(pass, search.lister, &mut *search.state, budget)
}

/// Keeps what a pass with a target chooses: the best of all. It keeps none if there is no target, or if the pass finds
/// none that can be chosen, which says nothing of the choice.
fn best_by_target<'a, G: Guide>(
    pass: &'a Pass<'a>,
    search: &mut PassRoom<'_, '_, '_, '_, G>,
    budget: &mut Budget,
) -> Result<(), Stopped>
    requires lister { passes.IsLentFor pass.now search.old.start search.old.lister.now }
    requires look { passes.LooksFor pass.now search.old.state.value.look }
    requires guide { G.knows search.old.state.value.guide.value pass.now.shaped.context.now pass.now.shaped.shape
        pass.now.wish }
    ensures answer { MatchResult result
        (λ _. IfSome search.new.state.value.incumbent (IsBest pass.now.shaped.context.now (passes.wished_of pass.now)))
        (λ _. budget.new.used ≡ budget.new.limit) }
    ensures lister { passes.IsLentFor pass.now search.new.start search.new.lister.now }
    ensures look { passes.LooksFor pass.now search.new.state.value.look }
    ensures guide { G.knows search.new.state.value.guide.value pass.now.shaped.context.now pass.now.shaped.shape
        pass.now.wish }
    ensures spends { Spends budget.old budget.new }
{
    if pass.target.quality().is_none() {
        search.state.incumbent.clear();
        return Ok(());
    }
    best_near(pass, search, budget)
}

/// Keeps what a pass with its target ends with; if that is nothing, what the same pass without a target ends with.
#[tactic(auto, using(crate::proofs::TargetLemmas::without_target))]
fn best_in_passes<G: Guide>(
    pass: &mut Pass<'_>,
    search: &mut PassRoom<'_, '_, '_, '_, G>,
    budget: &mut Budget,
) -> Result<(), Stopped>
    requires lister { passes.IsLentFor pass.old search.old.start search.old.lister.now }
    requires look { passes.LooksFor pass.old search.old.state.value.look }
    requires guide { G.knows search.old.state.value.guide.value pass.old.shaped.context.now pass.old.shaped.shape
        pass.old.wish }
    ensures answer { MatchResult result (λ _. passes.IsEnd pass.old search.new.state.value.incumbent)
        (λ _. budget.new.used ≡ budget.new.limit) }
    ensures lister { passes.IsLentFor pass.old search.new.start search.new.lister.now }
    ensures look { passes.LooksFor pass.old search.new.state.value.look }
    ensures guide { G.knows search.new.state.value.guide.value pass.old.shaped.context.now pass.old.shaped.shape
        pass.old.wish }
    ensures pass { passes.SeeksTheSame pass.old pass.new }
    ensures spends { Spends budget.old budget.new }
{
    best_by_target(pass, search, budget)?;
    if search.state.incumbent.best().is_some() {
        return Ok(());
    }
    pass.target.clear();
    best_near(pass, search, budget)
}

/// Yes if weights can tell of the next bracket too (C.7), and need to: in an ordinary bracket, if the shape leaves
/// somebody over, the pass wishes nothing, and the two brackets are not too large together.
fn tells_next<G: Guide>(pass: &Pass<'_>, guide: &G) -> bool {
    match (pass.shaped.context.reached().kind(), pass.wish) {
        (BracketKind::Ordinary, None) => !leaves_nobody(&pass.shaped) && guide.can_weigh(true),
        _ => false,
    }
}

/// Keeps what the passes end with in so many steps. A no says that these do not suffice.
fn best_within<G: Guide>(
    pass: &mut Pass<'_>,
    search: &mut PassRoom<'_, '_, '_, '_, G>,
    steps: u64,
    budget: &mut Budget,
) -> Result<bool, Stopped>
    requires lister { passes.IsLentFor pass.old search.old.start search.old.lister.now }
    requires look { passes.LooksFor pass.old search.old.state.value.look }
    requires guide { G.knows search.old.state.value.guide.value pass.old.shaped.context.now pass.old.shaped.shape
        pass.old.wish }
    ensures answer { MatchResult result (λ ended. ended ≡ true → passes.IsEnd pass.old search.new.state.value.incumbent)
        (λ _. budget.new.used ≡ budget.new.limit) }
    ensures lister { passes.IsLentFor pass.old search.new.start search.new.lister.now }
    ensures look { passes.LooksFor pass.old search.new.state.value.look }
    ensures guide { G.knows search.new.state.value.guide.value pass.old.shaped.context.now pass.old.shaped.shape
        pass.old.wish }
    ensures pass { passes.SeeksTheSame pass.old pass.new }
    ensures spends { Spends budget.old budget.new }
{
    let mut few = at_most(steps, budget);
    let ended = best_in_passes(pass, search, &mut few);
    budget.used = few.used;
    match ended {
        Ok(()) => Ok(true),
        Err(Stopped) if budget.used == budget.limit => Err(Stopped),
        Err(Stopped) => Ok(false),
    }
}

/// Keeps a quality as the target of a pass, with the value of the next bracket that all candidates have, if it is known.
fn keep_target(pass: &mut Pass<'_>, quality: &mut Quality)
    ensures { passes.SeeksTheSame pass.old pass.new }
{
    if let Some(value) = &pass.next {
        quality.put_next(value.pairs, &value.psd);
    }
    pass.target.keep(quality);
}

/// Weighs the pairs anew for a pass, with those of the next bracket if that is wanted (C.7). The pass then has the
/// target that the weights tell, if they tell one.
fn weigh_pairs<G: Guide>(
    pass: &mut Pass<'_>,
    next: bool,
    state: &mut PassState<'_, G>,
    budget: &mut Budget,
) -> Result<(), Stopped>
    requires { passes.LooksFor pass.old state.old.look }
    ensures known { (context : Context) (shape : Shape)
        → G.knows state.old.guide.value context shape pass.old.wish
        → G.knows state.new.guide.value context shape pass.old.wish }
    ensures look { passes.LooksFor pass.old state.new.look }
    ensures pass { passes.SeeksTheSame pass.old pass.new }
    ensures stopped { MatchResult result (λ _. Unit {0}) (λ _. budget.new.used ≡ budget.new.limit) }
    ensures spends { Spends budget.old budget.new }
{
    pass.next = next_of_all(&pass.shaped, &mut state.look, budget)?;
    let work = &mut *state.work;
    if state.guide.weigh(pass.wish, next, work, budget)? {
        keep_target(pass, &mut work.room.quality);
    } else {
        pass.target.clear();
    }
    Ok(())
}

/// Weighs the pairs, with those of the next bracket where C.7 counts, and keeps what the passes end with. (Apart from
/// its caller, as most brackets do not come to it.)
#[inline(never)]
fn best_by_weight<G: Guide>(
    pass: &mut Pass<'_>,
    search: &mut PassRoom<'_, '_, '_, '_, G>,
    budget: &mut Budget,
) -> Result<(), Stopped>
    requires lister { passes.IsLentFor pass.old search.old.start search.old.lister.now }
    requires look { passes.LooksFor pass.old search.old.state.value.look }
    requires guide { G.knows search.old.state.value.guide.value pass.old.shaped.context.now pass.old.shaped.shape
        pass.old.wish }
    ensures answer { MatchResult result (λ _. passes.IsEnd pass.old search.new.state.value.incumbent)
        (λ _. budget.new.used ≡ budget.new.limit) }
    ensures spends { Spends budget.old budget.new }
{
    let next = tells_next(pass, &*search.state.guide);
    weigh_pairs(pass, next, &mut *search.state, budget)?;
    best_in_passes(pass, search, budget)
}

/// Keeps what the passes end with. Most brackets need few steps. The others have their pairs weighed. (Nothing here
/// depends on the limit: with a higher one the same way goes on.)
pub fn best_in_time<G: Guide>(
    pass: &mut Pass<'_>,
    search: &mut PassRoom<'_, '_, '_, '_, G>,
    budget: &mut Budget,
) -> Result<(), Stopped>
    requires lister { passes.IsLentFor pass.old search.old.start search.old.lister.now }
    requires look { passes.LooksFor pass.old search.old.state.value.look }
    requires guide { G.knows search.old.state.value.guide.value pass.old.shaped.context.now pass.old.shaped.shape
        pass.old.wish }
    ensures answer { MatchResult result (λ _. passes.IsEnd pass.old search.new.state.value.incumbent)
        (λ _. budget.new.used ≡ budget.new.limit) }
    ensures spends { Spends budget.old budget.new }
{
    let few = steps_at_first(pass.shaped.context, pass.wish);
    if best_within(pass, search, few, budget)? {
        return Ok(());
    }
    best_by_weight(pass, search, budget)
}

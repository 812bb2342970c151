// The best candidate of a bracket that grants a wish, in place of the one that is chosen, or why there is none (C.04.3
// B.8; B.1, C.4, C.5).
ghost use Rattle.std.specs.Prelude.{◌≡◌, ◌+◌, IfOk, Some, false, true};
ghost use Rattle.std.specs.List.{list_any};
ghost use Rattle.std.specs.Result.{MatchResult};
ghost use Rattle.dutch_arrangements.specs.Prelude.{MatchDrawn, Spends};
ghost use Rattle.dutch_rounds.specs.Lower.{above_lower};
ghost use Rattle.dutch_rounds.specs.Outcomes.{IsStage};
ghost use Rattle.dutch_bracket.specs.Prelude.{candidates_in, eligible_in, shape_here, Decides};
ghost use Rattle.dutch_candidates.specs.Wishes.{grants};
ghost use Rattle.dutch_choice.specs.Prelude.{ListsHere, NoneGrants, SomeGrants, some_grants, with_mdps};
ghost use Rattle.dutch_rounds.specs.Instead.{IsInstead};

use crate::lower::lower_of;
use crate::stage::Stage;
use dutch_arrangements::{Budget, Candidate, Exchange, Prefix, Shape, Step, Stopped};
use dutch_bracket::context::Context;
use dutch_bracket::fault::PairFault;
use dutch_bracket::quality::Quality;
use dutch_bracket::shaped::ShapedBracket;
use dutch_candidates::greatest::{Lister, has_room};
use dutch_candidates::narrowed::NarrowedRule;
use dutch_candidates::wish::Wish;
use dutch_choice::barred::{rules_out, rules_out_with};
use dutch_choice::finder::{Finder, best_by};
use dutch_listing::{Bound, Candidates};
use dutch_player::Field;
use std::alloc::Global;

/// What is told of a wish in a bracket.
#[derive(Drop)]
pub enum Instead {
    /// Of the candidates of the bracket's shape that can be chosen and grant it the first that none of them is better
    /// than, and its quality.
    Best {
        candidate: Candidate,
        quality: Quality,
    },
    /// Legal candidates grant it, with as many pairs as the shape, and as many moved-down players in them, or more. But
    /// none of these can be chosen (C.4). This can be in a penultimate bracket alone.
    NoneEligible,
    /// No legal candidate of the shape grants it, but one with as many pairs and fewer moved-down players in them does.
    /// As many of these as can be are paired (B.1).
    FewerMovedDown,
    /// No legal candidate with as many pairs grants it (C.5).
    NoneLegal,
    /// The limit was reached first, with this many steps.
    Undecided {
        used: u64,
    },
}

/// A wish for the candidates of a shape in a bracket.
#[derive(Drop)]
struct Wished<'a> {
    shaped: ShapedBracket<'a>,
    wish: Wish,
}

impl<'a> Bound for Wished<'a> {
    type Room = ();

    ghost use Rattle.std.specs.Prelude.{Some, not};
    ghost use Rattle.dutch_bracket.specs.Prelude.{frame_here, numbers_meet, number_may_be_left};
    ghost use Rattle.dutch_candidates.specs.Wishes.{grants, left_narrowed, meets_narrowed};

    ghost frame = { λ w. frame_here w.shaped.context.now };

    ghost shape = { λ w. w.shaped.shape };

    ghost meets = { λ w. meets_narrowed (Some w.wish)
        (numbers_meet w.shaped.context.now.facts w.shaped.context.now.reached) };

    ghost may_be_left = { λ w. left_narrowed (Some w.wish)
        (number_may_be_left w.shaped.context.now.facts w.shaped.context.now.reached) };

    ghost is_pruned = { λ w a. not (grants w.wish a) };

    ghost Holds = { λ _ _. Unit {0} };

    fn start(&self, _room: &mut ()) {}

    #[tactic(auto, using(dutch_choice::proofs::Listings::narrowed_inside), unfolding(dutch_bracket::specs::Brackets::candidates_of))]
    fn cannot_win(&self, prefix: &Prefix<'_>, _room: &mut ()) -> bool {
        rules_out(&self.shaped, self.wish, prefix)
    }

    #[tactic(auto, using(dutch_choice::proofs::Listings::narrowed_inside), unfolding(dutch_bracket::specs::Brackets::candidates_of))]
    fn cannot_win_with(
        &self,
        _prefix: &Prefix<'_>,
        exchange: &Exchange<'_>,
        _room: &mut (),
    ) -> bool {
        rules_out_with(&self.shaped, self.wish, exchange)
    }
}

/// Yes if a legal candidate grants the wish, by a listing that begins anew; those that cannot be chosen count too.
#[tactic(auto, using(crate::proofs::InsteadLemmas::skipped_same), unfolding(dutch_bracket::specs::Brackets::candidates_of))]
fn is_granted_by(
    wished: &Wished<'_>,
    candidates: &mut Candidates<'_, NarrowedRule<'_>>,
    budget: &mut Budget,
) -> Result<bool, Stopped>
    requires lists { ListsHere wished.now.shaped.context.now (Some wished.now.wish) candidates.old }
    ensures answer { Decides result
        (list_any (grants wished.now.wish) (candidates_in wished.now.shaped))
        (budget.new.used ≡ budget.new.limit) }
    ensures spends { Spends budget.old budget.new }
{
    candidates.restart(wished.shaped.shape);
    loop {
        match candidates.next_within(wished, &mut (), budget) {
            Step::Found(candidate) => {
                if wished.wish.is_granted(&candidate) {
                    return Ok(true);
                }
            }
            Step::End => return Ok(false),
            Step::Undecided => return Err(Stopped),
        }
    }
}

/// Yes if a legal candidate grants the wish, with a listing on the stack, where memory is refused. (Apart from its
/// caller, as a listing is large.)
#[inline(never)]
fn is_granted_on_stack(
    wished: &Wished<'_>,
    rule: &NarrowedRule<'_>,
    budget: &mut Budget,
) -> Result<bool, Stopped>
    requires field { rule.now.rule.field.now ≡ wished.now.shaped.context.now.facts }
    requires bracket { rule.now.rule.reached.now ≡ wished.now.shaped.context.now.reached }
    requires wish { rule.now.wish ≡ Some wished.now.wish }
    ensures answer { Decides result
        (list_any (grants wished.now.wish) (candidates_in wished.now.shaped))
        (budget.new.used ≡ budget.new.limit) }
    ensures spends { Spends budget.old budget.new }
{
    let mut candidates = Candidates::ended(wished.shaped.context.frame(), rule);
    is_granted_by(wished, &mut candidates, budget)
}

/// Yes if a legal candidate grants the wish; those that cannot be chosen count too.
fn is_granted(wished: &Wished<'_>, budget: &mut Budget) -> Result<bool, Stopped>
    ensures answer { Decides result
        (list_any (grants wished.now.wish) (candidates_in wished.now.shaped))
        (budget.new.used ≡ budget.new.limit) }
    ensures spends { Spends budget.old budget.new }
{
    let context = wished.shaped.context;
    let rule = NarrowedRule {
        rule: context.rule(),
        wish: Some(wished.wish),
    };
    if let Ok(mut lister) = Lister::boxed(context.alloc(), context.frame(), &rule) {
        return is_granted_by(wished, &mut lister.listing, budget);
    }
    is_granted_on_stack(wished, &rule, budget)
}

#[tactic(auto, using(crate::proofs::InsteadLemmas::few_pairs, dutch_bracket::proofs::ShapeSearch::fits_by_test))]
fn is_granted_with(wished: &Wished<'_>, mdps: usize, budget: &mut Budget) -> Result<bool, Stopped>
    ensures answer { let context = wished.now.shaped.context.now in Decides result
        (some_grants context.facts context.reached wished.now.wish (with_mdps wished.now.shaped.shape mdps))
        (budget.new.used ≡ budget.new.limit) }
    ensures spends { Spends budget.old budget.new }
{
    let context = wished.shaped.context;
    let shape = Shape {
        pairs: wished.shaped.shape.pairs,
        mdps,
    };
    if !has_room(context.frame(), shape) {
        return Ok(false);
    }
    let wished = Wished {
        shaped: ShapedBracket { context, shape },
        wish: wished.wish,
    };
    is_granted(&wished, budget)
}

/// With as many pairs as the shape, and at least `from` and fewer than `to` moved-down players in them.
fn is_granted_within(
    wished: &Wished<'_>,
    from: usize,
    to: usize,
    budget: &mut Budget,
) -> Result<bool, Stopped>
    ensures answer { let context = wished.now.shaped.context.now in MatchDrawn result
        (SomeGrants context.facts context.reached wished.now.wish wished.now.shaped.shape from to)
        (NoneGrants context.facts context.reached wished.now.wish wished.now.shaped.shape from to)
        (budget.new.used ≡ budget.new.limit) }
    ensures spends { Spends budget.old budget.new }
{
    let mut mdps = to;
    while from < mdps {
        mdps -= 1;
        if is_granted_with(wished, mdps, budget)? {
            return Ok(true);
        }
    }
    Ok(false)
}

/// Elsewhere than in a penultimate bracket all legal candidates of the shape can be chosen, so none is barred.
#[tactic(auto, using(crate::proofs::InsteadLemmas::none_legal))]
fn is_barred(wished: &Wished<'_>, budget: &mut Budget) -> Result<bool, Stopped>
    requires none { list_any (grants wished.now.wish) (eligible_in wished.now.shaped) ≡ false }
    ensures answer { Decides result
        (list_any (grants wished.now.wish) (candidates_in wished.now.shaped))
        (budget.new.used ≡ budget.new.limit) }
    ensures spends { Spends budget.old budget.new }
{
    if !wished.shaped.context.reached().kind().is_penultimate() {
        return Ok(false);
    }
    is_granted(wished, budget)
}

/// Elsewhere than in a penultimate bracket no legal candidate has as many pairs as the bracket's shape and more
/// moved-down players in them, since it could be chosen.
#[tactic(auto, using(crate::proofs::InsteadLemmas::none_more))]
fn is_granted_above(wished: &Wished<'_>, budget: &mut Budget) -> Result<bool, Stopped>
    requires greatest { shape_here wished.now.shaped.context.now ≡ Some wished.now.shaped.shape }
    ensures answer { let context = wished.now.shaped.context.now in let shape = wished.now.shaped.shape
        in MatchDrawn result
        (SomeGrants context.facts context.reached wished.now.wish shape (shape.mdps + 1) (shape.pairs + 1))
        (NoneGrants context.facts context.reached wished.now.wish shape (shape.mdps + 1) (shape.pairs + 1))
        (budget.new.used ≡ budget.new.limit) }
    ensures spends { Spends budget.old budget.new }
{
    if !wished.shaped.context.reached().kind().is_penultimate() {
        return Ok(false);
    }
    let shape = wished.shaped.shape;
    is_granted_within(wished, shape.mdps + 1, shape.pairs + 1, budget)
}

/// Why no candidate of a bracket's shape that can be chosen grants a wish: the first reason that stands.
#[tactic(auto, using(crate::proofs::InsteadLemmas::none_upto, crate::proofs::InsteadLemmas::none_at_all), unfolding(crate::specs::Instead::IsInstead))]
#[inline(never)]
fn why_none(wished: &Wished<'_>, budget: &mut Budget) -> Result<Instead, Stopped>
    requires greatest { shape_here wished.now.shaped.context.now ≡ Some wished.now.shaped.shape }
    requires none { list_any (grants wished.now.wish) (eligible_in wished.now.shaped) ≡ false }
    ensures answer { MatchResult result
        (IsInstead wished.now.shaped.context.now wished.now.shaped.shape wished.now.wish budget.old.limit)
        (λ _. budget.new.used ≡ budget.new.limit) }
    ensures spends { Spends budget.old budget.new }
{
    if is_barred(wished, budget)? {
        return Ok(Instead::NoneEligible);
    }
    if is_granted_within(wished, 0, wished.shaped.shape.mdps, budget)? {
        return Ok(Instead::FewerMovedDown);
    }
    if is_granted_above(wished, budget)? {
        return Ok(Instead::NoneEligible);
    }
    Ok(Instead::NoneLegal)
}

/// The best candidate of a bracket's shape that grants a wish, or why there is none.
#[tactic(auto, using(crate::proofs::InsteadLemmas::none_granting), unfolding(dutch_choice::specs::Found::best_wished, dutch_choice::specs::Wishes::best_granting, crate::specs::Instead::IsInstead))]
fn look_for<F: Finder>(wished: &Wished<'_>, budget: &mut Budget) -> Result<Instead, PairFault>
    requires greatest { shape_here wished.now.shaped.context.now ≡ Some wished.now.shaped.shape }
    ensures { IfOk result (IsInstead wished.now.shaped.context.now wished.now.shaped.shape wished.now.wish
        budget.old.limit) }
{
    let wish = Some(wished.wish);
    match best_by::<F>(&wished.shaped, wish, budget)? {
        Step::Found(best) => {
            let best = Box::into_inner(best);
            Ok(Instead::Best {
                candidate: best.candidate,
                quality: best.quality,
            })
        }
        Step::End => match why_none(wished, budget) {
            Ok(reason) => Ok(reason),
            Err(Stopped) => Ok(Instead::Undecided { used: budget.used }),
        },
        Step::Undecided => Ok(Instead::Undecided { used: budget.used }),
    }
}

/// The best candidate of a bracket's shape that grants a wish and can be chosen (B.8, C.4), or why there is none: what
/// would stand there if the wish were granted. The wish names players by their numbers in the bracket; no candidate
/// pairs a number that the bracket has not. The search has a budget of its own, of `limit` steps.
#[tactic(auto, using(crate::proofs::InsteadLemmas::read_shape))]
#[inline(never)]
pub fn best_instead<F: Finder>(
    alloc: Global,
    field: &Field,
    stage: &Stage,
    wish: Wish,
    limit: u64,
) -> Result<Instead, PairFault>
    requires { IsStage field.now stage.now }
    ensures { IfOk result (IsInstead (above_lower field.now stage.now.reached) stage.now.shape wish limit) }
{
    let lower = lower_of(field, stage.reached());
    let context = Context::new(alloc, field, stage.reached(), &lower);
    let shaped = ShapedBracket {
        context: &context,
        shape: stage.shape(),
    };
    look_for::<F>(&Wished { shaped, wish }, &mut Budget { used: 0, limit })
}

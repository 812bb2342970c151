// The greatest shape of a bracket (C.04.3 C.5, B.1): the most pairs that some arrangement has, and then the most
// moved-down players in them; and the first of its arrangements, which is found with it. One search serves a bracket by
// any rule, where each legal arrangement counts, and a bracket of the round, where those count that can be chosen.
ghost use Rattle.std.specs.Prelude.{◌≡◌, ◌&&◌, List, Some, None, true, false, filter, IfOk, IfSome};
ghost use Rattle.dutch_arrangements.specs.declared.bracket.Shape.{Shape};
ghost use Rattle.dutch_arrangements.specs.Prelude.{Arrangement, Candidate, Fits, Frame, candidates, Listing, MatchDrawn};
ghost use Rattle.dutch_arrangements.specs.Prelude.{MatchFound, Spends};
ghost use Rattle.dutch_bracket.specs.Shapes.{IsFirst, fits, shapes_with, has_member, first_with, greatest_shape};

use dutch_arrangements::{Bracket, Budget, Candidate, Rule, Shape, Stopped};
use dutch_listing::Candidates;
use std::alloc::{AllocError, Global};

/// What draws a bracket's arrangements: a listing, which begins anew for each shape, and a place for what it hands out.
/// They are made once, for a bracket or for all brackets of a round.
#[derive(Drop)]
pub struct Lister<'a, R: Rule> {
    pub listing: Candidates<'a, R>,
    pub drawn: Candidate,
}

impl<'a, R: Rule> Lister<'a, R> {
    /// A lister of a bracket by a rule. (It is large, and a function pays at its entry for the size of its locals. So a
    /// function that makes one without memory does little else, and is not inlined.)
    pub fn new(bracket: &'a Bracket, rule: &'a R) -> Lister<'a, R>
        ensures frame { result.listing.frame ≡ bracket.now }
        ensures rule { result.listing.rule ≡ rule.now }
    {
        Lister {
            listing: Candidates::ended(bracket, rule),
            drawn: Candidate::empty(),
        }
    }

    /// A lister on the heap, so that it is no local of who holds it.
    #[inline(never)]
    pub fn boxed(
        alloc: Global,
        bracket: &'a Bracket,
        rule: &'a R,
    ) -> Result<Box<Lister<'a, R>>, AllocError>
        ensures frame { IfOk result (λ lister. lister.value.listing.frame ≡ bracket.now) }
        ensures rule { IfOk result (λ lister. lister.value.listing.rule ≡ rule.now) }
    {
        Ok(Box::new(alloc, Lister::new(bracket, rule))?)
    }

    /// Goes to another bracket, which is listed by another rule.
    pub fn move_to(&mut self, bracket: &'a Bracket, rule: &'a R)
        ensures frame { self.new.listing.frame ≡ bracket.now }
        ensures rule { self.new.listing.rule ≡ rule.now }
    {
        self.listing
            .move_to(bracket, Shape { pairs: 0, mdps: 0 }, rule);
    }
}

/// A bracket whose greatest shape is looked for.
pub trait Shapes<R: Rule> {
    /// The arrangements of a shape that count.
    ghost counting: { Self → Shape → List Arrangement };

    ghost frame: { Self → Frame };

    /// A listing is of this bracket.
    ghost lists: { Self → Listing R → Type 0 };

    /// A listing stands behind the first arrangement of a shape that counts, which is drawn.
    ghost stands: { Self → Shape → Listing R → Candidate → Type 0 };

    /// The bracket by scores.
    fn bracket(&self) -> &Bracket
        ensures { result.now ≡ frame self.now };

    /// A no says that no shape with so many pairs has an arrangement that counts; a yes says nothing.
    fn may_have(&self, pairs: usize) -> bool
        ensures { result ≡ false
            → first_with (counting self.now) (filter (fits (frame self.now)) (shapes_with pairs)) ≡ None };

    /// Draws the first arrangement of a shape that counts. No says that there is none.
    fn first(
        &self,
        lister: &mut Lister<'_, R>,
        shape: Shape,
        budget: &mut Budget,
    ) -> Result<bool, Stopped>
        requires fits { Fits (frame self.now) shape }
        requires lists { lists self.now lister.old.listing }
        ensures answer { MatchDrawn result (IsFirst (counting self.now shape) (frame self.now) lister.new.drawn)
            (has_member (counting self.now shape) ≡ false)
            (budget.new.used ≡ budget.new.limit) }
        ensures stands { IfOk result (λ yes. yes ≡ true → stands self.now shape lister.new.listing lister.new.drawn) }
        ensures lists { lists self.now lister.new.listing }
        ensures spends { Spends budget.old budget.new };
}

/// A bracket by a rule.
#[derive(Clone, Copy)]
pub struct Legal<'a, R: Rule> {
    pub bracket: &'a Bracket,
    pub rule: &'a R,
}

impl<'a, R: Rule> Shapes<R> for Legal<'a, R> {
    ghost use Rattle.std.specs.Prelude.{◌≡◌};
    ghost use Rattle.dutch_arrangements.specs.Prelude.{candidates};

    ghost counting = { λ l. candidates (R.meets l.rule.now) (R.may_be_left l.rule.now) l.bracket.now };

    ghost frame = { λ l. l.bracket.now };

    ghost lists = { λ l listing. (listing.frame ≡ l.bracket.now) × (listing.rule ≡ l.rule.now) };

    ghost stands = { λ _ _ _ _. Unit {0} };

    fn bracket(&self) -> &Bracket {
        self.bracket
    }

    fn may_have(&self, _pairs: usize) -> bool {
        true
    }

    fn first(
        &self,
        lister: &mut Lister<'_, R>,
        shape: Shape,
        budget: &mut Budget,
    ) -> Result<bool, Stopped> {
        lister.listing.restart(shape);
        let drawn = lister.listing.put_next(&mut lister.drawn, budget);
        Ok(drawn.found()?.is_some())
    }
}

/// Yes if the bracket has players enough for the shape; it is not asked who may meet.
pub fn has_room(bracket: &Bracket, shape: Shape) -> bool
    ensures { result ≡ fits bracket.now shape }
{
    let residents = bracket.scores().len() - bracket.mdps();
    if shape.pairs < shape.mdps || bracket.mdps() < shape.mdps || residents < shape.mdps {
        return false;
    }
    shape.pairs - shape.mdps <= (residents - shape.mdps) / 2
}

/// Draws the first arrangement of a shape that counts, if the bracket has room for that shape. No says that there is
/// none.
#[tactic(auto, using(dutch_bracket::proofs::ShapeSearch::fits_by_test, dutch_bracket::proofs::ShapeSearch::first_there))]
fn first_of<R: Rule, S: Shapes<R>>(
    asked: &S,
    lister: &mut Lister<'_, R>,
    shape: Shape,
    budget: &mut Budget,
) -> Result<bool, Stopped>
    requires lists { S.lists asked.now lister.old.listing }
    ensures answer { MatchDrawn result
        (IsFirst (S.counting asked.now shape) (S.frame asked.now) lister.new.drawn
        × ((fits (S.frame asked.now) shape && has_member (S.counting asked.now shape)) ≡ true))
        ((fits (S.frame asked.now) shape && has_member (S.counting asked.now shape)) ≡ false)
        (budget.new.used ≡ budget.new.limit) }
    ensures stands { IfOk result
        (λ yes. yes ≡ true → S.stands asked.now shape lister.new.listing lister.new.drawn) }
    ensures lists { S.lists asked.now lister.new.listing }
    ensures spends { Spends budget.old budget.new }
{
    if !has_room(asked.bracket(), shape) {
        return Ok(false);
    }
    asked.first(lister, shape, budget)
}

/// Of the shapes with a number of pairs, the one with the most moved-down players that has an arrangement that counts.
/// Its first such arrangement is drawn.
#[tactic(auto, using(dutch_bracket::proofs::ShapeSearch::mdps_taken, dutch_bracket::proofs::ShapeSearch::mdps_passed, dutch_bracket::proofs::ShapeSearch::mdps_ended))]
fn shape_with<R: Rule, S: Shapes<R>>(
    asked: &S,
    lister: &mut Lister<'_, R>,
    pairs: usize,
    budget: &mut Budget,
) -> Result<Option<Shape>, Stopped>
    requires lists { S.lists asked.now lister.old.listing }
    ensures answer { MatchFound result
        (λ shape. (first_with (S.counting asked.now) (filter (fits (S.frame asked.now)) (shapes_with pairs))
        ≡ Some shape)
        × IsFirst (S.counting asked.now shape) (S.frame asked.now) lister.new.drawn)
        (first_with (S.counting asked.now) (filter (fits (S.frame asked.now)) (shapes_with pairs)) ≡ None)
        (budget.new.used ≡ budget.new.limit) }
    ensures stands { IfOk result (λ found. IfSome found
        (λ shape. S.stands asked.now shape lister.new.listing lister.new.drawn)) }
    ensures lists { S.lists asked.now lister.new.listing }
    ensures spends { Spends budget.old budget.new }
{
    if !asked.may_have(pairs) {
        return Ok(None);
    }
    let mut mdps = pairs;
    loop {
        let shape = Shape { pairs, mdps };
        if first_of(asked, lister, shape, budget)? {
            return Ok(Some(shape));
        }
        if mdps == 0 {
            return Ok(None);
        }
        mdps -= 1;
    }
}

/// The greatest shape of a bracket that has an arrangement that counts, the first of which is drawn; none if no shape
/// has one.
pub fn greatest_shape<R: Rule, S: Shapes<R>>(
    asked: &S,
    lister: &mut Lister<'_, R>,
    budget: &mut Budget,
) -> Result<Option<Shape>, Stopped>
    requires lists { S.lists asked.now lister.old.listing }
    ensures answer { MatchFound result
        (λ shape. (greatest_shape (S.counting asked.now) (S.frame asked.now) ≡ Some shape)
        × IsFirst (S.counting asked.now shape) (S.frame asked.now) lister.new.drawn)
        (greatest_shape (S.counting asked.now) (S.frame asked.now) ≡ None)
        (budget.new.used ≡ budget.new.limit) }
    ensures stands { IfOk result (λ found. IfSome found
        (λ shape. S.stands asked.now shape lister.new.listing lister.new.drawn)) }
    ensures lists { S.lists asked.now lister.new.listing }
    ensures spends { Spends budget.old budget.new }
{
    let mut pairs = asked.bracket().len() / 2;
    loop {
        if let Some(shape) = shape_with(asked, lister, pairs, budget)? {
            return Ok(Some(shape));
        }
        if pairs == 0 {
            return Ok(None);
        }
        pairs -= 1;
    }
}

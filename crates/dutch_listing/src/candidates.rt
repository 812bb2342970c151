// The candidates of a bracket and a shape in the order of article D, specified by the list of the legal arrangements to
// come.
//
// Four levels list the arrangements whose pairs may meet. What is left to do here is the last question, whether those
// whom an arrangement leaves over may be left over. An arrangement that was found is drawn once more if that question
// was not answered.
//
// The levels fill a candidate that the caller lends (`put_next`, `put_next_within`), and a copy is kept as the cursor.
// `next` and `next_within` make the candidate that they answer. A listing begins anew for another shape (`restart`),
// so one listing serves all shapes of a bracket that are tried.
ghost use Rattle.std.specs.Prelude.{◌≡◌, ◌++◌, ◌∷◌, [], Some, None, filter, length, not, ◌||◌, ◌&&◌, ◌-◌, ◌*◌, nat_lt};
ghost use Rattle.std.specs.Prelude.{option_copied, true, false};
ghost use Rattle.dutch_arrangements.specs.Arrangements.{Fits, arrangements, candidates, down, leaves_one, rest};
ghost use Rattle.dutch_sequence.specs.Choices.{is_member};
ghost use Rattle.dutch_sequence.specs.Keys.{IsIn};
ghost use Rattle.dutch_arrangements.specs.Levels.{Of, in_bracket, may_leave};
ghost use Rattle.dutch_arrangements.specs.Listings as listings;
ghost use Rattle.dutch_listing.specs.Listed.{listed};
ghost use Rattle.dutch_sequence.specs.Steps.{MatchDrawn, MatchStep, Passes, Spends};
ghost use Rattle.dutch_sequence.specs.declared.steps.Step.TheVariants.{Found, End, Undecided};

use crate::bound::Bound;
use crate::choices::{Levels, no_levels};
use crate::cuts::{BoundWithRoom, Cuts, NoCuts};
use crate::levels::{Arranges, Stand};
use dutch_arrangements::{
    Arrangement, Bracket, Candidate, Cursor, FittingShape, LastArrangement, Prefix, Shape,
};
use dutch_sequence::{Budget, Drawn, Numbers, Rule, Step, Stopped};
use std::marker::Model;

fn is_paired(lists: &Arrangement, number: u16) -> bool
    ensures { result ≡ (is_member number lists.now.s1 ||
        (is_member number lists.now.s2 || (is_member number lists.now.s1r || is_member number lists.now.s2r))) }
{
    lists.s1.contains(&number)
        || lists.s2.contains(&number)
        || lists.s1r.contains(&number)
        || lists.s2r.contains(&number)
}

/// Fills a list with those whom an arrangement leaves over, by rank.
fn put_left_over(bracket: &Bracket, lists: &Arrangement, left: &mut Numbers)
    ensures { left.new.items ≡ down bracket.now lists.now }
{
    left.clear();
    for place in 0..bracket.scores().len() {
        let number = (1 + place) as u16;
        if !is_paired(lists, number) {
            left.push(number);
        }
    }
}

/// Where arrangements are drawn: from a level, but first the one that was drawn last, if it is still to be asked about.
#[derive(Drop)]
struct Drawing<L> {
    level: L,
    is_kept: bool,
}

/// In a bracket that leaves at most one player, asking about that player (C.04.3 C.2) takes a step.
fn ask_leave<R: Rule>(rule: &R, last: bool, down: &[u16], budget: &mut Budget) -> Drawn
    ensures answer { MatchDrawn result
        ((not last || leaves_one (R.may_be_left rule.now) down.now) ≡ true)
        ((not last || leaves_one (R.may_be_left rule.now) down.now) ≡ false)
        (budget.new.used ≡ budget.new.limit) }
    ensures spends { Spends budget.old budget.new }
{
    if !last {
        return Ok(true);
    }
    match down {
        [] => Ok(true),
        [player] => {
            if budget.used == budget.limit {
                return Err(Stopped);
            }
            budget.used += 1;
            Ok(rule.last_ok(*player))
        }
        _ => Ok(false),
    }
}

/// All arrangements of a shape leave as many over: where these are two or more, and the bracket may leave at most one,
/// none of them is a candidate.
fn leaves_too_many(fitting: &FittingShape<'_>) -> bool
    ensures { result ≡ listings.leaves_too_many fitting.now.bracket.now fitting.now.shape }
{
    fitting.bracket.is_last() && fitting.bracket.len() - 2 * fitting.shape.pairs > 1
}

/// Draws the next arrangement: the one that is kept, or else the level's next.
fn draw_listed<L: Arranges, C: Cuts>(
    drawing: &mut Drawing<L>,
    cuts: &mut C,
    lists: &mut Arrangement,
    budget: &mut Budget,
) -> Drawn
    ensures answer { let Pruned = C.Pruned cuts.old in
        let before = listed (listings.only_if drawing.old.is_kept (L.latest drawing.old.level))
        ++ L.coming drawing.old.level in
        MatchDrawn result
        (Passes Pruned before (lists.new ∷ L.coming drawing.new.level) × (L.latest drawing.new.level ≡ lists.new))
        (Passes Pruned before [])
        (Passes Pruned before (L.coming drawing.new.level)
        × (budget.new.used ≡ budget.new.limit)) }
    ensures taken { drawing.new.is_kept ≡ false }
    ensures keeps { (a : Arrangement) → C.Pruned cuts.new a → C.Pruned cuts.old a }
    ensures spends { Spends budget.old budget.new }
{
    if drawing.is_kept {
        drawing.is_kept = false;
        drawing.level.put_again(lists);
        return Ok(true);
    }
    drawing.level.next(cuts, lists, budget)
}

/// What an arrangement is asked: whom it leaves over in its bracket, whether the rule lets it, and whether it is
/// pruned.
#[derive(Drop)]
struct Tests<'q, 'c, R, C> {
    bracket: &'q Bracket,
    rule: &'q R,
    cuts: &'c mut C,
}

/// Draws the next arrangement that leaves over whom its bracket may leave. It may skip those that are known to be
/// pruned.
fn draw_legal<R: Rule, L: Arranges, C: Cuts>(
    tests: &mut Tests<'_, '_, R, C>,
    drawing: &mut Drawing<L>,
    candidate: &mut Candidate,
    budget: &mut Budget,
) -> Drawn
    ensures answer { let frame = tests.old.bracket.now in
        let may = may_leave (R.may_be_left tests.old.rule.now) frame in
        let before = filter may
        (listed (listings.only_if drawing.old.is_kept (L.latest drawing.old.level)) ++ L.coming drawing.old.level) in
        let after = filter may
        (listed (listings.only_if drawing.new.is_kept (L.latest drawing.new.level)) ++ L.coming drawing.new.level) in
        let Pruned = C.Pruned tests.old.cuts.now in
        MatchDrawn result
        (Passes Pruned before (candidate.new.lists ∷ after)
        × (candidate.new.down ≡ down frame candidate.new.lists))
        (Passes Pruned before [])
        (Passes Pruned before after × (budget.new.used ≡ budget.new.limit)) }
    ensures spends { Spends budget.old budget.new }
{
    loop {
        if !draw_listed(drawing, tests.cuts, &mut candidate.lists, budget)? {
            return Ok(false);
        }
        put_left_over(tests.bracket, &candidate.lists, &mut candidate.down);
        match ask_leave(tests.rule, tests.bracket.is_last(), &candidate.down, budget) {
            Ok(true) => return Ok(true),
            Ok(false) => {}
            Err(Stopped) => {
                drawing.is_kept = true;
                return Err(Stopped);
            }
        }
    }
}

/// Begins anew, in place, with a shape: all its arrangements whose pairs may meet, or those that stand behind a cursor.
fn start_drawing<'a, R: Rule>(
    drawing: &mut Drawing<Levels<'a, R>>,
    fitting: &FittingShape<'_>,
    own: Option<&Arrangement>,
    rule: &'a R,
)
    requires given { Of (λ cursor. IsIn cursor (arrangements fitting.now.bracket.now fitting.now.shape))
        (option_copied own) }
    ensures kept { drawing.new.is_kept ≡ false }
    ensures level { drawing.new.level.coming
        ≡ in_bracket (R.meets rule.now) fitting.now.bracket.now fitting.now.shape (option_copied own.entry) }
{
    drawing.is_kept = false;
    drawing.level.put_cursor(own);
    drawing.level.block.stand = Stand::AtStart;
    drawing.level.blocks.start(fitting, own, rule);
}

/// The same answer, with the candidate that was filled where one was found.
fn with_candidate(step: Step<()>, filled: Candidate) -> Step<Candidate>
    ensures { MatchStep step (λ _. result ≡ Found filled) (result ≡ End) (result ≡ Undecided) }
{
    match step {
        Step::Found(()) => Step::Found(filled),
        Step::End => Step::End,
        Step::Undecided => Step::Undecided,
    }
}

/// The candidates of a bracket and a shape, one by one (C.04.3 B.6, B.7): the arrangements that are legal, in the order
/// of article D. A step is one number tried at one place of one of the four lists, or the one downfloater of a last or
/// collapsed bracket tried for C.2. It takes no memory. (What is large stands in front of what is small: so the compiler
/// makes it in its place, and not elsewhere first.)
#[derive(Drop)]
pub struct Candidates<'a, R: Rule> {
    fitting: FittingShape<'a>,
    rule: &'a R,
    drawing: Drawing<Levels<'a, R>>,
    // what was handed out last, or before that, where the listing began
    latest: LastArrangement,
    // every arrangement leaves over more than the bracket may, so that none is legal
    too_many_left: bool,
    // `End` was answered
    ended: bool,
}

impl<'a, R: Rule> Model for Candidates<'a, R> {
    ghost use Rattle.std.specs.Prelude.{◌≡◌, ◌++◌, ◌&&◌, ◌-◌, ◌*◌, [], filter, length, nat_lt, true};
    ghost use Rattle.dutch_arrangements.specs.Levels.{may_leave};
    ghost use Rattle.dutch_arrangements.specs.Listings.{AreCandidates, Listing, leaves_too_many, only_if};
    ghost use Rattle.dutch_listing.specs.Listed.{listed};
    ghost use Rattle.dutch_arrangements.specs.Listings.{still_coming};

    ghost Value = { Listing R };

    ghost view = { λ l. record {
      frame = l.fitting.bracket.now;
      shape = l.fitting.shape;
      rule = l.rule.now;
      coming = still_coming l.ended (filter (may_leave (R.may_be_left l.rule.now) l.fitting.bracket.now)
          (listed (only_if l.drawing.is_kept l.drawing.level.latest) ++ l.drawing.level.coming));
      latest = l.latest;
      ended = l.ended;
    } };

    ghost invariant = { λ l.
        (l.too_many_left ≡ leaves_too_many l.fitting.bracket.now l.fitting.shape)
        × (l.too_many_left ≡ true → filter (may_leave (R.may_be_left l.rule.now) l.fitting.bracket.now)
        (listed (only_if l.drawing.is_kept l.drawing.level.latest) ++ l.drawing.level.coming) ≡ [])
        × AreCandidates (R.meets l.rule.now) (R.may_be_left l.rule.now) l.fitting.bracket.now l.fitting.shape
        (still_coming l.ended (filter (may_leave (R.may_be_left l.rule.now) l.fitting.bracket.now)
        (listed (only_if l.drawing.is_kept l.drawing.level.latest) ++ l.drawing.level.coming))) };
}

impl<'a, R: Rule> Candidates<'a, R> {
    /// A listing that has ended, with room for its lists. The room is made once: `restart` begins a listing anew in it.
    #[tactic(auto, unfolding(dutch_arrangements::specs::Listings::AreCandidates))]
    pub fn ended(bracket: &'a Bracket, rule: &'a R) -> Candidates<'a, R>
        ensures coming { result.coming ≡ [] }
        ensures frame { result.frame ≡ bracket.now }
        ensures rule { result.rule ≡ rule.now }
        ensures ended { result.ended ≡ true }
        ensures latest { result.latest ≡ None }
    {
        let shape = Shape { pairs: 0, mdps: 0 };
        let fitting = FittingShape { bracket, shape };
        Candidates {
            fitting,
            rule,
            drawing: Drawing {
                level: no_levels(rule),
                is_kept: false,
            },
            latest: LastArrangement::none(),
            too_many_left: leaves_too_many(&fitting),
            ended: true,
        }
    }

    // Begins anew by a rule, with a shape: all its candidates, or those that stand behind a cursor.
    fn begin(&mut self, fitting: FittingShape<'a>, rule: &'a R, own: Option<&Arrangement>)
        requires given { Of (λ cursor. IsIn cursor (arrangements fitting.bracket.now fitting.shape))
            (option_copied own) }
        ensures coming { self.new.coming ≡ listings.candidates_from (R.meets rule.now) (R.may_be_left rule.now)
            fitting.entry.bracket.now fitting.entry.shape (option_copied own.entry) }
        ensures frame { self.new.frame ≡ fitting.entry.bracket.now }
        ensures shape { self.new.shape ≡ fitting.entry.shape }
        ensures rule { self.new.rule ≡ rule.now }
        ensures ended { self.new.ended ≡ false }
        ensures latest { self.new.latest ≡ option_copied own.entry }
    {
        self.fitting = fitting;
        self.rule = rule;
        self.too_many_left = leaves_too_many(&fitting);
        self.ended = false;
        self.latest.put(own);
        start_drawing(&mut self.drawing, &fitting, own, rule);
    }

    /// All candidates. The bracket has players enough for the shape.
    pub fn new(bracket: &'a Bracket, shape: Shape, rule: &'a R) -> Candidates<'a, R>
        requires { Fits bracket.now shape }
        ensures coming { result.coming ≡ candidates (R.meets rule.now) (R.may_be_left rule.now) bracket.now shape }
        ensures frame { result.frame ≡ bracket.now }
        ensures shape { result.shape ≡ shape }
        ensures rule { result.rule ≡ rule.now }
        ensures ended { result.ended ≡ false }
        ensures latest { result.latest ≡ None }
    {
        let mut candidates = Candidates::ended(bracket, rule);
        candidates.begin(FittingShape { bracket, shape }, rule, None);
        candidates
    }

    /// Those that stand behind an arrangement of the bracket and the shape, legal or not.
    pub fn from(
        bracket: &'a Bracket,
        shape: Shape,
        rule: &'a R,
        cursor: Cursor,
    ) -> Candidates<'a, R>
        requires fits { Fits bracket.now shape }
        requires given { IsIn cursor (arrangements bracket.now shape) }
        ensures coming { result.coming ≡ rest (R.meets rule.now) (R.may_be_left rule.now) bracket.now shape cursor }
        ensures frame { result.frame ≡ bracket.now }
        ensures shape { result.shape ≡ shape }
        ensures rule { result.rule ≡ rule.now }
        ensures ended { result.ended ≡ false }
        ensures latest { result.latest ≡ Some cursor }
    {
        let mut candidates = Candidates::ended(bracket, rule);
        candidates.begin(FittingShape { bracket, shape }, rule, Some(&cursor.lists));
        candidates
    }

    /// Begins anew in place, with all candidates of a shape for which the bracket has players enough, as `new` does.
    pub fn restart(&mut self, shape: Shape)
        requires { Fits self.old.frame shape }
        ensures coming { self.new.coming
            ≡ candidates (R.meets self.old.rule) (R.may_be_left self.old.rule) self.old.frame shape }
        ensures frame { self.new.frame ≡ self.old.frame }
        ensures shape { self.new.shape ≡ shape }
        ensures rule { self.new.rule ≡ self.old.rule }
        ensures ended { self.new.ended ≡ false }
        ensures latest { self.new.latest ≡ None }
    {
        let (bracket, rule) = (self.fitting.bracket, self.rule);
        self.begin(FittingShape { bracket, shape }, rule, None);
    }

    /// Begins anew in place with another bracket and by another rule, as `new` does.
    pub fn move_to(&mut self, bracket: &'a Bracket, shape: Shape, rule: &'a R)
        requires { Fits bracket.now shape }
        ensures coming { self.new.coming ≡ candidates (R.meets rule.now) (R.may_be_left rule.now) bracket.now shape }
        ensures frame { self.new.frame ≡ bracket.now }
        ensures shape { self.new.shape ≡ shape }
        ensures rule { self.new.rule ≡ rule.now }
        ensures ended { self.new.ended ≡ false }
        ensures latest { self.new.latest ≡ None }
    {
        self.begin(FittingShape { bracket, shape }, rule, None);
    }

    // The next candidate. Those that are known to be pruned may be skipped.
    fn go_on<C: Cuts>(
        &mut self,
        cuts: &mut C,
        candidate: &mut Candidate,
        budget: &mut Budget,
    ) -> Step<()>
        ensures answer { MatchStep result
            (λ _. listings.GivesPast self.old self.new (C.Pruned cuts.old) candidate.new)
            (listings.EndsPast self.old self.new (C.Pruned cuts.old))
            (listings.StopsPast self.old self.new (C.Pruned cuts.old) budget.new) }
        ensures candidates { listings.AreCandidates (R.meets self.old.rule)
            (R.may_be_left self.old.rule) self.old.frame self.old.shape self.old.coming }
        ensures too_many_left { listings.leaves_too_many self.old.frame self.old.shape ≡ true
            → listings.EndsAtOnce result budget.old budget.new }
        ensures ended { listings.TellsEnd self.old self.new result }
        ensures after_end { self.old.ended ≡ true → listings.EndsAtOnce result budget.old budget.new }
        ensures frame { self.new.frame ≡ self.old.frame }
        ensures shape { self.new.shape ≡ self.old.shape }
        ensures rule { self.new.rule ≡ self.old.rule }
        ensures spends { Spends budget.old budget.new }
    {
        if self.ended {
            return Step::End;
        }
        if self.too_many_left || cuts.cuts_at_first(&Prefix::nothing()) {
            self.ended = true;
            return Step::End;
        }
        let mut tests = Tests {
            bracket: self.fitting.bracket,
            rule: self.rule,
            cuts,
        };
        match draw_legal(&mut tests, &mut self.drawing, candidate, budget) {
            Ok(true) => {
                self.latest.hold(&candidate.lists);
                Step::Found(())
            }
            Ok(false) => {
                self.ended = true;
                Step::End
            }
            Err(Stopped) => Step::Undecided,
        }
    }

    /// Fills `candidate` with the next one, as `next` gives it.
    pub fn put_next(&mut self, candidate: &mut Candidate, budget: &mut Budget) -> Step<()>
        ensures answer { MatchStep result (λ _. listings.Gives self.old self.new candidate.new)
            (listings.Ends self.old self.new) (listings.Stops self.old self.new budget.new) }
        ensures too_many_left { listings.leaves_too_many self.old.frame self.old.shape ≡ true
            → listings.EndsAtOnce result budget.old budget.new }
        ensures ended { listings.TellsEnd self.old self.new result }
        ensures after_end { self.old.ended ≡ true → listings.EndsAtOnce result budget.old budget.new }
        ensures frame { self.new.frame ≡ self.old.frame }
        ensures shape { self.new.shape ≡ self.old.shape }
        ensures rule { self.new.rule ≡ self.old.rule }
        ensures spends { Spends budget.old budget.new }
    {
        self.go_on(&mut NoCuts, candidate, budget)
    }

    /// The next candidate. `Found` gives the first of those to come. `End` says that none is left. `Undecided` says
    /// that the budget was used up before the next one was found; then what is to come stays as it was. If the bracket
    /// may leave over at most one player and the shape leaves more, the answer is `End`, without a step. After `End`
    /// every further call answers `End` without a step.
    pub fn next(&mut self, budget: &mut Budget) -> Step<Candidate>
        ensures answer { MatchStep result (λ c. listings.Gives self.old self.new c)
            (listings.Ends self.old self.new) (listings.Stops self.old self.new budget.new) }
        ensures too_many_left { listings.leaves_too_many self.old.frame self.old.shape ≡ true
            → listings.EndsAtOnce result budget.old budget.new }
        ensures ended { listings.TellsEnd self.old self.new result }
        ensures after_end { self.old.ended ≡ true → listings.EndsAtOnce result budget.old budget.new }
        ensures frame { self.new.frame ≡ self.old.frame }
        ensures shape { self.new.shape ≡ self.old.shape }
        ensures rule { self.new.rule ≡ self.old.rule }
        ensures spends { Spends budget.old budget.new }
    {
        let mut candidate = Candidate::empty();
        let step = self.put_next(&mut candidate, budget);
        with_candidate(step, candidate)
    }

    /// Fills `candidate` with the next one, and may leave out those that the bound knows to be pruned. The bound is
    /// asked about beginnings of arrangements, which takes no step: about the empty one at each call, and about others
    /// while a list is filled. And once S1 and S2 are chosen it is asked about exchanges: about all of one number and
    /// one difference, which is a step if they are left out, and about those that begin alike, which is none. `Found`
    /// says that `candidate` has one; all that were to come before it are pruned, and those behind it are still to
    /// come. `End` says that all that were to come are pruned; then none is to come. `Undecided` says that the budget
    /// was used up first; then a part of what was to come is pruned, and the rest is still to come. After `End` every
    /// further call answers `End` without a step.
    pub fn put_next_within<B: Bound>(
        &mut self,
        within: &mut BoundWithRoom<'_, B>,
        candidate: &mut Candidate,
        budget: &mut Budget,
    ) -> Step<()>
        requires frame { B.frame within.old.bound.now ≡ self.old.frame }
        requires shape { B.shape within.old.bound.now ≡ self.old.shape }
        requires meets { B.meets within.old.bound.now ≡ R.meets self.old.rule }
        requires may_be_left { B.may_be_left within.old.bound.now ≡ R.may_be_left self.old.rule }
        ensures answer { MatchStep result
            (λ _. listings.GivesPast self.old self.new (λ a. B.is_pruned within.old.bound.now a ≡ true) candidate.new)
            (listings.EndsPast self.old self.new (λ a. B.is_pruned within.old.bound.now a ≡ true))
            (listings.StopsPast self.old self.new (λ a. B.is_pruned within.old.bound.now a ≡ true) budget.new) }
        ensures too_many_left { listings.leaves_too_many self.old.frame self.old.shape ≡ true
            → listings.EndsAtOnce result budget.old budget.new }
        ensures ended { listings.TellsEnd self.old self.new result }
        ensures after_end { self.old.ended ≡ true → listings.EndsAtOnce result budget.old budget.new }
        ensures frame { self.new.frame ≡ self.old.frame }
        ensures shape { self.new.shape ≡ self.old.shape }
        ensures rule { self.new.rule ≡ self.old.rule }
        ensures spends { Spends budget.old budget.new }
    {
        self.go_on(within, candidate, budget)
    }

    /// The next candidate, as `put_next_within` finds it.
    pub fn next_within<B: Bound>(
        &mut self,
        bound: &B,
        room: &mut B::Room,
        budget: &mut Budget,
    ) -> Step<Candidate>
        requires frame { B.frame bound.now ≡ self.old.frame }
        requires shape { B.shape bound.now ≡ self.old.shape }
        requires meets { B.meets bound.now ≡ R.meets self.old.rule }
        requires may_be_left { B.may_be_left bound.now ≡ R.may_be_left self.old.rule }
        ensures answer { MatchStep result
            (λ c. listings.GivesPast self.old self.new (λ a. B.is_pruned bound.now a ≡ true) c)
            (listings.EndsPast self.old self.new (λ a. B.is_pruned bound.now a ≡ true))
            (listings.StopsPast self.old self.new (λ a. B.is_pruned bound.now a ≡ true) budget.new) }
        ensures too_many_left { listings.leaves_too_many self.old.frame self.old.shape ≡ true
            → listings.EndsAtOnce result budget.old budget.new }
        ensures ended { listings.TellsEnd self.old self.new result }
        ensures after_end { self.old.ended ≡ true → listings.EndsAtOnce result budget.old budget.new }
        ensures frame { self.new.frame ≡ self.old.frame }
        ensures shape { self.new.shape ≡ self.old.shape }
        ensures rule { self.new.rule ≡ self.old.rule }
        ensures spends { Spends budget.old budget.new }
    {
        let mut candidate = Candidate::empty();
        let mut within = BoundWithRoom { bound, room };
        let step = self.put_next_within(&mut within, &mut candidate, budget);
        with_candidate(step, candidate)
    }

    /// The candidate handed out last, or before that, the one behind which the listing began. A later listing can go on
    /// behind it.
    pub fn cursor(&self) -> Option<Cursor>
        ensures { result ≡ self.now.latest }
    {
        self.latest.cursor()
    }
}

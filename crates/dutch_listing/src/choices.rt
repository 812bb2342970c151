// The levels of a bracket's arrangements, innermost first: the choice of S2R, of S1R, of S2, and of S1 (C.04.3 B.6,
// B.7).
//
// Each level begins anew in place, for the choice that the level above it has made: it copies that choice into lists of
// its own, so that no block makes a list. Behind a cursor only the first choice of each level can be the cursor's own.
// In that choice the level below begins behind the cursor too; in all later ones it begins at its first choice. The
// cursor waits in the innermost level, and is taken from there as soon as a first choice is another one.
ghost use Rattle.std.specs.Prelude.{◌≡◌, ◌+◌, ◌≤◌, ℕ, List, None, [], ◌∷◌, filter, if◌then◌else◌, is_some, length, option_copied, true};
ghost use Rattle.std.specs.List.{AllByRecursion};
ghost use Rattle.std.specs.List.Sorted.{IsStrictlyIncreasing};
ghost use Rattle.dutch_arrangements.specs.Arrangements.{Arrangement, arrangements};
ghost use Rattle.dutch_sequence.specs.Choices.{all_meet, left_of, joined, tuples};
ghost use Rattle.dutch_sequence.specs.Keys.{IsIn};
ghost use Rattle.dutch_sequence.specs.Transposition.{all_tuples};
ghost use Rattle.dutch_arrangements.specs.Levels as levels;
ghost use Rattle.dutch_arrangements.specs.Past.{IsPassedTuple};
ghost use Rattle.dutch_sequence.specs.Steps.{MatchDrawn, Passes, Spends};

use crate::cuts::Cuts;
use crate::levels::{Arranges, Blocks, Level, Stand};
use crate::past::{Chooser, Chosen, choose_next, choose_set, choose_tuple};
use dutch_arrangements::{Arrangement, Filling, FittingShape, LastArrangement, Prefix};
use dutch_sequence::numbers::{is_same, put_left_of, refill};
use dutch_sequence::{
    Budget, Drawn, Exchanges, Generator, LimboExchanges, Meeting, Numbers, Rule, Transpositions,
};
use std::marker::Model;

/// Arrangements with the same S1, S2 and S1R: one for each S2R, by article D.1.
#[derive(Drop)]
pub struct ByS2r<'a, R: Rule> {
    s1: Numbers,
    s2: Numbers,
    s1r: Numbers,
    // who is left for S2R
    pool: Numbers,
    others: Others<'a, R>,
}

/// Lists S2R, all but a cursor's own.
#[derive(Drop)]
struct Others<'a, R: Rule> {
    s2r: Chooser<Transpositions<'a, R>>,
    // the arrangement behind which the lists begin, until the first one has come; before they begin, the cursor of all
    // levels waits here
    resume: LastArrangement,
}

/// An S1, an S2 and an S1R out of the remainder, from which a level begins.
#[derive(Drop)]
struct InS1r<'s> {
    s1: &'s Numbers,
    s2: &'s Numbers,
    remainder: &'s Numbers,
    s1r: &'s Numbers,
    ghost ascends: { IsStrictlyIncreasing remainder.now.items },
}

impl<'a, R: Rule> Model for ByS2r<'a, R> {
    ghost use Rattle.std.specs.Prelude.{map};
    ghost use Rattle.dutch_arrangements.specs.Levels.{arranged, without_own};
    ghost use Rattle.dutch_listing.specs.Standing.{Standing};

    ghost Value = { Standing };

    ghost view = { λ l. record {
      coming = map (arranged l.s1.items l.s2.items l.s1r.items)
          (without_own l.others.resume l.others.s2r.choices.coming);
      own = l.others.resume;
      latest = arranged l.s1.items l.s2.items l.s1r.items l.others.s2r.latest.items;
    } };
}

impl<'a, R: Rule> ByS2r<'a, R> {
    /// A place for such arrangements, in which there are none.
    fn ended(rule: &'a R) -> ByS2r<'a, R>
        ensures { result.coming ≡ [] }
    {
        ByS2r {
            s1: Numbers::new(),
            s2: Numbers::new(),
            s1r: Numbers::new(),
            pool: Numbers::new(),
            others: Others {
                s2r: Chooser {
                    choices: Transpositions::ended(rule),
                    latest: Numbers::new(),
                },
                resume: LastArrangement::none(),
            },
        }
    }

    /// Begins anew, behind the cursor that waits here.
    #[tactic(auto, unfolding(dutch_arrangements::specs::Levels::in_s1r))]
    fn start(&mut self, from: &InS1r<'_>, rule: &'a R)
        requires same { levels.Of (λ cursor. cursor.s1r ≡ from.now.s1r.now.items) self.old.own }
        requires given { levels.Of (levels.HasS2r from.now.remainder.now.items) self.old.own }
        ensures { self.new.coming ≡ levels.in_s1r (R.meets rule.now) from.now.s1.now.items from.now.s2.now.items
            from.now.remainder.now.items self.old.own from.now.s1r.now.items }
    {
        refill(&mut self.s1, from.s1);
        refill(&mut self.s2, from.s2);
        refill(&mut self.s1r, from.s1r);
        put_left_of(from.remainder, from.s1r, &mut self.pool);
        let meeting = Meeting {
            first: from.s1r,
            pool: &self.pool,
        };
        self.others.start(&meeting, rule);
    }
}

impl<'a, R: Rule> Others<'a, R> {
    /// Begins anew, behind the cursor that waits here.
    fn start(&mut self, meeting: &Meeting<'_>, rule: &'a R)
        requires given { levels.Of (λ own. IsIn own.s2r (tuples meeting.now.pool.now (length meeting.now.first.now)))
            self.old.resume }
        ensures resume { self.new.resume ≡ self.old.resume }
        ensures coming { self.new.s2r.choices.coming ≡ filter (all_meet (R.meets rule.now) meeting.now.first.now)
            (levels.choices_from (λ a. a.s2r) self.old.resume
            (all_tuples meeting.now.pool.now (length meeting.now.first.now))) }
    {
        match self.resume.get() {
            Some(own) => self.s2r.choices.start_from(meeting, rule, &own.s2r),
            None => self.s2r.choices.start(meeting, rule),
        }
    }
}

/// Yes if an S2R is that of the arrangement behind which the lists begin.
fn is_own_s2r(resume: &LastArrangement, s2r: &Numbers) -> bool
    ensures { result ≡ is_some (levels.if_own (λ a. a.s2r) resume.now s2r.now.items) }
{
    match resume.get() {
        Some(own) => is_same(s2r, &own.s2r),
        None => false,
    }
}

/// Goes on to the next one, except a cursor's own, which may come first. None is skipped before the first one has come.
fn choose_other<R: Rule, C: Cuts>(
    others: &mut Others<'_, R>,
    chosen: &Chosen<'_>,
    cuts: &mut C,
    budget: &mut Budget,
) -> Drawn
    ensures answer { let IsPassed = IsPassedTuple (C.Pruned cuts.old) chosen.now.lists chosen.now.very_next in
        MatchDrawn result
        (Passes IsPassed (levels.without_own others.old.resume others.old.s2r.choices.coming)
        (others.new.s2r.latest.items ∷ levels.without_own others.new.resume others.new.s2r.choices.coming))
        (Passes IsPassed (levels.without_own others.old.resume others.old.s2r.choices.coming) [])
        (Passes IsPassed (levels.without_own others.old.resume others.old.s2r.choices.coming)
        (levels.without_own others.new.resume others.new.s2r.choices.coming)
        × (budget.new.used ≡ budget.new.limit)) }
    ensures keeps { (a : Arrangement) → C.Pruned cuts.new a → C.Pruned cuts.old a }
    ensures spends { Spends budget.old budget.new }
{
    if !others.resume.is_held() {
        return choose_tuple(&mut others.s2r, chosen, cuts, budget);
    }
    if !choose_next(&mut others.s2r, budget)? {
        return Ok(false);
    }
    let is_own = is_own_s2r(&others.resume, &others.s2r.latest);
    others.resume.clear();
    if !is_own {
        return Ok(true);
    }
    choose_tuple(&mut others.s2r, chosen, cuts, budget)
}

impl<'a, R: Rule> Arranges for ByS2r<'a, R> {
    ghost coming = { λ l. l.coming };

    ghost own = { λ l. l.own };

    ghost latest = { λ l. l.latest };

    fn next<C: Cuts>(
        &mut self,
        cuts: &mut C,
        lists: &mut Arrangement,
        budget: &mut Budget,
    ) -> Drawn {
        let chosen = Chosen {
            lists: Prefix {
                filling: Filling::S2r,
                s1: &self.s1,
                s2: &self.s2,
                s1r: &self.s1r,
                s2r: &[],
            },
            very_next: false,
        };
        if !choose_other(&mut self.others, &chosen, cuts, budget)? {
            return Ok(false);
        }
        refill(&mut lists.s1, &self.s1);
        refill(&mut lists.s2, &self.s2);
        refill(&mut lists.s1r, &self.s1r);
        refill(&mut lists.s2r, &self.others.s2r.latest);
        Ok(true)
    }

    fn cursor(&self) -> Option<&Arrangement> {
        self.others.resume.get()
    }

    fn put_cursor(&mut self, cursor: Option<&Arrangement>) {
        self.others.resume.put(cursor);
    }

    fn put_again(&self, lists: &mut Arrangement) {
        refill(&mut lists.s1, &self.s1);
        refill(&mut lists.s2, &self.s2);
        refill(&mut lists.s1r, &self.s1r);
        refill(&mut lists.s2r, &self.others.s2r.latest);
    }
}

/// Leaves the cursor that waits in a level there only if a choice is its own.
fn keep_cursor<L: Arranges>(level: &mut L, is_own: bool)
    ensures { L.own level.new ≡ (if is_own then L.own level.old else None) }
{
    if !is_own {
        level.put_cursor(None);
    }
}

/// Arrangements with the same S1 and S2: a block for each S1R, by article D.2.
#[derive(Drop)]
pub struct ByS1r<'a, R: Rule> {
    s1: Numbers,
    s2: Numbers,
    remainder: Numbers,
    // the S1R of the block is the one that came last
    s1r: Chooser<Exchanges>,
    rule: &'a R,
}

/// An S1 and an S2 out of the residents, from which a level begins; the remainder makes `k` pairs.
#[derive(Drop)]
struct InS2<'s> {
    k: usize,
    s1: &'s Numbers,
    residents: &'s Numbers,
    s2: &'s Numbers,
    ghost ascends: { IsStrictlyIncreasing residents.now.items },
    ghost enough: { k ≤ length (left_of residents.now.items s2.now.items) },
}

impl<'a, R: Rule> Model for ByS1r<'a, R> {
    ghost use Rattle.std.specs.List.Sorted.{IsStrictlyIncreasing};
    ghost use Rattle.dutch_listing.specs.Standing.{S1rChoices};

    ghost Value = { S1rChoices R };

    ghost view = { λ l. record {
      rule = l.rule.now;
      s1 = l.s1.items;
      s2 = l.s2.items;
      remainder = l.remainder.items;
      coming = l.s1r.choices.coming;
    } };

    ghost invariant = { λ l. IsStrictlyIncreasing l.remainder.items };
}

impl<'a, R: Rule> ByS1r<'a, R> {
    /// A place for such blocks, in which there are none.
    fn ended(rule: &'a R) -> ByS1r<'a, R>
        ensures { result.coming ≡ [] }
    {
        ByS1r {
            s1: Numbers::new(),
            s2: Numbers::new(),
            remainder: Numbers::new(),
            s1r: Chooser {
                choices: Exchanges::ended(),
                latest: Numbers::new(),
            },
            rule,
        }
    }

    /// Begins anew: all blocks, or those behind a cursor.
    #[tactic(auto, unfolding(dutch_arrangements::specs::Levels::in_s2))]
    fn start(&mut self, from: &InS2<'_>, own: Option<&Arrangement>, rule: &'a R)
        requires given { levels.Of (levels.HasS1r from.now.k
            (left_of from.now.residents.now.items from.now.s2.now.items))
            (option_copied own) }
        ensures blocks { let l = self.new in
            joined (levels.s1r_blocks (R.meets l.rule) l.s1 l.s2 l.remainder (option_copied own.entry) l.coming)
            ≡ levels.in_s2 (R.meets rule.now) from.now.k from.now.s1.now.items
            from.now.residents.now.items (option_copied own.entry) from.now.s2.now.items }
        ensures given { levels.Of (levels.HasS2r self.new.remainder) (option_copied own.entry) }
    {
        refill(&mut self.s1, from.s1);
        refill(&mut self.s2, from.s2);
        put_left_of(from.residents, from.s2, &mut self.remainder);
        self.rule = rule;
        let sides = dutch_sequence::Sides {
            pool: &self.remainder,
            k: from.k,
        };
        match own {
            Some(own) => self.s1r.choices.start_from(&sides, &own.s1r),
            None => self.s1r.choices.start(&sides),
        }
    }
}

/// Yes if an S1R is that of the cursor behind which blocks begin.
fn is_own_s1r(own: Option<&Arrangement>, s1r: &Numbers) -> bool
    ensures { result ≡ is_some (levels.if_own (λ a. a.s1r) (option_copied own.entry) s1r.now.items) }
{
    match own {
        Some(own) => is_same(s1r, &own.s1r),
        None => false,
    }
}

impl<'a, R: Rule> Blocks for ByS1r<'a, R> {
    type Block = ByS2r<'a, R>;

    ghost blocks = { λ l own. levels.s1r_blocks (R.meets l.rule) l.s1 l.s2 l.remainder own l.coming };

    ghost HasOwn = { λ l. levels.HasS2r l.remainder };

    fn next_block<C: Cuts>(
        &mut self,
        cuts: &mut C,
        block: &mut ByS2r<'a, R>,
        budget: &mut Budget,
    ) -> Drawn {
        let chosen = Chosen {
            lists: Prefix {
                filling: Filling::S2,
                s1: &self.s1,
                s2: &self.s2,
                s1r: &[],
                s2r: &[],
            },
            very_next: block.cursor().is_some(),
        };
        if cuts.cuts_at_first(&chosen.lists) {
            return Ok(false);
        }
        if !choose_set(&mut self.s1r, &chosen, cuts, budget)? {
            return Ok(false);
        }
        let is_own = is_own_s1r(block.cursor(), &self.s1r.latest);
        keep_cursor(block, is_own);
        let from = InS1r {
            s1: &self.s1,
            s2: &self.s2,
            remainder: &self.remainder,
            s1r: &self.s1r.latest,
        };
        block.start(&from, self.rule);
        Ok(true)
    }
}

/// Arrangements with the same S1: a block for each S2 whose players those of S1 may meet, by article D.1.
#[derive(Drop)]
pub struct ByS2<'a, R: Rule> {
    k: usize,
    s1: Numbers,
    residents: Numbers,
    // the S2 of the block is the one that came last
    s2: Chooser<Transpositions<'a, R>>,
    rule: &'a R,
}

/// An S1 and the residents, from which a level begins; the remainder makes `k` pairs.
#[derive(Drop)]
struct InS1<'s> {
    k: usize,
    residents: &'s Numbers,
    s1: &'s Numbers,
    ghost ascends: { IsStrictlyIncreasing residents.now.items },
    ghost enough: { length s1.now.items + k ≤ length residents.now.items },
}

impl<'a, R: Rule> Model for ByS2<'a, R> {
    ghost use Rattle.std.specs.Prelude.{◌≤◌, length};
    ghost use Rattle.std.specs.List.{AllByRecursion};
    ghost use Rattle.std.specs.List.Sorted.{IsStrictlyIncreasing};
    ghost use Rattle.dutch_sequence.specs.Choices.{left_of};
    ghost use Rattle.dutch_listing.specs.Standing.{S2Choices};

    ghost Value = { S2Choices R };

    ghost view = { λ l. record {
      rule = l.rule.now;
      k = l.k;
      s1 = l.s1.items;
      residents = l.residents.items;
      coming = l.s2.choices.coming;
    } };

    ghost invariant = { λ l.
        IsStrictlyIncreasing l.residents.items
        × AllByRecursion (λ s2. l.k ≤ length (left_of l.residents.items s2)) l.s2.choices.coming };
}

impl<'a, R: Rule> ByS2<'a, R> {
    /// A place for such blocks, in which there are none.
    fn ended(rule: &'a R) -> ByS2<'a, R>
        ensures { result.coming ≡ [] }
    {
        ByS2 {
            k: 0,
            s1: Numbers::new(),
            residents: Numbers::new(),
            s2: Chooser {
                choices: Transpositions::ended(rule),
                latest: Numbers::new(),
            },
            rule,
        }
    }

    /// Begins anew: all blocks, or those behind a cursor.
    #[tactic(auto, unfolding(dutch_arrangements::specs::Levels::in_s1))]
    fn start(&mut self, from: &InS1<'_>, own: Option<&Arrangement>, rule: &'a R)
        requires same { levels.Of (λ cursor. cursor.s1 ≡ from.now.s1.now.items) (option_copied own) }
        requires given { levels.Of (levels.HasS2 from.now.k from.now.residents.now.items) (option_copied own) }
        ensures blocks { let l = self.new in
            joined (levels.s2_blocks (R.meets l.rule) l.k l.s1 l.residents (option_copied own.entry) l.coming)
            ≡ levels.in_s1 (R.meets rule.now) from.now.k from.now.residents.now.items
            (option_copied own.entry) from.now.s1.now.items }
        ensures given { let l = self.new in
            levels.Of (λ own. levels.HasS1r l.k (left_of l.residents own.s2) own) (option_copied own.entry) }
    {
        self.k = from.k;
        refill(&mut self.s1, from.s1);
        refill(&mut self.residents, from.residents);
        self.rule = rule;
        let meeting = Meeting {
            first: from.s1,
            pool: from.residents,
        };
        match own {
            Some(own) => self.s2.choices.start_from(&meeting, rule, &own.s2),
            None => self.s2.choices.start(&meeting, rule),
        }
    }
}

/// Yes if an S2 is that of the cursor behind which blocks begin.
fn is_own_s2(own: Option<&Arrangement>, s2: &Numbers) -> bool
    ensures { result ≡ is_some (levels.if_own (λ a. a.s2) (option_copied own.entry) s2.now.items) }
{
    match own {
        Some(own) => is_same(s2, &own.s2),
        None => false,
    }
}

impl<'a, R: Rule> Blocks for ByS2<'a, R> {
    type Block = Level<ByS1r<'a, R>>;

    ghost blocks = { λ l own. levels.s2_blocks (R.meets l.rule) l.k l.s1 l.residents own l.coming };

    ghost HasOwn = { λ l own. levels.HasS1r l.k (left_of l.residents own.s2) own };

    fn next_block<C: Cuts>(
        &mut self,
        cuts: &mut C,
        block: &mut Level<ByS1r<'a, R>>,
        budget: &mut Budget,
    ) -> Drawn {
        let chosen = Chosen {
            lists: Prefix {
                filling: Filling::S2,
                s1: &self.s1,
                s2: &[],
                s1r: &[],
                s2r: &[],
            },
            very_next: block.cursor().is_some(),
        };
        if !choose_tuple(&mut self.s2, &chosen, cuts, budget)? {
            return Ok(false);
        }
        let is_own = is_own_s2(block.cursor(), &self.s2.latest);
        keep_cursor(block, is_own);
        let from = InS2 {
            k: self.k,
            s1: &self.s1,
            residents: &self.residents,
            s2: &self.s2.latest,
        };
        block.block.stand = Stand::AtStart;
        block
            .blocks
            .start(&from, block.block.level.cursor(), self.rule);
        Ok(true)
    }
}

/// All arrangements: a block for each S1, by article D.3.
#[derive(Drop)]
pub struct ByS1<'a, R: Rule> {
    k: usize,
    residents: Numbers,
    // the S1 of the block
    s1: Numbers,
    sets: LimboExchanges,
    rule: &'a R,
}

impl<'a, R: Rule> Model for ByS1<'a, R> {
    ghost use Rattle.std.specs.Prelude.{◌+◌, ◌≤◌, length};
    ghost use Rattle.std.specs.List.{AllByRecursion};
    ghost use Rattle.std.specs.List.Sorted.{IsStrictlyIncreasing};
    ghost use Rattle.dutch_listing.specs.Standing.{S1Choices};

    ghost Value = { S1Choices R };

    ghost view = { λ l. record {
      rule = l.rule.now;
      k = l.k;
      residents = l.residents.items;
      coming = l.sets.coming;
    } };

    ghost invariant = { λ l.
        IsStrictlyIncreasing l.residents.items
        × AllByRecursion (λ s1. length s1 + l.k ≤ length l.residents.items) l.sets.coming };
}

impl<'a, R: Rule> ByS1<'a, R> {
    /// A place for such blocks, in which there are none.
    fn ended(rule: &'a R) -> ByS1<'a, R>
        ensures { result.coming ≡ [] }
    {
        ByS1 {
            k: 0,
            residents: Numbers::new(),
            s1: Numbers::new(),
            sets: LimboExchanges::ended(),
            rule,
        }
    }

    /// Begins anew: all arrangements, or those that stand behind a cursor.
    #[tactic(auto, unfolding(dutch_arrangements::specs::Levels::in_bracket))]
    pub fn start(&mut self, from: &FittingShape<'_>, own: Option<&Arrangement>, rule: &'a R)
        requires given { levels.Of (λ cursor. IsIn cursor (arrangements from.now.bracket.now from.now.shape))
            (option_copied own) }
        ensures blocks { let l = self.new in
            joined (levels.s1_blocks (R.meets l.rule) l.k l.residents (option_copied own.entry) l.coming)
            ≡ levels.in_bracket (R.meets rule.now) from.now.bracket.now from.now.shape (option_copied own.entry) }
        ensures given { levels.Of (levels.HasS2 self.new.k self.new.residents) (option_copied own.entry) }
    {
        let scores = &from.bracket.scores()[..from.bracket.mdps()];
        self.k = from.shape.pairs - from.shape.mdps;
        from.bracket.put_residents(&mut self.residents);
        self.rule = rule;
        match own {
            Some(own) => self.sets.start_from(scores, from.shape.mdps, &own.s1),
            None => self.sets.start(scores, from.shape.mdps),
        }
    }
}

/// Yes if an S1 is that of the cursor behind which blocks begin.
fn is_own_s1(own: Option<&Arrangement>, s1: &Numbers) -> bool
    ensures { result ≡ is_some (levels.if_own (λ a. a.s1) (option_copied own.entry) s1.now.items) }
{
    match own {
        Some(own) => is_same(s1, &own.s1),
        None => false,
    }
}

impl<'a, R: Rule> Blocks for ByS1<'a, R> {
    type Block = Level<ByS2<'a, R>>;

    ghost blocks = { λ l own. levels.s1_blocks (R.meets l.rule) l.k l.residents own l.coming };

    ghost HasOwn = { λ l. levels.HasS2 l.k l.residents };

    fn next_block<C: Cuts>(
        &mut self,
        _cuts: &mut C,
        block: &mut Level<ByS2<'a, R>>,
        budget: &mut Budget,
    ) -> Drawn {
        if !self.sets.put_next(&mut self.s1, budget)? {
            return Ok(false);
        }
        let is_own = is_own_s1(block.cursor(), &self.s1);
        keep_cursor(block, is_own);
        let from = InS1 {
            k: self.k,
            residents: &self.residents,
            s1: &self.s1,
        };
        block.block.stand = Stand::AtStart;
        block
            .blocks
            .start(&from, block.block.level.cursor(), self.rule);
        Ok(true)
    }
}

/// The levels of a bracket's arrangements, one in another.
pub type Levels<'a, R> = Level<ByS1<'a, R>>;

/// Levels in which there are no arrangements.
pub fn no_levels<'a, R: Rule>(rule: &'a R) -> Levels<'a, R>
    ensures { result.coming ≡ [] }
{
    let of_s2 = Level::new(ByS1r::ended(rule), ByS2r::ended(rule));
    let of_s1 = Level::new(ByS2::ended(rule), of_s2);
    Level::new(ByS1::ended(rule), of_s1)
}

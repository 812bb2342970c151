// Transpositions, article D.1: tuples of a pool in the order of their numbers, specified by a sorted and filtered list
// of tuples.
ghost use Rattle.std.specs.Prelude.{◌≡◌, ◌+◌, ◌*◌, ◌<◌, ◌≤◌, [], ◌∷◌, length, map, filter, take};
ghost use Rattle.std.specs.List.{AllByRecursion};
ghost use Rattle.std.specs.List.Sorted.{IsStrictlyIncreasing};
ghost use Rattle.dutch_sequence.specs.declared.numbers.TheConstants.{LIMIT};
ghost use Rattle.dutch_sequence.specs.Transposition.{all_tuples, transpositions, short_beginnings};
ghost use Rattle.dutch_sequence.specs.TranspositionSearch.{transposition_plan, numbers_at, place_in, places_in};
ghost use Rattle.dutch_sequence.specs.Choices.{GoesOn, tuples, all_meet, from_on};
ghost use Rattle.dutch_sequence.specs.Keys.{IsIn};
ghost use Rattle.dutch_sequence.specs.Steps.{MatchProgress, Passes, Spends, way};

use crate::generator::Generator;
use crate::numbers::{LIMIT, Numbers, fill};
use crate::path::{Path, Places};
use crate::rules::Rule;
use crate::search::{Asks, Descent, Hinted, Tree, advance, climb_on, first_hint, leave};
use crate::steps::{Budget, Drawn, Progress, Stopped};
use arrayvec::ArrayVec;
use std::marker::Model;

/// Puts the numbers at the first places of a path over those of a list.
fn put_over(pool: &[u16], path: &[u16], numbers: &mut [u16])
    requires within { AllByRecursion (λ place. place < length pool.now) path.now }
    requires few { length numbers.old ≤ length path.now }
    ensures { numbers.new ≡ numbers_at pool.now (take (length numbers.old) path.now) }
{
    for place in 0..numbers.len() {
        numbers[place] = pool[path[place] as usize];
    }
}

/// Fills a list anew with the numbers at places of a pool. The list mostly has as many already, those of the path
/// before: to write over them costs less than to clear the list and to push each.
fn pick(pool: &[u16], path: &[u16], numbers: &mut Numbers)
    requires within { AllByRecursion (λ place. place < length pool.now) path.now }
    requires few { length path.now ≤ LIMIT }
    ensures { numbers.new.items ≡ numbers_at pool.now path.now }
{
    numbers.truncate(path.len());
    put_over(pool, path, numbers);
    for place in numbers.len()..path.len() {
        numbers.push(pool[path[place] as usize]);
    }
}

/// The place of a number in a pool, or the length of a pool that does not have it.
fn place_in(pool: &[u16], number: u16) -> usize
    ensures place { result ≡ place_in pool.now number }
    ensures within { result ≤ length pool.now }
{
    let mut place = 0;
    for other in pool {
        if *other == number {
            return place;
        }
        place += 1;
    }
    place
}

/// Fills a list with the places of numbers in a pool.
fn put_places(pool: &[u16], numbers: &[u16], places: &mut Places<LIMIT>)
    requires small { length pool.now ≤ LIMIT }
    requires few { length numbers.now ≤ LIMIT }
    ensures { places.new.items ≡ places_in pool.now numbers.now }
{
    places.clear();
    for number in numbers {
        places.push(place_in(pool, *number) as u16);
    }
}

/// First players, and the pool from which each gets an opponent: at most `LIMIT` of each, and the pool ascends.
#[derive(Drop)]
pub struct Meeting<'s> {
    pub first: &'s [u16],
    pub pool: &'s [u16],
    pub ghost ascends: { IsStrictlyIncreasing pool.now },
    pub ghost few_first: { length first.now ≤ LIMIT },
    pub ghost few: { length pool.now ≤ LIMIT },
}

/// First players, the pool from which each gets an opponent, and the rule that says who may meet.
#[derive(Drop)]
struct Opponents<'a, R> {
    first: &'a Numbers,
    pool: &'a Numbers,
    rule: &'a R,
    ghost few: { length first.now.items ≤ LIMIT },
    ghost narrow: { length pool.now.items ≤ LIMIT },
}

impl<'a, R: Rule> Tree<LIMIT> for Opponents<'a, R> {
    ghost use Rattle.std.proofs.Common.{arith, rules};

    ghost plan = { λ t. transposition_plan (R.meets t.rule.now) t.first.now.items t.pool.now.items };

    ghost within = { λ t p. Prim.search rules };

    ghost few = { λ t. Prim.grind arith };

    ghost narrow = { λ t. Prim.grind arith };

    ghost small = { λ t. Prim.grind arith };

    fn places(&self) -> usize {
        self.first.len()
    }

    fn start(&self, _path: &[u16]) -> usize {
        0
    }

    fn stop(&self, _path: &[u16]) -> usize {
        self.pool.len()
    }

    fn beyond(&self, _path: &[u16], _number: u16) -> Option<usize> {
        None
    }

    #[tactic(auto, using(crate::proofs::TupleSearch::open_once))]
    fn admits(&self, path: &Path<LIMIT>, number: u16) -> bool {
        !path.has(number)
            && self
                .rule
                .may_meet(self.first[path.len()], self.pool[number as usize])
    }
}

/// The lists of opponents that the pool has for the first players, one by one, in the order of their numbers (C.04.3
/// D.1): tuples of the pool whose players may meet the first ones by the rule, place by place. It takes no memory. A
/// step is one member of the pool tried at one place.
#[derive(Drop)]
pub struct Transpositions<'a, R: Rule> {
    first: Numbers,
    pool: Numbers,
    rule: &'a R,
    hint: Places<LIMIT>,
    descent: Descent<LIMIT>,
}

impl<'a, R: Rule> Model for Transpositions<'a, R> {
    ghost use Rattle.dutch_sequence.specs.declared.numbers.TheConstants.{LIMIT};
    ghost use Rattle.std.specs.Prelude.{◌≤◌, length, map};
    ghost use Rattle.std.specs.List.Sorted.{IsStrictlyIncreasing};
    ghost use Rattle.dutch_sequence.specs.Steps.{TuplesAhead};
    ghost use Rattle.dutch_sequence.specs.Trials.{ahead, hits, trials};
    ghost use Rattle.dutch_sequence.specs.Descents.{Stands, free_moves};
    ghost use Rattle.dutch_sequence.specs.Hints.{hinted};
    ghost use Rattle.dutch_sequence.specs.TranspositionSearch.{transposition_plan, numbers_at};

    ghost Value = { TuplesAhead };

    ghost view = { λ t. record {
      coming = map (numbers_at t.pool.items)
          (hits (ahead (hinted t.hint.items
          (transposition_plan (R.meets t.rule.now) t.first.items t.pool.items)) t.descent.path t.descent.number));
      beginning = numbers_at t.pool.items t.descent.path;
      free_moves = free_moves t.descent;
      left = trials (ahead (hinted t.hint.items
          (transposition_plan (R.meets t.rule.now) t.first.items t.pool.items)) t.descent.path t.descent.number);
    } };

    ghost invariant = { λ t.
        (length t.first.items ≤ LIMIT) × (length t.pool.items ≤ LIMIT) × IsStrictlyIncreasing t.pool.items
        × Stands (hinted t.hint.items (transposition_plan
        (R.meets t.rule.now) t.first.items t.pool.items)) t.descent.path };
}

impl<'a, R: Rule> Transpositions<'a, R> {
    /// The transpositions of a pool for the first players. `first` and `pool` have at most `LIMIT` numbers, and the
    /// pool ascends.
    pub fn new(first: &[u16], pool: &[u16], rule: &'a R) -> Transpositions<'a, R>
        requires ascends { IsStrictlyIncreasing pool.now }
        requires few_first { length first.now ≤ LIMIT }
        requires few { length pool.now ≤ LIMIT }
        ensures coming { result.coming ≡ transpositions (R.meets rule.now) first.now pool.now }
        ensures left { result.left ≡ length pool.now * length (short_beginnings (R.meets rule.now) first.now pool.now) }
    {
        let mut lists = Transpositions::ended(rule);
        lists.start(&Meeting { first, pool }, rule);
        lists
    }

    /// The transpositions from a tuple of the pool on, whether the rule allows it or not. Each of its numbers that is
    /// tried again costs a step.
    pub fn from(first: &[u16], pool: &[u16], rule: &'a R, tuple: &[u16]) -> Transpositions<'a, R>
        requires ascends { IsStrictlyIncreasing pool.now }
        requires few_first { length first.now ≤ LIMIT }
        requires few { length pool.now ≤ LIMIT }
        requires given { IsIn tuple.now (tuples pool.now (length first.now)) }
        ensures coming { result.coming ≡ filter (all_meet (R.meets rule.now) first.now)
            (from_on tuple.now (all_tuples pool.now (length first.now))) }
    {
        let mut lists = Transpositions::ended(rule);
        lists.start_from(&Meeting { first, pool }, rule, tuple);
        lists
    }

    /// One that has ended.
    pub fn ended(rule: &'a R) -> Transpositions<'a, R>
        ensures { result.coming ≡ [] }
    {
        Transpositions {
            first: ArrayVec::new(),
            pool: ArrayVec::new(),
            rule,
            hint: ArrayVec::new(),
            descent: Descent::new(1),
        }
    }

    /// Begins anew, in place, as `new` does.
    pub fn start(&mut self, meeting: &Meeting<'_>, rule: &'a R)
        ensures coming { self.new.coming
            ≡ transpositions (R.meets rule.now) meeting.now.first.now meeting.now.pool.now }
        ensures left { self.new.left ≡ length meeting.now.pool.now * length
            (short_beginnings (R.meets rule.now) meeting.now.first.now meeting.now.pool.now) }
    {
        fill(&mut self.first, meeting.first);
        fill(&mut self.pool, meeting.pool);
        self.rule = rule;
        self.hint.clear();
        self.descent.restart(0);
    }

    /// Begins anew, in place, as `from` does.
    pub fn start_from(&mut self, meeting: &Meeting<'_>, rule: &'a R, tuple: &[u16])
        requires given { IsIn tuple.now (tuples meeting.now.pool.now (length meeting.now.first.now)) }
        ensures coming { self.new.coming ≡ filter (all_meet (R.meets rule.now) meeting.now.first.now)
            (from_on tuple.now (all_tuples meeting.now.pool.now (length meeting.now.first.now))) }
    {
        fill(&mut self.first, meeting.first);
        fill(&mut self.pool, meeting.pool);
        self.rule = rule;
        put_places(meeting.pool, tuple, &mut self.hint);
        self.descent.restart(first_hint(&self.hint));
    }

    /// Goes on to the next beginning, or to the next of the lists: the list is filled with what it comes to. At a
    /// beginning it stands still, and `leave` leaves all lists that begin so.
    pub fn advance(
        &mut self,
        numbers: &mut Numbers,
        budget: &mut Budget,
    ) -> Result<Progress, Stopped>
        ensures answer { MatchProgress result
            ((self.new.coming ≡ self.old.coming) × (numbers.new.items ≡ self.new.beginning)
            × (way budget.new self.new.free_moves < way budget.old self.old.free_moves))
            (self.old.coming ≡ numbers.new.items ∷ self.new.coming)
            ((self.old.coming ≡ []) × (self.new.coming ≡ []))
            ((self.new.coming ≡ self.old.coming) × (budget.new.used ≡ budget.new.limit)) }
        ensures spends { Spends budget.old budget.new }
    {
        let tree = Hinted {
            tree: Opponents {
                first: &self.first,
                pool: &self.pool,
                rule: self.rule,
            },
            hint: &self.hint,
        };
        let progress = advance(&tree, Asks::AtBeginnings, &mut self.descent, budget)?;
        pick(&self.pool, self.descent.path.as_slice(), numbers);
        Ok(progress)
    }

    /// Leaves all lists that begin as the search stands, at no step.
    pub fn leave(&mut self)
        ensures passes { Passes (GoesOn self.old.beginning) self.old.coming self.new.coming }
        ensures gone { AllByRecursion (λ list. ¬ GoesOn self.old.beginning list) self.new.coming }
        ensures same { self.new.free_moves ≡ self.old.free_moves }
    {
        let tree = Hinted {
            tree: Opponents {
                first: &self.first,
                pool: &self.pool,
                rule: self.rule,
            },
            hint: &self.hint,
        };
        leave(&tree, &mut self.descent);
    }
}

impl<'a, R: Rule> Generator for Transpositions<'a, R> {
    ghost ahead = { λ t. record { coming = t.coming; left = t.left } };

    fn put_next(&mut self, numbers: &mut Numbers, budget: &mut Budget) -> Drawn {
        let tree = Hinted {
            tree: Opponents {
                first: &self.first,
                pool: &self.pool,
                rule: self.rule,
            },
            hint: &self.hint,
        };
        if !climb_on(&tree, &mut self.descent, budget)? {
            return Ok(false);
        }
        pick(&self.pool, self.descent.path.as_slice(), numbers);
        Ok(true)
    }
}

// Exchanges of moved-down players, article D.3: sets of places by their scores and numbers, specified by a sorted list
// of subsets.
ghost use Rattle.dutch_sequence.specs.declared.numbers.TheConstants.{LIMIT};
ghost use Rattle.dutch_sequence.specs.declared.path.TheConstants.{PLACES};
ghost use Rattle.std.specs.Prelude.{◌≡◌, ◌+◌, ◌*◌, ◌<◌, ◌≤◌, ℕ, [], ◌∷◌, ◌++◌, ◌-◌, length, map, slice_index};
ghost use Rattle.std.specs.List.{AllByRecursion};
ghost use Rattle.dutch_sequence.specs.Limbo.{limbo_exchanges, IsNonAscending};
ghost use Rattle.dutch_sequence.specs.LimboSearch.{leads, mirrors, front_with, numbers_of, places_of, leader, leaders};
ghost use Rattle.dutch_sequence.specs.Choices.{subsets, from_on, numbers_from};
ghost use Rattle.dutch_sequence.specs.Keys.{IsIn};

use crate::generator::Generator;
use crate::halves::{end_of_half, first_of_half};
use crate::numbers::{LIMIT, Numbers, fill};
use crate::path::{PLACES, Path, Places};
use crate::search::{Descent, Hinted, Tree, climb_on, first_hint};
use crate::steps::{Budget, Drawn};
use arrayvec::ArrayVec;
use std::marker::Model;

/// How many places at the front of a list have a score.
fn front_with(scores: &[u16], score: u16, places: &[u16]) -> usize
    requires within { AllByRecursion (λ place. place < length scores.now) places.now }
    ensures count { result ≡ front_with scores.now score places.now }
    ensures few { result ≤ length places.now }
{
    let mut count = 0;
    for place in places {
        if scores[*place as usize] != score {
            return count;
        }
        count += 1;
    }
    count
}

/// The next place of a first set follows the last one, or is the first of its score.
#[tactic(auto, unfolding(crate::specs::LimboSearch::leads))]
fn place_leads(scores: &[u16], k: usize, path: &[u16], place: usize) -> bool
    requires { place < length scores.now }
    ensures { result ≡ leads scores.now k path.now place }
{
    place == first_of_half(k, path) || place == 0 || scores[place - 1] != scores[place]
}

/// The next place of a set has the score that its place has in the first set, and leaves enough places with that score
/// for those that must follow.
#[tactic(auto, unfolding(crate::specs::LimboSearch::mirrors))]
fn place_mirrors(ranked: &Ranked<'_>, path: &[u16], place: usize) -> bool
    requires within { AllByRecursion (λ place. place < length ranked.now.scores.now) path.now }
    requires second { ranked.now.k ≤ length path.now }
    requires opened { length path.now < ranked.now.k + ranked.now.k }
    requires tried { place + (ranked.now.k + ranked.now.k - 1 - length path.now) < length ranked.now.scores.now }
    ensures { result ≡ mirrors ranked.now.scores.now ranked.now.k path.now place }
{
    let scores = ranked.scores;
    let first = path.len() - ranked.k;
    let score = scores[path[first] as usize];
    let ahead = front_with(scores, score, &path[first + 1..ranked.k]);
    scores[place] == score && scores[place + ahead] == score
}

/// Fills a list with the numbers of places, which count from 1.
fn put_numbers(places: &[u16], numbers: &mut Numbers)
    requires within { AllByRecursion (λ place. place < LIMIT) places.now }
    requires few { length places.now ≤ LIMIT }
    ensures { numbers.new.items ≡ numbers_of places.now }
{
    numbers.clear();
    for place in places {
        numbers.push(*place + 1);
    }
}

/// The places of numbers, which count from 1.
fn places_of(numbers: &[u16]) -> Places<PLACES>
    requires few { length numbers.now ≤ LIMIT }
    ensures { result.items ≡ places_of numbers.now }
{
    let mut places = ArrayVec::new();
    for number in numbers {
        places.push(number.saturating_sub(1));
    }
    places
}

/// The first place from one on that has the score of a place.
fn leader(scores: &[u16], first: usize, place: usize) -> usize
    requires within { place < length scores.now }
    ensures value { result ≡ leader scores.now place first (place - first) }
    ensures low { result ≤ place }
{
    for other in first..place {
        if scores[other] == scores[place] {
            return other;
        }
    }
    place
}

/// The first set with the scores of a set of places.
fn leaders(scores: &[u16], places: &[u16]) -> Places<PLACES>
    requires within { AllByRecursion (λ place. place < length scores.now) places.now }
    requires few { length places.now ≤ LIMIT }
    requires narrow { length scores.now ≤ LIMIT }
    ensures { result.items ≡ leaders scores.now 0 places.now }
{
    let mut path = ArrayVec::new();
    let mut first = 0;
    for place in places {
        let lead = leader(scores, first, *place as usize);
        path.push(lead as u16);
        first = lead + 1;
    }
    path
}

/// Puts places behind others.
fn put_behind(front: &mut Places<PLACES>, places: &[u16])
    requires room { length front.old.items + length places.now ≤ PLACES }
    ensures { front.new.items ≡ front.old.items ++ places.now }
{
    for place in places {
        front.push(*place);
    }
}

/// Moved-down players by their scores, of whom sets of `k` are wanted.
#[derive(Drop)]
struct Ranked<'a> {
    scores: &'a [u16],
    k: usize,
    ghost few: { k ≤ LIMIT },
    ghost narrow: { length scores.now ≤ LIMIT },
}

impl<'a> Tree<PLACES> for Ranked<'a> {
    ghost use Rattle.dutch_sequence.specs.Halves.{half_stop};
    ghost use Rattle.dutch_sequence.specs.LimboSearch.{limbo_plan};
    ghost use Rattle.std.proofs.Common.{arith};
    ghost use Rattle.std.proofs.lemmas.Bool.Decides.{nat_tests};

    ghost plan = { λ t. limbo_plan t.scores.now t.k };

    ghost within = { λ t path. unfold half_stop in Prim.grind (arith, nat_tests) };

    ghost few = { λ t. Prim.grind arith };

    ghost narrow = { λ t. Prim.grind arith };

    ghost small = { λ t. Prim.grind arith };

    fn places(&self) -> usize {
        self.k + self.k
    }

    fn start(&self, path: &[u16]) -> usize {
        first_of_half(self.k, path)
    }

    fn stop(&self, path: &[u16]) -> usize {
        let count = self.scores.len();
        end_of_half(self.k, count, count, path)
    }

    fn beyond(&self, _path: &[u16], _place: u16) -> Option<usize> {
        None
    }

    #[tactic(auto, unfolding(crate::specs::Halves::half_stop))]
    fn admits(&self, path: &Path<PLACES>, place: u16) -> bool {
        let path = path.as_slice();
        if path.len() < self.k {
            place_leads(self.scores, self.k, path, place as usize)
        } else {
            place_mirrors(self, path, place as usize)
        }
    }
}

/// The sets of `k` moved-down players who are paired, while the others wait in the Limbo, by their scores and then by
/// their numbers (C.04.3 D.3). The players are numbered from 1. It takes no memory. A step is one place tried, for the
/// first set with the same scores or for the set itself.
#[derive(Drop)]
pub struct LimboExchanges {
    scores: Numbers,
    k: usize,
    hint: Places<PLACES>,
    descent: Descent<PLACES>,
}

impl Model for LimboExchanges {
    ghost use Rattle.dutch_sequence.specs.declared.numbers.TheConstants.{LIMIT};
    ghost use Rattle.std.specs.Prelude.{◌≤◌, length, map};
    ghost use Rattle.dutch_sequence.specs.Steps.{Ahead};
    ghost use Rattle.dutch_sequence.specs.Trials.{ahead, hits, trials};
    ghost use Rattle.dutch_sequence.specs.Descents.{Stands};
    ghost use Rattle.dutch_sequence.specs.Hints.{hinted};
    ghost use Rattle.dutch_sequence.specs.LimboSearch.{limbo_plan, second_numbers};

    ghost Value = { Ahead };

    ghost view = { λ t. record {
      coming = map (second_numbers t.k)
          (hits (ahead (hinted t.hint.items (limbo_plan t.scores.items t.k)) t.descent.path t.descent.number));
      left = trials (ahead (hinted t.hint.items (limbo_plan t.scores.items t.k)) t.descent.path t.descent.number);
    } };

    ghost invariant = { λ t. (length t.scores.items ≤ LIMIT) × (t.k ≤ length t.scores.items)
        × Stands (hinted t.hint.items (limbo_plan t.scores.items t.k)) t.descent.path };
}

impl LimboExchanges {
    /// The sets of `k` of the players with these scores, which do not ascend. There are at most `LIMIT` players, and at
    /// least `k`.
    pub fn new(scores: &[u16], k: usize) -> LimboExchanges
        requires descends { IsNonAscending scores.now }
        requires few { length scores.now ≤ LIMIT }
        requires enough { k ≤ length scores.now }
        ensures coming { result.coming ≡ limbo_exchanges scores.now k }
        ensures nothing { k ≡ 0 → result.left ≡ 0 }
    {
        let mut sets = LimboExchanges::ended();
        sets.start(scores, k);
        sets
    }

    /// The sets of `k` of the players with these scores from a set on. Each of its places that is tried again costs a
    /// step.
    pub fn from(scores: &[u16], k: usize, set: &[u16]) -> LimboExchanges
        requires descends { IsNonAscending scores.now }
        requires few { length scores.now ≤ LIMIT }
        requires enough { k ≤ length scores.now }
        requires given { IsIn set.now (subsets (numbers_from 1 (length scores.now)) k) }
        ensures coming { result.coming ≡ from_on set.now (limbo_exchanges scores.now k) }
    {
        let mut sets = LimboExchanges::ended();
        sets.start_from(scores, k, set);
        sets
    }

    /// One that has ended.
    pub fn ended() -> LimboExchanges
        ensures { result.coming ≡ [] }
    {
        LimboExchanges {
            scores: ArrayVec::new(),
            k: 0,
            hint: ArrayVec::new(),
            descent: Descent::new(1),
        }
    }

    /// Begins anew, in place, as `new` does.
    pub fn start(&mut self, scores: &[u16], k: usize)
        requires descends { IsNonAscending scores.now }
        requires few { length scores.now ≤ LIMIT }
        requires enough { k ≤ length scores.now }
        ensures coming { self.new.coming ≡ limbo_exchanges scores.now k }
        ensures nothing { k ≡ 0 → self.new.left ≡ 0 }
    {
        fill(&mut self.scores, scores);
        self.k = k;
        self.hint.clear();
        self.descent.restart(0);
    }

    /// Begins anew, in place, as `from` does.
    pub fn start_from(&mut self, scores: &[u16], k: usize, set: &[u16])
        requires descends { IsNonAscending scores.now }
        requires few { length scores.now ≤ LIMIT }
        requires enough { k ≤ length scores.now }
        requires given { IsIn set.now (subsets (numbers_from 1 (length scores.now)) k) }
        ensures coming { self.new.coming ≡ from_on set.now (limbo_exchanges scores.now k) }
    {
        fill(&mut self.scores, scores);
        self.k = k;
        let places = places_of(set);
        self.hint = leaders(scores, &places);
        put_behind(&mut self.hint, &places);
        self.descent.restart(first_hint(&self.hint));
    }
}

impl Generator for LimboExchanges {
    ghost ahead = { λ t. t };

    fn put_next(&mut self, numbers: &mut Numbers, budget: &mut Budget) -> Drawn {
        let tree = Hinted {
            tree: Ranked {
                scores: &self.scores,
                k: self.k,
            },
            hint: &self.hint,
        };
        if !climb_on(&tree, &mut self.descent, budget)? {
            return Ok(false);
        }
        put_numbers(&self.descent.path.as_slice()[self.k..], numbers);
        Ok(true)
    }
}

// What each pair and each downfloater of a bracket weighs alone (C.04.3 C.6, C.8 to C.19), and what each number weighs
// in the next bracket, where that is measured (C.7), worked out once for all certificates of the bracket. As a rule few
// weights of pairs are distinct, since they depend on scores, preferences and floats: so each is kept once.
ghost use Rattle.std.specs.Prelude.{◌≡◌, ◌+◌, ◌*◌, ◌<◌, ◌≤◌, ◌^◌, true, false, [], ◌∷◌, IfOk, MatchOption, OnOk, is_some};
ghost use Rattle.std.specs.Prelude.{length, slice_index_or, slice_set};
ghost use Rattle.std.specs.Option.{ForSome, SomeIff};
ghost use Rattle.dutch_bracket.specs.declared.reached.BracketKind.TheVariants.{Ordinary};
ghost use Rattle.dutch_bracket.specs.Prelude.{seated_so, no_value, numbers_meet, quality_with, seat_of, count_below};
ghost use Rattle.dutch_weighing.specs.Weights.{weight_with};
ghost use Rattle.dutch_weighing.specs.Classes.{IsFirstFor, TellsFirsts, class_of};
ghost use Rattle.dutch_weighing.specs.WeightTables as tables;
ghost use Rattle.dutch_sequence.specs.declared.numbers.TheConstants.{LIMIT};

use crate::classes::{PlayerClass, class_at};
use crate::scale::Scale;
use dual::{Wide, WideTable};
use dutch_arrangements::Rule;
use dutch_bracket::context::Context;
use dutch_bracket::quality::{Quality, QualityLists, fill_seated};
use dutch_bracket::seated::{Pair, Seated, difference_down};
use dutch_player::Field;
use std::alloc::{AllocError, Global};
use std::marker::Model;

/// What each two numbers weigh as a pair, and whether they may meet, row by row. (To look for a game of the two takes
/// long, and each certificate asks for it many times.)
#[derive(Drop)]
pub(crate) struct PairTable {
    weights: WideTable,
    meets: Vec<bool>,
}

/// The weights of the pairs and the downfloaters of a bracket.
#[derive(Drop)]
pub struct Weighing<'a> {
    context: &'a Context<'a>,
    // (on the heap, as it is large)
    scale: Box<Scale>,
    // of each number a first one of its class
    firsts: Vec<u16>,
    pairs: PairTable,
    // of each number
    down: Vec<Wide>,
    // of each number of the bracket and the next lower scoregroup, if C.7 is measured
    next: Vec<NextWeight>,
}

/// What a number weighs that meets somebody in the next bracket, and what it weighs in no pair there (C.7).
#[derive(Clone, Copy)]
pub(crate) struct NextWeight {
    met: Wide,
    alone: Wide,
}

impl<'a> Model for Weighing<'a> {
    ghost use Rattle.dutch_weighing.specs.WeightTables.{HasAll, HasPairs, TellsBelow, TellsDown, TellsPairs};
    ghost use Rattle.dutch_weighing.specs.Classes.{TellsFirsts};
    ghost use Rattle.dutch_weighing.specs.WeightTables.{weighed_on};
    ghost use Rattle.dutch_weighing.specs.Weights.{Weighing};

    ghost Value = { Weighing };

    ghost view = { λ w. weighed_on w.context.now w.scale.value };

    ghost invariant = { λ w.
        TellsFirsts (weighed_on w.context.now w.scale.value) w.firsts.items
        × (HasPairs (weighed_on w.context.now w.scale.value) w.pairs
        × TellsPairs (weighed_on w.context.now w.scale.value) w.pairs)
        × (HasAll (weighed_on w.context.now w.scale.value) w.down.items
        × TellsDown (weighed_on w.context.now w.scale.value) w.down.items)
        × TellsBelow (weighed_on w.context.now w.scale.value) w.next.items };
}

/// What the weights of a bracket are worked out by.
#[derive(Drop)]
struct Weigher<'a> {
    context: &'a Context<'a>,
    scale: &'a Scale,
}

impl<'a> Model for Weigher<'a> {
    ghost use Rattle.dutch_weighing.specs.WeightTables.{weighed_on};
    ghost use Rattle.dutch_weighing.specs.Weights.{Weighing};

    ghost Value = { Weighing };

    ghost view = { λ w. weighed_on w.context.now w.scale.now };
}

/// Where a table of so many players has two numbers.
fn place_of(n: usize, x: u16, y: u16) -> usize
    requires few { n ≤ LIMIT }
    requires first { (0 < x) × (x ≤ n) }
    requires second { (0 < y) × (y ≤ n) }
    ensures value { result ≡ tables.place_of n x y }
    ensures within { result < n * n }
{
    usize::from(x - 1) * n + usize::from(y - 1)
}

/// Fills in two players who meet, by number.
fn seat_pair(context: &Context<'_>, a: u16, b: u16, seated: &mut Seated)
    ensures { let seats = context.now.reached.seats
        in seated.new ≡ seated_so context.now.facts context.now.reached ((seat_of seats a, seat_of seats b) ∷ []) [] }
{
    let reached = context.reached();
    seated.pairs.clear();
    seated.pairs.push((reached.seat(a), reached.seat(b)));
    seated.down.clear();
    seated.lowest = context.lowest();
}

/// Fills in a downfloater, by number.
fn seat_one_down(context: &Context<'_>, a: u16, seated: &mut Seated)
    ensures { seated.new
        ≡ seated_so context.now.facts context.now.reached [] (seat_of context.now.reached.seats a ∷ []) }
{
    seated.pairs.clear();
    seated.down.clear();
    seated.down.push(context.reached().seat(a));
    seated.lowest = context.lowest();
}

/// What some pairs and downfloaters by seats weigh, whatever the next bracket is; none if it is 2^1024 or more.
fn weigh(field: &Field, scale: &Scale, seated: &Seated, quality: &mut Quality) -> Option<Wide>
    ensures { let weight = weight_with scale.now 0 [] (quality_with field.now seated.now no_value) in SomeIff result
        (weight < 2 ^ 1024) weight }
{
    fill_seated(field, seated, quality);
    scale.weigh_alone(quality)
}

impl PairTable {
    /// So many places, of pairs that weigh nothing and may not meet.
    fn new(alloc: Global, count: usize) -> Result<PairTable, AllocError>
        ensures weights { IfOk result (λ table. length table.weights ≡ count) }
        ensures meets { IfOk result (λ table. length table.meets.items ≡ count) }
    {
        Ok(PairTable {
            weights: WideTable::zeros(alloc, count)?,
            meets: vec![in alloc; false; count]?,
        })
    }

    /// Writes what the pair of a place weighs, and whether the two may meet.
    fn put(&mut self, place: usize, weight: Wide, meets: bool) -> Result<(), AllocError>
        requires weights { place < length self.old.weights }
        requires meets { place < length self.old.meets.items }
        ensures room { (length self.new.weights ≡ length self.old.weights)
            × (length self.new.meets.items ≡ length self.old.meets.items) }
        ensures weight { OnOk result (self.new.weights ≡ slice_set self.old.weights place weight) }
        ensures meets { OnOk result (self.new.meets.items ≡ slice_set self.old.meets.items place meets) }
    {
        self.weights.set(place, weight)?;
        self.meets[place] = meets;
        Ok(())
    }

    /// Writes that the pair of a place weighs what that of another one does, and whether the two may meet.
    fn repeat(&mut self, place: usize, from: usize, meets: bool)
        requires weights { place < length self.old.weights }
        requires meets { place < length self.old.meets.items }
        requires from { from < length self.old.weights }
        ensures room { (length self.new.weights ≡ length self.old.weights)
            × (length self.new.meets.items ≡ length self.old.meets.items) }
        ensures weight { self.new.weights
            ≡ slice_set self.old.weights place (slice_index_or self.old.weights from 0) }
        ensures meets { self.new.meets.items ≡ slice_set self.old.meets.items place meets }
    {
        self.weights.repeat(place, from);
        self.meets[place] = meets;
    }
}

impl Weigher<'_> {
    /// The class of a number.
    fn class(&self, number: u16) -> PlayerClass
        ensures { result ≡ class_of self.now number }
    {
        class_at(self.context.field(), self.context.reached().seat(number))
    }

    /// The first number of the class of one.
    fn first_for(&self, number: u16) -> u16
        requires { tables.IsNumber self.now.reached number }
        ensures { IsFirstFor self.now number result }
    {
        let class = self.class(number);
        for before in 1..number {
            if self.class(before) == class {
                return before;
            }
        }
        number
    }

    /// Of all numbers the first ones of their classes.
    fn firsts(&self) -> Result<Vec<u16>, AllocError>
        ensures { IfOk result (λ firsts. TellsFirsts self.now firsts.items) }
    {
        let count = self.context.len();
        let mut firsts = Vec::with_capacity(self.context.alloc(), count)?;
        for above in 0..count {
            firsts.push(self.first_for(above as u16 + 1))?;
        }
        Ok(firsts)
    }

    /// What a pair weighs alone; none if it is 2^1024 or more.
    fn pair(&self, a: u16, b: u16, room: &mut QualityLists) -> Option<Wide>
        ensures { SomeIff result (tables.pair_weight self.now a b < 2 ^ 1024) (tables.pair_weight self.now a b) }
    {
        seat_pair(self.context, a, b, &mut room.seated);
        let field = self.context.field();
        weigh(field, self.scale, &room.seated, &mut room.quality)
    }

    /// What a downfloater weighs alone; none if it is 2^1024 or more.
    fn one_down(&self, a: u16, room: &mut QualityLists) -> Option<Wide>
        ensures { SomeIff result (tables.down_weight self.now a < 2 ^ 1024) (tables.down_weight self.now a) }
    {
        seat_one_down(self.context, a, &mut room.seated);
        let field = self.context.field();
        weigh(field, self.scale, &room.seated, &mut room.quality)
    }

    fn may_meet(&self, a: u16, b: u16) -> bool
        ensures { result ≡ numbers_meet self.now.facts self.now.reached a b }
    {
        self.context.rule().may_meet(a, b)
    }

    /// Puts what all downfloaters weigh into a table.
    fn put_down(&self, room: &mut QualityLists, table: &mut [Wide]) -> bool
        requires { tables.HasAll self.now table.old }
        ensures told { result ≡ true → tables.TellsDown self.now table.new }
        ensures heavy { result ≡ false → tables.IsHeavy self.now (2 ^ 1024) }
    {
        for a in 0..self.context.len() {
            match self.one_down(a as u16 + 1, room) {
                Some(weight) => table[a] = weight,
                None => return false,
            }
        }
        true
    }
}

/// What weighs the pairs of a bracket, by a first number of each class.
#[derive(Drop)]
struct PairWeigher<'a> {
    weigher: &'a Weigher<'a>,
    firsts: &'a [u16],
    ghost told: { TellsFirsts weigher.now firsts.now },
}

impl PairWeigher<'_> {
    /// A first number of the class of one.
    fn first(&self, number: u16) -> u16
        requires { tables.IsNumber self.now.weigher.now.reached number }
        ensures { IsFirstFor self.now.weigher.now number result }
    {
        self.firsts[usize::from(number) - 1]
    }

    /// Puts what a pair weighs into a table, and whether the two may meet; no if it weighs 2^1024 or more.
    fn put_new(
        &self,
        pair: Pair,
        room: &mut QualityLists,
        table: &mut PairTable,
    ) -> Result<bool, AllocError>
        requires first { tables.IsNumber self.now.weigher.now.reached pair.0 }
        requires second { tables.IsNumber self.now.weigher.now.reached pair.1 }
        requires room { tables.HasPairs self.now.weigher.now table.old }
        requires told { tables.TellsPairsUpto self.now.weigher.now table.old (tables.place_in self.now.weigher.now pair.0 pair.1) }
        ensures room { tables.HasPairs self.now.weigher.now table.new }
        ensures told { IfOk result (λ fits. fits ≡ true
            → tables.TellsPairsUpto self.now.weigher.now table.new (tables.place_in self.now.weigher.now pair.0 pair.1 + 1)) }
        ensures heavy { IfOk result (λ fits. fits ≡ false → tables.IsHeavy self.now.weigher.now (2 ^ 1024)) }
    {
        let (a, b) = pair;
        let weigher = self.weigher;
        let meets = weigher.may_meet(a, b);
        let Some(weight) = weigher.pair(a, b, room) else {
            return Ok(false);
        };
        table.put(place_of(weigher.context.len(), a, b), weight, meets)?;
        Ok(true)
    }

    /// Puts into a table what a pair weighs, as the first two of its classes do, who stand there before it, and whether
    /// the two may meet.
    fn put_alike(&self, pair: Pair, firsts: Pair, table: &mut PairTable)
        requires first { tables.IsNumber self.now.weigher.now.reached pair.0 }
        requires second { tables.IsNumber self.now.weigher.now.reached pair.1 }
        requires first_alike { IsFirstFor self.now.weigher.now pair.0 firsts.0 }
        requires second_alike { IsFirstFor self.now.weigher.now pair.1 firsts.1 }
        requires others { ¬ ((firsts.0 ≡ pair.0) × (firsts.1 ≡ pair.1)) }
        requires room { tables.HasPairs self.now.weigher.now table.old }
        requires told { tables.TellsPairsUpto self.now.weigher.now table.old
            (tables.place_in self.now.weigher.now pair.0 pair.1) }
        ensures room { tables.HasPairs self.now.weigher.now table.new }
        ensures told { tables.TellsPairsUpto self.now.weigher.now table.new
            (tables.place_in self.now.weigher.now pair.0 pair.1 + 1) }
    {
        let (a, b) = pair;
        let weigher = self.weigher;
        let count = weigher.context.len();
        let from = place_of(count, firsts.0, firsts.1);
        table.repeat(place_of(count, a, b), from, weigher.may_meet(a, b));
    }

    /// Puts what a pair weighs into a table, and whether the two may meet; no if it weighs 2^1024 or more. It is worked
    /// out only for the first two of their classes.
    fn put_pair(
        &self,
        pair: Pair,
        room: &mut QualityLists,
        table: &mut PairTable,
    ) -> Result<bool, AllocError>
        requires first { tables.IsNumber self.now.weigher.now.reached pair.0 }
        requires second { tables.IsNumber self.now.weigher.now.reached pair.1 }
        requires room { tables.HasPairs self.now.weigher.now table.old }
        requires told { tables.TellsPairsUpto self.now.weigher.now table.old
            (tables.place_in self.now.weigher.now pair.0 pair.1) }
        ensures room { tables.HasPairs self.now.weigher.now table.new }
        ensures told { IfOk result (λ fits. fits ≡ true → tables.TellsPairsUpto self.now.weigher.now table.new
            (tables.place_in self.now.weigher.now pair.0 pair.1 + 1)) }
        ensures heavy { IfOk result (λ fits. fits ≡ false → tables.IsHeavy self.now.weigher.now (2 ^ 1024)) }
    {
        let firsts = (self.first(pair.0), self.first(pair.1));
        if firsts.0 == pair.0 && firsts.1 == pair.1 {
            return self.put_new(pair, room, table);
        }
        self.put_alike(pair, firsts, table);
        Ok(true)
    }

    /// Puts what the pairs of a number weigh into a table.
    fn put_row(
        &self,
        a: u16,
        room: &mut QualityLists,
        table: &mut PairTable,
    ) -> Result<bool, AllocError>
        requires number { tables.IsNumber self.now.weigher.now.reached a }
        requires room { tables.HasPairs self.now.weigher.now table.old }
        requires told { tables.TellsPairsUpto self.now.weigher.now table.old (tables.place_in self.now.weigher.now a 1) }
        ensures room { tables.HasPairs self.now.weigher.now table.new }
        ensures told { IfOk result (λ fits. fits ≡ true
            → tables.TellsPairsUpto self.now.weigher.now table.new (length self.now.weigher.now.reached.seats * a)) }
        ensures heavy { IfOk result (λ fits. fits ≡ false → tables.IsHeavy self.now.weigher.now (2 ^ 1024)) }
    {
        let weigher = self.weigher;
        for b in 0..weigher.context.len() {
            if !self.put_pair((a, b as u16 + 1), room, table)? {
                return Ok(false);
            }
        }
        Ok(true)
    }

    /// Puts what all pairs weigh into a table.
    fn put_pairs(&self, room: &mut QualityLists, table: &mut PairTable) -> Result<bool, AllocError>
        requires { tables.HasPairs self.now.weigher.now table.old }
        ensures room { tables.HasPairs self.now.weigher.now table.new }
        ensures told { IfOk result (λ fits. fits ≡ true → tables.TellsPairs self.now.weigher.now table.new) }
        ensures heavy { IfOk result (λ fits. fits ≡ false → tables.IsHeavy self.now.weigher.now (2 ^ 1024)) }
    {
        let weigher = self.weigher;
        for a in 0..weigher.context.len() {
            if !self.put_row(a as u16 + 1, room, table)? {
                return Ok(false);
            }
        }
        Ok(true)
    }
}

/// What weighs the numbers of the next bracket (C.7), by what each downfloater weighs.
#[derive(Drop)]
struct BelowWeigher<'a> {
    weigher: &'a Weigher<'a>,
    down: &'a [Wide],
    ghost group: { length weigher.now.reached.seats
        < count_below weigher.now.facts weigher.now.reached weigher.now.lower },
    ghost room: { tables.HasAll weigher.now down.now },
    ghost told: { tables.TellsDown weigher.now down.now },
}

impl BelowWeigher<'_> {
    /// What a number weighs as a downfloater, if it is one of the bracket.
    fn own(&self, a: u16) -> Wide
        requires { tables.IsNumberBelow self.now.weigher.now a }
        ensures { result ≡ tables.own_weight self.now.weigher.now a }
    {
        let weigher = self.weigher;
        if usize::from(a) <= weigher.context.len() {
            self.down[usize::from(a) - 1]
        } else {
            Wide::zero()
        }
    }

    /// What a number weighs that meets one of the next lower scoregroup; none if it is 2^1024 or more.
    fn met(&self, a: u16) -> Option<Wide>
        requires { tables.IsNumberBelow self.now.weigher.now a }
        ensures { SomeIff result (tables.met_weight self.now.weigher.now a < 2 ^ 1024)
            (tables.met_weight self.now.weigher.now a) }
    {
        let weigher = self.weigher;
        let context = weigher.context;
        let score = context.field().score(context.seat_below(a));
        let difference = score.saturating_sub(context.score_below());
        let weight = weigher.scale.weigh_below(0, difference)?;
        self.own(a).plus(weight)
    }

    /// What a number weighs that is in no pair of the next bracket; none if it is 2^1024 or more.
    fn alone(&self, a: u16) -> Option<Wide>
        requires { tables.IsNumberBelow self.now.weigher.now a }
        ensures { SomeIff result (tables.alone_weight self.now.weigher.now a < 2 ^ 1024)
            (tables.alone_weight self.now.weigher.now a) }
    {
        let weigher = self.weigher;
        let context = weigher.context;
        let difference = difference_down(
            context.field(),
            context.score_below(),
            context.seat_below(a),
        );
        let weight = weigher.scale.weigh_below(1, difference)?;
        self.own(a).plus(weight)
    }

    /// What a number weighs in the next bracket; none if that is 2^1024 or more.
    fn next_weight(&self, a: u16) -> Option<NextWeight>
        requires { tables.IsNumberBelow self.now.weigher.now a }
        ensures { MatchOption result (tables.IsHeavy self.now.weigher.now (2 ^ 1024))
            (λ weight. weight ≡ tables.next_weight_of self.now.weigher.now a) }
    {
        let met = self.met(a)?;
        let alone = self.alone(a)?;
        Some(NextWeight { met, alone })
    }

    /// Puts what all numbers weigh in the next bracket into a table.
    fn put_all(&self, table: &mut [NextWeight]) -> bool
        requires { tables.HasBelow self.now.weigher.now table.old }
        ensures told { result ≡ true → tables.TellsEachBelow self.now.weigher.now table.new }
        ensures heavy { result ≡ false → tables.IsHeavy self.now.weigher.now (2 ^ 1024) }
    {
        let weigher = self.weigher;
        for a in 0..weigher.context.len_below() {
            match self.next_weight(a as u16 + 1) {
                Some(weight) => table[a] = weight,
                None => return false,
            }
        }
        true
    }
}

/// The weights of all pairs, row by row; none if one of them is 2^1024 or more.
fn weigh_pairs(
    alloc: Global,
    weigher: &Weigher<'_>,
    firsts: &[u16],
    room: &mut QualityLists,
) -> Result<Option<PairTable>, AllocError>
    requires { TellsFirsts weigher.now firsts.now }
    ensures { IfOk result (λ weighed. MatchOption weighed (tables.IsHeavy weigher.now (2 ^ 1024))
        (λ table. tables.HasPairs weigher.now table × tables.TellsPairs weigher.now table)) }
{
    let count = weigher.context.len();
    let mut table = PairTable::new(alloc, count * count)?;
    let pairs = PairWeigher { weigher, firsts };
    if pairs.put_pairs(room, &mut table)? {
        Ok(Some(table))
    } else {
        Ok(None)
    }
}

/// The weights of all downfloaters; none if one of them is 2^1024 or more.
fn weigh_down(
    alloc: Global,
    weigher: &Weigher<'_>,
    room: &mut QualityLists,
) -> Result<Option<Vec<Wide>>, AllocError>
    ensures { IfOk result (λ weighed. MatchOption weighed (tables.IsHeavy weigher.now (2 ^ 1024))
        (λ table. tables.HasAll weigher.now table.items × tables.TellsDown weigher.now table.items)) }
{
    let mut table = vec![in alloc; Wide::zero(); weigher.context.len()]?;
    if weigher.put_down(room, &mut table) {
        Ok(Some(table))
    } else {
        Ok(None)
    }
}

/// What all numbers weigh in the next bracket, if C.7 is measured; none if one of them weighs 2^1024 or more.
fn weigh_next(
    alloc: Global,
    weigher: &Weigher<'_>,
    down: &[Wide],
) -> Result<Option<Vec<NextWeight>>, AllocError>
    requires room { tables.HasAll weigher.now down.now }
    requires told { tables.TellsDown weigher.now down.now }
    requires next { ForSome weigher.now.scale.next (λ _. weigher.now.reached.kind ≡ Ordinary) }
    ensures { IfOk result (λ weighed. MatchOption weighed (tables.IsHeavy weigher.now (2 ^ 1024))
        (λ table. tables.TellsBelow weigher.now table.items)) }
{
    if !weigher.scale.counts_next() {
        return Ok(Some(Vec::new(alloc)));
    }
    let nothing = NextWeight {
        met: Wide::zero(),
        alone: Wide::zero(),
    };
    let mut table = vec![in alloc; nothing; weigher.context.len_below()]?;
    let numbers = BelowWeigher { weigher, down };
    if numbers.put_all(&mut table) {
        Ok(Some(table))
    } else {
        Ok(None)
    }
}

impl<'a> Weighing<'a> {
    /// Works out all weights of a bracket; none if one of them is 2^1024 or more.
    #[inline(never)]
    pub fn read(context: &'a Context<'a>, scale: Scale) -> Result<Option<Weighing<'a>>, AllocError>
        requires { ForSome scale.next (λ _. context.now.reached.kind ≡ Ordinary) }
        ensures { let weighed = tables.weighed_on context.now scale
            in IfOk result (λ read. MatchOption read (tables.IsHeavy weighed (2 ^ 1024)) (λ weighing. weighing
            ≡ weighed)) }
    {
        let mut room = QualityLists::default();
        let weigher = Weigher {
            context: &*context,
            scale: &scale,
        };
        let firsts = weigher.firsts()?;
        let Some(pairs) = weigh_pairs(context.alloc(), &weigher, &firsts, &mut room)? else {
            return Ok(None);
        };
        let Some(down) = weigh_down(context.alloc(), &weigher, &mut room)? else {
            return Ok(None);
        };
        let Some(next) = weigh_next(context.alloc(), &weigher, &down)? else {
            return Ok(None);
        };
        Ok(Some(Weighing {
            context,
            scale: Box::new(context.alloc(), scale)?,
            firsts,
            pairs,
            down,
            next,
        }))
    }

    /// The scale that they are weighed on.
    pub fn scale(&self) -> &Scale
        ensures { result.now ≡ self.now.scale }
    {
        &*self.scale
    }

    /// A first number of the class of one: it weighs the same in each pair.
    pub fn first_alike(&self, number: u16) -> u16
        requires { tables.IsNumber self.now.reached number }
        ensures { IsFirstFor self.now number result }
    {
        self.firsts[usize::from(number) - 1]
    }

    /// How many ordered pairs of classes there are: so many weights were worked out.
    pub fn pairs_of_classes(&self) -> u64 {
        let firsts = self.firsts.iter().enumerate();
        let count = firsts
            .filter(|(above, first)| usize::from(**first) == above + 1)
            .count() as u64;
        count * count
    }

    /// The bracket.
    pub fn context(&self) -> &'a Context<'a>
        ensures facts { result.now.facts ≡ self.now.facts }
        ensures reached { result.now.reached ≡ self.now.reached }
        ensures lower { result.now.lower ≡ self.now.lower }
    {
        self.context
    }
}

impl Weighing<'_> {
    /// Where the table of pairs has two numbers.
    fn place(&self, a: u16, b: u16) -> usize
        requires first { tables.IsNumber self.now.reached a }
        requires second { tables.IsNumber self.now.reached b }
        ensures value { result ≡ tables.place_in self.now a b }
        ensures within { result < length self.now.reached.seats * length self.now.reached.seats }
    {
        place_of(self.context.len(), a, b)
    }

    /// Yes if two numbers may meet.
    fn meets(&self, a: u16, b: u16) -> bool
        requires first { tables.IsNumber self.now.reached a }
        requires second { tables.IsNumber self.now.reached b }
        ensures { result ≡ numbers_meet self.now.facts self.now.reached a b }
    {
        self.pairs.meets[self.place(a, b)]
    }

    /// What a number weighs that meets one of the next lower scoregroup (C.7).
    pub fn met(&self, a: u16) -> Wide
        requires number { tables.IsNumberBelow self.now a }
        requires some { is_some self.now.scale.next ≡ true }
        ensures { result ≡ tables.met_weight self.now a }
    {
        self.next[usize::from(a) - 1].met
    }

    /// What a number weighs that is in no pair of the next bracket (C.7).
    pub fn alone(&self, a: u16) -> Wide
        requires number { tables.IsNumberBelow self.now a }
        requires some { is_some self.now.scale.next ≡ true }
        ensures { result ≡ tables.alone_weight self.now a }
    {
        self.next[usize::from(a) - 1].alone
    }
}

impl dual::MatchingRule for Weighing<'_> {
    ghost use Rattle.std.specs.Prelude.{◌<◌, ◌≤◌, length};
    ghost use Rattle.dutch_weighing.specs.Weights.{weighing};

    ghost costs = { λ w. weighing w.facts w.reached w.scale };

    ghost knows = { λ w a. (0 < a) × (a ≤ length w.reached.seats) };

    #[tactic(auto, unfolding(dutch_bracket::specs::Reached::numbers_meet))]
    fn may_meet(&self, a: u16, b: u16) -> bool {
        let reached = self.context.reached();
        reached.has(a) && reached.has(b) && self.meets(a, b)
    }

    fn weight(&self, a: u16, b: u16) -> Wide {
        self.pairs.weights.get(self.place(a, b))
    }

    fn may_be_left(&self, a: u16) -> bool {
        !self.context.reached().kind().ends_round() || self.context.rule().last_ok(a)
    }

    fn left_cost(&self, a: u16) -> Wide {
        self.down[usize::from(a) - 1]
    }
}

// Floors of a bracket by the weight of its candidates (C.04.3 C.6, C.8 to C.19, and C.7 where that is measured), and
// what they say behind a beginning. They are asked at each beginning that a choice comes to, so an answer takes no
// memory, and looks at each pair of the beginning once for each floor.
ghost use Rattle.std.specs.Prelude.{◌≡◌, ◌+◌, ◌-◌, ◌*◌, ◌<◌, ◌≤◌, ◌↔◌, All, IfOk, IfSome, IsTrue, is_some, true};
ghost use Rattle.std.specs.Prelude.{drop, length, sum_by, if◌then◌else◌};
ghost use Rattle.std.specs.List.{zip};
ghost use Rattle.dual.specs.Prelude.{certificate_in, slack_in, slack_left_in};
ghost use Rattle.dutch_sequence.specs.declared.numbers.TheConstants.{LIMIT};
ghost use Rattle.dutch_weight_floors.specs.declared.scoped.Reach.TheVariants.{Lower};
ghost use Rattle.dutch_weight_floors.specs.Orders.{AddsNothing};
ghost use Rattle.dutch_weight_floors.specs.ScopedCosts.{MeasuresNext};
ghost use Rattle.dutch_bracket.specs.Prelude.{one_if, quality_in, is_penultimate};
ghost use Rattle.dutch_weighing.specs.Prelude.{IsScaleFor, IsScaleHere};
ghost use Rattle.dutch_weight_floors.specs.WeightFloors.{IsCheckedIn, IsFloorFor, IsMostAdded, IsScaled, IsWeightFloor, Weighed, bound_behind};
ghost use Rattle.dutch_weight_floors.specs.WeightFloors.{is_first, left_known, passed_over, scoped_by, weighed_for, weighing_of};

use crate::order::{Halves, Order};
use crate::scope::Scope;
use crate::scoped::{Reach, Scoped, Sought};
use crate::traces::Traces;
use crate::witness::Witness;
use dual::{CertificateTable, Floor, Remade, Wide};
use dutch_arrangements::{Exchange, Filling, LIMIT, Prefix, Shape};
use dutch_bracket::context::Context;
use dutch_bracket::quality::Quality;
use dutch_bracket::seated::Pair;
use dutch_bracket::tuning::{FLOORS_KEPT, MOST_REACHED, most_bits};
use dutch_candidates::fixed_lists::fixed_lists;
use dutch_candidates::wish::Wish;
use dutch_weighing::{DigitPlan, Scale, Weighing};
use std::alloc::AllocError;
use std::marker::Model;

// A divisor of the players: a floor is checked beside another one if no more than that part of them have changed; else
// it is checked anew, by classes of players. If it is too great, many classes are asked about where few players have
// changed; if it is too small, many players. (When a floor was always checked beside another one, 4 of 237 hard reports
// fewer were decided in 1,000,000 steps.)
const CHANGED_DIVISOR: usize = 16;

// So many ordered pairs of which it is only asked whether the two may meet take about as long as one whose weight is
// asked for. If it is too great, a step takes more time where few may meet, or where players are of few classes; if it is
// too small, fewer hard reports are decided with as many steps.
const PAIRS_IN_A_LOOK: u64 = 16;

/// What a quality weighs, and what all with a higher PSD weigh at least.
#[derive(Clone, Copy)]
pub struct Bar {
    weight: Wide,
    above: Wide,
}

/// A floor by a certificate that was checked, which arrangements it is for, and what it counts of their order (D.2).
#[derive(Drop)]
pub(crate) struct ScopedFloor {
    pub scope: Scope,
    pub(crate) order: Order,
    // over whom the matchings of the floor go
    pub(crate) reach: Reach,
    // the certificate
    pub(crate) table: CertificateTable,
    pub(crate) floor: Floor,
}

impl Model for ScopedFloor {
    ghost use Rattle.dutch_weight_floors.specs.WeightFloors.{ScopedFloor};

    ghost Value = { ScopedFloor };

    ghost view = { λ f. record {
      scope = f.scope;
      order = f.order;
      reach = f.reach;
      table = f.table;
      floor = f.floor;
    } };
}

/// A floor to be kept, and how many ordered pairs were asked about for it.
#[derive(Drop)]
struct Checked {
    kept: ScopedFloor,
    looks: u64,
}

/// Floors of a bracket and a shape by weight, for the candidates that grant what is wished.
#[derive(Drop)]
pub struct WeightFloors<'a> {
    pub(crate) weighing: Weighing<'a>,
    pub(crate) shape: Shape,
    pub(crate) wish: Option<Wish>,
    pub(crate) floors: Vec<ScopedFloor>,
    pub(crate) traces: Traces,
    pub(crate) witness: Witness,
    // behind which pairs of S1 and S2 the order of S1R was asked for last, if it was
    pub(crate) ordered: Option<Vec<Pair>>,
}

impl<'a> Model for WeightFloors<'a> {
    ghost use Rattle.dutch_weight_floors.specs.WeightFloors.{AreFloors, Weighed, weighed_for};

    ghost Value = { Weighed };

    ghost view = { λ w. weighed_for w.weighing w.shape w.wish };

    ghost invariant = { λ w. AreFloors (weighed_for w.weighing w.shape w.wish) w.floors.items };
}

/// A sum with what the pairs of two lists add to a floor; none if it does not fit.
fn plus_pairs(floor: &Floor, firsts: &[u16], seconds: &[u16], sum: Wide) -> Option<Wide>
    ensures { IfSome result (λ n. n ≡ sum + sum_by (slack_in floor.now) (zip firsts.now seconds.now)) }
{
    let count = firsts.len().min(seconds.len());
    let mut sum = sum;
    for i in 0..count {
        sum = sum.plus(floor.slack(firsts[i], seconds[i]))?;
    }
    Some(sum)
}

fn is_at(list: &[u16], place: usize, number: u16) -> bool
    ensures { result ≡ is_first number (drop place list.now) }
{
    place < list.len() && list[place] == number
}

/// What a player adds who is known to be left over; nothing for one who is met in S1.
fn extra_outside(floor: &Floor, is_met: bool, number: u16) -> Wide
    ensures { result ≡ (if is_met then 0 else slack_left_in floor.now number) }
{
    if is_met {
        Wide::zero()
    } else {
        floor.slack_left(number)
    }
}

/// The place behind one that is met, or else the same place.
fn place_after(place: usize, is_met: bool) -> usize
    requires { place < LIMIT }
    ensures { result ≡ place + one_if is_met }
{
    if is_met { place + 1 } else { place }
}

/// A sum with what the moved-down players add that S1 passes over; none if it does not fit.
fn plus_outside(floor: &Floor, mdps: usize, s1: &[u16], sum: Wide) -> Option<Wide>
    requires { mdps ≤ LIMIT }
    ensures { IfSome result (λ n. n ≡ sum + sum_by (slack_left_in floor.now) (passed_over s1.now 1 mdps)) }
{
    let mut sum = sum;
    let mut met = 0;
    for above in 0..mdps {
        let number = above as u16 + 1;
        let is_met = is_at(s1, met, number);
        sum = sum.plus(extra_outside(floor, is_met, number))?;
        met = place_after(met, is_met);
    }
    Some(sum)
}

/// A sum with what those add who are known to be left over; none if it does not fit.
fn plus_left(floor: &Floor, mdps: usize, prefix: &Prefix<'_>, sum: Wide) -> Option<Wide>
    requires { mdps ≤ LIMIT }
    ensures { IfSome result (λ n. n
        ≡ sum + sum_by (slack_left_in floor.now) (left_known prefix.now.filling mdps prefix.now.lists.s1)) }
{
    match prefix.filling() {
        Filling::ChoosingS1 => return Some(sum),
        Filling::S2 | Filling::S2r => return plus_outside(floor, mdps, prefix.s1(), sum),
    }
}

/// What a floor says behind a beginning; none if that is nothing, or if it does not fit.
fn bound_behind(floor: &Floor, mdps: usize, prefix: &Prefix<'_>) -> Option<Wide>
    requires { mdps ≤ LIMIT }
    ensures { IfSome result (λ n. n + floor.now.debt ≡ bound_behind floor.now mdps prefix.now) }
{
    let lists = fixed_lists(prefix);
    let first = plus_pairs(floor, lists.s1, lists.s2, floor.base())?;
    let second = plus_pairs(floor, lists.s1r, lists.s2r, first)?;
    let all = plus_left(floor, mdps, prefix, second)?;
    all.minus(floor.debt())
}

impl ScopedFloor {
    /// How much of what the floor says behind a beginning is added by the order at most; none if that is not known.
    #[tactic(auto, using(crate::proofs::D02Orders::nothing_added))]
    fn of_order(&self, prefix: &Prefix<'_>) -> Option<Wide>
        ensures { IfSome result (IsMostAdded self.now.order prefix.now) }
    {
        if self.order.is_none() {
            return Some(Wide::zero());
        }
        match prefix.filling() {
            Filling::ChoosingS1 | Filling::S2 => None,
            Filling::S2r => self.order.of(prefix.s1r()),
        }
    }

    /// A yes says that another certificate can be checked beside this one, in a scope where nothing is added: nothing is
    /// added here either, and the matchings go over the same players.
    fn can_be_beside(&self, reach: Reach) -> bool
        ensures nothing { result ≡ true → AddsNothing self.now.order }
        ensures reach { result ≡ true → self.now.reach ≡ reach }
    {
        self.order.is_none() && self.reach == reach
    }
}

/// Drops the floor that counts an order, if there is one.
fn drop_ordered(floors: &mut Vec<ScopedFloor>)
    ensures hold { (w : Weighed) → All (IsWeightFloor w) floors.old.items → All (IsWeightFloor w) floors.new.items }
    ensures checked { (w : Weighed) → All (IsCheckedIn w) floors.old.items → All (IsCheckedIn w) floors.new.items }
{
    let Some(place) = floors.iter().position(|kept| !kept.order.is_none()) else {
        return;
    };
    floors.remove(place);
}

/// If there is no room for one more, drops the oldest floor that counts no order, but never the first floor.
fn drop_oldest(floors: &mut Vec<ScopedFloor>)
    ensures hold { (w : Weighed) → All (IsWeightFloor w) floors.old.items → All (IsWeightFloor w) floors.new.items }
    ensures checked { (w : Weighed) → All (IsCheckedIn w) floors.old.items → All (IsCheckedIn w) floors.new.items }
{
    if floors.len() < FLOORS_KEPT {
        return;
    }
    let place = if floors[1].order.is_none() { 1 } else { 2 };
    floors.remove(place);
}

/// Makes room for a floor that counts an order, or for one that counts none.
fn make_room(floors: &mut Vec<ScopedFloor>, counts_order: bool)
    ensures hold { (w : Weighed) → All (IsWeightFloor w) floors.old.items → All (IsWeightFloor w) floors.new.items }
    ensures checked { (w : Weighed) → All (IsCheckedIn w) floors.old.items → All (IsCheckedIn w) floors.new.items }
{
    if counts_order {
        drop_ordered(floors);
    }
    drop_oldest(floors);
}

/// Keeps one floor more, in place of another one if there is no room, or if both count an order.
fn keep(floors: &mut Vec<ScopedFloor>, floor: ScopedFloor) -> Result<(), AllocError>
    ensures hold { (w : Weighed) → All (IsWeightFloor w) floors.old.items → IsWeightFloor w floor
        → All (IsWeightFloor w) floors.new.items }
    ensures checked { (w : Weighed) → All (IsCheckedIn w) floors.old.items → IsCheckedIn w floor
        → All (IsCheckedIn w) floors.new.items }
{
    make_room(floors, !floor.order.is_none());
    floors.push(floor)?;
    Ok(())
}

/// The last floor of those beside which a certificate can be checked where nothing is added.
fn last_of(floors: &[ScopedFloor], reach: Reach) -> Option<&ScopedFloor>
    ensures checked { IfSome result (λ kept. (w : Weighed) → All (IsCheckedIn w) floors.now → IsCheckedIn w kept.now) }
    ensures nothing { IfSome result (λ kept. AddsNothing kept.now.order) }
    ensures reach { IfSome result (λ kept. kept.now.reach ≡ reach) }
{
    let place = floors.iter().rposition(|kept| kept.can_be_beside(reach))?;
    Some(&floors[place])
}

impl Bar {
    /// What the quality weighs.
    pub(crate) fn weight(&self) -> Wide {
        self.weight
    }

    /// What the lighter of two qualities weighs.
    pub(crate) fn lesser_weight(&self, other: Bar) -> Wide {
        if other.weight.is_less(self.weight) {
            other.weight
        } else {
            self.weight
        }
    }

    /// So much weight is no less than that of the quality.
    pub fn is_reached(&self, weight: Wide) -> bool
        ensures { IsTrue result ↔ (self.now.weight ≤ weight) }
    {
        !weight.is_less(self.weight)
    }

    /// So much weight is more than that of the quality.
    pub fn is_passed(&self, weight: Wide) -> bool
        ensures { IsTrue result ↔ (self.now.weight < weight) }
    {
        self.weight.is_less(weight)
    }

    /// So much weight is more than any with the same PSD has.
    pub fn is_above(&self, weight: Wide) -> bool
        ensures { IsTrue result ↔ (self.now.above ≤ weight) }
    {
        !weight.is_less(self.above)
    }
}

/// How many players are in priced sets of a certificate, each counted once for each set.
fn count_priced(table: &CertificateTable) -> usize {
    let mut count: usize = 0;
    for set in &table.sets {
        let members = set.marks.iter().filter(|mark| **mark).count();
        count = count.saturating_add(members);
    }
    count
}

/// Yes if so few players have another potential than in a certificate before, or are in priced sets, that to ask about
/// their pairs is as a rule shorter than to ask about a pair of each two kinds.
fn are_few_changed(table: &CertificateTable, before: &CertificateTable) -> bool {
    let both = table.potentials.iter().zip(before.potentials.iter());
    let changed = both.filter(|pair| *pair.0 != *pair.1).count();
    let priced = count_priced(table).saturating_add(count_priced(before));
    changed.saturating_add(priced) <= table.potentials.len() / CHANGED_DIVISOR
}

/// Yes if a certificate can be checked beside another one, and that is shorter than anew. (Where players do not weigh by
/// class, it always is.)
fn may_be_beside(
    scoped: &Scoped<'_, '_>,
    table: &CertificateTable,
    before: &CertificateTable,
) -> bool
    ensures { result ≡ true → AddsNothing scoped.now.order }
{
    if scoped.weighs_by_class() {
        are_few_changed(table, before)
    } else {
        scoped.adds_nothing()
    }
}

/// How many bits the order of S1R takes; none if there is no resident.
fn order_bits(context: &Context<'_>) -> u32 {
    let mdps = context.reached().mdps();
    match Halves::new(context.len(), mdps, mdps + 1) {
        Some(halves) => halves.width(),
        None => 0,
    }
}

/// A scale with digits for C.16 to C.19 and room for the order of S1R (D.2), if its weights have at most so many bits
/// as `most_bits` says; else one without that room, or without those digits, or without both.
fn scale_for(context: &Context<'_>, shape: Shape, next: bool) -> Scale
    ensures { IsScaleHere context.now shape result }
{
    let order = order_bits(context);
    let most = most_bits(context.len());
    for floats in [true, false] {
        for spare in [order, 0] {
            let plan = DigitPlan {
                next,
                floats,
                spare,
            };
            let scale = Scale::of(context, shape, plan);
            if scale.width() <= most {
                return scale;
            }
        }
    }
    Scale::of(context, shape, DigitPlan::least(next))
}

impl<'a> WeightFloors<'a> {
    ghost use Rattle.dutch_weight_floors.specs.WeightFloors.{AreOf, IsBar, IsLeast, IsLeastWith};

    /// The floors of a bracket and a shape: none so far.
    fn new(weighing: Weighing<'a>, shape: Shape, wish: Option<Wish>) -> WeightFloors<'a>
        requires { IsScaleFor weighing.facts weighing.reached weighing.lower shape weighing.scale }
        ensures { result ≡ weighed_for weighing.entry shape wish }
    {
        let alloc = weighing.context().alloc();
        WeightFloors {
            weighing,
            shape,
            wish,
            floors: Vec::new(alloc),
            traces: Traces::none(alloc),
            witness: Witness::none(alloc),
            ordered: None,
        }
    }

    /// Weighs a bracket's pairs and downfloaters on a scale, for floors of a shape. No floor is kept yet. None says
    /// that a weight does not fit. The time grows with the squares of the numbers of players and of
    /// their classes.
    pub(crate) fn read(
        context: &'a Context<'a>,
        shape: Shape,
        wish: Option<Wish>,
        scale: Scale,
    ) -> Result<Option<WeightFloors<'a>>, AllocError>
        requires { IsScaleHere context.now shape scale }
        ensures { IfOk result (λ found. IfSome found (AreOf context.now shape wish)) }
    {
        match Weighing::read(context, scale)? {
            Some(weighing) => return Ok(Some(WeightFloors::new(weighing, shape, wish))),
            None => return Ok(None),
        }
    }

    /// Weighs a bracket's pairs and downfloaters for floors of a shape, on a scale with as many digits as there is room
    /// for, and with those of C.7 if they are wanted. None says that a weight does not fit.
    #[inline(never)]
    pub fn weigh(
        context: &'a Context<'a>,
        shape: Shape,
        wish: Option<Wish>,
        next: bool,
    ) -> Result<Option<WeightFloors<'a>>, AllocError>
        ensures { IfOk result (λ found. IfSome found (AreOf context.now shape wish)) }
    {
        WeightFloors::read(context, shape, wish, scale_for(context, shape, next))
    }

    /// The players that the matchings go over: the next lower scoregroup too if C.7 is measured; in the penultimate
    /// bracket all lower players too (C.4), unless they are too many.
    pub(crate) fn reach(&self) -> Reach
        ensures lower { result ≡ Lower → is_penultimate self.now.reached.kind ≡ true }
        ensures next { MeasuresNext result self.now.scale }
    {
        if self.weighing.scale().counts_next() {
            return Reach::Next;
        }
        let context = self.weighing.context();
        let is_penultimate = context.reached().kind().is_penultimate();
        if is_penultimate && context.len() + context.lower().len() <= MOST_REACHED {
            Reach::Lower
        } else {
            Reach::Bracket
        }
    }

    /// How many players the matchings go over.
    pub(crate) fn size(&self) -> usize
        ensures { result ≤ LIMIT }
    {
        let context = self.weighing.context();
        match self.reach() {
            Reach::Bracket => context.len(),
            Reach::Lower => context.len() + context.lower().len(),
            Reach::Next => context.len_below(),
        }
    }

    /// How many players the matchings of the bracket alone leave over.
    pub(crate) fn left_over_count(&self) -> usize
        ensures { result ≡ length self.now.reached.seats - 2 * self.now.shape.pairs }
    {
        self.weighing
            .context()
            .len()
            .saturating_sub(self.shape.pairs)
            .saturating_sub(self.shape.pairs)
    }

    /// The floor that was kept last of those beside which one can be checked again where nothing is added.
    fn last_beside(&self, reach: Reach) -> Option<&ScopedFloor>
        ensures checked { IfSome result (λ kept. IsCheckedIn self.now kept.now) }
        ensures nothing { IfSome result (λ kept. AddsNothing kept.now.order) }
        ensures reach { IfSome result (λ kept. kept.now.reach ≡ reach) }
    {
        last_of(&self.floors, reach)
    }

    /// What pairs and downfloaters weigh in the arrangements of a scope that grant the wish, with what an order adds.
    fn scoped_by<'b>(&'b self, scope: &'b Scope, reach: Reach, order: &'b Order) -> Scoped<'a, 'b>
        requires { MeasuresNext reach self.now.scale }
        ensures value { result ≡ scoped_by self.now scope.now reach order.now }
        ensures scaled { IsScaled self.now }
    {
        let wish = self.wish;
        Scoped::new(&self.weighing, Sought { scope, wish }, reach, order)
    }

    /// The floor of a certificate, checked for all pairs. It answers also how many pairs were asked about, with a part of
    /// those of which it was only asked whether the two may meet.
    fn floor_anew(
        &self,
        scoped: &Scoped<'_, '_>,
        table: &CertificateTable,
    ) -> Result<Option<Remade>, AllocError>
        requires weighing { scoped.now.weighing ≡ weighing_of self.now }
        ensures { IfOk result (λ found. IfSome found (λ remade.
            IsFloorFor self.now scoped.now (certificate_in table.now) remade.floor)) }
    {
        let Some(remade) = scoped.floor(table, self.left_over_count())? else {
            return Ok(None);
        };
        let Remade { floor, looks } = remade;
        let pairs = (self.size() * self.size()) as u64;
        Ok(Some(Remade {
            floor,
            looks: looks.saturating_add(pairs / PAIRS_IN_A_LOOK),
        }))
    }

    /// The floor of a certificate that is checked beside one that was kept.
    fn floor_beside(
        &self,
        scoped: &Scoped<'_, '_>,
        table: &CertificateTable,
        kept: &ScopedFloor,
    ) -> Result<Option<Remade>, AllocError>
        requires weighing { scoped.now.weighing ≡ weighing_of self.now }
        requires wish { scoped.now.wish ≡ self.now.wish }
        requires nothing { AddsNothing scoped.now.order }
        requires before { IsCheckedIn self.now kept.now }
        requires nothing_before { AddsNothing kept.now.order }
        requires reach { kept.now.reach ≡ scoped.now.reach }
        ensures { IfOk result (λ found. IfSome found (λ remade.
            IsFloorFor self.now scoped.now (certificate_in table.now) remade.floor)) }
    {
        let was = self.scoped_by(&kept.scope, scoped.reach(), &kept.order);
        scoped.floor_again(table, self.left_over_count(), &was, kept)
    }

    /// The floor of a certificate, checked beside the one that was kept last, if this can be and is shorter, or else
    /// anew. It answers also how many pairs were asked about; none says that the certificate gives no floor.
    fn floor_of(
        &self,
        scoped: &Scoped<'_, '_>,
        table: &CertificateTable,
    ) -> Result<Option<Remade>, AllocError>
        requires weighing { scoped.now.weighing ≡ weighing_of self.now }
        requires wish { scoped.now.wish ≡ self.now.wish }
        ensures { IfOk result (λ found. IfSome found (λ remade.
            IsFloorFor self.now scoped.now (certificate_in table.now) remade.floor)) }
    {
        match self.last_beside(scoped.reach()) {
            Some(kept) if may_be_beside(scoped, table, &kept.table) => {
                self.floor_beside(scoped, table, kept)
            }
            _ => self.floor_anew(scoped, table),
        }
    }

    /// Checks a certificate for the arrangements of a scope, with what an order adds. It answers the floor that is to be
    /// kept; none says that the certificate gives no floor.
    fn check(
        &self,
        table: CertificateTable,
        scope: &Scope,
        order: Order,
    ) -> Result<Option<Checked>, AllocError>
        ensures hold { IfOk result (λ found. IfSome found (λ checked. IsWeightFloor self.now checked.kept)) }
        ensures checked { IfOk result (λ found. IfSome found (λ checked. IsCheckedIn self.now checked.kept)) }
    {
        let reach = self.reach();
        let scoped = self.scoped_by(scope, reach, &order);
        let Some(remade) = self.floor_of(&scoped, &table)? else {
            return Ok(None);
        };
        let looks = remade.looks;
        let floor = reach.kept(remade.floor);
        let scope = scope.copied();
        let kept = ScopedFloor {
            scope,
            order,
            reach,
            table,
            floor,
        };
        Ok(Some(Checked { kept, looks }))
    }

    /// Makes room for a floor that counts an order, or for one that counts none. (Floors are large: so one is dropped
    /// before another one is made.)
    pub(crate) fn make_room(&mut self, counts_order: bool)
        ensures { self.new ≡ self.old }
    {
        make_room(&mut self.floors, counts_order);
    }

    /// Checks a certificate for the arrangements of a scope, with what an order adds, and keeps its floor in place of
    /// another one if there is no room. It answers how many pairs were asked about; none says that it gives no floor.
    pub(crate) fn put(
        &mut self,
        table: CertificateTable,
        scope: &Scope,
        order: Order,
    ) -> Result<Option<u64>, AllocError>
        ensures { self.new ≡ self.old }
    {
        let Some(checked) = self.check(table, scope, order)? else {
            return Ok(None);
        };
        let looks = checked.looks;
        keep(&mut self.floors, checked.kept)?;
        Ok(Some(looks))
    }

    /// The bar of a quality; none if the scale has not all its differences, or a weight does not fit.
    pub fn bar(&self, quality: &Quality) -> Option<Bar>
        ensures { IfSome result (IsBar self.now.scale (quality_in quality.now)) }
    {
        let scale = self.weighing.scale();
        if !scale.measures(quality) {
            return None;
        }
        let weight = scale.weigh(quality)?;
        let above = scale.weigh_above(quality)?;
        Some(Bar { weight, above })
    }

    /// Yes if its scale can weigh a quality, as it has a digit for each of its differences.
    pub fn measures(&self, quality: &Quality) -> bool {
        self.weighing.scale().measures(quality)
    }

    /// How many ordered pairs of classes the players have: so many pairs were weighed.
    pub fn pairs_of_classes(&self) -> u64 {
        self.weighing.pairs_of_classes()
    }

    /// Yes if its weights tell of the next bracket (C.7).
    pub fn counts_next(&self) -> bool
        ensures { result ≡ is_some self.now.scale.next }
    {
        self.weighing.scale().counts_next()
    }

    /// How many floors are kept.
    pub fn len(&self) -> usize {
        self.floors.len()
    }

    /// The bound that the floor at a place gives behind a beginning; none if there is none there, or if it tells
    /// nothing.
    pub fn least_by(&self, place: usize, prefix: &Prefix<'_>) -> Option<Wide>
        ensures { IfSome result (IsLeast self.now prefix.now) }
    {
        if place >= self.floors.len() || !self.floors[place].scope.covers(prefix) {
            return None;
        }
        let kept = &self.floors[place];
        self.least_less(kept, prefix, kept.of_order(prefix)?)
    }

    /// The bound that the floor at a place gives behind a beginning for candidates with such an S1R; none if there is
    /// no floor there, if it tells nothing, or if it counts no order.
    pub fn least_with(
        &self,
        place: usize,
        prefix: &Prefix<'_>,
        exchange: &Exchange<'_>,
    ) -> Option<Wide>
        ensures { IfSome result (IsLeastWith self.now prefix.now exchange.now) }
    {
        if place >= self.floors.len() || !self.floors[place].scope.covers(prefix) {
            return None;
        }
        let kept = &self.floors[place];
        if kept.order.is_none() {
            return None;
        }
        self.least_less(kept, prefix, kept.order.most(exchange)?)
    }

    /// What a floor says behind a beginning, less what its order adds; none if that is nothing, or if it does not fit.
    fn least_less(&self, kept: &ScopedFloor, prefix: &Prefix<'_>, order: Wide) -> Option<Wide>
        ensures { IfSome result (λ n. (n + order) + kept.now.floor.debt
            ≡ bound_behind kept.now.floor self.now.reached.mdps prefix.now) }
    {
        let mdps = self.weighing.context().reached().mdps();
        bound_behind(&kept.floor, mdps, prefix)?.minus(order)
    }
}

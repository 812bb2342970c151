// What pairs and downfloaters weigh in the arrangements of a bracket that a floor is for (C.04.3 B.3, B.6, B.7).
//
// In the penultimate bracket a candidate can be chosen only if those who go down can be paired out with all lower
// players (C.4). There the matchings go over these too. Whoever goes down is paired out in them, and weighs what a
// downfloater does; lower players weigh nothing.
//
// In an ordinary bracket the matchings can go over the next lower scoregroup too (C.7). There those who go down meet
// its members; whoever is in no pair then weighs by the digits of C.7, and so do the differences.
//
// Where something is wished, a matching has only such pairs of the bracket, and leaves over only such players, as fit
// the wish. So the floor is for candidates that grant it.
ghost use Rattle.std.specs.Prelude.{◌≡◌, ◌≢◌, ◌+◌, ◌<◌, ◌≤◌, ◌^◌, true, All, IfOk, IfSome, length, min, slice_index};
ghost use Rattle.std.specs.Prelude.{if◌then◌else◌, nat_lt};
ghost use Rattle.dual.specs.Prelude.{AreAsBefore, IsChecked, WeighByClass, certificate_in};
ghost use Rattle.dutch_sequence.specs.declared.numbers.TheConstants.{LIMIT};
ghost use Rattle.dutch_weight_floors.specs.declared.scoped.Reach.TheVariants.{Lower, Next};
ghost use Rattle.dutch_weight_floors.specs.ScopedCosts as scoped;
ghost use Rattle.dutch_weight_floors.specs.Orders.{AddsNothing};
ghost use Rattle.dutch_weight_floors.specs.Scopes.{is_joined, may_stay};
ghost use Rattle.dutch_weighing.specs.Prelude.{IsNumber, class_of};

use crate::order::Order;
use crate::scope::{Scope, Standing};
use crate::weight_floor::ScopedFloor;
use arrayvec::ArrayVec;
use dual::{Before, CertificateTable, Floor, MatchingRule, Pool, Remade, Wide};
use dutch_arrangements::{LIMIT, Numbers, numbered_from};
use dutch_bracket::context::Context;
use dutch_candidates::wish::{Wish, fits_as_left, fits_as_pair};
use dutch_completion::seats::{BySeat, seats};
use dutch_weighing::Weighing;
use std::alloc::AllocError;
use std::marker::Model;

/// The players that the matchings of a floor go over.
#[derive(Default, Clone, Copy, PartialEq, Eq)]
pub enum Reach {
    /// The bracket's players alone.
    #[default]
    Bracket,
    /// All lower players too: those who go down are paired out with them.
    Lower,
    /// The next lower scoregroup too: those who go down can meet it in the next bracket.
    Next,
}

impl Reach {
    /// What is kept of a floor. If the matchings go over lower players too, those who go down may be in a pair of a
    /// matching: then players left over add nothing.
    pub(crate) fn kept(self, floor: Floor) -> Floor
        ensures { result ≡ scoped.kept_by self floor }
    {
        match self {
            Reach::Bracket => floor,
            Reach::Lower | Reach::Next => floor.without_left(),
        }
    }

    /// A yes means that one who stood so before, and stands so now, has no pair that is new, or that weighs another
    /// thing. Where a pair of the bracket may be paired out too, it weighs the lesser of both: so it may weigh more
    /// where it may be no pair of the bracket any longer.
    fn keeps_pairs(self, before: Standing, now: Standing) -> bool
        ensures { result ≡ true → scoped.KeepsPairs self before now }
    {
        match self {
            Reach::Bracket | Reach::Next => now.is_within(before),
            Reach::Lower => now == before,
        }
    }
}

/// Which arrangements a floor is for: those of a scope that grant what is wished.
#[derive(Clone, Copy)]
pub(crate) struct Sought<'b> {
    pub(crate) scope: &'b Scope,
    pub(crate) wish: Option<Wish>,
}

/// What pairs and downfloaters weigh in the arrangements of a scope that grant what is wished, and what an order adds
/// to pairs of residents (D.2).
#[derive(Drop)]
pub(crate) struct Scoped<'a, 'b> {
    weighing: &'b Weighing<'a>,
    scope: &'b Scope,
    wish: Option<Wish>,
    reach: Reach,
    // what is added to pairs of residents
    order: &'b Order,
    // where each number of the bracket stands
    sides: ArrayVec<Standing, LIMIT>,
}

impl<'a, 'b> Model for Scoped<'a, 'b> {
    ghost use Rattle.dutch_weight_floors.specs.ScopedCosts.{MeasuresNext, Scoped, TellsSides};

    ghost Value = { Scoped };

    ghost view = { λ s. record {
      weighing = s.weighing.now;
      scope = s.scope.now;
      wish = s.wish;
      reach = s.reach;
      order = s.order.now;
    } };

    ghost invariant = { λ s.
        TellsSides s.weighing.now.reached.mdps s.scope.now s.sides.items
        × MeasuresNext s.reach s.weighing.now.scale };
}

/// Where each number of a bracket stands in the arrangements of a scope.
fn sides(context: &Context<'_>, scope: &Scope) -> ArrayVec<Standing, LIMIT>
    ensures { scoped.TellsSides context.now.reached.mdps scope.now result.items }
{
    let mdps = context.reached().mdps();
    let mut sides = ArrayVec::new();
    for place in 0..context.len() {
        sides.push(scope.standing(mdps, place as u16 + 1));
    }
    sides
}

/// A number of a list, 0 past its end.
fn at(list: &[u16], place: usize) -> u16
    ensures { result ≡ slice_index list.now place }
{
    if place < list.len() { list[place] } else { 0 }
}

/// The lesser of two.
fn lesser(one: Wide, other: Wide) -> Wide
    ensures { result ≡ min one other }
{
    if one.is_less(other) { one } else { other }
}

/// A sum, or the first of the two if it does not fit.
fn sum_or_first(one: Wide, other: Wide) -> Wide
    ensures { result ≡ (if nat_lt (one + other) (2 ^ 1024) then one + other else one) }
{
    match one.plus(other) {
        Some(sum) => sum,
        None => one,
    }
}

impl<'a, 'b> Scoped<'a, 'b> {
    /// What they weigh in the arrangements that are sought, with what an order adds to pairs of residents.
    pub(crate) fn new(
        weighing: &'b Weighing<'a>,
        sought: Sought<'b>,
        reach: Reach,
        order: &'b Order,
    ) -> Scoped<'a, 'b>
        requires { scoped.MeasuresNext reach weighing.now.scale }
        ensures { result ≡ record {
          weighing = weighing.now;
          scope = sought.entry.scope.now;
          wish = sought.entry.wish;
          reach = reach;
          order = order.now;
        } }
    {
        let Sought { scope, wish } = sought;
        let sides = sides(weighing.context(), scope);
        Scoped {
            weighing,
            scope,
            wish,
            reach,
            order,
            sides,
        }
    }

    /// The weights.
    pub(crate) fn weighing(&self) -> &'b Weighing<'a>
        ensures { result.now ≡ self.now.weighing }
    {
        self.weighing
    }

    /// The first number of the class of one; of those who are not of the bracket, the first.
    fn first_of_class(&self, number: u16) -> u16
        requires { scoped.IsReached self.now number }
        ensures reached { scoped.IsReached self.now result }
        ensures inside { scoped.is_inside self.now number ≡ scoped.is_inside self.now result }
        ensures class { scoped.is_inside self.now number ≡ true
            → class_of self.now.weighing number ≡ class_of self.now.weighing result }
    {
        if self.is_inside(number) {
            self.weighing.first_alike(number)
        } else {
            self.weighing.context().len() as u16 + 1
        }
    }

    /// One who weighs as a number does: the first of its class, unless the two weigh another thing as ones who meet the
    /// next lower scoregroup, where that is measured.
    pub(crate) fn alike(&self, number: u16) -> u16
        requires { scoped.IsReached self.now number }
        ensures { scoped.WeighAlike self.now number result }
    {
        let first = self.first_of_class(number);
        match self.reach {
            Reach::Bracket | Reach::Lower => first,
            Reach::Next => {
                if self.weighing.met(first) == self.weighing.met(number) {
                    first
                } else {
                    number
                }
            }
        }
    }

    /// Yes if players of one class weigh the same with each: not where an order adds something, nor where a pair may weigh
    /// the lesser of two things, since that depends on whether just these two may meet.
    pub(crate) fn weighs_by_class(&self) -> bool
        ensures nothing { result ≡ true → AddsNothing self.now.order }
        ensures reach { result ≡ true → self.now.reach ≢ Lower }
    {
        self.adds_nothing() && self.reach != Reach::Lower
    }

    /// Classes of players who weigh the same, by number; none if they do not weigh by class.
    fn classes(&self) -> Result<Vec<u16>, AllocError>
        ensures { IfOk result (λ classes. WeighByClass (scoped.IsReached self.now) (scoped.costs_in self.now) classes.items) }
    {
        let alloc = self.weighing.context().alloc();
        if !self.weighs_by_class() {
            return Ok(Vec::new(alloc));
        }
        let count = self.size();
        let mut classes = Vec::with_capacity(alloc, count + 1)?;
        classes.push(0)?;
        for above in 0..count {
            classes.push(self.alike(above as u16 + 1))?;
        }
        Ok(classes)
    }

    /// Over whom its matchings go.
    pub(crate) fn reach(&self) -> Reach
        ensures value { result ≡ self.now.reach }
        ensures next { scoped.MeasuresNext result self.now.weighing.scale }
    {
        self.reach
    }

    /// A label where each pair costs as much more as the order adds, where the matchings go over the bracket alone.
    pub(crate) fn without_share(&self, label: Wide, number: u16) -> Option<Wide> {
        match self.reach {
            Reach::Bracket => self.order.without_share(label, number),
            Reach::Lower | Reach::Next => Some(label),
        }
    }

    /// A yes says that the order adds nothing to any pair. A no says nothing.
    pub(crate) fn adds_nothing(&self) -> bool
        ensures { result ≡ true → AddsNothing self.now.order }
    {
        self.order.is_none()
    }

    /// How many players its matchings go over.
    pub(crate) fn size(&self) -> usize
        ensures value { result ≡ scoped.size_by self.now.reach self.now.weighing }
        ensures few { result ≤ LIMIT }
    {
        let context = self.weighing.context();
        match self.reach {
            Reach::Bracket => context.len(),
            Reach::Lower => context.len() + context.lower().len(),
            Reach::Next => context.len_below(),
        }
    }

    /// The numbers of the players that its matchings go over.
    #[tactic(auto, using(crate::proofs::WeightsBehind::numbers_known))]
    fn players(&self) -> Numbers
        ensures items { result.items ≡ scoped.all_numbers self.now }
        ensures known { All (scoped.IsReached self.now) result.items }
    {
        numbered_from(1, self.size())
    }

    /// The floor that a certificate gives for matchings: over the bracket alone, for those that leave so many over;
    /// with all lower players, for those that leave over one at most; with the next lower scoregroup, for all. Of those
    /// who weigh the same one is asked about. None says that the certificate gives no floor.
    pub(crate) fn floor(
        &self,
        table: &CertificateTable,
        left: usize,
    ) -> Result<Option<Remade>, AllocError>
        requires { left ≤ length self.now.weighing.reached.seats }
        ensures floor { IfOk result (λ found. IfSome found (λ remade.
            scoped.IsFloorBy self.now.reach self.now left remade.floor)) }
        ensures checked { IfOk result (λ found. IfSome found (λ remade.
            IsChecked (scoped.costs_in self.now) (scoped.all_numbers self.now) (certificate_in table.now) remade.floor)) }
    {
        let alloc = self.weighing.context().alloc();
        let players = self.players();
        let classes = self.classes()?;
        let pool = Pool {
            rule: self,
            players: &players,
        };
        match self.reach {
            Reach::Bracket => table.floor_by_class(alloc, &pool, left, &classes),
            Reach::Lower => table.floor_by_class(alloc, &pool, players.len() % 2, &classes),
            Reach::Next => table.floor_for_any_by_class(alloc, &pool, &classes),
        }
    }

    /// A mark for each number of whom a pair may be new, or may weigh another thing than it did.
    fn turned(&self, before: &Scoped<'_, '_>) -> Result<Vec<bool>, AllocError>
        requires { scoped.DifferByScope before.now self.now }
        ensures { IfOk result (λ turned. AreAsBefore turned.items (scoped.costs_in before.now) (scoped.costs_in self.now)) }
    {
        let count = self.size() + 1;
        let mut turned = Vec::with_capacity(self.weighing.context().alloc(), count)?;
        for place in 0..count {
            let number = place as u16;
            let keeps_pairs = self
                .reach
                .keeps_pairs(before.standing(number), self.standing(number));
            turned.push(!keeps_pairs)?;
        }
        Ok(turned)
    }

    /// The floor that a certificate gives, as by `floor`, where one was checked before for another scope: only pairs of
    /// players who stand otherwise, or of whom the certificates differ, are asked about.
    pub(crate) fn floor_again(
        &self,
        table: &CertificateTable,
        left: usize,
        was: &Scoped<'_, '_>,
        kept: &ScopedFloor,
    ) -> Result<Option<Remade>, AllocError>
        requires some { left ≤ length self.now.weighing.reached.seats }
        requires scopes { scoped.DifferByScope was.now self.now }
        requires before { IsChecked (scoped.costs_in was.now) (scoped.all_numbers was.now) (certificate_in kept.now.table) kept.now.floor }
        ensures floor { IfOk result (λ found. IfSome found (λ remade.
            scoped.IsFloorBy self.now.reach self.now left remade.floor)) }
        ensures checked { IfOk result (λ found. IfSome found (λ remade.
            IsChecked (scoped.costs_in self.now) (scoped.all_numbers self.now) (certificate_in table.now) remade.floor)) }
    {
        let alloc = self.weighing.context().alloc();
        let players = self.players();
        let turned = self.turned(was)?;
        let pool = Pool {
            rule: self,
            players: &players,
        };
        let before = Before {
            rule: was,
            table: &kept.table,
            floor: &kept.floor,
            turned: &turned,
        };
        match self.reach {
            Reach::Bracket => table.floor_again(alloc, &pool, left, &before),
            Reach::Lower => table.floor_again(alloc, &pool, players.len() % 2, &before),
            Reach::Next => table.floor_for_any_again(alloc, &pool, &before),
        }
    }

    /// Where a number of the bracket stands.
    pub(crate) fn standing(&self, number: u16) -> Standing
        ensures { result ≡ scoped.side_in self.now number }
    {
        let place = usize::from(number);
        if 0 < place && place <= self.sides.len() {
            self.sides[place - 1]
        } else {
            let mdps = self.weighing.context().reached().mdps();
            self.scope.standing(mdps, number)
        }
    }

    fn are_joined(&self, a: u16, b: u16) -> bool
        ensures { result ≡ scoped.joins_in self.now a b }
    {
        self.standing(a).is_joined(self.standing(b)) && fits_as_pair(self.wish, a, b)
    }

    fn may_stay(&self, number: u16) -> bool
        ensures { result ≡ scoped.stays_in self.now number }
    {
        self.standing(number).may_stay() && fits_as_left(self.wish, number)
    }

    fn is_resident(&self, number: u16) -> bool
        ensures { result ≡ nat_lt self.now.weighing.reached.mdps number }
    {
        self.weighing.context().reached().mdps() < usize::from(number)
    }

    /// Yes if a number is one of the bracket. (0, which is nobody's number, counts as one too.)
    fn is_inside(&self, number: u16) -> bool
        ensures { result ≡ scoped.is_inside self.now number }
    {
        usize::from(number) <= self.weighing.context().len()
    }

    /// A yes means that the number is in a pair in each arrangement of the scope.
    pub(crate) fn must_meet(&self, number: u16) -> bool {
        !self.goes_down(number)
    }

    #[tactic(auto, unfolding(dutch_bracket::specs::Reached::numbers_meet))]
    pub(crate) fn may_pair(&self, a: u16, b: u16) -> bool
        ensures value { result ≡ (scoped.bracket_costs self.now).meets a b }
        ensures first { result ≡ true → IsNumber self.now.weighing.reached a }
        ensures second { result ≡ true → IsNumber self.now.weighing.reached b }
    {
        self.are_joined(a, b) && self.weighing.may_meet(a, b)
    }

    /// Yes if a number may be one who goes down. (Lower players count as going down too.)
    fn goes_down(&self, number: u16) -> bool
        ensures { result ≡ scoped.goes_down self.now number }
    {
        !self.is_inside(number) || self.may_stay(number)
    }

    fn both_go(&self, a: u16, b: u16) -> bool
        ensures { result ≡ scoped.both_go self.now a b }
    {
        self.goes_down(a) && self.goes_down(b)
    }

    /// The seat of a number; behind those of the bracket come the lower players by rank.
    fn seat(&self, number: u16) -> u16
        ensures { result ≡ scoped.any_seat self.now number }
    {
        let context = self.weighing.context();
        let place = usize::from(number).saturating_sub(1);
        if place < context.len() {
            at(context.reached().seats(), place)
        } else {
            at(context.lower(), place - context.len())
        }
    }

    /// Who may meet, and who may have the bye, by seat.
    fn by_seat(&self) -> BySeat<'a>
        ensures { result ≡ self.now.weighing.facts }
    {
        seats(self.weighing.context().field())
    }

    fn may_pair_out(&self, a: u16, b: u16) -> bool
        ensures { result ≡ scoped.may_pair_out self.now a b }
    {
        self.both_go(a, b) && self.by_seat().may_meet(self.seat(a), self.seat(b))
    }

    fn may_have_bye(&self, number: u16) -> bool
        ensures { result ≡ (scoped.lower_costs self.now).may_be_left number }
    {
        self.goes_down(number) && self.by_seat().may_be_left(self.seat(number))
    }

    /// What one who goes down weighs; a lower player weighs nothing.
    fn going_weight(&self, number: u16) -> Wide
        requires { 0 < number }
        ensures { result ≡ scoped.going_weight self.now number }
    {
        if self.is_inside(number) {
            self.weighing.left_cost(number)
        } else {
            Wide::zero()
        }
    }

    /// What two of the bracket weigh as a pair, with what the order adds if both are residents.
    fn ordered_weight(&self, a: u16, b: u16) -> Wide
        requires first { IsNumber self.now.weighing.reached a }
        requires second { IsNumber self.now.weighing.reached b }
        ensures { result ≡ (scoped.bracket_costs self.now).weight a b }
    {
        let weight = self.weighing.weight(a, b);
        if self.is_resident(a) && self.is_resident(b) {
            self.order.with_lesser(weight, a, b)
        } else {
            weight
        }
    }

    fn are_inside(&self, a: u16, b: u16) -> bool
        ensures { result ≡ scoped.are_inside self.now a b }
    {
        self.is_inside(a) && self.is_inside(b)
    }

    /// Yes if a number is one of the bracket, or one of the next lower scoregroup, which stand behind those.
    fn is_number_below(&self, a: u16) -> bool
        ensures { result ≡ scoped.is_number_below self.now.weighing a }
    {
        0 < a && usize::from(a) <= self.weighing.context().len_below()
    }

    /// Yes if two may meet in the next bracket (C.7): both may be there, and C.1 and C.3 allow it.
    fn may_meet_below(&self, a: u16, b: u16) -> bool
        ensures { result ≡ scoped.may_meet_below self.now a b }
    {
        if !self.both_go(a, b) || !self.is_number_below(a) || !self.is_number_below(b) {
            return false;
        }
        let context = self.weighing.context();
        let field = context.field();
        a != b && field.may_meet(context.seat_below(a), context.seat_below(b))
    }

    /// What two weigh as a pair of the next bracket (C.7).
    fn weight_below(&self, a: u16, b: u16) -> Wide
        requires next { self.now.reach ≡ Next }
        requires first { scoped.IsReached self.now a }
        requires second { scoped.IsReached self.now b }
        ensures { result ≡ scoped.pair_weight_below self.now a b }
    {
        if self.is_inside(a) {
            self.weighing.met(a)
        } else {
            self.weighing.met(b)
        }
    }

    /// What two weigh at least, as a pair of the bracket or as two who go down.
    fn least_weight(&self, a: u16, b: u16) -> Wide
        requires first { 0 < a }
        requires second { 0 < b }
        ensures { result ≡ (scoped.lower_costs self.now).weight a b }
    {
        let going = sum_or_first(self.going_weight(a), self.going_weight(b));
        if !self.may_pair(a, b) {
            return going;
        }
        let pair = self.ordered_weight(a, b);
        if self.both_go(a, b) {
            lesser(pair, going)
        } else {
            pair
        }
    }
}

impl MatchingRule for Scoped<'_, '_> {
    ghost use Rattle.dutch_weight_floors.specs.ScopedCosts.{IsReached, costs_in};

    ghost costs = { costs_in };

    ghost knows = { IsReached };

    fn may_meet(&self, a: u16, b: u16) -> bool {
        match self.reach {
            Reach::Bracket => self.may_pair(a, b),
            Reach::Lower => self.may_pair(a, b) || self.may_pair_out(a, b),
            Reach::Next => {
                if self.are_inside(a, b) {
                    self.may_pair(a, b)
                } else {
                    self.may_meet_below(a, b)
                }
            }
        }
    }

    fn weight(&self, a: u16, b: u16) -> Wide {
        match self.reach {
            Reach::Bracket => self.ordered_weight(a, b),
            Reach::Lower => self.least_weight(a, b),
            Reach::Next => {
                if self.are_inside(a, b) {
                    self.ordered_weight(a, b)
                } else {
                    self.weight_below(a, b)
                }
            }
        }
    }

    fn may_be_left(&self, a: u16) -> bool {
        match self.reach {
            Reach::Bracket => self.may_stay(a) && self.weighing.may_be_left(a),
            Reach::Lower => self.may_have_bye(a),
            Reach::Next => self.goes_down(a),
        }
    }

    fn left_cost(&self, a: u16) -> Wide {
        match self.reach {
            Reach::Bracket => self.weighing.left_cost(a),
            Reach::Lower => self.going_weight(a),
            Reach::Next => self.weighing.alone(a),
        }
    }
}

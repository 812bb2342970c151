// The players of a bracket, in the penultimate one with all lower players, as a graph with costs, for whoever looks for
// a matching of least cost, and for the check of its certificate (C.04.3 B.1, B.2, C.1 to C.5).
//
// Two who may be a pair of a candidate cost nothing. Whoever is in no such pair costs so much, and a moved-down player
// a little more: so what costs least has the most pairs, and then the most moved-down players in them. In the
// penultimate bracket those that a candidate leaves over are paired out with all lower players (C.4), and one has the
// bye if the number is odd.
ghost use Rattle.std.specs.Prelude.{◌≡◌, ◌≤◌, ◌*◌, ◌%◌};
ghost use Rattle.dutch_sequence.specs.declared.numbers.TheConstants.{LIMIT};
ghost use Rattle.dutch_bracket.specs.Prelude.{IsOf, is_penultimate};
ghost use Rattle.dutch_choice.specs.ShapeCosts.{alone_cost, any_seat, are_paired_out, are_pair, bye_cost, count_all};
ghost use Rattle.dutch_choice.specs.ShapeCosts.{cost_of, may_stay, spare_cost};

use cheapest::Costs;
use dual::Wide;
use dutch_arrangements::{Rule, Shape};
use dutch_bracket::ByNumber;
use dutch_bracket::context::Context;
use dutch_completion::seats::seats;
use std::alloc::Global;
use std::marker::Model;

/// What it costs to be in no pair of the bracket, and what more it costs a moved-down player. (Even numbers, since
/// whoever looks for the matching counts all costs twice.)
const ALONE: u64 = 4096;

const MOVED_DOWN_ALONE: u64 = 2;

/// What it costs to have the bye in the penultimate bracket: more than all others together, so that one has it at most.
const BYE: u64 = 16777216;

/// The players that a matching goes over, by number: those of a bracket, and in the penultimate one behind them all
/// lower ones by rank.
#[derive(Drop)]
pub(crate) struct Players<'a> {
    // for what is found on the heap
    pub alloc: Global,
    pub rule: ByNumber<'a>,
    pub lower: &'a [u16],
}

/// What players have in common that cost the same with all others: what it costs to be in no pair, and whether they may
/// be left over.
#[derive(Clone, Copy, PartialEq, Eq)]
pub(crate) struct PlayerClass {
    alone_cost: u64,
    may_stay: bool,
}

impl<'a> Model for Players<'a> {
    ghost use Rattle.std.specs.Prelude.{◌+◌, ◌≤◌, length};
    ghost use Rattle.dutch_sequence.specs.declared.numbers.TheConstants.{LIMIT};
    ghost use Rattle.dutch_bracket.specs.Context.{Context};

    ghost Value = { Context };

    ghost view = { λ p. record { facts = p.rule.field.now; reached = p.rule.reached.now; lower = p.lower.now } };

    ghost invariant = { λ p. length p.rule.reached.now.seats + length p.lower.now ≤ LIMIT };
}

impl<'a> Players<'a> {
    /// The players of a bracket above all lower seats.
    pub(crate) fn of(context: &Context<'a>) -> Players<'a>
        ensures { result ≡ context.now }
    {
        Players {
            alloc: context.alloc(),
            rule: context.rule(),
            lower: context.lower(),
        }
    }

    fn is_penultimate(&self) -> bool
        ensures { result ≡ is_penultimate self.now.reached.kind }
    {
        self.rule.reached.kind().is_penultimate()
    }

    /// How many there are.
    pub(crate) fn count(&self) -> usize
        ensures value { result ≡ count_all self.now }
        ensures few { result ≤ LIMIT }
        ensures sound { IsOf self.now.facts self.now.reached }
    {
        if self.is_penultimate() {
            self.rule.len() + self.lower.len()
        } else {
            self.rule.len()
        }
    }

    /// The seat of a number.
    fn seat(&self, number: u16) -> u16
        ensures { result ≡ any_seat self.now number }
    {
        let place = usize::from(number).saturating_sub(1);
        if place < self.rule.len() {
            return self.rule.reached.seats()[place];
        }
        match self.lower.get(place - self.rule.len()) {
            Some(seat) => *seat,
            None => 0,
        }
    }

    /// They may meet (C.1, C.3), and one of them at most was moved down (B.2).
    pub(crate) fn are_pair(&self, a: u16, b: u16) -> bool
        ensures { result ≡ are_pair self.now a b }
    {
        let mdps = self.rule.reached.mdps();
        self.rule.may_meet(a, b) && !(usize::from(a) <= mdps && usize::from(b) <= mdps)
    }

    /// In a penultimate bracket those left over are paired out with all lower players (C.4).
    fn are_paired_out(&self, a: u16, b: u16) -> bool
        ensures { result ≡ are_paired_out self.now a b }
    {
        self.is_penultimate()
            && (1 <= a && 1 <= b)
            && seats(self.rule.field).may_meet(self.seat(a), self.seat(b))
    }

    /// Elsewhere than in an ordinary bracket, whoever is left over at the end has the bye (C.2).
    fn may_stay(&self, a: u16) -> bool
        ensures { result ≡ may_stay self.now a }
    {
        if self.is_penultimate() {
            seats(self.rule.field).last_ok(self.seat(a))
        } else {
            !self.rule.reached.kind().ends_round() || self.rule.last_ok(a)
        }
    }

    /// What it costs that one is in no pair of the bracket: nothing for a lower player.
    fn alone_cost(&self, a: u16) -> u64
        ensures value { result ≡ alone_cost self.now a }
        ensures few { result ≤ 4098 }
    {
        if usize::from(a) <= self.rule.reached.mdps() {
            ALONE + MOVED_DOWN_ALONE
        } else if usize::from(a) <= self.rule.len() {
            ALONE
        } else {
            0
        }
    }

    /// What it costs to have the bye.
    fn bye_cost(&self) -> u64
        ensures value { result ≡ bye_cost self.now }
        ensures few { result ≤ 16777216 }
    {
        if self.is_penultimate() { BYE } else { 0 }
    }

    /// What it costs that an odd number leaves one over in the penultimate bracket.
    fn spare_cost(&self) -> u64
        ensures value { result ≡ spare_cost self.now }
        ensures few { result ≤ 16777216 }
    {
        if self.is_penultimate() && self.count() % 2 == 1 {
            BYE
        } else {
            0
        }
    }

    /// What a shape costs: those who are in none of its pairs.
    pub(crate) fn cost_of(&self, shape: Shape) -> Wide
        ensures { result ≡ cost_of self.now shape }
    {
        let count = self.rule.len();
        let alone = count
            .saturating_sub(shape.pairs)
            .saturating_sub(shape.pairs) as u64;
        let moved_down = self.rule.reached.mdps().saturating_sub(shape.mdps) as u64;
        Wide::from_u64(ALONE * alone + MOVED_DOWN_ALONE * moved_down + self.spare_cost())
    }
}

impl dual::MatchingRule for Players<'_> {
    ghost use Rattle.dutch_choice.specs.ShapeCosts.{shape_costs};

    ghost costs = { shape_costs };

    ghost knows = { λ _ _. Unit {0} };

    fn may_meet(&self, a: u16, b: u16) -> bool {
        self.are_pair(a, b) || self.are_paired_out(a, b)
    }

    fn weight(&self, a: u16, b: u16) -> Wide {
        if self.are_pair(a, b) {
            Wide::zero()
        } else {
            Wide::from_u64(self.alone_cost(a) + self.alone_cost(b))
        }
    }

    fn may_be_left(&self, a: u16) -> bool {
        self.may_stay(a)
    }

    fn left_cost(&self, a: u16) -> Wide {
        Wide::from_u64(self.alone_cost(a) + self.bye_cost())
    }
}

// (the vertices are the numbers, and the vertex 0, which is joined to nobody)
impl Costs for Players<'_> {
    type Class = PlayerClass;

    ghost use Rattle.dutch_choice.specs.ShapeCosts.{joined, vertices};

    ghost vertices = { vertices };

    ghost joined = { joined };

    fn size(&self) -> u16 {
        self.count() as u16 + 1
    }

    fn cost(&self, a: u16, b: u16) -> Option<Wide> {
        if !dual::MatchingRule::may_meet(self, a, b) {
            return None;
        }
        Some(dual::MatchingRule::weight(self, a, b).halved())
    }

    fn left_cost(&self, a: u16) -> Option<Wide> {
        if a == 0 {
            return Some(Wide::zero());
        }
        if !self.may_stay(a) {
            return None;
        }
        Some(dual::MatchingRule::left_cost(self, a).halved())
    }

    fn class(&self, a: u16) -> PlayerClass {
        PlayerClass {
            alone_cost: self.alone_cost(a),
            may_stay: self.may_stay(a),
        }
    }

    // (of the bracket's players only two who were moved down may meet and yet be no pair of it; and lower players are in
    // none. The vertex 0 is joined to nobody)
    fn costs_by_class(&self) -> bool {
        true
    }

    // (a shape tells nobody's partner, so nobody begins anywhere)
    fn looks_from(&self, _a: u16) -> u16 {
        self.size()
    }
}

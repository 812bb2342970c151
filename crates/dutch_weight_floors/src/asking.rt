// Floors of a bracket by weight, asked for where a walk leaves the matching that was found last (C.04.3 B.8).
//
// The matching of the first floor is the witness: no candidate is better, as far as weights tell. A walk that goes along
// with it needs no question. At each other beginning a floor is asked for: either it rules the beginning out, or its
// matching is the next witness.
//
// Whoever finds a matching is not trusted: of its certificate a floor is kept only if the check confirms it. A floor
// holds for all candidates of the bracket that grant what is wished; where it was asked for only makes it high there.
ghost use Rattle.std.specs.Prelude.{◌≡◌, ◌<◌, ◌≤◌};
ghost use Rattle.std.specs.Result.{MatchResult};
ghost use Rattle.dutch_sequence.specs.declared.numbers.TheConstants.{LIMIT};
ghost use Rattle.dutch_arrangements.specs.Prelude.{Spends};

use crate::certificate_table::table_of;
use crate::order::{Halves, Order};
use crate::scope::Scope;
use crate::scoped::{Reach, Scoped, Sought};
use crate::traces::Traces;
use crate::unpaired_graph::{LeftOverCost, UnpairedGraph, is_in};
use crate::weight_floor::{Bar, WeightFloors};
use crate::witness::Witness;
use cheapest::{Fault, Found, LOOKS_IN_A_STEP, Start, cheapest, cheapest_from};
use dual::{CertificateTable, MatchingRule, Wide};
use dutch_arrangements::{Budget, Stopped};
use dutch_bracket::seated::Pair;
use dutch_bracket::spending::spend;
use dutch_bracket::tuning::NEVER_LEFT;
use dutch_weighing::Weighing;
use std::alloc::{AllocError, Global};

/// The pairs of a matching by number: those of the bracket, and those of the next bracket, where C.7 is measured.
#[derive(Drop)]
pub struct Matched {
    pub pairs: Vec<Pair>,
    pub next: Vec<Pair>,
}

/// A table to be checked, the matching that it comes with, and what that leaves for the next one.
#[derive(Drop)]
struct Proposal {
    table: CertificateTable,
    matched: Matched,
    traces: Traces,
}

/// Where a floor is asked for: in the arrangements of a scope, behind some pairs by number.
#[derive(Clone, Copy)]
pub struct FloorRequest<'s> {
    pub scope: &'s Scope,
    pub pairs: &'s [Pair],
}

/// The bars of the target of a pass and of its incumbent.
#[derive(Clone, Copy)]
pub struct Bars {
    pub target: Option<Bar>,
    pub incumbent: Option<Bar>,
}

impl Bars {
    /// What is enough: a weight that is more than this is beyond one of the bars.
    fn enough(&self) -> Option<Wide> {
        match (self.target, self.incumbent) {
            (Some(target), Some(incumbent)) => Some(target.lesser_weight(incumbent)),
            (Some(bar), None) | (None, Some(bar)) => Some(bar.weight()),
            (None, None) => None,
        }
    }

    /// Yes if a weight is beyond one of the bars: that is enough.
    fn are_passed(&self, weight: Wide) -> bool {
        self.target.is_some_and(|bar| bar.is_passed(weight))
            || self.incumbent.is_some_and(|bar| bar.is_passed(weight))
    }
}

/// The pairs of a matching by number, each once: those of the bracket if `inside`, else the others.
fn made_pairs(
    graph: &UnpairedGraph<'_, '_>,
    partners: &[Option<u16>],
    inside: bool,
    alloc: Global,
) -> Result<Vec<Pair>, AllocError> {
    let mut pairs = Vec::new(alloc);
    let numbers = graph.numbers();
    for (number, partner) in numbers.iter().zip(partners.iter()) {
        if let Some(partner) = partner
            && let Some(other) = numbers.get(usize::from(*partner))
            && number < other
            && graph.may_pair(*number, *other) == inside
        {
            pairs.push((*number, *other))?;
        }
    }
    Ok(pairs)
}

/// The table that the certificate of a matching gives, and the pairs of the matching; none if a sum does not fit.
fn proposed_by(
    alloc: Global,
    graph: &UnpairedGraph<'_, '_>,
    last: usize,
    found: &Found,
) -> Result<Option<Proposal>, AllocError>
    requires { last < 65536 }
{
    let Some(table) = table_of(alloc, graph, last, &found.certificate)? else {
        return Ok(None);
    };
    let pairs = made_pairs(graph, &found.partners, true, alloc)?;
    let next = made_pairs(graph, &found.partners, false, alloc)?;
    let matched = Matched { pairs, next };
    let traces = Traces::left_by(alloc, graph, last, found)?;
    Ok(Some(Proposal {
        table,
        matched,
        traces,
    }))
}

/// Looks for a cheapest matching of a graph. It answers the table that its certificate gives for all numbers up to a
/// last one, and its pairs; none if nothing was found, or memory was refused.
fn proposed_in(
    alloc: Global,
    graph: &UnpairedGraph<'_, '_>,
    last: usize,
    start: &Option<Start>,
    left: &mut u64,
) -> Result<Option<Proposal>, Stopped>
    requires { last < 65536 }
    ensures falls { left.new ≤ left.old }
    ensures stopped { MatchResult result (λ _. Unit {0}) (λ _. left.new ≡ 0) }
{
    let found = match start {
        Some(start) => cheapest_from(alloc, graph, start, left),
        None => cheapest(alloc, graph, left),
    };
    match found {
        Ok(found) => Ok(proposed_by(alloc, graph, last, &found).unwrap_or(None)),
        Err(Fault::Stopped) => Err(Stopped),
        Err(_) => Ok(None),
    }
}

/// The resident at a place, counted from 1, among those who are in none of some pairs; none if there is no such place,
/// or if it is that of the bracket's last number.
fn nth_resident(mdps: usize, count: usize, pairs: &[Pair], place: usize) -> Option<usize>
    requires { count ≤ LIMIT }
{
    let mut before = place.checked_sub(1)?;
    for above in mdps..count.saturating_sub(1) {
        if !is_in(pairs, above as u16 + 1) {
            if before == 0 {
                return Some(above + 1);
            }
            before -= 1;
        }
    }
    None
}

/// What some pairs weigh together; none if it does not fit, or if two of them may not be a pair.
#[tactic(auto, unfolding(dutch_bracket::specs::Reached::numbers_meet))]
fn weight_of(weighing: &Weighing<'_>, pairs: &[Pair]) -> Option<Wide> {
    let mut sum = Wide::zero();
    for pair in pairs {
        if !weighing.may_meet(pair.0, pair.1) {
            return None;
        }
        sum = sum.plus(weighing.weight(pair.0, pair.1))?;
    }
    Some(sum)
}

impl<'a> WeightFloors<'a> {
    /// More than any weight; none if it does not fit.
    fn above_weights(&self) -> Option<Wide> {
        Wide::power_of_two(u32::try_from(self.weighing.scale().width()).ok()?)
    }

    /// What it costs to be left over, on top of half of a weight: more than any weight, so that as many pairs are made
    /// as can be; nothing where C.7 is measured, since there the weights tell of it.
    fn left_over_cost(&self, order: &Order) -> Option<LeftOverCost> {
        let most = self.above_weights()?;
        let never = most.times(NEVER_LEFT)?;
        let cost = match self.reach() {
            Reach::Bracket => most.plus(order.left_over_share()?)?,
            Reach::Lower => most,
            Reach::Next => Wide::zero(),
        };
        Some(LeftOverCost { cost, never })
    }

    /// What is enough for a matching of the players who are in none of some pairs, where a weight is enough for the
    /// bracket: that weight without the pairs, and with what it costs on top to leave over those who are left over.
    fn enough_beside(&self, pairs: &[Pair], order: &Order, weight: Wide) -> Option<Wide> {
        let alone = match self.reach() {
            Reach::Bracket => self.left_over_count(),
            Reach::Lower => self.size() % 2,
            Reach::Next => 0,
        };
        let one = self.left_over_cost(order)?.cost.doubled()?;
        let on_top = one.times(u32::try_from(alone).ok()?)?;
        let known = weight_of(&self.weighing, pairs)?;
        weight.plus(on_top)?.minus(known)
    }

    /// Looks for a cheapest matching of the players who are in none of the pairs, for the arrangements of the scope. It
    /// answers the table to be checked, and the matching; none if nothing was found, or memory was refused.
    fn propose(
        &self,
        request: &FloorRequest<'_>,
        order: &Order,
        enough: Option<Wide>,
        left: &mut u64,
    ) -> Result<Option<Proposal>, Stopped>
        ensures falls { left.new ≤ left.old }
        ensures stopped { MatchResult result (λ _. Unit {0}) (λ _. left.new ≡ 0) }
    {
        let Some(left_over) = self.left_over_cost(order) else {
            return Ok(None);
        };
        let sought = Sought {
            scope: request.scope,
            wish: self.wish,
        };
        let scoped = Scoped::new(&self.weighing, sought, self.reach(), order);
        let Ok(graph) = UnpairedGraph::beside(&scoped, request.pairs, left_over) else {
            return Ok(None);
        };
        let alloc = self.weighing.context().alloc();
        let Ok(start) = self.traces.start(alloc, &graph, enough) else {
            return Ok(None);
        };
        proposed_in(alloc, &graph, self.size(), &start, left)
    }

    /// Looks for a cheapest matching of the players who are in none of the pairs, or for labels that show what is enough
    /// for it, and keeps the floor that its certificate gives. It answers the matching; none if nothing was confirmed, or
    /// memory was refused.
    fn ask_with(
        &mut self,
        request: &FloorRequest<'_>,
        order: Order,
        enough: Option<Wide>,
        budget: &mut Budget,
    ) -> Result<Option<Matched>, Stopped>
        ensures same { self.new ≡ self.old }
        ensures stopped { MatchResult result (λ _. Unit {0}) (λ _. budget.new.used ≡ budget.new.limit) }
        ensures spends { Spends budget.old budget.new }
    {
        let mut left = budget.limit - budget.used;
        let proposal = self.propose(request, &order, enough, &mut left);
        budget.used = budget.limit - left;
        let Some(proposal) = proposal? else {
            return Ok(None);
        };
        let Proposal {
            table,
            matched,
            traces,
        } = proposal;
        if order.is_none() {
            self.traces = traces;
        }
        self.make_room(!order.is_none());
        match self.put(table, request.scope, order) {
            Ok(Some(looks)) => {
                spend(looks / LOOKS_IN_A_STEP, budget)?;
                Ok(Some(matched))
            }
            _ => {
                let count = self.size();
                spend((count * count) as u64 / LOOKS_IN_A_STEP, budget)?;
                Ok(None)
            }
        }
    }

    /// Asks for a floor to which nothing is added for the order of S1R, until a weight is known to be exceeded, if there
    /// is one that is enough. It answers the matching; none if nothing was confirmed, or memory was refused.
    fn ask(
        &mut self,
        request: &FloorRequest<'_>,
        enough: Option<Wide>,
        budget: &mut Budget,
    ) -> Result<Option<Matched>, Stopped>
        ensures same { self.new ≡ self.old }
        ensures stopped { MatchResult result (λ _. Unit {0}) (λ _. budget.new.used ≡ budget.new.limit) }
        ensures spends { Spends budget.old budget.new }
    {
        let order = Order::none(self.weighing.context().alloc());
        let enough = match enough {
            Some(weight) => self.enough_beside(request.pairs, &order, weight),
            None => None,
        };
        self.ask_with(request, order, enough, budget)
    }

    /// Yes if all candidates with the pairs are beyond one of the bars, by the last floor alone. A no says nothing.
    fn rules_out(&self, pairs: &[Pair], bars: &Bars) -> bool {
        let Some(last) = self.floors.last() else {
            return false;
        };
        let floor = &last.floor;
        let mut sum = floor.base();
        for pair in pairs {
            let Some(more) = sum.plus(floor.slack(pair.0, pair.1)) else {
                return false;
            };
            sum = more;
        }
        match sum.minus(floor.debt()) {
            Some(least) => bars.are_passed(least),
            None => false,
        }
    }

    /// The halves of the residents behind the pairs of an S1 and its S2: none if there is no choice of S1R.
    fn halves_behind(&self, front: &[Pair]) -> Option<Halves> {
        let context = self.weighing.context();
        let mdps = context.reached().mdps();
        let count = context.len();
        let places = self.shape.pairs.checked_sub(front.len())?;
        let half = nth_resident(mdps, count, front, places)?;
        Halves::new(count, mdps, half)
    }

    /// What the order of S1R adds behind the pairs of an S1 and its S2 (D.2); none if there is no room for it below the
    /// weights.
    fn order_by(&self, halves: &Halves) -> Option<Order> {
        if self.weighing.scale().spare() < halves.width() {
            return None;
        }
        Order::by_exchanges(self.weighing.context().alloc(), halves).unwrap_or(None)
    }

    /// Yes if the order of S1R was asked for last behind these pairs of S1 and S2. (Earlier ones are not kept.)
    fn knows_order_behind(&self, pairs: &[Pair]) -> bool {
        match &self.ordered {
            Some(ordered) => ordered.as_slice() == pairs,
            None => false,
        }
    }

    /// Notes that the order of S1R was asked for behind these pairs. (Where memory is refused, nothing is noted.)
    fn note_order(&mut self, pairs: &[Pair])
        ensures { self.new ≡ self.old }
    {
        let mut ordered = Vec::new(self.weighing.context().alloc());
        for pair in pairs {
            if ordered.push(*pair).is_err() {
                return;
            }
        }
        self.ordered = Some(ordered);
    }

    /// Keeps the pairs of a matching as the witness: those that were known before, and those that were found. (Where
    /// memory is refused, there is none.)
    fn keep_witness(&mut self, request: &FloorRequest<'_>, found: &[Pair])
        ensures { self.new ≡ self.old }
    {
        let context = self.weighing.context();
        let (alloc, count) = (context.alloc(), context.len());
        self.witness = match Witness::of(alloc, count, request, found) {
            Ok(witness) => witness,
            Err(_) => Witness::none(alloc),
        };
    }

    /// Asks for the first floor, of all arrangements. Its matching is the first witness, and is answered; none if
    /// nothing was confirmed, or memory was refused.
    pub fn ask_first(&mut self, budget: &mut Budget) -> Result<Option<Matched>, Stopped>
        ensures same { self.new ≡ self.old }
        ensures stopped { MatchResult result (λ _. Unit {0}) (λ _. budget.new.used ≡ budget.new.limit) }
        ensures spends { Spends budget.old budget.new }
    {
        let all = FloorRequest {
            scope: &Scope::all(),
            pairs: &[],
        };
        let found = self.ask(&all, None, budget)?;
        if let Some(matched) = &found {
            self.keep_witness(&all, &matched.pairs);
        }
        Ok(found)
    }

    /// If a walk has left the original S1R, asks for a floor that counts the order of S1R: once behind each S2. Its
    /// matching is the next witness: it has the first S1R that can be as good. A no says that nothing was asked.
    fn tell_order(
        &mut self,
        scope: &Scope,
        pairs: &[Pair],
        budget: &mut Budget,
    ) -> Result<bool, Stopped>
        ensures same { self.new ≡ self.old }
        ensures stopped { MatchResult result (λ _. Unit {0}) (λ _. budget.new.used ≡ budget.new.limit) }
        ensures spends { Spends budget.old budget.new }
    {
        let Some(count) = scope.pairs_of_s1(pairs.len()) else {
            return Ok(false);
        };
        let front = &pairs[..count];
        let Some(halves) = self.halves_behind(front) else {
            return Ok(false);
        };
        if !scope.exchanges(&halves) || self.knows_order_behind(front) {
            return Ok(false);
        }
        self.note_order(front);
        let Some(order) = self.order_by(&halves) else {
            return Ok(false);
        };
        let request = FloorRequest {
            scope: &scope.of_s1(),
            pairs: front,
        };
        if let Some(matched) = self.ask_with(&request, order, None, budget)? {
            self.keep_witness(&request, &matched.pairs);
        }
        Ok(true)
    }

    /// Asks for a floor behind the pairs of a beginning, in the arrangements of a scope, if the witness does not have
    /// them. If the floor does not rule the beginning out, its matching is the next witness. (Whom it asks, and when,
    /// may be changed freely: what a floor says is promised by its certificate, and not by the question.)
    pub fn ask_more(
        &mut self,
        request: &FloorRequest<'_>,
        bars: &Bars,
        budget: &mut Budget,
    ) -> Result<(), Stopped>
        ensures same { self.new ≡ self.old }
        ensures stopped { MatchResult result (λ _. Unit {0}) (λ _. budget.new.used ≡ budget.new.limit) }
        ensures spends { Spends budget.old budget.new }
    {
        if self.tell_order(request.scope, request.pairs, budget)? {
            return Ok(());
        }
        let mdps = self.weighing.context().reached().mdps();
        if self.witness.has(mdps, request) {
            return Ok(());
        }
        let found = self.ask(request, bars.enough(), budget)?;
        if let Some(matched) = found
            && !self.rules_out(request.pairs, bars)
        {
            self.keep_witness(request, &matched.pairs);
        }
        Ok(())
    }
}

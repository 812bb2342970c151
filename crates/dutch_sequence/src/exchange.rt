// Exchanges, article D.2: sets of a pool by how far they are from the original one, specified by a sorted list of
// subsets.
//
// The sets are searched in stages, one for each number of exchanged players and each difference of the sums. A stage
// fills the places of the numbers moved out, highest first, and then of those moved in, lowest first. It goes on from a
// place only if the wanted difference lies between the least and the greatest that can still come. So a stage never
// scans all sets. If the least one is more than the wanted one, it is noted. The lowest one noted is the difference of
// the next stage. So no stage without a set is searched, however far apart the numbers of the pool are.
//
// A search that begins at a set begins in that set's stage, at the set's own path, and then tries the very next
// difference, since what lies beyond the paths before the set was not seen.
//
// A search that its caller may leave stands still where a stage begins, and at each beginning of the stage's paths:
// what it tells is who is in each set whose path begins so, and who is in none. What lies beyond paths that were left
// is not known, so then it tries the very next difference too.
ghost use Rattle.dutch_sequence.specs.declared.numbers.TheConstants.{LIMIT};
ghost use Rattle.std.specs.Prelude.{◌≡◌, ◌+◌, ◌*◌, ◌-◌, ◌<◌, ◌≤◌, suc, true, false, Some, [], ◌∷◌, ◌++◌};
ghost use Rattle.std.specs.Prelude.{length, map, take, drop};
ghost use Rattle.std.specs.List.{AllByRecursion};
ghost use Rattle.std.specs.Result.{IsErr};
ghost use Rattle.dutch_sequence.specs.Choices.{subsets, from_on};
ghost use Rattle.dutch_sequence.specs.Sides.{count_of};
ghost use Rattle.dutch_sequence.specs.Stages as stages;
ghost use Rattle.dutch_sequence.specs.Exchanged.{IsExchange};
ghost use Rattle.dutch_sequence.specs.Exchange.{exchanges};
ghost use Rattle.dutch_sequence.specs.Keys.{IsIn};
ghost use Rattle.std.specs.List.Sorted.{IsStrictlyIncreasing};
ghost use Rattle.dutch_sequence.specs.declared.exchange.Side.TheVariants.{In, Out};
ghost use Rattle.dutch_sequence.specs.declared.search.Asks.TheVariants.{AtBeginnings, Never};
ghost use Rattle.dutch_sequence.specs.Steps.{MatchProgress, Passes, Spends, way};
ghost use Rattle.dutch_sequence.specs.Descents.{free_moves};
ghost use Rattle.dutch_sequence.specs.Trials.{ahead};
ghost use Rattle.dutch_sequence.specs.Hints.{hinted, first_hint};

use crate::exchanged::Exchange;
use crate::generator::Generator;
use crate::halves::first_of_half;
use crate::numbers::{LIMIT, Numbers, fill};
use crate::path::Places;
use crate::search::{Asks, Descent, Hinted, advance, first_hint, leave};
use crate::stage::{ExchangeStage, greatest_of, least_of};
use crate::steps::{Budget, Drawn, Progress, Stopped};
use crate::sums::{Sides, total_of, value_at};
use arrayvec::ArrayVec;
use std::marker::Model;

/// The two sides of an exchange: the numbers of the original set, from the highest, and the others, from the lowest.
#[derive(Clone, Copy)]
pub(crate) enum Side {
    Out,
    In,
}

/// The next difference after one, up to a greatest one.
fn following_of(difference: usize, greatest: usize, beyond: Option<usize>) -> Option<usize>
    ensures { result ≡ stages.following difference greatest beyond }
{
    match beyond {
        None => None,
        Some(next) if difference < next => { if next <= greatest { Some(next) } else { None } }
        Some(_) => {
            if difference < greatest {
                Some(difference + 1)
            } else {
                None
            }
        }
    }
}

/// Where a search of exchanges stands, and the path at which its stage began, if it was not new.
#[derive(Drop)]
struct SearchState {
    size: usize,
    difference: usize,
    hint: Places<LIMIT>,
    descent: Descent<LIMIT>,
}

impl SearchState {
    /// Begins a stage anew.
    fn enter(&mut self, size: usize, difference: usize)
        ensures size { self.new.size ≡ size }
        ensures difference { self.new.difference ≡ difference }
        ensures hint { self.new.hint.items ≡ [] }
        ensures path { self.new.descent.path ≡ [] }
        ensures number { self.new.descent.number ≡ 0 }
        ensures beyond { self.new.descent.beyond ≡ None }
        ensures asked { self.new.descent.asked ≡ false }
    {
        self.size = size;
        self.difference = difference;
        self.hint.clear();
        self.descent.restart(0);
    }
}

/// The places of the numbers that a set has moved out, from the highest.
fn out_places(sides: &Sides<'_>, set: &[u16]) -> Places<LIMIT>
    ensures places { result.items ≡ stages.out_places sides.now.pool.now sides.now.k set.now }
    ensures within { AllByRecursion (λ place. place < sides.now.k) result.items }
    ensures fits { length result.items ≤ sides.now.k }
{
    let mut places = ArrayVec::new();
    for place in 0..sides.k {
        if !set.contains(&sides.pool[sides.k - 1 - place]) {
            places.push(place as u16);
        }
    }
    places
}

/// The places of the numbers that a set has moved in, from the lowest.
fn in_places(sides: &Sides<'_>, set: &[u16]) -> Places<LIMIT>
    ensures places { result.items ≡ stages.in_places sides.now.pool.now sides.now.k set.now }
    ensures within { AllByRecursion (λ place. place < length sides.now.pool.now - sides.now.k) result.items }
    ensures fits { length result.items ≤ length sides.now.pool.now - sides.now.k }
{
    let mut places = ArrayVec::new();
    for place in 0..sides.pool.len() - sides.k {
        if set.contains(&sides.pool[sides.k + place]) {
            places.push(place as u16);
        }
    }
    places
}

/// Begins a search anew at a set: in the set's stage, and no difference above the set's is passed over.
fn enter_at(sides: &Sides<'_>, set: &[u16], state: &mut SearchState)
    ensures size { state.new.size ≡ length (stages.out_places sides.now.pool.now sides.now.k set.now) }
    ensures difference { state.new.difference ≡ stages.exchange_difference sides.now.pool.now sides.now.k set.now }
    ensures hint { state.new.hint.items ≡ stages.exchange_path sides.now.pool.now sides.now.k set.now }
    ensures path { state.new.descent.path ≡ [] }
    ensures number { state.new.descent.number
        ≡ first_hint (stages.exchange_path sides.now.pool.now sides.now.k set.now) }
    ensures beyond { state.new.descent.beyond
        ≡ Some (suc (stages.exchange_difference sides.now.pool.now sides.now.k set.now)) }
{
    state.hint = out_places(sides, set);
    let ins = in_places(sides, set);
    state.size = state.hint.len();
    let out = total_of(sides, Side::Out, &state.hint);
    state.difference = total_of(sides, Side::In, &ins).saturating_sub(out);
    // there is room
    let _all = state.hint.try_extend_from_slice(&ins);
    state.descent.restart(first_hint(&state.hint));
    state.descent.beyond = Some(state.difference + 1);
}

/// Goes on to the next stage, if there is one.
#[tactic(auto, unfolding(crate::specs::Stages::stages_ahead))]
fn next_stage(sides: &Sides<'_>, state: &mut SearchState) -> bool
    requires spent { ahead (hinted state.old.hint.items
        (stages.exchange_plan sides.now.pool.now sides.now.k state.old.size state.old.difference))
        state.old.descent.path
        state.old.descent.number
        ≡ [] }
    requires standing { stages.IsSearchState sides.now.pool.now sides.now.k state.old }
    ensures stands { stages.IsSearchState sides.now.pool.now sides.now.k state.new }
    ensures sets { stages.sets_from sides.now.pool.now sides.now.k state.new
        ≡ stages.sets_from sides.now.pool.now sides.now.k state.old }
    ensures trials { stages.trials_from sides.now.pool.now sides.now.k state.new
        ≡ stages.trials_from sides.now.pool.now sides.now.k state.old }
    ensures nearer { result ≡ true
        → stages.stages_ahead sides.now.pool.now sides.now.k state.new.size state.new.difference
        < stages.stages_ahead sides.now.pool.now sides.now.k state.old.size state.old.difference }
    ensures fresh { result ≡ true → free_moves state.new.descent ≤ 1 }
    ensures ended { result ≡ false → (stages.sets_from sides.now.pool.now sides.now.k state.new ≡ [])
        × (stages.trials_from sides.now.pool.now sides.now.k state.new ≡ 0) }
{
    if let Some(next) = following_of(
        state.difference,
        greatest_of(sides, state.size),
        state.descent.beyond,
    ) {
        state.enter(state.size, next);
        return true;
    }
    if state.size < sides.k.min(sides.pool.len() - sides.k) {
        let size = state.size + 1;
        state.enter(size, least_of(sides, size));
        return true;
    }
    false
}

/// What the beginning of a path tells of one side: the places that it has chosen, and below which place it is known of
/// all others that they are not chosen.
#[derive(Drop)]
struct FixedSide<'a> {
    side: Side,
    taken: &'a [u16],
    limit: usize,
}

/// How many numbers a side has.
fn count_at(stage: &ExchangeStage<'_>, side: Side) -> usize
    ensures { result ≡ count_of stage.now.pool.now stage.now.k side }
{
    match side {
        Side::Out => stage.k,
        Side::In => stage.pool.len() - stage.k,
    }
}

/// What the beginning of a path tells of a place: that each path that begins so chooses it, or that none does.
#[derive(Clone, Copy)]
enum Known {
    Chosen,
    PassedOver,
}

/// Whether that is known of a place. It is known to be chosen if it is taken, and known to be passed over if it is
/// below the limit and not taken.
fn is_fixed(fixed: &FixedSide<'_>, known: Known, place: usize) -> bool
    requires small { place ≤ 65535 }
    ensures { result ≡ stages.is_fixed fixed.now.taken.now fixed.now.limit known place }
{
    match known {
        Known::Chosen => fixed.taken.contains(&(place as u16)),
        Known::PassedOver => place < fixed.limit && !fixed.taken.contains(&(place as u16)),
    }
}

/// Puts the numbers behind others of whose places it is known that they are chosen, or that they are passed over.
fn put_fixed(stage: &ExchangeStage<'_>, fixed: &FixedSide<'_>, known: Known, numbers: &mut Numbers)
    requires room { length numbers.old.items
        + length (stages.fixed_numbers stage.now.pool.now stage.now.k fixed.now.side fixed.now.taken.now fixed.now.limit
        known)
        ≤ LIMIT }
    ensures { numbers.new.items ≡ numbers.old.items
        ++ stages.fixed_numbers stage.now.pool.now stage.now.k fixed.now.side fixed.now.taken.now fixed.now.limit
        known }
{
    let sides = Sides {
        pool: stage.pool,
        k: stage.k,
    };
    for place in 0..count_at(stage, fixed.side) {
        if is_fixed(fixed, known, place) {
            numbers.push(value_at(&sides, fixed.side, place) as u16);
        }
    }
}

/// What a beginning tells of those moved out.
#[tactic(auto, unfolding(crate::specs::Stages::out_limit))]
fn fixed_out<'a>(stage: &ExchangeStage<'_>, beginning: &'a [u16]) -> FixedSide<'a>
    ensures side { result.side ≡ Out }
    ensures taken { result.taken.now ≡ take stage.now.size beginning.now }
    ensures limit { result.limit ≡ stages.out_limit stage.now.pool.now stage.now.k stage.now.size beginning.now }
{
    if beginning.len() < stage.size {
        FixedSide {
            side: Side::Out,
            taken: beginning,
            limit: first_of_half(stage.size, beginning),
        }
    } else {
        FixedSide {
            side: Side::Out,
            taken: &beginning[..stage.size],
            limit: stage.k,
        }
    }
}

/// And of those moved in.
#[tactic(auto, unfolding(crate::specs::Stages::in_limit))]
fn fixed_in<'a>(stage: &ExchangeStage<'_>, beginning: &'a [u16]) -> FixedSide<'a>
    ensures side { result.side ≡ In }
    ensures taken { result.taken.now ≡ drop stage.now.size beginning.now }
    ensures limit { result.limit ≡ stages.in_limit stage.now.pool.now stage.now.k stage.now.size beginning.now }
{
    if beginning.len() < stage.size {
        return FixedSide {
            side: Side::In,
            taken: &[],
            limit: 0,
        };
    }
    let limit = if beginning.len() < stage.size + stage.size {
        first_of_half(stage.size, beginning)
    } else {
        stage.pool.len() - stage.k
    };
    FixedSide {
        side: Side::In,
        taken: beginning.split_at(stage.size).1,
        limit,
    }
}

/// Fills a list with who is in the set of each path that begins so, and behind them with who is in none. The answer is
/// how many the first are.
fn put_held_and_barred(stage: &ExchangeStage<'_>, beginning: &[u16], numbers: &mut Numbers) -> usize
    ensures held { take result numbers.new.items ≡ stages.held_numbers stage.now.pool.now stage.now.k stage.now.size
        beginning.now }
    ensures barred { drop result numbers.new.items ≡ stages.barred_numbers stage.now.pool.now stage.now.k stage.now.size
        beginning.now }
    ensures within { result ≤ length numbers.new.items }
{
    let outs = fixed_out(stage, beginning);
    let ins = fixed_in(stage, beginning);
    numbers.clear();
    put_fixed(stage, &outs, Known::PassedOver, numbers);
    put_fixed(stage, &ins, Known::Chosen, numbers);
    let held = numbers.len();
    put_fixed(stage, &outs, Known::Chosen, numbers);
    put_fixed(stage, &ins, Known::PassedOver, numbers);
    held
}

/// The class of the sets whose paths begin as the search's path does. The list is for who is in them, and who is not.
fn exchange_at<'a>(sides: &Sides<'a>, state: &SearchState, numbers: &'a mut Numbers) -> Exchange<'a>
    requires { stages.IsSearchState sides.now.pool.now sides.now.k state.now }
    ensures { result ≡ stages.class_from sides.now.pool.now sides.now.k state.now }
{
    let stage = ExchangeStage {
        pool: sides.pool,
        k: sides.k,
        size: state.size,
        difference: state.difference,
    };
    let count = put_held_and_barred(&stage, state.descent.path.as_slice(), numbers);
    let (held, barred) = numbers.split_at(count);
    let (original, others) = sides.pool.split_at(sides.k);
    Exchange {
        original,
        others,
        size: state.size,
        difference: state.difference,
        held,
        barred,
    }
}

/// Whether the caller is asked in a stage. The original set is not asked about: it is one set, and no stage of others.
fn asks_in(asks: Asks, size: usize) -> Asks
    ensures original { size ≡ 0 → result ≡ Never }
    ensures others { 0 < size → result ≡ asks }
{
    if size == 0 { Asks::Never } else { asks }
}

/// Goes on to the next beginning about which the caller is to be asked, if it wants to be, or to the next set. The
/// descent then has the path, unless the budget or the search ends before it. To leave a whole stage is a step, so
/// where a stage begins the budget is asked first.
#[tactic(auto, unfolding(crate::specs::Stages::trials_ahead))]
fn advance_set(
    sides: &Sides<'_>,
    asks: Asks,
    state: &mut SearchState,
    budget: &mut Budget,
) -> Result<Progress, Stopped>
    requires { stages.IsSearchState sides.now.pool.now sides.now.k state.old }
    ensures stands { stages.IsSearchState sides.now.pool.now sides.now.k state.new }
    ensures answer { let before = stages.sets_from sides.now.pool.now sides.now.k state.old in
        let after = stages.sets_from sides.now.pool.now sides.now.k state.new in
        MatchProgress result
        ((after ≡ before) × (asks ≡ AtBeginnings) × (0 < state.new.size)
        × (way budget.new (stages.free_moves_from sides.now.pool.now sides.now.k state.new)
        < way budget.old (stages.free_moves_from sides.now.pool.now sides.now.k state.old)))
        ((before ≡ stages.set_of sides.now.pool.now sides.now.k state.new.size state.new.descent.path ∷ after)
        × (length state.new.descent.path ≡ state.new.size + state.new.size))
        ((before ≡ []) × (after ≡ []) × (stages.trials_from sides.now.pool.now sides.now.k state.new ≡ 0))
        ((after ≡ before) × (budget.new.used ≡ budget.new.limit)
        × (asks ≡ Never → 0 < stages.trials_from sides.now.pool.now sides.now.k state.new)) }
    ensures steps { budget.new.used + stages.trials_from sides.now.pool.now sides.now.k state.new
        ≡ budget.old.used + stages.trials_from sides.now.pool.now sides.now.k state.old }
    ensures spends { Spends budget.old budget.new }
{
    loop {
        let tree = Hinted {
            tree: ExchangeStage {
                pool: sides.pool,
                k: sides.k,
                size: state.size,
                difference: state.difference,
            },
            hint: &state.hint,
        };
        match advance(&tree, asks_in(asks, state.size), &mut state.descent, budget)? {
            Progress::Beginning => {
                if state.descent.path.as_slice().is_empty() && budget.used == budget.limit {
                    state.descent.asked = false;
                    return Err(Stopped);
                }
                return Ok(Progress::Beginning);
            }
            Progress::Whole => return Ok(Progress::Whole),
            Progress::Over => {
                if !next_stage(sides, state) {
                    return Ok(Progress::Over);
                }
            }
        }
    }
}

/// Leaves all sets whose paths begin as the search's path does. Where nothing is chosen that is a whole stage, which is
/// a step.
fn leave_sets(
    sides: &Sides<'_>,
    state: &mut SearchState,
    budget: &mut Budget,
) -> Result<(), Stopped>
    requires stood { stages.IsSearchState sides.now.pool.now sides.now.k state.old }
    requires exchanged { 0 < state.old.size }
    ensures stands { stages.IsSearchState sides.now.pool.now sides.now.k state.new }
    ensures passes { Passes (IsExchange (stages.class_from sides.now.pool.now sides.now.k state.old))
        (stages.sets_from sides.now.pool.now sides.now.k state.old)
        (stages.sets_from sides.now.pool.now sides.now.k state.new) }
    ensures same { stages.free_moves_from sides.now.pool.now sides.now.k state.new
        ≡ stages.free_moves_from sides.now.pool.now sides.now.k state.old }
    ensures stopped { IsErr result → budget.new.used ≡ budget.new.limit }
    ensures spends { Spends budget.old budget.new }
{
    if state.descent.path.as_slice().is_empty() {
        if budget.used == budget.limit {
            return Err(Stopped);
        }
        budget.used += 1;
    }
    let tree = Hinted {
        tree: ExchangeStage {
            pool: sides.pool,
            k: sides.k,
            size: state.size,
            difference: state.difference,
        },
        hint: &state.hint,
    };
    leave(&tree, &mut state.descent);
    Ok(())
}

/// Fills a list with the original numbers that were not moved out, lowest first.
fn put_kept(sides: &Sides<'_>, outs: &[u16], numbers: &mut Numbers)
    ensures items { numbers.new.items ≡ stages.kept_of sides.now.pool.now sides.now.k outs.now }
    ensures fits { length numbers.new.items ≤ sides.now.k }
{
    numbers.clear();
    for position in 0..sides.k {
        let place = sides.k - 1 - position;
        if !outs.contains(&(place as u16)) {
            numbers.push(sides.pool[position]);
        }
    }
}

/// Puts the numbers moved in behind others.
fn put_moved_in(sides: &Sides<'_>, ins: &[u16], numbers: &mut Numbers)
    requires within { AllByRecursion (λ place. place < length sides.now.pool.now - sides.now.k) ins.now }
    requires room { length numbers.old.items + length ins.now ≤ LIMIT }
    ensures { numbers.new.items ≡ numbers.old.items ++ map (stages.value_of sides.now.pool.now sides.now.k In) ins.now }
{
    for place in ins {
        numbers.push(sides.pool[sides.k + *place as usize]);
    }
}

/// Fills a list with the set that a whole search has found.
fn put_set(sides: &Sides<'_>, state: &SearchState, numbers: &mut Numbers)
    requires standing { stages.IsSearchState sides.now.pool.now sides.now.k state.now }
    requires whole { length state.now.descent.path ≡ state.now.size + state.now.size }
    ensures { numbers.new.items ≡ stages.set_of sides.now.pool.now sides.now.k state.now.size state.now.descent.path }
{
    let (outs, ins) = state.descent.path.as_slice().split_at(state.size);
    put_kept(sides, outs, numbers);
    put_moved_in(sides, ins, numbers);
}

/// The sets of `k` numbers of a pool in the order of exchanges (C.04.3 D.2). The original set is the first `k` numbers.
/// Fewer exchanged numbers come first; then the smaller difference between the sum of the numbers moved in and the sum
/// of those moved out; then the higher numbers moved out, compared from the highest; then the lower numbers moved in,
/// compared from the lowest. It takes no memory. A step is one place tried for a number moved out or moved in.
#[derive(Drop)]
pub struct Exchanges {
    pool: Numbers,
    k: usize,
    state: SearchState,
}

impl Model for Exchanges {
    ghost use Rattle.dutch_sequence.specs.declared.numbers.TheConstants.{LIMIT};
    ghost use Rattle.std.specs.Prelude.{◌≤◌, ◌-◌, length};
    ghost use Rattle.std.specs.List.Sorted.{IsStrictlyIncreasing};
    ghost use Rattle.dutch_sequence.specs.Steps.{SetsAhead};
    ghost use Rattle.dutch_sequence.specs.Stages.{IsSearchState, class_from, free_moves_from, sets_from, trials_from};

    ghost Value = { SetsAhead };

    ghost view = { λ t. record {
      coming = sets_from t.pool.items t.k t.state;
      exchange = class_from t.pool.items t.k t.state;
      free_moves = free_moves_from t.pool.items t.k t.state;
      left = trials_from t.pool.items t.k t.state;
    } };

    ghost invariant = { λ t.
        (length t.pool.items ≤ LIMIT) × (t.k ≤ length t.pool.items) × IsStrictlyIncreasing t.pool.items
        × IsSearchState t.pool.items t.k t.state };
}

impl Exchanges {
    /// The sets of `k` numbers of a pool, which ascends and has at most `LIMIT` numbers, and at least `k`.
    pub fn new(pool: &[u16], k: usize) -> Exchanges
        requires ascends { IsStrictlyIncreasing pool.now }
        requires few { length pool.now ≤ LIMIT }
        requires enough { k ≤ length pool.now }
        ensures coming { result.coming ≡ exchanges pool.now k }
        ensures nothing { k ≡ 0 → result.left ≡ 0 }
    {
        let mut sets = Exchanges::ended();
        sets.start(&Sides { pool, k });
        sets
    }

    /// The sets of `k` numbers of a pool from a set on. Each of its places that is tried again costs a step.
    pub fn from(pool: &[u16], k: usize, set: &[u16]) -> Exchanges
        requires ascends { IsStrictlyIncreasing pool.now }
        requires few { length pool.now ≤ LIMIT }
        requires enough { k ≤ length pool.now }
        requires given { IsIn set.now (subsets pool.now k) }
        ensures coming { result.coming ≡ from_on set.now (exchanges pool.now k) }
    {
        let mut sets = Exchanges::ended();
        sets.start_from(&Sides { pool, k }, set);
        sets
    }

    /// One that has ended.
    pub fn ended() -> Exchanges
        ensures { result.coming ≡ [] }
    {
        Exchanges {
            pool: ArrayVec::new(),
            k: 0,
            state: SearchState {
                size: 0,
                difference: 0,
                hint: ArrayVec::new(),
                descent: Descent::new(1),
            },
        }
    }

    /// Begins anew, in place, as `new` does.
    pub fn start(&mut self, sides: &Sides<'_>)
        ensures coming { self.new.coming ≡ exchanges sides.now.pool.now sides.now.k }
        ensures nothing { sides.now.k ≡ 0 → self.new.left ≡ 0 }
    {
        fill(&mut self.pool, sides.pool);
        self.k = sides.k;
        self.state.enter(0, 0);
    }

    /// Begins anew, in place, as `from` does.
    pub fn start_from(&mut self, sides: &Sides<'_>, set: &[u16])
        requires { IsIn set.now (subsets sides.now.pool.now sides.now.k) }
        ensures { self.new.coming ≡ from_on set.now (exchanges sides.now.pool.now sides.now.k) }
    {
        fill(&mut self.pool, sides.pool);
        self.k = sides.k;
        enter_at(sides, set, &mut self.state);
    }

    /// Goes on to the next beginning, or to the next set, with which the list is then filled. It stands still where a
    /// stage begins, and at each beginning of the paths in it: `exchange` tells what all sets that begin so have in
    /// common, and `leave` leaves them.
    pub fn advance(
        &mut self,
        numbers: &mut Numbers,
        budget: &mut Budget,
    ) -> Result<Progress, Stopped>
        ensures answer { MatchProgress result
            ((self.new.coming ≡ self.old.coming) × (0 < self.new.exchange.size)
            × (way budget.new self.new.free_moves < way budget.old self.old.free_moves))
            (self.old.coming ≡ numbers.new.items ∷ self.new.coming)
            ((self.old.coming ≡ []) × (self.new.coming ≡ []))
            ((self.new.coming ≡ self.old.coming) × (budget.new.used ≡ budget.new.limit)) }
        ensures spends { Spends budget.old budget.new }
    {
        let sides = Sides {
            pool: &self.pool,
            k: self.k,
        };
        match advance_set(&sides, Asks::AtBeginnings, &mut self.state, budget)? {
            Progress::Beginning => return Ok(Progress::Beginning),
            Progress::Over => return Ok(Progress::Over),
            Progress::Whole => {}
        }
        put_set(&sides, &self.state, numbers);
        Ok(Progress::Whole)
    }

    /// The class of the sets that begin as the search stands. The list is for who is in them, and who is not.
    pub fn exchange<'n>(&'n self, numbers: &'n mut Numbers) -> Exchange<'n>
        ensures { result ≡ self.now.exchange }
    {
        let sides = Sides {
            pool: &self.pool,
            k: self.k,
        };
        exchange_at(&sides, &self.state, numbers)
    }

    /// Leaves all sets of the class that `exchange` tells, which has to exchange somebody. To leave a whole stage is a
    /// step.
    pub fn leave(&mut self, budget: &mut Budget) -> Result<(), Stopped>
        requires { 0 < self.old.exchange.size }
        ensures passes { Passes (IsExchange self.old.exchange) self.old.coming self.new.coming }
        ensures same { self.new.free_moves ≡ self.old.free_moves }
        ensures stopped { IsErr result → budget.new.used ≡ budget.new.limit }
        ensures spends { Spends budget.old budget.new }
    {
        let sides = Sides {
            pool: &self.pool,
            k: self.k,
        };
        leave_sets(&sides, &mut self.state, budget)
    }
}

impl Generator for Exchanges {
    ghost ahead = { λ t. record { coming = t.coming; left = t.left } };

    fn put_next(&mut self, numbers: &mut Numbers, budget: &mut Budget) -> Drawn {
        let sides = Sides {
            pool: &self.pool,
            k: self.k,
        };
        match advance_set(&sides, Asks::Never, &mut self.state, budget)? {
            Progress::Beginning => unreachable!(),
            Progress::Over => return Ok(false),
            Progress::Whole => {}
        }
        put_set(&sides, &self.state, numbers);
        Ok(true)
    }
}

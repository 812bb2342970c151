// The pairs of a beginning and what they add up to (C.04.3 C.8 to C.11). They are kept from one question to the next:
// most beginnings differ from the one before only in a few last pairs, so few are taken back and few are added.
ghost use Rattle.std.specs.Prelude.{◌≡◌, ◌+◌, ◌<◌, ◌≤◌, ◌++◌, ◌∷◌, [], ℕ, List, filter, get_or, length, sum_by, take};
ghost use Rattle.arrayvec.specs.ArrayVec.{array_vec_len};
ghost use Rattle.dutch_sequence.specs.declared.numbers.TheConstants.{LIMIT};
ghost use Rattle.dutch_player.specs.Prelude.{Facts};
ghost use Rattle.dutch_bracket.specs.declared.colours_missed.Miss.TheVariants.{Wide, Third};
ghost use Rattle.trf16_report.specs.declared.cell.Colour.TheVariants.{White, Black};
ghost use Rattle.dutch_bracket.specs.Prelude.{HasFewPairs, all_pairs, count_with_topscorers, in_both, is_uneven, misses};
ghost use Rattle.dutch_floors.specs.FloorOf.{wanting};
ghost use Rattle.dutch_floors.specs.Behind.{Basis};
ghost use Rattle.dutch_floors.specs.KnownPairs.{AreFew, AreKnown, AreSums, by_seat, minus, number_pairs, plus};

use crate::colour_floor::{Want, Wants, in_pair, missed_by};
use crate::lonely::LonelyRoom;
use arrayvec::ArrayVec;
use dutch_arrangements::LIMIT;
use dutch_bracket::colours_missed::{Miss, count_in, has_topscorer};
use dutch_bracket::context::Context;
use dutch_bracket::seated::{Pair, Seated, is_uneven};
use dutch_candidates::fixed_lists::{FixedLists, fill_fixed};
use dutch_player::Field;
use trf16_report::Colour;

/// What pairs add up to: how many of their players want each colour, and how many want it firmly; how many players each
/// of C.8 to C.11 counts; and how many of the pairs have players with different scores.
#[derive(Clone, Copy, Default)]
pub(crate) struct PairSums {
    pub(crate) white: u16,
    pub(crate) black: u16,
    pub(crate) firm_white: u16,
    pub(crate) firm_black: u16,
    pub(crate) missed: u16,
    pub(crate) strong: u16,
    pub(crate) wide: u16,
    pub(crate) third: u16,
    pub(crate) uneven: u16,
}

impl PairSums {
    /// The sums of these and of other pairs.
    fn plus(self, more: PairSums) -> PairSums
        requires few { AreFew self }
        requires few_more { AreFew more }
        ensures { result ≡ plus self more }
    {
        PairSums {
            white: self.white + more.white,
            black: self.black + more.black,
            firm_white: self.firm_white + more.firm_white,
            firm_black: self.firm_black + more.firm_black,
            missed: self.missed + more.missed,
            strong: self.strong + more.strong,
            wide: self.wide + more.wide,
            third: self.third + more.third,
            uneven: self.uneven + more.uneven,
        }
    }

    /// The sums without some of the pairs.
    fn minus(self, less: PairSums) -> PairSums
        ensures { result ≡ minus self less }
    {
        PairSums {
            white: self.white.saturating_sub(less.white),
            black: self.black.saturating_sub(less.black),
            firm_white: self.firm_white.saturating_sub(less.firm_white),
            firm_black: self.firm_black.saturating_sub(less.firm_black),
            missed: self.missed.saturating_sub(less.missed),
            strong: self.strong.saturating_sub(less.strong),
            wide: self.wide.saturating_sub(less.wide),
            third: self.third.saturating_sub(less.third),
            uneven: self.uneven.saturating_sub(less.uneven),
        }
    }

    /// How many of the players want each colour, or only firmly.
    pub(crate) fn wants(&self, firm: bool) -> Wants
        ensures { (facts : Facts) (pairs : List (ℕ × ℕ)) → AreSums facts pairs self.now
            → (result.white ≡ sum_by (in_both (wanting firm facts White)) pairs)
            × (result.black ≡ sum_by (in_both (wanting firm facts Black)) pairs) }
    {
        if firm {
            Wants {
                firm,
                white: usize::from(self.firm_white),
                black: usize::from(self.firm_black),
            }
        } else {
            Wants {
                firm,
                white: usize::from(self.white),
                black: usize::from(self.black),
            }
        }
    }
}

/// How many players of a pair miss so, if one of them is a topscorer; else none.
fn with_topscorer(field: &Field, miss: Miss, pair: Pair) -> u16
    ensures value { result ≡ count_with_topscorers field.now (misses miss) (pair ∷ []) }
    ensures few { result ≤ 2 }
{
    if has_topscorer(field, pair) {
        count_in(field, miss, pair)
    } else {
        0
    }
}

/// What a pair adds.
fn sums_of(context: &Context<'_>, pair: Pair) -> PairSums
    ensures sums { AreSums context.now.facts (by_seat context.now.reached.seats (pair ∷ [])) result }
    ensures few { AreFew result }
{
    let (field, reached) = (context.field(), context.reached());
    let pair = (reached.seat(pair.0), reached.seat(pair.1));
    let missed = missed_by(context, pair);
    PairSums {
        white: in_pair(context, Want::of(Colour::White, false), pair),
        black: in_pair(context, Want::of(Colour::Black, false), pair),
        firm_white: in_pair(context, Want::of(Colour::White, true), pair),
        firm_black: in_pair(context, Want::of(Colour::Black, true), pair),
        missed: missed.preference,
        strong: missed.strong,
        wide: with_topscorer(field, Miss::Wide, pair),
        third: with_topscorer(field, Miss::Third, pair),
        uneven: u16::from(is_uneven(field, pair)),
    }
}

/// Pairs by number, and what they add up to.
#[derive(Default, Drop)]
pub struct KnownPairs {
    pub(crate) pairs: ArrayVec<Pair, LIMIT>,
    pub(crate) sums: PairSums,
}

/// The pair at a place among those of lists.
#[inline]
fn pair_at(lists: &FixedLists<'_>, place: usize) -> Pair
    requires few { HasFewPairs lists.now }
    requires within { place < length (number_pairs lists.now) }
    ensures { result ≡ get_or (number_pairs lists.now) place (0, 0) }
{
    let moved_down = lists.s2.len();
    if place < moved_down {
        (lists.s1[place], lists.s2[place])
    } else {
        (lists.s1r[place - moved_down], lists.s2r[place - moved_down])
    }
}

/// How many pairs, from the first on, are the same as those of lists.
#[tactic(auto, using(crate::proofs::SumLemmas::take_more))]
fn common(pairs: &[Pair], lists: &FixedLists<'_>) -> usize
    requires few { HasFewPairs lists.now }
    ensures same { take result pairs.now ≡ take result (number_pairs lists.now) }
    ensures in_pairs { result ≤ length pairs.now }
    ensures in_lists { result ≤ length (number_pairs lists.now) }
{
    let count = pairs.len().min(lists.s2.len() + lists.s2r.len());
    for place in 0..count {
        if pairs[place] != pair_at(lists, place) {
            return place;
        }
    }
    count
}

impl KnownPairs {
    /// Forgets all pairs.
    pub(crate) fn clear(&mut self)
        ensures known { (basis : Basis) → AreKnown basis self.new }
        ensures pairs { self.new.pairs.items ≡ [] }
    {
        self.pairs.clear();
        self.sums = PairSums::default();
    }

    /// Adds a pair.
    #[tactic(auto, using(crate::proofs::SumLemmas::more_known))]
    fn push(&mut self, context: &Context<'_>, pair: Pair)
        requires known { AreSums context.now.facts
            (by_seat context.now.reached.seats self.old.pairs.items) self.old.sums }
        requires room { array_vec_len self.old.pairs < LIMIT }
        ensures known { AreSums context.now.facts
            (by_seat context.now.reached.seats self.new.pairs.items) self.new.sums }
        ensures pairs { self.new.pairs.items ≡ self.old.pairs.items ++ pair ∷ [] }
    {
        self.sums = self.sums.plus(sums_of(context, pair));
        self.pairs.push(pair);
    }

    /// Takes back pairs from the last on, until so many are left.
    #[tactic(auto, using(crate::proofs::SumLemmas::less_known))]
    fn take_back(&mut self, context: &Context<'_>, count: usize)
        requires known { AreSums context.now.facts
            (by_seat context.now.reached.seats self.old.pairs.items) self.old.sums }
        requires within { count ≤ length self.old.pairs.items }
        ensures known { AreSums context.now.facts
            (by_seat context.now.reached.seats self.new.pairs.items) self.new.sums }
        ensures pairs { self.new.pairs.items ≡ take count self.old.pairs.items }
    {
        while self.pairs.len() > count {
            if let Some(pair) = self.pairs.pop() {
                self.sums = self.sums.minus(sums_of(context, pair));
            }
        }
    }

    /// Goes on to the pairs of lists, and notes who is paired and who is not in the room where lonely players are
    /// looked for.
    pub(crate) fn go_to(
        &mut self,
        context: &Context<'_>,
        lists: &FixedLists<'_>,
        lonely: &mut LonelyRoom,
    )
        requires few { HasFewPairs lists.now }
        requires known { AreSums context.now.facts
            (by_seat context.now.reached.seats self.old.pairs.items) self.old.sums }
        ensures known { AreSums context.now.facts
            (by_seat context.now.reached.seats self.new.pairs.items) self.new.sums }
        ensures pairs { self.new.pairs.items ≡ number_pairs lists.now }
    {
        let first = common(&self.pairs, lists);
        lonely.take_back(&self.pairs[first..]);
        self.take_back(context, first);
        for place in first..lists.s2.len() + lists.s2r.len() {
            let pair = pair_at(lists, place);
            self.push(context, pair);
            lonely.pair_up(pair);
        }
    }
}

/// Keeps only those pairs whose players have different scores.
fn keep_uneven(field: &Field, pairs: &mut ArrayVec<Pair, LIMIT>)
    ensures items { pairs.new.items ≡ filter (is_uneven field.now) pairs.old.items }
    ensures few { array_vec_len pairs.new ≤ array_vec_len pairs.old }
{
    pairs.retain(|pair| is_uneven(field, *pair));
}

/// Fills in those pairs of lists whose players have different scores, of which there are `count`: players of other
/// pairs do not float.
#[tactic(auto, using(crate::proofs::SumLemmas::none_found))]
pub(crate) fn fill_uneven(
    context: &Context<'_>,
    lists: &FixedLists<'_>,
    count: u16,
    seated: &mut Seated,
)
    requires few { HasFewPairs lists.now }
    requires count { count ≡ length (filter (is_uneven context.now.facts)
        (all_pairs context.now.reached.seats lists.now)) }
    ensures pairs { seated.new.pairs
        ≡ filter (is_uneven context.now.facts) (all_pairs context.now.reached.seats lists.now) }
    ensures none { seated.new.down ≡ [] }
{
    if count == 0 {
        seated.pairs.clear();
        seated.down.clear();
    } else {
        fill_fixed(context, lists, seated);
        keep_uneven(context.field(), &mut seated.pairs);
    }
}

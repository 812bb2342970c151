// Lonely players, once S1R is chosen: they miss their preference, whoever of those left becomes their opponent (C.04.3
// C.10).
ghost use Rattle.std.specs.Prelude.{◌≡◌, ◌+◌, ◌-◌, ◌≤◌, ◌||◌, ℕ, false, not, length, filter, max};
ghost use Rattle.std.specs.List.{list_any};
ghost use Rattle.dutch_sequence.specs.declared.numbers.TheConstants.{LIMIT};
ghost use Rattle.dutch_arrangements.specs.Prelude.{is_member, numbers_from};
ghost use Rattle.dutch_bracket.specs.Prelude.{has_bit, suits, rest_of_s1r, pool, lonely, HasFewPairs};

use dutch_arrangements::{LIMIT, Numbers, Shape};
use dutch_bracket::context::Context;
use dutch_bracket::seated::Pair;
use dutch_candidates::bit_table::{WORD, has_bit, set_bit};
use dutch_candidates::fixed_lists::FixedLists;

/// A mark for each number of a bracket.
type Marks = [u64; LIMIT / WORD + 1];

/// Who leans on whom: each free player on the one who suited them last. Nothing is promised of it: it says where it is
/// worth while to look for lonely players.
#[derive(Drop)]
struct Leaning {
    // whom each number leans on, or 0
    suitors: [u16; LIMIT + 1],
    // how many lean on each number
    counts: [u16; LIMIT + 1],
}

impl Leaning {
    /// Whom a number leans on, or 0.
    fn suitor(&self, number: u16) -> u16 {
        match self.suitors.get(usize::from(number)) {
            Some(suitor) => *suitor,
            None => 0,
        }
    }

    /// Yes if somebody may lean on a number.
    fn is_leaned_on(&self, number: u16) -> bool {
        match self.counts.get(usize::from(number)) {
            Some(count) => *count > 0,
            None => true,
        }
    }

    /// A number leans on another one from now on.
    fn lean(&mut self, number: u16, suitor: u16) {
        let before = usize::from(self.suitor(number));
        if before < self.counts.len() {
            self.counts[before] = self.counts[before].saturating_sub(1);
        }
        if usize::from(suitor) < self.counts.len() {
            self.counts[usize::from(suitor)] = self.counts[usize::from(suitor)].saturating_add(1);
        }
        if usize::from(number) < self.suitors.len() {
            self.suitors[usize::from(number)] = suitor;
        }
    }
}

/// Where lonely players are looked for.
#[derive(Drop)]
pub(crate) struct LonelyRoom {
    // those with whom S1R can still be paired
    pool: Numbers,
    leaning: Leaning,
    // by number: they are in a pair
    paired: [bool; LIMIT + 1],
    // it was seen that nobody is lonely, and nobody who is free leans on a player who was paired since
    is_clear: bool,
}

impl Default for LonelyRoom {
    fn default() -> LonelyRoom {
        LonelyRoom {
            pool: Numbers::new(),
            leaning: Leaning {
                suitors: [0; LIMIT + 1],
                counts: [0; LIMIT + 1],
            },
            paired: [false; LIMIT + 1],
            is_clear: false,
        }
    }
}

impl LonelyRoom {
    /// Forgets all that was seen in a bracket of so many players. Nobody is paired.
    pub(crate) fn clear(&mut self, players: usize) {
        let count = players.min(LIMIT) + 1;
        self.leaning.suitors[..count].fill(0);
        self.leaning.counts[..count].fill(0);
        self.paired[..count].fill(false);
        self.is_clear = false;
    }

    fn set_paired(&mut self, pair: Pair, is_paired: bool) {
        for number in [pair.0, pair.1] {
            if usize::from(number) < self.paired.len() {
                self.paired[usize::from(number)] = is_paired;
            }
        }
    }

    /// Yes if the one whom a number leans on is free.
    fn has_free_suitor(&self, number: u16) -> bool {
        let suitor = self.leaning.suitor(number);
        suitor > 0
            && match self.paired.get(usize::from(suitor)) {
                Some(is_paired) => !*is_paired,
                None => false,
            }
    }

    /// Two are paired: whoever leans on one of them may be lonely now.
    pub(crate) fn pair_up(&mut self, pair: Pair) {
        self.set_paired(pair, true);
        self.is_clear = self.is_clear
            && !self.leaning.is_leaned_on(pair.0)
            && !self.leaning.is_leaned_on(pair.1);
    }

    /// Pairs are taken back: their players may be lonely now, unless those on whom they lean are free.
    pub(crate) fn take_back(&mut self, pairs: &[Pair]) {
        for pair in pairs {
            self.set_paired(*pair, false);
        }
        for pair in pairs {
            self.is_clear = self.is_clear
                && self.has_free_suitor(pair.0)
                && self.has_free_suitor(pair.1);
        }
    }
}

/// Marks numbers, as far as there are marks for them.
fn mark(numbers: &[u16], marks: &mut Marks)
    ensures { (i : ℕ) → i ≤ LIMIT → has_bit marks.new i ≡ (has_bit marks.old i || is_member i numbers.now) }
{
    for number in numbers {
        set_bit(marks, usize::from(*number));
    }
}

/// Fills a list with those of so many numbers from a first one on that are not marked.
#[tactic(auto, using(crate::proofs::LonelyLemmas::unmarked_more, crate::proofs::LonelyLemmas::marked_more))]
fn put_unmarked(first: usize, count: usize, marks: &Marks, left: &mut Numbers)
    requires small { first + count ≤ LIMIT + 1 }
    requires few { count ≤ LIMIT }
    ensures items { left.new.items ≡ filter (λ x. not (has_bit marks.now x)) (numbers_from first count) }
    ensures few { length left.new.items ≤ LIMIT }
{
    left.clear();
    for place in 0..count {
        if !has_bit(marks, first + place) {
            left.push((first + place) as u16);
        }
    }
}

/// Fills a list with the residents that S1R can still be paired with.
#[tactic(auto, using(crate::proofs::LonelyLemmas::pool_is))]
fn put_pool(context: &Context<'_>, lists: &FixedLists<'_>, left: &mut Numbers)
    ensures items { left.new.items ≡ pool context.now.facts context.now.reached lists.now }
    ensures few { length left.new.items ≤ LIMIT }
{
    let mdps = context.reached().mdps();
    let residents = context.len().saturating_sub(mdps);
    // the residents who have a place
    let mut marks = [0; LIMIT / WORD + 1];
    mark(lists.s2, &mut marks);
    mark(lists.s1r, &mut marks);
    mark(lists.s2r, &mut marks);
    put_unmarked(mdps + 1, residents, &marks, left);
}

/// The players of S1R who have no opponent yet.
#[tactic(auto, using(crate::proofs::LonelyLemmas::beyond_is))]
fn rest_of_s1r<'a>(lists: &FixedLists<'a>) -> &'a [u16]
    requires { length lists.now.s2r ≤ length lists.now.s1r }
    ensures items { result.now ≡ rest_of_s1r lists.now }
    ensures few { length result.now ≤ length lists.now.s1r }
{
    lists.s1r.split_at(lists.s2r.len()).1
}

/// Numbers of a bracket, and a mark for each of them.
#[derive(Drop)]
struct Marked<'m> {
    numbers: &'m [u16],
    marks: Marks,
}

impl<'m> Marked<'m> {
    fn new(numbers: &'m [u16]) -> Marked<'m>
        ensures { result.numbers.now ≡ numbers.now }
    {
        let mut marks = [0; LIMIT / WORD + 1];
        mark(numbers, &mut marks);
        Marked { numbers, marks }
    }

    fn has(&self, number: u16) -> bool {
        has_bit(&self.marks, usize::from(number))
    }
}

/// A no says that nobody of a pool suits one who waits. (Whoever suited them last is taken to suit them still: if that
/// were not so, the floor would be lower than it can be, and not wrong. The pool is looked at from its end, as the last
/// ones are paired last.)
fn is_suited(context: &Context<'_>, x: u16, pool: &Marked<'_>, leaning: &mut Leaning) -> bool
    ensures { result ≡ false
        → list_any (suits context.now.facts context.now.reached x) pool.now.numbers.now ≡ false }
{
    if pool.has(leaning.suitor(x)) {
        return true;
    }
    let numbers = pool.numbers;
    let mut left = numbers.len();
    while left > 0 {
        left -= 1;
        if context.suits(x, numbers[left]) {
            leaning.lean(x, numbers[left]);
            return true;
        }
    }
    false
}

/// A no says that one of a pool suits nobody who waits.
fn suits_one(context: &Context<'_>, y: u16, rest: &Marked<'_>, leaning: &mut Leaning) -> bool
    ensures { result ≡ false
        → list_any (λ x. suits context.now.facts context.now.reached x y) rest.now.numbers.now ≡ false }
{
    if rest.has(leaning.suitor(y)) {
        return true;
    }
    let numbers = rest.numbers;
    let mut left = numbers.len();
    while left > 0 {
        left -= 1;
        if context.suits(numbers[left], y) {
            leaning.lean(y, numbers[left]);
            return true;
        }
    }
    false
}

/// How many of those who wait suit nobody of the pool, at least.
fn lonely_first(
    context: &Context<'_>,
    rest: &[u16],
    pool: &Marked<'_>,
    leaning: &mut Leaning,
) -> usize
    ensures value { result ≤ length (filter
        (λ x. not (list_any (suits context.now.facts context.now.reached x) pool.now.numbers.now)) rest.now) }
    ensures few { result ≤ length rest.now }
{
    let mut count = 0;
    for x in rest {
        if !is_suited(context, *x, pool, leaning) {
            count += 1;
        }
    }
    count
}

/// How many of the pool suit nobody who waits, at least.
fn lonely_second(
    context: &Context<'_>,
    rest: &Marked<'_>,
    pool: &[u16],
    leaning: &mut Leaning,
) -> usize
    ensures value { result ≤ length (filter
        (λ y. not (list_any (λ x. suits context.now.facts context.now.reached x y) rest.now.numbers.now)) pool.now) }
    ensures few { result ≤ length pool.now }
{
    let mut count = 0;
    for y in pool {
        if !suits_one(context, *y, rest, leaning) {
            count += 1;
        }
    }
    count
}

/// The greater of two counts of lonely players, since a pair may have one of each. So many of the second may go down,
/// and do not count.
fn more_lonely(first: usize, second: usize, down: usize) -> usize
    ensures { result ≡ max first (second - down) }
{
    first.max(second.saturating_sub(down))
}

/// How many players miss their preference at least, as nobody who is left suits them.
pub(crate) fn lonely(
    context: &Context<'_>,
    shape: Shape,
    lists: &FixedLists<'_>,
    room: &mut LonelyRoom,
) -> usize
    requires { HasFewPairs lists.now }
    ensures value { result ≤ lonely context.now.facts context.now.reached shape lists.now }
    ensures few { result ≤ LIMIT }
{
    if room.is_clear {
        return 0;
    }
    put_pool(context, lists, &mut room.pool);
    let (rest, pool) = (rest_of_s1r(lists), room.pool.as_slice());
    let first = lonely_first(context, rest, &Marked::new(pool), &mut room.leaning);
    let second = lonely_second(context, &Marked::new(rest), pool, &mut room.leaning);
    room.is_clear = first + second == 0;
    more_lonely(first, second, context.residents_down(shape))
}

/// How many players are lonely at most behind lists with an S1R, by how many wait and how many are left for them. (No
/// floor is wrong by it.)
pub(crate) fn most_lonely(context: &Context<'_>, shape: Shape, lists: &FixedLists<'_>) -> usize
    ensures few { result ≤ LIMIT }
{
    let rest = lists.s1r.len().saturating_sub(lists.s2r.len());
    let pool = context
        .len()
        .saturating_sub(context.reached().mdps())
        .saturating_sub(lists.s2.len())
        .saturating_sub(lists.s1r.len())
        .saturating_sub(lists.s2r.len());
    more_lonely(rest, pool, context.residents_down(shape)).min(LIMIT)
}

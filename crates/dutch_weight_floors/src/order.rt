// What each number of a bracket adds to the cost of an arrangement if it is in S1R (C.04.3 D.2): so a floor of costs
// tells of places in the order of D.2 too. And the most that the members of an S1R add, if it is known how it differs
// from the original one.
ghost use Rattle.std.specs.Prelude.{◌≡◌, ℕ, ◌+◌, ◌*◌, ◌<◌, ◌≤◌, ◌^◌, if◌then◌else◌, List, [], All, IfOk, IfSome};
ghost use Rattle.std.specs.Prelude.{min, sum_by, true};
ghost use Rattle.std.specs.Option.{SomeIff};
ghost use Rattle.dutch_arrangements.specs.Prelude.{is_member, IsExchange};
ghost use Rattle.dutch_sequence.specs.declared.numbers.TheConstants.{LIMIT};
ghost use Rattle.dutch_weight_floors.specs.Orders.{AreAdded, added_for, kept, lesser, more_of, short_of, with_lesser};

use dual::Wide;
use dutch_arrangements::{Exchange, LIMIT};
use dutch_weighing::bits_for;
use std::alloc::{AllocError, Global};
use std::marker::Model;

/// What each number of a bracket adds if it is in S1R (C.04.3 D.2): as many units as the number says, and something on
/// top.
#[derive(Drop)]
pub(crate) struct Order {
    unit: Wide,
    // what each number adds on top, from 1 on
    more: Vec<Wide>,
    // what each of the first numbers adds, from 1 on: a walk asks for it again and again
    table: Vec<Wide>,
    // no number adds more on top
    top: Wide,
    // the halves that it tells apart, if it adds anything
    halves: Option<Halves>,
}

impl Model for Order {
    ghost use Rattle.std.specs.Prelude.{◌≤◌, All};
    ghost use Rattle.dutch_weight_floors.specs.Orders.{AreAdded, Order};

    ghost Value = { Order };

    ghost view = { λ o. record { unit = o.unit; more = o.more.items } };

    ghost invariant = { λ o. All (λ m. m ≤ o.top) o.more.items
        × AreAdded (record { unit = o.unit; more = o.more.items }) o.table.items };
}

/// The two halves of a bracket's residents, by which it is told what each of their numbers adds. The upper half is the
/// original S1R if nobody of it is in S2.
#[derive(Clone, Copy)]
pub(crate) struct Halves {
    // how many numbers there are
    count: u32,
    // how many of them are moved-down players, who are never in S1R
    mdps: u32,
    // the last number of the upper half
    half: u32,
    ghost in_order: { (mdps < half) × (half ≤ count) × (count ≤ 1024) },
}

fn has(list: &[u16], number: u16) -> bool
    ensures { result ≡ is_member number list.now }
{
    list.contains(&number)
}

/// So many times a number; none if it does not fit.
fn times(number: Wide, count: usize) -> Option<Wide>
    ensures { IfSome result (λ n. n ≡ number * count) }
{
    let Ok(count) = u32::try_from(count) else {
        return None;
    };
    number.times(count)
}

/// The lesser of two numbers.
fn least(first: Wide, second: Wide) -> Wide
    ensures { result ≡ min first second }
{
    if second.is_less(first) { second } else { first }
}

/// The sum of three numbers, less a fourth one; none if it does not fit, or if that is more.
fn sum_less(one: Wide, other: Wide, third: Wide, less: Wide) -> Option<Wide>
    ensures { IfSome result (λ n. n + less ≡ (one + other) + third) }
{
    one.plus(other)?.plus(third)?.minus(less)
}

/// The greatest of some numbers.
fn greatest(numbers: &[Wide]) -> Wide
    ensures { All (λ m. m ≤ result) numbers.now }
{
    let mut greatest = Wide::zero();
    for number in numbers {
        if greatest.is_less(*number) {
            greatest = *number;
        }
    }
    greatest
}

impl Order {
    /// Nobody adds anything.
    pub(crate) fn none(alloc: Global) -> Order
        ensures { result ≡ record { unit = 0; more = [] } }
    {
        Order {
            unit: Wide::zero(),
            more: Vec::new(alloc),
            table: Vec::new(alloc),
            top: Wide::zero(),
            halves: None,
        }
    }

    /// A no says nothing.
    pub(crate) fn is_none(&self) -> bool
        ensures { result ≡ true → (x : ℕ) → added_for self.now x ≡ 0 }
    {
        self.more.is_empty() && self.unit == Wide::zero()
    }

    /// What a number adds on top.
    fn order_bonus(&self, number: u16) -> Wide
        ensures { result ≡ more_of self.now number }
    {
        let place = usize::from(number.saturating_sub(1));
        if place < self.more.len() {
            self.more[place]
        } else {
            Wide::zero()
        }
    }

    /// The most that a number adds on top.
    fn top(&self) -> Wide
        ensures { (x : ℕ) → more_of self.now x ≤ result }
    {
        self.top
    }

    /// What a number adds; none if that is 2^1024 or more.
    pub(crate) fn added_for(&self, number: u16) -> Option<Wide>
        ensures { SomeIff result (added_for self.now number < 2 ^ 1024) (added_for self.now number) }
    {
        let place = usize::from(number);
        if 0 < place && place <= self.table.len() {
            return Some(self.table[place - 1]);
        }
        self.unit
            .times(u32::from(number))?
            .plus(self.order_bonus(number))
    }

    /// A table of what each number up to a last one adds, as far as that is below 2^1024.
    fn table_upto(&self, alloc: Global, last: u16) -> Result<Vec<Wide>, AllocError>
        ensures { IfOk result (λ table. AreAdded self.now table.items) }
    {
        let mut table = Vec::new(alloc);
        for above in 0..last {
            let Some(sum) = self.added_for(above + 1) else {
                return Ok(table);
            };
            table.push(sum)?;
        }
        Ok(table)
    }

    /// The lesser of what two numbers add; none if that is 2^1024 or more.
    fn lesser(&self, a: u16, b: u16) -> Option<Wide>
        ensures { SomeIff result (lesser self.now a b < 2 ^ 1024) (lesser self.now a b) }
    {
        let Some(first) = self.added_for(a) else {
            return self.added_for(b);
        };
        let Some(second) = self.added_for(b) else {
            return Some(first);
        };
        Some(least(first, second))
    }

    /// A weight and the lesser of what two numbers add; the weight alone if there is no room for both.
    #[tactic(auto, using(crate::proofs::D02Orders::nothing_with))]
    pub(crate) fn with_lesser(&self, weight: Wide, a: u16, b: u16) -> Wide
        ensures { result ≡ with_lesser self.now weight a b }
    {
        // (most orders add nothing, and this is asked for each pair)
        if self.is_none() {
            return weight;
        }
        let Some(lesser) = self.lesser(a, b) else {
            return weight;
        };
        let Some(sum) = weight.plus(lesser) else {
            return weight;
        };
        sum
    }

    /// What the members of an S1R add; none if it does not fit.
    pub(crate) fn of(&self, s1r: &[u16]) -> Option<Wide>
        ensures { IfSome result (λ n. n ≡ sum_by (added_for self.now) s1r.now) }
    {
        let mut sum = Wide::zero();
        for number in s1r {
            sum = sum.plus(self.added_for(*number)?)?;
        }
        Some(sum)
    }
}

impl Order {
    /// The most that a number of the original S1R adds on top of its units, if the barred ones are not in S1R.
    fn more_kept(&self, barred: &[u16], number: u16) -> Wide
        ensures { result ≡ (if is_member number barred.now then 0 else more_of self.now number) }
    {
        if has(barred, number) {
            Wide::zero()
        } else {
            self.order_bonus(number)
        }
    }

    /// The most that a number of the original S1R adds, if the barred ones are not in S1R; none if it does not fit.
    fn kept(&self, barred: &[u16], number: u16) -> Option<Wide>
        ensures { IfSome result (λ n. n ≡ kept self.now barred.now number) }
    {
        let units = self.unit.times(u32::from(number))?;
        units.plus(self.more_kept(barred, number))
    }

    /// The most that the original S1R adds, if the barred ones are not in S1R; none if it does not fit.
    fn all_kept(&self, original: &[u16], barred: &[u16]) -> Option<Wide>
        ensures { IfSome result (λ n. n ≡ sum_by (kept self.now barred.now) original.now) }
    {
        let mut sum = Wide::zero();
        for number in original {
            sum = sum.plus(self.kept(barred, *number)?)?;
        }
        Some(sum)
    }

    /// By how much less than the most a number adds on top, if it is held; 0 if it is not.
    fn short_of(&self, top: Wide, held: &[u16], number: u16) -> Option<Wide>
        ensures { IfSome result (λ n. n ≡ short_of self.now top held.now number) }
    {
        if has(held, number) {
            top.minus(self.order_bonus(number))
        } else {
            Some(Wide::zero())
        }
    }

    /// By how much less than the most all of the others who are held add on top; none if it does not fit.
    fn all_short(&self, top: Wide, others: &[u16], held: &[u16]) -> Option<Wide>
        ensures { IfSome result (λ n. n ≡ sum_by (short_of self.now top held.now) others.now) }
    {
        let mut sum = Wide::zero();
        for number in others {
            sum = sum.plus(self.short_of(top, held, *number)?)?;
        }
        Some(sum)
    }

    /// The most that the members of an S1R add, if it is such an exchange; none if it does not fit.
    ///
    /// Its units are those of the original S1R and of the difference. On top of them come: of each member of the
    /// original S1R who is not barred, what it adds on top; of each one moved in, the most that any number adds on top,
    /// or if it is held, what it adds itself.
    pub(crate) fn most(&self, exchange: &Exchange<'_>) -> Option<Wide>
        ensures { IfSome result (λ n. (s1r : List ℕ) → IsExchange exchange.now s1r → sum_by (added_for self.now) s1r ≤ n) }
    {
        let top = self.top();
        let kept = self.all_kept(exchange.original(), exchange.barred_numbers())?;
        let short = self.all_short(top, exchange.others(), exchange.held_numbers())?;
        let moved = times(self.unit, exchange.difference())?;
        let entered = times(top, exchange.size())?;
        sum_less(kept, moved, entered, short)
    }
}

impl Halves {
    /// The halves of so many numbers, of which so many are moved-down players; `half` is the last one of the upper
    /// half. None if there are too many numbers, or if `half` is no resident's number.
    pub(crate) fn new(count: usize, mdps: usize, half: usize) -> Option<Halves> {
        if mdps < half && half <= count && count <= LIMIT {
            Some(Halves {
                count: count as u32,
                mdps: mdps as u32,
                half: half as u32,
            })
        } else {
            None
        }
    }

    /// How many bits a number takes.
    fn bits(&self) -> u32
        ensures { result ≤ 11 }
    {
        bits_for(self.count as usize)
    }

    /// How many numbers are in the lower half.
    fn lower(&self) -> u32
        ensures { result ≤ 1024 }
    {
        self.count - self.half
    }

    /// How many bits tell the members of the lower half apart.
    fn lower_bits(&self) -> u32
        ensures { result ≤ 1035 }
    {
        self.lower() + self.bits()
    }

    /// How many bits tell the members of both halves apart.
    fn fine_bits(&self) -> u32
        ensures { result ≤ 2060 }
    {
        self.half - self.mdps + self.lower_bits() + 1
    }

    /// How many bits all that is added takes.
    pub(crate) fn width(&self) -> u32 {
        3 * self.bits() + 2 + self.fine_bits()
    }

    /// Yes if a number is a resident's of the upper half.
    pub(crate) fn is_upper(&self, number: u16) -> bool {
        let number = u32::from(number);
        self.mdps < number && number <= self.half
    }

    /// Half of what each number of the lower half adds at least. No number of the upper half adds twice as much.
    fn even_share(&self) -> Option<Wide> {
        Wide::power_of_two(2 * self.bits() + 1 + self.fine_bits())
    }

    /// What a number of the upper half adds on top. Higher numbers add more, since D.2 moves them out first.
    fn more_of_upper(&self, number: u32) -> Option<Wide>
        requires { number ≤ 1024 }
    {
        Wide::power_of_two(number.saturating_sub(self.mdps) + self.lower_bits())
    }

    /// What a number of the lower half adds on top. It is more than any difference of sums, since D.2 looks at the
    /// number of exchanged players first. Lower numbers add less, since D.2 moves them in first.
    fn more_of_lower(&self, number: u32) -> Option<Wide> {
        let entered = Wide::power_of_two(2 * self.bits() + 2 + self.fine_bits())?;
        let most = Wide::power_of_two(self.lower() + 1)?;
        let less = Wide::power_of_two(self.count.saturating_sub(number) + 1)?;
        entered.plus(most)?.minus(less)
    }

    /// What a number adds on top.
    fn order_bonus(&self, number: u32) -> Option<Wide> {
        if number <= self.mdps {
            Some(Wide::zero())
        } else if number <= self.half {
            self.more_of_upper(number)
        } else {
            self.more_of_lower(number)
        }
    }

    /// What each number adds on top, from 1 on; none if it does not fit.
    fn all_bonuses(&self, alloc: Global) -> Result<Option<Vec<Wide>>, AllocError> {
        let mut all = Vec::new(alloc);
        for above in 0..self.count {
            let Some(more) = self.order_bonus(above + 1) else {
                return Ok(None);
            };
            all.push(more)?;
        }
        Ok(Some(all))
    }
}

impl Order {
    /// What numbers have to add so that of two S1R the one that D.2 takes first adds less, if the upper half is the
    /// original S1R; none if it does not fit. Floors hold whatever is added; so they say the most.
    pub(crate) fn by_exchanges(
        alloc: Global,
        halves: &Halves,
    ) -> Result<Option<Order>, AllocError> {
        let Some(unit) = Wide::power_of_two(halves.fine_bits() + 1) else {
            return Ok(None);
        };
        let Some(more) = halves.all_bonuses(alloc)? else {
            return Ok(None);
        };
        let mut order = Order {
            unit,
            top: greatest(&more),
            more,
            table: Vec::new(alloc),
            halves: Some(*halves),
        };
        order.table = order.table_upto(alloc, halves.count as u16)?;
        Ok(Some(order))
    }

    /// What somebody who is left over is given on top, so that shares of pairs and those who are left over have as much.
    pub(crate) fn left_over_share(&self) -> Option<Wide> {
        match &self.halves {
            Some(halves) => Some(halves.even_share()?.halved()),
            None => Some(Wide::zero()),
        }
    }

    /// A label where each pair costs as much more as is added: without the share of the number. The shares of two
    /// numbers are together never more than what the pair adds, and just as much if they are of two halves.
    pub(crate) fn without_share(&self, label: Wide, number: u16) -> Option<Wide> {
        let Some(halves) = &self.halves else {
            return Some(label);
        };
        let share = halves.even_share()?;
        if halves.is_upper(number) {
            label.plus(share)?.minus(self.added_for(number)?)
        } else {
            label.minus(share)
        }
    }
}

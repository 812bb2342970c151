// The numbers of players, of which a bracket has `LIMIT` at most, and lists of them.
ghost use Rattle.std.specs.Prelude.{◌≡◌, ◌+◌, ◌≤◌, ℕ, length, true};
ghost use Rattle.std.specs.List.Sorted.{IsStrictlyIncreasing};
ghost use Rattle.dutch_sequence.specs.Choices.{left_of, is_same, numbers_from};
ghost use Rattle.dutch_sequence.specs.declared.numbers.TheConstants.{LIMIT};

use arrayvec::ArrayVec;

/// The most players of a bracket, and the most numbers that a generator chooses from.
pub const LIMIT: usize = 1024;

/// Numbers of players, as a generator hands them out.
pub type Numbers = ArrayVec<u16, LIMIT>;

/// Fills a list anew with numbers.
pub fn fill(list: &mut Numbers, numbers: &[u16])
    requires few { length numbers.now ≤ LIMIT }
    ensures { list.new.items ≡ numbers.now }
{
    list.clear();
    // there is room
    let _all = list.try_extend_from_slice(numbers);
}

/// Fills a list anew with the numbers of another.
pub fn refill(list: &mut Numbers, other: &Numbers)
    ensures { list.new.items ≡ other.now.items }
{
    fill(list, other);
}

/// Fills a list with so many numbers from a first one on.
pub fn put_numbered(first: usize, count: usize, numbers: &mut Numbers)
    requires few { count ≤ LIMIT }
    requires small { first ≤ LIMIT + 1 }
    ensures items { numbers.new.items ≡ numbers_from first count }
    ensures ascends { IsStrictlyIncreasing numbers.new.items }
{
    numbers.clear();
    for place in 0..count {
        numbers.push((first + place) as u16);
    }
}

/// So many numbers from a first one on.
pub fn numbered_from(first: usize, count: usize) -> Numbers
    requires few { count ≤ LIMIT }
    requires small { first ≤ LIMIT + 1 }
    ensures items { result.items ≡ numbers_from first count }
    ensures ascends { IsStrictlyIncreasing result.items }
{
    let mut numbers = ArrayVec::new();
    put_numbered(first, count, &mut numbers);
    numbers
}

/// Fills a list with the numbers of another that are not in a third.
pub fn put_left_of(numbers: &[u16], taken: &[u16], left: &mut Numbers)
    requires few { length numbers.now ≤ LIMIT }
    ensures items { left.new.items ≡ left_of numbers.now taken.now }
    ensures ascends { IsStrictlyIncreasing numbers.now → IsStrictlyIncreasing left.new.items }
{
    left.clear();
    for number in numbers {
        if !taken.contains(number) {
            left.push(*number);
        }
    }
}

/// The numbers of a list that are not in another.
pub fn left_of(numbers: &[u16], taken: &[u16]) -> Numbers
    requires few { length numbers.now ≤ LIMIT }
    ensures items { result.items ≡ left_of numbers.now taken.now }
    ensures ascends { IsStrictlyIncreasing numbers.now → IsStrictlyIncreasing result.items }
{
    let mut left = ArrayVec::new();
    put_left_of(numbers, taken, &mut left);
    left
}

/// Yes if the lists have the same numbers in the same order.
pub fn is_same(one: &[u16], other: &[u16]) -> bool
    ensures same { result ≡ is_same one.now other.now }
    ensures equal { result ≡ true → one.now ≡ other.now }
{
    one == other
}

// How many players miss their colour preference at least, by how many want each colour (C.04.3 C.10, C.11).
ghost use Rattle.std.specs.Prelude.{◌≡◌, ◌+◌, ◌-◌, ◌*◌, ◌≤◌, length, max, sum_by};
ghost use Rattle.dutch_sequence.specs.declared.numbers.TheConstants.{LIMIT};
ghost use Rattle.dutch_bracket.specs.declared.colours_missed.Miss.TheVariants.{Preference, StrongPreference};
ghost use Rattle.dutch_bracket.specs.Prelude.{misses, count_in, in_both};
ghost use Rattle.dutch_floors.specs.FloorOf.{AreWants, wanting};

use dutch_arrangements::Shape;
use dutch_bracket::colours_missed::{Miss, count_in};
use dutch_bracket::context::Context;
use dutch_bracket::seated::Pair;
use trf16_report::Colour;

/// Whose preferences are counted: those for a colour, or only the firm ones for it.
#[derive(Clone, Copy)]
pub(crate) struct Want {
    colour: Colour,
    firm: bool,
}

impl Want {
    /// All preferences for a colour, or only the firm ones.
    pub(crate) fn of(colour: Colour, firm: bool) -> Want
        ensures colour { result.colour ≡ colour }
        ensures firm { result.firm ≡ firm }
    {
        Want { colour, firm }
    }
}

/// How many of a bracket's players want White and how many Black: all whose preference it is, or only those whose is
/// firm.
#[derive(Clone, Copy)]
pub(crate) struct Wants {
    pub(crate) firm: bool,
    pub(crate) white: usize,
    pub(crate) black: usize,
}

/// 1 for a seat whose preference is counted.
fn weight(context: &Context<'_>, want: Want, seat: u16) -> u16
    ensures value { result ≡ wanting want.firm context.now.facts want.colour seat }
    ensures one { result ≤ 1 }
{
    if want.firm {
        context.wants_firmly(want.colour, seat)
    } else {
        context.wants(want.colour, seat)
    }
}

/// How many players of some seats are counted.
fn in_seats(context: &Context<'_>, want: Want, seats: &[u16]) -> usize
    requires few { length seats.now ≤ LIMIT }
    ensures value { result ≡ sum_by (wanting want.firm context.now.facts want.colour) seats.now }
    ensures few { result ≤ LIMIT }
{
    let mut count = 0;
    for seat in seats {
        count += usize::from(weight(context, want, *seat));
    }
    count
}

/// How many players of a pair are counted.
pub(crate) fn in_pair(context: &Context<'_>, want: Want, pair: Pair) -> u16
    ensures value { result ≡ in_both (wanting want.firm context.now.facts want.colour) pair }
    ensures few { result ≤ 2 }
{
    weight(context, want, pair.0) + weight(context, want, pair.1)
}

/// How many of a bracket's players want each colour.
pub(crate) fn wants_in(context: &Context<'_>, firm: bool) -> Wants
    ensures counted { AreWants context.now.facts context.now.reached result }
    ensures firm { result.firm ≡ firm }
{
    let seats = context.reached().seats();
    Wants {
        firm,
        white: in_seats(context, Want::of(Colour::White, firm), seats),
        black: in_seats(context, Want::of(Colour::Black, firm), seats),
    }
}

/// How many of a bracket's players who want one colour can get it at most, or need none, outside of so many pairs: one
/// in each pair that is still to be made, and each downfloater.
pub(crate) fn colour_places(context: &Context<'_>, shape: Shape, pairs: usize) -> usize
    requires small { shape.pairs ≤ LIMIT }
    ensures { result ≡ (shape.pairs - pairs) + (length context.now.reached.seats - 2 * shape.pairs) }
{
    let to_make = shape.pairs.saturating_sub(pairs);
    to_make + context.len().saturating_sub(2 * shape.pairs)
}

/// How many of those who want a colour cannot be served: all of them, without those in some pairs, and without as many
/// as can be served outside of these.
fn surplus(wanted: usize, in_pairs: usize, places: usize) -> usize
    ensures { result ≡ (wanted - in_pairs) - places }
{
    wanted.saturating_sub(in_pairs).saturating_sub(places)
}

/// How many players outside of some pairs miss their preference at least (C.10): by how many of all want each colour,
/// how many of those in the pairs do, and how many of one colour can be served outside of the pairs. With counts of
/// firm preferences, how many miss a firm one (C.11).
pub(crate) fn more_missed(all: Wants, in_pairs: Wants, places: usize) -> usize
    ensures { result ≡ max ((all.white - in_pairs.white) - places) ((all.black - in_pairs.black) - places) }
{
    surplus(all.white, in_pairs.white, places).max(surplus(all.black, in_pairs.black, places))
}

/// How many players miss their preference (C.10), and how many a strong one (C.11).
#[derive(Clone, Copy)]
pub(crate) struct MissCounts {
    pub(crate) preference: u16,
    pub(crate) strong: u16,
}

/// How many players of a pair miss their preference, and how many a strong one.
#[tactic(auto, using(dutch_bracket::proofs::PairMisses::no_strong_miss))]
pub(crate) fn missed_by(context: &Context<'_>, pair: Pair) -> MissCounts
    ensures preference { result.preference ≡ count_in context.now.facts (misses Preference) pair }
    ensures strong { result.strong ≡ count_in context.now.facts (misses StrongPreference) pair }
    ensures few { result.preference ≤ 1 }
    ensures few_strong { result.strong ≤ 2 }
{
    if !context.has_miss(pair) {
        return MissCounts {
            preference: 0,
            strong: 0,
        };
    }
    MissCounts {
        preference: 1,
        strong: count_in(context.field(), Miss::StrongPreference, pair),
    }
}

// A bracket in its field above all lower seats (C.04.3 A.3, A.6). What its shape, its choice and their floors ask of it
// is read once, when the round reaches it.
ghost use Rattle.std.specs.Prelude.{◌≡◌, ◌+◌, ◌*◌, ◌<◌, ◌≤◌, length};
ghost use Rattle.trf16_report.specs.declared.limits.TheConstants.{MOST_ROUNDS};
ghost use Rattle.dutch_bracket.specs.declared.colours_missed.Miss.TheVariants.{Preference};
ghost use Rattle.dutch_bracket.specs.declared.reached.BracketKind.TheVariants.{Ordinary};
ghost use Rattle.dutch_bracket.specs.Quality.{one_if, misses, count_in};
ghost use Rattle.dutch_bracket.specs.Reached.{IsAbove, IsOf, frame_of, numbers_meet, number_may_be_left};
ghost use Rattle.dutch_bracket.specs.Seated.{seat_of, score_at, lowest};
ghost use Rattle.dutch_bracket.specs.ColourFloors.{collide, is_firm, wants, wants_firmly, suits, residents_down};
ghost use Rattle.dutch_bracket.specs.Brackets.{first_group, scoregroups};
ghost use Rattle.dutch_bracket.specs.NextBracket.{IsNext};
ghost use Rattle.dutch_bracket.specs.NextMatchings.{count_below, group_below, score_below, seat_below};

use crate::colours_missed::is_same;
use crate::group::split_first_group;
use crate::reached::{ByNumber, Reached};
use crate::seated::{Pair, lowest};
use dutch_arrangements::{Bracket, LIMIT, Rule, Shape};
use dutch_player::{Field, Pref, Strength};
use std::alloc::Global;
use std::marker::Model;
use trf16_report::Colour;

/// A bracket of a field above all lower seats by rank.
#[derive(Drop)]
pub struct Context<'a> {
    // for what is found on the heap
    alloc: Global,
    field: &'a Field,
    reached: &'a Reached,
    lower: &'a [u16],
    // the bracket by scores
    frame: Bracket,
    // the lowest of them, in half points
    lowest: u16,
    // the next lower scoregroup
    next: &'a [u16],
}

impl<'a> Model for Context<'a> {
    ghost use Rattle.dutch_bracket.specs.Context.{Context, IsRead};

    ghost Value = { Context };

    ghost view = { λ c. record { facts = c.field.now; reached = c.reached.now; lower = c.lower.now } };

    ghost invariant = { λ c. IsRead c.field.now c.reached.now c.lower.now c.frame c.lowest c.next.now };
}

fn is_firm(strength: Strength) -> bool
    ensures { result ≡ is_firm strength }
{
    match strength {
        Strength::Absolute | Strength::Strong => true,
        Strength::Mild => false,
    }
}

/// Two preferences are for one colour.
fn collide(one: Option<Pref>, other: Option<Pref>) -> bool
    ensures { result ≡ collide one other }
{
    match (one, other) {
        (Some(one), Some(other)) => is_same(one.colour, other.colour),
        _ => false,
    }
}

impl<'a> Context<'a> {
    /// Reads a bracket above all lower seats by rank.
    pub fn new(
        alloc: Global,
        field: &'a Field,
        reached: &'a Reached,
        lower: &'a [u16],
    ) -> Context<'a>
        requires { IsAbove field.now reached.now lower.now }
        ensures { result ≡ record { facts = field.now; reached = reached.now; lower = lower.now } }
    {
        Context {
            alloc,
            field,
            reached,
            lower,
            frame: reached.frame(field),
            lowest: lowest(field, reached.seats()),
            next: split_first_group(field, lower).0,
        }
    }

    /// The allocator.
    pub fn alloc(&self) -> Global {
        self.alloc
    }

    /// The field.
    pub fn field(&self) -> &'a Field
        ensures { result.now ≡ self.now.facts }
    {
        self.field
    }

    /// The bracket.
    pub fn reached(&self) -> &'a Reached
        ensures value { result.now ≡ self.now.reached }
        ensures sound { IsOf self.now.facts self.now.reached }
        ensures above { IsAbove self.now.facts self.now.reached self.now.lower }
    {
        self.reached
    }

    /// The seats below the bracket, by rank.
    pub fn lower(&self) -> &'a [u16]
        ensures value { result.now ≡ self.now.lower }
        ensures few { length self.now.reached.seats + length result.now ≤ LIMIT }
    {
        self.lower
    }

    /// The next lower scoregroup, by rank; it is empty if no seat is below the bracket.
    #[tactic(auto, using(crate::proofs::NextGroups::is_next))]
    pub fn next(&self) -> &'a [u16]
        ensures value { result.now ≡ first_group self.now.facts (scoregroups self.now.facts self.now.lower) }
        ensures sound { IsNext self.now.facts self.now.reached result.now }
    {
        self.next
    }

    /// The score of the next lower scoregroup, in half points; 0 if there is none.
    pub fn score_below(&self) -> u16
        ensures { 0 < length (group_below self.now.facts self.now.lower)
            → result ≡ score_below self.now.facts self.now.lower }
    {
        match self.next().first() {
            Some(seat) => self.field.score(*seat),
            None => 0,
        }
    }

    /// The seat of a number; behind those of the bracket come those of the next lower scoregroup, and then 0.
    pub fn seat_below(&self, number: u16) -> u16
        ensures { result ≡ seat_below self.now.facts self.now.reached self.now.lower number }
    {
        let place = usize::from(number).saturating_sub(1);
        let seats = self.reached().seats();
        if place < seats.len() {
            return seats[place];
        }
        match self.next().get(place - seats.len()) {
            Some(seat) => *seat,
            None => 0,
        }
    }

    /// How many numbers the bracket and the next lower scoregroup have.
    pub fn len_below(&self) -> usize
        ensures value { result ≡ count_below self.now.facts self.now.reached self.now.lower }
        ensures few { result ≤ LIMIT }
        ensures more { self.now.reached.kind ≡ Ordinary → length self.now.reached.seats < result }
    {
        self.len() + self.next().len()
    }

    /// The bracket by scores.
    pub fn frame(&self) -> &Bracket
        ensures { result.now ≡ frame_of self.now.facts self.now.reached }
    {
        &self.frame
    }

    /// Who of its players may meet, and who may be left over, by number (C.1 to C.3).
    pub fn rule(&self) -> ByNumber<'a>
        ensures field { result.field.now ≡ self.now.facts }
        ensures reached { result.reached.now ≡ self.now.reached }
        ensures meets { ⟦<ByNumber<'a> as Rule>⟧.meets result ≡ numbers_meet self.now.facts self.now.reached }
        ensures may_be_left { ⟦<ByNumber<'a> as Rule>⟧.may_be_left result
            ≡ number_may_be_left self.now.facts self.now.reached }
    {
        self.reached.rule(self.field)
    }

    /// The lowest score, in half points.
    pub fn lowest(&self) -> u16
        ensures { result ≡ lowest self.now.facts self.now.reached.seats }
    {
        self.lowest
    }

    /// How many players the bracket has.
    pub fn len(&self) -> usize
        ensures value { result ≡ length self.now.reached.seats }
        ensures few { result ≤ LIMIT }
    {
        self.reached.seats().len()
    }

    /// The score of a number of the bracket, in half points.
    pub fn score(&self, number: u16) -> u16
        ensures value { result ≡ score_at self.now.facts (seat_of self.now.reached.seats number) }
        ensures few { result ≤ 2 * MOST_ROUNDS }
    {
        self.rule().score(number)
    }

    /// How many residents go down with a shape.
    pub fn residents_down(&self, shape: Shape) -> usize
        ensures { result ≡ residents_down self.now.reached shape }
    {
        self.rule().residents_down(shape)
    }

    /// 1 for a seat whose preference is this colour.
    pub fn wants(&self, colour: Colour, seat: u16) -> u16
        ensures value { result ≡ wants self.now.facts colour seat }
        ensures one { result ≤ 1 }
    {
        match self.field.preference(seat) {
            Some(wanted) => u16::from(is_same(wanted.colour, colour)),
            None => 0,
        }
    }

    /// 1 for a seat whose preference is this colour, and firm.
    pub fn wants_firmly(&self, colour: Colour, seat: u16) -> u16
        ensures value { result ≡ wants_firmly self.now.facts colour seat }
        ensures one { result ≤ 1 }
    {
        match self.field.preference(seat) {
            Some(wanted) => u16::from(is_firm(wanted.strength) && is_same(wanted.colour, colour)),
            None => 0,
        }
    }

    /// Yes if one of the pair misses their preference (C.10): both never do.
    #[tactic(auto, unfolding(crate::specs::Quality::count_in))]
    pub fn has_miss(&self, pair: Pair) -> bool
        ensures { count_in self.now.facts (misses Preference) pair ≡ one_if result }
    {
        collide(self.field.preference(pair.0), self.field.preference(pair.1))
    }

    /// The two suit each other: neither misses their preference, and they may meet (C.1, C.3, C.10). (Colours come
    /// first, as to look for a game of the two takes longest.)
    #[tactic(auto, unfolding(crate::specs::Reached::numbers_meet, crate::specs::ColourFloors::suits))]
    pub fn suits(&self, x: u16, y: u16) -> bool
        ensures { result ≡ suits self.now.facts self.now.reached x y }
    {
        let pair = (self.reached.seat(x), self.reached.seat(y));
        !self.has_miss(pair) && self.reached.rule(self.field).may_meet(x, y)
    }
}

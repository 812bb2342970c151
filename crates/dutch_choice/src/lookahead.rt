// What a bracket can be at best (C.04.3 C.7), by the first candidate of its shape.
//
// All residents of the next bracket have one score, so within a shape the PSD depends on the scores of S1 alone, and
// article D lists the sets with the higher scores first: the first candidate has the least PSD, and no other one is
// looked at.
//
// Most shapes are found at once by listing candidates. But a listing that must rule out one pair more, or that looks
// for its first candidate where few players may still meet, may be very long. So after few steps a matching of least
// cost is asked, which soon tells the shape; and where all S1 of it give one PSD, no candidate is looked for.
ghost use Rattle.std.specs.Prelude.{◌≡◌, map, ℕ, slice_index, ◌≤◌, IfSome, MatchOption};
ghost use Rattle.std.specs.Result.{MatchResult};
ghost use Rattle.dutch_bracket.specs.Seated.{seat_of};
ghost use Rattle.dutch_bracket.specs.declared.reached.BracketKind.TheVariants.{Ordinary};
ghost use Rattle.dutch_bracket.specs.Reached.{IsOf, frame_of};
ghost use Rattle.dutch_choice.specs.AlwaysShapes.{IsAlwaysShape};
ghost use Rattle.dutch_bracket.specs.Shapes.{IsFound};
ghost use Rattle.dutch_bracket.specs.QualityIn.{quality_in};
ghost use Rattle.dutch_bracket.specs.NextBracket.{IsOfBracket, IsFlat, AreLeft, IsNext, legal_by, next_bracket};
ghost use Rattle.dutch_bracket.specs.NextBracket.{value_in, value_of, quality};
ghost use Rattle.dutch_arrangements.specs.Prelude.{Spends};

use crate::certified::{steps_before, told_by_cost};
use crate::players::Players;
use dutch_arrangements::{Budget, Candidate, Numbers, Shape, Stopped, numbered_from};
use dutch_bracket::differences::fill_psd;
use dutch_bracket::quality::{NextValue, Quality, QualityLists, fill_quality};
use dutch_bracket::reached::{BracketKind, ByNumber, Reached, push_all};
use dutch_bracket::seated::{by_seats, seats_of};
use dutch_candidates::few_steps::decided_in_few_steps;
use dutch_candidates::greatest::{Legal, Lister, Shapes, greatest_shape};
use dutch_candidates::psd_floor::{FlatShape, is_uniform};
use dutch_player::Field;
use std::alloc::Global;

/// The shape of an ordinary bracket, as a matching of least cost tells it. None says that it does not, or that there is
/// no memory for it.
fn shape_by_cost(
    alloc: Option<Global>,
    rule: ByNumber<'_>,
    budget: &mut Budget,
) -> Result<Option<Shape>, Stopped>
    requires { rule.reached.now.kind ≡ Ordinary }
    ensures answer { MatchResult result
        (λ matched. IfSome matched (IsAlwaysShape rule.entry.field.now rule.entry.reached.now))
        (λ _. budget.new.used ≡ budget.new.limit) }
    ensures spends { Spends budget.old budget.new }
{
    let Some(alloc) = alloc else {
        return Ok(None);
    };
    let players = Players {
        alloc,
        rule,
        lower: &[],
    };
    Ok(told_by_cost(&players, budget)?.shape)
}

/// What a bracket is by its shape, if all S1 of it give one PSD; otherwise none.
fn value_by_shape(rule: ByNumber<'_>, shape: Shape) -> Option<NextValue>
    requires flat { IsFlat rule.field.now rule.reached.now }
    requires shape { IsAlwaysShape rule.field.now rule.reached.now shape }
    ensures { IfSome result (λ v. v ≡ value_of rule.entry.field.now rule.entry.reached.now) }
{
    if !is_uniform(rule, shape) {
        return None;
    }
    let score = rule.score(rule.reached.mdps() as u16 + 1);
    let flat = FlatShape { rule, shape, score };
    let mut psd = Numbers::new();
    flat.fill_psd(&numbered_from(1, shape.mdps), &mut psd);
    Some(NextValue {
        pairs: shape.pairs,
        psd,
    })
}

/// The greatest shape of a bracket, the first arrangement of which is drawn: the shape by a matching, or else that of
/// the whole listing, which may take very many steps.
fn greatest_drawn<'b>(
    matched: Option<Shape>,
    legal: &Legal<'_, ByNumber<'b>>,
    lister: &mut Lister<'_, ByNumber<'b>>,
    budget: &mut Budget,
) -> Result<Option<Shape>, Stopped>
    requires matched { IfSome matched (IsAlwaysShape legal.now.rule.now.field.now legal.now.rule.now.reached.now) }
    requires frame { legal.now.bracket.now ≡ frame_of legal.now.rule.now.field.now legal.now.rule.now.reached.now }
    requires lists { (lister.old.listing.frame ≡ legal.now.bracket.now)
        × (lister.old.listing.rule ≡ legal.now.rule.now) }
    ensures answer { MatchResult result
        (λ found. IsFound (legal_by legal.now.rule.now.field.now legal.now.rule.now.reached.now legal.now.bracket.now)
        legal.now.bracket.now found lister.new.drawn)
        (λ _. budget.new.used ≡ budget.new.limit) }
    ensures spends { Spends budget.old budget.new }
{
    if let Some(shape) = matched
        && legal.first(lister, shape, budget)?
    {
        return Ok(Some(shape));
    }
    greatest_shape(legal, lister, budget)
}

/// What a bracket is by the first arrangement of its shape; nothing if it has none. (Apart from its caller, which has
/// two ways to it.)
#[inline(never)]
fn value_drawn(
    legal: &Legal<'_, ByNumber<'_>>,
    found: Option<Shape>,
    drawn: &Candidate,
) -> NextValue
    requires flat { IsFlat legal.now.rule.now.field.now legal.now.rule.now.reached.now }
    requires frame { legal.now.bracket.now ≡ frame_of legal.now.rule.now.field.now legal.now.rule.now.reached.now }
    requires small { (i : ℕ) → slice_index legal.now.bracket.now.scores i ≤ 65535 }
    requires found { IsFound (legal_by legal.now.rule.now.field.now legal.now.rule.now.reached.now
        legal.now.bracket.now)
        legal.now.bracket.now found drawn.now }
    ensures { result ≡ value_of legal.now.rule.now.field.now legal.now.rule.now.reached.now }
{
    let Some(shape) = found else {
        return NextValue::none();
    };
    let (field, reached) = (legal.rule.field, legal.rule.reached);
    let first = by_seats(field, reached.seats(), drawn);
    let mut psd = Numbers::new();
    fill_psd(field, &first, &mut psd);
    NextValue {
        pairs: shape.pairs,
        psd,
    }
}

/// What a bracket can be (C.7): by a listing of few steps, then by a matching if it can be had, and where that does not
/// tell it, by a longer listing.
fn value_by<'b>(
    alloc: Option<Global>,
    legal: &Legal<'_, ByNumber<'b>>,
    lister: &mut Lister<'_, ByNumber<'b>>,
    budget: &mut Budget,
) -> Result<NextValue, Stopped>
    requires flat { IsFlat legal.now.rule.now.field.now legal.now.rule.now.reached.now }
    requires ordinary { legal.now.rule.now.reached.now.kind ≡ Ordinary }
    requires frame { legal.now.bracket.now ≡ frame_of legal.now.rule.now.field.now legal.now.rule.now.reached.now }
    requires small { (i : ℕ) → slice_index legal.now.bracket.now.scores i ≤ 65535 }
    requires lists { (lister.old.listing.frame ≡ legal.now.bracket.now)
        × (lister.old.listing.rule ≡ legal.now.rule.now) }
    ensures answer { MatchResult result
        (λ v. v ≡ value_of legal.now.rule.now.field.now legal.now.rule.now.reached.now)
        (λ _. budget.new.used ≡ budget.new.limit) }
    ensures spends { Spends budget.old budget.new }
{
    let rule = *legal.rule;
    let few = steps_before(legal.bracket.len());
    if let Some(found) = decided_in_few_steps(legal, lister, few, budget)? {
        return Ok(value_drawn(legal, found, &lister.drawn));
    }
    let matched = shape_by_cost(alloc, rule, budget)?;
    if let Some(shape) = matched
        && let Some(value) = value_by_shape(rule, shape)
    {
        return Ok(value);
    }
    let found = greatest_drawn(matched, legal, lister, budget)?;
    Ok(value_drawn(legal, found, &lister.drawn))
}

/// What a bracket can be (C.7), with a lister on the stack, where no memory is lent or it is refused. (Apart from its
/// caller, as a lister is large.)
#[inline(never)]
fn value_on_stack(
    alloc: Option<Global>,
    legal: &Legal<'_, ByNumber<'_>>,
    budget: &mut Budget,
) -> Result<NextValue, Stopped>
    requires flat { IsFlat legal.now.rule.now.field.now legal.now.rule.now.reached.now }
    requires ordinary { legal.now.rule.now.reached.now.kind ≡ Ordinary }
    requires frame { legal.now.bracket.now ≡ frame_of legal.now.rule.now.field.now legal.now.rule.now.reached.now }
    requires small { (i : ℕ) → slice_index legal.now.bracket.now.scores i ≤ 65535 }
    ensures answer { MatchResult result
        (λ v. v ≡ value_of legal.now.rule.now.field.now legal.now.rule.now.reached.now)
        (λ _. budget.new.used ≡ budget.new.limit) }
    ensures spends { Spends budget.old budget.new }
{
    let mut lister = Lister::new(legal.bracket, legal.rule);
    value_by(alloc, legal, &mut lister, budget)
}

/// What a bracket can be (C.7), with a lister on the heap where memory is lent.
fn value_of<'a>(
    alloc: Option<Global>,
    field: &'a Field,
    reached: &'a Reached,
    budget: &mut Budget,
) -> Result<NextValue, Stopped>
    requires of { IsOf field.now reached.now }
    requires flat { IsFlat field.now reached.now }
    requires ordinary { reached.now.kind ≡ Ordinary }
    ensures answer { MatchResult result (λ v. v ≡ value_of field.now reached.now)
        (λ _. budget.new.used ≡ budget.new.limit) }
    ensures spends { Spends budget.old budget.new }
{
    let bracket = reached.frame(field);
    let rule = reached.rule(field);
    let legal = Legal {
        bracket: &bracket,
        rule: &rule,
    };
    if let Some(global) = alloc
        && let Ok(mut lister) = Lister::boxed(global, &bracket, &rule)
    {
        return value_by(alloc, &legal, &mut lister, budget);
    }
    value_on_stack(alloc, &legal, budget)
}

/// A bracket of a field above the next lower scoregroup.
#[derive(Drop)]
pub struct BracketAboveGroup<'a> {
    /// For the matching, where memory is lent for it.
    pub alloc: Option<Global>,
    pub field: &'a Field,
    pub reached: &'a Reached,
    pub next: &'a [u16],
    ghost of: { IsOf field.now reached.now },
    ghost below: { IsNext field.now reached.now next.now },
}

/// The bracket that downfloaters make with the next lower scoregroup.
#[tactic(auto, using(dutch_bracket::proofs::NextBrackets::down_short))]
fn next_bracket(above: &BracketAboveGroup<'_>, down: &[u16]) -> Reached
    requires { AreLeft above.now.reached.now down.now }
    ensures { result ≡ next_bracket (map (seat_of above.now.reached.now.seats) down.now) above.now.next.now }
{
    let mut seats = seats_of(above.reached.seats(), down);
    let mdps = seats.len();
    push_all(above.next, &mut seats);
    Reached {
        number: 0,
        kind: BracketKind::Ordinary,
        mdps,
        seats,
    }
}

/// What the next bracket can be for downfloaters of an ordinary bracket (C.7).
pub fn value_below(
    above: &BracketAboveGroup<'_>,
    down: &[u16],
    budget: &mut Budget,
) -> Result<NextValue, Stopped>
    requires ordinary { above.now.reached.now.kind ≡ Ordinary }
    requires down { AreLeft above.now.reached.now down.now }
    ensures answer { MatchResult result
        (λ v. v ≡ value_in above.now.reached.now.kind above.now.field.now
        (map (seat_of above.now.reached.now.seats) down.now) above.now.next.now)
        (λ _. budget.new.used ≡ budget.new.limit) }
    ensures spends { Spends budget.old budget.new }
{
    value_of(above.alloc, above.field, &next_bracket(above, down), budget)
}

/// The value of the next bracket for a candidate (C.7), which counts only in ordinary brackets.
#[tactic(auto, using(dutch_bracket::proofs::NextBrackets::left_by_candidate))]
fn next_value(
    above: &BracketAboveGroup<'_>,
    candidate: &Candidate,
    budget: &mut Budget,
) -> Result<NextValue, Stopped>
    requires candidate { IsOfBracket above.now.field.now above.now.reached.now candidate.now }
    ensures answer { MatchResult result
        (λ v. v ≡ value_in above.now.reached.now.kind above.now.field.now
        (map (seat_of above.now.reached.now.seats) candidate.now.down) above.now.next.now)
        (λ _. budget.new.used ≡ budget.new.limit) }
    ensures spends { Spends budget.old budget.new }
{
    match above.reached.kind() {
        BracketKind::Ordinary => value_below(above, candidate.down(), budget),
        _ => Ok(NextValue::none()),
    }
}

/// The quality of a candidate of a bracket above a next lower scoregroup (C.6 to C.19); none if the budget's limit was
/// reached first. A step is one number tried at one place in the next bracket. It takes no memory.
#[tactic(auto, unfolding(dutch_bracket::specs::NextBracket::quality, dutch_bracket::specs::Quality::quality_with))]
pub fn quality(
    field: &Field,
    reached: &Reached,
    candidate: &Candidate,
    next: &[u16],
    budget: &mut Budget,
) -> Option<Quality>
    requires of { IsOf field.now reached.now }
    requires candidate { IsOfBracket field.now reached.now candidate.now }
    requires next { IsNext field.now reached.now next.now }
    ensures answer { MatchOption result (budget.new.used ≡ budget.new.limit)
        (λ q. quality_in q ≡ quality field.now reached.now next.now candidate.now) }
    ensures spends { Spends budget.old budget.new }
{
    let above = BracketAboveGroup {
        alloc: None,
        field,
        reached,
        next,
    };
    let value = next_value(&above, candidate, budget).ok()?;
    let mut room = QualityLists::default();
    room.quality.put_next(value.pairs, &value.psd);
    fill_quality(field, reached.seats(), candidate, &mut room);
    Some(room.quality)
}

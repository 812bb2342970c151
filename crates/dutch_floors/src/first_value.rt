// What the next bracket can be at best, as counts tell it (C.04.3 C.7): as many pairs as those who go down and the next
// lower scoregroup make, and the floor of its PSD for so many, where those who go down have the scores of the first S1.
// It is looked for once a bracket, before any candidate is looked at.
ghost use Rattle.std.specs.Prelude.{◌≡◌, ◌+◌, ◌-◌, ◌≤◌, ◌++◌, length, map};
ghost use Rattle.arrayvec.specs.ArrayVec.{array_vec_len};
ghost use Rattle.dutch_arrangements.specs.Prelude.{left_of};
ghost use Rattle.dutch_bracket.specs.declared.reached.BracketKind.TheVariants.{Ordinary};
ghost use Rattle.dutch_bracket.specs.Prelude.{IsAbove, IsFlat, group_here, pairs_by_counts, placed_all, score_at};
ghost use Rattle.dutch_bracket.specs.Prelude.{seat_of};
ghost use Rattle.dutch_floors.specs.FirstValues.{first_limbo, first_scores_down, floor_held, first_value};

use arrayvec::ArrayVec;
use dutch_arrangements::{LIMIT, Numbers, numbered_from};
use dutch_bracket::context::Context;
use dutch_bracket::differences::{push_times, put, put_times};
use dutch_bracket::quality::NextValue;
use dutch_bracket::shaped::ShapedBracket;

/// Adds the scores of those numbers that are not in S1.
pub(crate) fn push_left(context: &Context<'_>, numbers: &[u16], s1: &[u16], scores: &mut Numbers)
    requires { array_vec_len scores.old + length numbers.now ≤ LIMIT }
    ensures items { scores.new.items ≡ scores.old.items
        ++ map (λ i. score_at context.now.facts (seat_of context.now.reached.seats i)) (left_of numbers.now s1.now) }
{
    for number in numbers {
        if !s1.contains(number) {
            scores.push(context.score(*number));
        }
    }
}

/// The scores of the moved-down players whom the first S1 of a shape leaves over, in half points.
pub(crate) fn first_limbo(shaped: &ShapedBracket<'_>) -> Numbers
    ensures items { let context = shaped.now.context.now
        in result.items ≡ first_limbo context.facts context.reached shaped.now.shape }
    ensures len { array_vec_len result ≡ shaped.now.context.now.reached.mdps - shaped.now.shape.mdps }
{
    let mdps = shaped.shape.mdps;
    let left = shaped.context.reached().mdps() - mdps;
    let limbo = numbered_from(mdps + 1, left);
    let mut scores = ArrayVec::new();
    push_left(shaped.context, &limbo, &[], &mut scores);
    scores
}

/// The scores of those who go down with the first S1 of a shape: those of its Limbo, and the residents' score for each
/// resident who goes down.
#[tactic(auto, using(crate::proofs::C07Outlook::few_pairs, crate::proofs::C07FirstValues::few_go_down, dutch_bracket::proofs::NextGroups::first_is_next))]
fn first_scores_down(shaped: &ShapedBracket<'_>) -> Numbers
    requires { IsFlat shaped.now.context.now.facts shaped.now.context.now.reached }
    ensures items { let context = shaped.now.context.now
        in result.items ≡ first_scores_down context.facts context.reached shaped.now.shape }
    ensures few { length result.items + length (group_here shaped.now.context.now) ≤ LIMIT }
{
    let mut scores = first_limbo(shaped);
    let context = shaped.context;
    let reached = context.reached();
    let resident = context.field().score(reached.seats()[reached.mdps()]);
    push_times(resident, context.residents_down(shaped.shape), &mut scores);
    scores
}

/// Puts how much each score is above a lowest one to its place.
fn put_above(least: u16, scores: &[u16], numbers: &mut Numbers)
    requires room { array_vec_len numbers.old + length scores.now ≤ LIMIT }
    ensures items { numbers.new.items ≡ placed_all numbers.old.items (map (λ x. x - least) scores.now) }
    ensures len { array_vec_len numbers.new ≡ array_vec_len numbers.old + length scores.now }
{
    for score in scores {
        put(numbers, score.saturating_sub(least));
    }
}

/// The floor of the next bracket's PSD with so many pairs, above the lowest score.
fn floor_held(down: &[u16], least: u16, residents: usize, pairs: usize) -> Numbers
    requires few { length down.now + residents ≤ LIMIT }
    requires small { pairs ≤ LIMIT }
    ensures { result.items ≡ floor_held down.now least residents pairs }
{
    let mut numbers = ArrayVec::new();
    let evens = pairs.saturating_sub(down.len());
    let twos = (down.len() + residents).saturating_sub(2 * pairs);
    if down.len() + (evens + twos) > LIMIT {
        return numbers;
    }
    put_above(least, down, &mut numbers);
    put_times(0, evens, &mut numbers);
    put_times(2, twos, &mut numbers);
    numbers
}

/// The most pairs of the next bracket by counts: half of those who go down and of the next lower scoregroup.
#[tactic(auto, using(crate::proofs::C07Outlook::few_pairs))]
pub(crate) fn pairs_by_counts(shaped: &ShapedBracket<'_>) -> usize
    ensures value { let context = shaped.now.context.now
        in result ≡ pairs_by_counts context.reached shaped.now.shape (group_here context) }
    ensures above { let context = shaped.now.context.now in IsAbove context.facts context.reached context.lower }
{
    let down = shaped.context.reached().seats().len() - 2 * shaped.shape.pairs;
    (down + shaped.context.next().len()) / 2
}

/// A value that no value of the next bracket is better than (C.7), behind an arrangement of an ordinary bracket's shape
/// whose Limbo has the scores of the first one.
#[tactic(auto, using(crate::proofs::C07Outlook::below_ordinary))]
pub(crate) fn first_value(shaped: &ShapedBracket<'_>) -> NextValue
    requires ordinary { shaped.now.context.now.reached.kind ≡ Ordinary }
    requires flat { IsFlat shaped.now.context.now.facts shaped.now.context.now.reached }
    ensures { let context = shaped.now.context.now in
        result ≡ first_value context.facts context.reached shaped.now.shape (group_here context) }
{
    let context = shaped.context;
    let scores = first_scores_down(shaped);
    let next = context.next();
    let least = context.field().score(next[0]);
    let pairs = pairs_by_counts(shaped);
    NextValue {
        pairs,
        psd: floor_held(&scores, least, next.len(), pairs),
    }
}

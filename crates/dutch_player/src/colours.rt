// Who gets which colour, and by which rule (C.04.3 E).
ghost use Rattle.std.specs.Prelude.{◌≡◌, ◌≤◌, length};
ghost use Rattle.dutch_player.specs.declared.colour_rule.ColourRule.TheVariants.{BothPreferences};
ghost use Rattle.dutch_player.specs.SeatOf.{facts_in};
ghost use Rattle.dutch_player.specs.Colours as histories;

use crate::colour_rule::ColourRule;
use crate::meetings::is_absolute;
use crate::preference::{Pref, Strength, blacks, is_same, other, whites};
use crate::seat::Seat;
use trf16_report::Colour;

/// How the colours of two are decided.
#[derive(Clone, Copy, Drop)]
pub(crate) struct Decision {
    // the first rule that decides
    pub(crate) rule: ColourRule,
    // what the higher ranked of the two gets by it
    pub(crate) colour: Colour,
}

fn grade(strength: Strength) -> u8
    ensures { result ≡ histories.grade strength }
{
    match strength {
        Strength::Absolute => 2,
        Strength::Strong => 1,
        Strength::Mild => 0,
    }
}

// How far a colour difference is from 0.
fn distance(played: &[Colour]) -> usize
    ensures { result ≡ histories.distance played.now }
{
    whites(played).abs_diff(blacks(played))
}

// E.2: of two absolute preferences the one with the difference further from 0 is stronger.
fn is_stronger(mine: Pref, played: &[Colour], theirs: Pref, their_played: &[Colour]) -> bool
    ensures { result ≡ histories.is_stronger mine played.now theirs their_played.now }
{
    if grade(theirs.strength) < grade(mine.strength) {
        return true;
    }
    is_absolute(mine.strength)
        && is_absolute(theirs.strength)
        && distance(their_played) < distance(played)
}

// E.3: both lists have the last game first.
fn alternate_colour(mine: &[Colour], theirs: &[Colour]) -> Option<Colour>
    ensures { result ≡ histories.alternate_colour mine.now theirs.now }
{
    let [mine, before @ ..] = mine else {
        return None;
    };
    let [theirs, their_before @ ..] = theirs else {
        return None;
    };
    if is_same(*mine, *theirs) {
        alternate_colour(before, their_before)
    } else {
        Some(other(*mine))
    }
}

// E.3 and E.4: the higher ranked wants a colour; if the colours can alternate, that player gets the one by which they
// do.
fn by_history(alternate: Option<Colour>, wanted: Colour) -> Decision
    ensures { result ≡ histories.by_history alternate wanted }
{
    match alternate {
        Some(colour) => Decision {
            rule: ColourRule::Alternation,
            colour,
        },
        None => Decision {
            rule: ColourRule::HigherRank,
            colour: wanted,
        },
    }
}

// E.2 to E.4: both want the same colour.
fn by_strength(high: &[Colour], low: &[Colour], wanted: Pref, theirs: Pref) -> Decision
    ensures { result ≡ histories.by_strength high.now low.now wanted theirs }
{
    let rule = ColourRule::StrongerPreference;
    if is_stronger(wanted, high, theirs, low) {
        let colour = wanted.colour;
        return Decision { rule, colour };
    }
    if is_stronger(theirs, low, wanted, high) {
        let colour = other(wanted.colour);
        return Decision { rule, colour };
    }
    by_history(alternate_colour(high, low), wanted.colour)
}

// E.5: nobody has played a game.
fn by_start(initial: Colour, start: u16) -> Colour
    ensures { result ≡ histories.by_start initial start }
{
    if start % 2 == 1 {
        initial
    } else {
        other(initial)
    }
}

// E.1: a player without a preference is content with either colour.
fn both(colour: Colour) -> Decision
    ensures { result ≡ histories.by BothPreferences colour }
{
    Decision {
        rule: ColourRule::BothPreferences,
        colour,
    }
}

// What the higher ranked of two and the other one prefer.
#[derive(Clone, Copy, Drop)]
struct Preferences {
    high: Option<Pref>,
    low: Option<Pref>,
}

fn by_preferences(initial: Colour, high: &Seat, low: &Seat, prefer: Preferences) -> Decision
    ensures { result ≡ histories.by_preferences initial (facts_in high.now) (facts_in low.now) prefer.high prefer.low }
{
    match (prefer.high, prefer.low) {
        (Some(wanted), Some(theirs)) => {
            if is_same(wanted.colour, theirs.colour) {
                by_strength(&high.played, &low.played, wanted, theirs)
            } else {
                both(wanted.colour)
            }
        }
        (Some(wanted), None) => both(wanted.colour),
        (None, Some(theirs)) => both(other(theirs.colour)),
        (None, None) => Decision {
            rule: ColourRule::InitialColour,
            colour: by_start(initial, high.start),
        },
    }
}

/// How the colours of two are decided; the first of them ranks higher.
pub(crate) fn decision_between(initial: Colour, high: &Seat, low: &Seat) -> Decision
    ensures { result ≡ histories.decision_between initial (facts_in high.now) (facts_in low.now) }
{
    let prefer = Preferences {
        high: high.preference,
        low: low.preference,
    };
    by_preferences(initial, high, low, prefer)
}

/// Who has white and who has black, if the first gets the given colour.
pub(crate) fn with_colour(a: u16, b: u16, colour: Colour) -> (u16, u16)
    ensures { result ≡ histories.with_colour a b colour }
{
    match colour {
        Colour::White => (a, b),
        Colour::Black => (b, a),
    }
}

// Colour preferences, from the colours of a player's games, the last game first (C.04.3 A.6).
ghost use Rattle.std.specs.Prelude.{◌≡◌, ◌≤◌, ◌-ℤ◌, ◌≤ℤ◌, pos, length, count_by};
ghost use Rattle.dutch_player.specs.Preferences as preferences;
ghost use Rattle.trf16_report.specs.declared.limits.TheConstants.{MOST_ROUNDS};

use trf16_report::Colour;

/// How strong a colour preference is.
#[derive(Clone, Copy, PartialEq)]
pub enum Strength {
    /// The player must not get the other colour.
    Absolute,
    /// A colour difference of one.
    Strong,
    /// To alternate with the last game.
    Mild,
}

/// A colour preference: how strong it is, and the colour that the player is to get.
#[derive(Clone, Copy, PartialEq)]
pub struct Pref {
    pub strength: Strength,
    pub colour: Colour,
}

/// The colour of the opponent.
pub(crate) fn other(colour: Colour) -> Colour
    ensures { result ≡ preferences.other colour }
{
    match colour {
        Colour::White => Colour::Black,
        Colour::Black => Colour::White,
    }
}

fn is_white(colour: &Colour) -> bool
    ensures { result ≡ preferences.is_white colour.now }
{
    match colour {
        Colour::White => true,
        Colour::Black => false,
    }
}

fn is_black(colour: &Colour) -> bool
    ensures { result ≡ preferences.is_black colour.now }
{
    match colour {
        Colour::White => false,
        Colour::Black => true,
    }
}

pub(crate) fn is_same(mine: Colour, theirs: Colour) -> bool
    ensures { result ≡ preferences.is_same mine theirs }
{
    match mine {
        Colour::White => is_white(&theirs),
        Colour::Black => is_black(&theirs),
    }
}

/// How many games were played with white.
pub(crate) fn whites(played: &[Colour]) -> usize
    ensures value { result ≡ preferences.whites played.now }
    ensures within { result ≤ length played.now }
{
    played.iter().filter(|colour| is_white(*colour)).count()
}

/// How many games were played with black: all that were not played with white.
#[tactic(auto, using(crate::proofs::ColourLemmas::of_both))]
pub(crate) fn blacks(played: &[Colour]) -> usize
    ensures value { result ≡ preferences.blacks played.now }
    ensures within { result ≤ length played.now }
{
    played.len() - whites(played)
}

/// Games with white minus games with black.
pub(crate) fn difference(played: &[Colour]) -> i16
    requires { length played.now ≤ MOST_ROUNDS }
    ensures value { result ≡ preferences.difference played.now }
    ensures low { (pos 0 -ℤ pos MOST_ROUNDS) ≤ℤ result }
    ensures high { result ≤ℤ pos MOST_ROUNDS }
{
    whites(played) as i16 - blacks(played) as i16
}

/// The colour of the last two games, if there are two and both have it.
pub(crate) fn last_two(played: &[Colour]) -> Option<Colour>
    ensures { result ≡ preferences.last_two played.now }
{
    match played {
        [last, before, ..] => {
            if is_same(*last, *before) {
                Some(*last)
            } else {
                None
            }
        }
        _ => None,
    }
}

// Mild: to alternate the colour of the last game.
fn mild(played: &[Colour]) -> Option<Pref>
    ensures { result ≡ preferences.mild played.now }
{
    match played {
        [last, ..] => Some(Pref {
            strength: Strength::Mild,
            colour: other(*last),
        }),
        _ => None,
    }
}

// Strong, or mild if the difference is 0.
fn strong_or_mild(played: &[Colour]) -> Option<Pref>
    ensures { result ≡ preferences.strong_or_mild played.now }
{
    let (whites, blacks) = (whites(played), blacks(played));
    if blacks < whites {
        return Some(Pref {
            strength: Strength::Strong,
            colour: Colour::Black,
        });
    }
    if whites < blacks {
        return Some(Pref {
            strength: Strength::Strong,
            colour: Colour::White,
        });
    }
    mild(played)
}

/// The colour preference of a player with these games.
pub(crate) fn preference(played: &[Colour]) -> Option<Pref>
    requires { length played.now ≤ MOST_ROUNDS }
    ensures { result ≡ preferences.preference played.now }
{
    let (whites, blacks) = (whites(played), blacks(played));
    if blacks + 1 < whites {
        return Some(Pref {
            strength: Strength::Absolute,
            colour: Colour::Black,
        });
    }
    if whites + 1 < blacks {
        return Some(Pref {
            strength: Strength::Absolute,
            colour: Colour::White,
        });
    }
    match last_two(played) {
        Some(colour) => Some(Pref {
            strength: Strength::Absolute,
            colour: other(colour),
        }),
        None => strong_or_mild(played),
    }
}

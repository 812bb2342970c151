// A preference for a colour as text (C.04.3 A.6).
ghost use Rattle.std.specs.Prelude.{◌≡◌, ◌++◌, OnOk};
ghost use Rattle.round_lines.specs.PreferenceTexts.{colour_text, preference_text, preference_words, prefers_words};
ghost use Rattle.round_lines.specs.RoundTexts.{preferring_words};

use crate::telling::{Telling, put_seat};
use common_texts::Page;
use dutch_player::{Pref, Strength};
use std::alloc::AllocError;
use trf16_report::Colour;

/// A colour in words.
pub fn colour(colour: Colour) -> &'static str
    ensures { result.now ≡ colour_text colour }
{
    match colour {
        Colour::White => "white",
        Colour::Black => "black",
    }
}

/// A preference, as it stands in a line and in a sentence.
pub fn preference(preference: Option<Pref>) -> (&'static str, &'static str)
    ensures line { result.0.now ≡ preference_text preference }
    ensures words { result.1.now ≡ preference_words preference }
{
    let Some(wish) = preference else {
        return ("none", "none");
    };
    match (wish.colour, wish.strength) {
        (Colour::White, Strength::Absolute) => ("absolute white", "white, absolute"),
        (Colour::White, Strength::Strong) => ("strong white", "white, strong"),
        (Colour::White, Strength::Mild) => ("mild white", "white, mild"),
        (Colour::Black, Strength::Absolute) => ("absolute black", "black, absolute"),
        (Colour::Black, Strength::Strong) => ("strong black", "black, strong"),
        (Colour::Black, Strength::Mild) => ("mild black", "black, mild"),
    }
}

// Puts a preference behind a player, in brackets.
fn put_prefers(text: &mut Page, wish: Option<Pref>) -> Result<(), AllocError>
    ensures { OnOk result (text.new ≡ text.old ++ prefers_words wish) }
{
    if wish.is_none() {
        return text.push_str(" (no preference)");
    }
    let (_, words) = preference(wish);
    text.push_str(" (prefers ")?;
    text.push_str(words)?;
    text.push_str(")")
}

/// Puts a player, by seat, and the colour they prefer.
pub(crate) fn put_preferring(
    text: &mut Page,
    telling: &Telling<'_>,
    seat: u16,
) -> Result<(), AllocError>
    ensures { OnOk result (text.new ≡ text.old ++ preferring_words telling.now seat) }
{
    put_seat(text, telling, seat)?;
    put_prefers(text, telling.field.preference(seat))
}

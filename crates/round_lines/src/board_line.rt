// The line of a board of a bracket, with the rule that decided its colours.
ghost use Rattle.std.specs.Prelude.{◌≡◌, ◌++◌, OnOk};
ghost use Rattle.round_lines.specs.RoundTexts.{colours_text, rule_text, rule_words};

use crate::pieces::Piece::{Preferring, Rank, Text};
use crate::pieces::say;
use crate::telling::Telling;
use common_texts::Page;
use dutch_bracket::seated::Pair;
use dutch_player::ColourRule;
use std::alloc::AllocError;

/// Puts the board of a pair: who has white, who has black, and the rule that decided; in a sentence also what both
/// prefer.
///
/// # Errors
/// Memory was refused.
#[tactic(auto, unfolding(crate::specs::RoundTexts::colours_line, crate::specs::RoundTexts::colours_words))]
pub fn put_board(text: &mut Page, telling: &Telling<'_>, pair: Pair) -> Result<(), AllocError>
    ensures { OnOk result (text.new ≡ text.old ++ colours_text telling.now pair) }
{
    let (white, black) = telling.field.colours(pair.0, pair.1);
    let (line, words) = rule(telling.field.colour_rule(pair.0, pair.1));
    say(
        text,
        telling,
        &[
            Text("board "),
            Rank(white),
            Text(" "),
            Rank(black),
            Text(" "),
            Text(line),
            Text("\n"),
        ],
        &[
            Text("White: "),
            Preferring(white),
            Text(". Black: "),
            Preferring(black),
            Text(". "),
            Text(words),
            Text("\n"),
        ],
    )
}

// The rule that decided the colours of two (E), and its sentence.
fn rule(rule: ColourRule) -> (&'static str, &'static str)
    ensures line { result.0.now ≡ rule_text rule }
    ensures words { result.1.now ≡ rule_words rule }
{
    match rule {
        ColourRule::BothPreferences => ("E.1", "Each gets the colour they prefer (E.1)."),
        ColourRule::StrongerPreference => ("E.2", "The stronger preference is granted (E.2)."),
        ColourRule::Alternation => (
            "E.3",
            "Colours change from the last game, counted back, in which they differed (E.3).",
        ),
        ColourRule::HigherRank => (
            "E.4",
            "The higher-ranked player gets the colour they prefer (E.4).",
        ),
        ColourRule::InitialColour => (
            "E.5",
            "Nobody prefers a colour: the higher-ranked player's start rank and the initial colour decide (E.5).",
        ),
    }
}

// The lines and sentences of items that count against a choice (C.04.3 C.6 to C.19).
ghost use Rattle.std.specs.Prelude.{◌≡◌, ◌++◌, OnOk};
ghost use Rattle.dutch_bracket.specs.Prelude.{players_counted, quality_in};
ghost use Rattle.round_lines.specs.ItemTexts.{list_text, next_line, next_text, next_words};
ghost use Rattle.round_lines.specs.ItemTexts.{psd_text, who_text};
ghost use Rattle.round_lines.specs.Tellings.{in_wording};

use crate::item_words::words_of;
use crate::pieces::Piece::{Count, Differences, DifferencesWords, Ranks, Seats, Text};
use crate::pieces::say;
use crate::telling::Telling;
use common_texts::Page;
use dutch_bracket::{BracketKind, Item, Quality};
use std::alloc::AllocError;

/// Puts a list of differences, always.
///
/// # Errors
/// Memory was refused.
pub fn put_psd(
    text: &mut Page,
    telling: &Telling<'_>,
    item: Item,
    differences: &[u16],
) -> Result<(), AllocError>
    ensures { OnOk result (text.new ≡ text.old ++ psd_text telling.now.wording item differences.now) }
{
    let item_words = words_of(item);
    let (article, said) = (Text(item_words.article), Text(item_words.said));
    let (line, words) = (Differences(differences), DifferencesWords(differences));
    say(
        text,
        telling,
        &[article, line, Text("\n")],
        &[said, Text(": "), words, Text(" ("), article, Text(").\n")],
    )
}

/// Puts a list of differences, if there are some.
///
/// # Errors
/// Memory was refused.
pub fn put_list(
    text: &mut Page,
    telling: &Telling<'_>,
    item: Item,
    differences: &[u16],
) -> Result<(), AllocError>
    ensures { OnOk result (text.new ≡ text.old ++ list_text telling.now.wording item differences.now) }
{
    if differences.is_empty() {
        return Ok(());
    }
    put_psd(text, telling, item, differences)
}

/// Puts what the next bracket can be, of an ordinary bracket.
///
/// # Errors
/// Memory was refused.
pub fn put_next(
    text: &mut Page,
    telling: &Telling<'_>,
    kind: BracketKind,
    quality: &Quality,
) -> Result<(), AllocError>
    ensures { OnOk result (text.new
        ≡ text.old ++ next_text telling.now.wording kind (quality_in quality.now)) }
{
    match kind {
        BracketKind::Ordinary => put_next_bracket(text, telling, quality),
        BracketKind::Last | BracketKind::Penultimate | BracketKind::Collapsed => Ok(()),
    }
}

// Puts the pairs of the next bracket and its PSD.
#[tactic(auto, unfolding(crate::specs::ItemTexts::next_words))]
fn put_next_bracket(
    text: &mut Page,
    telling: &Telling<'_>,
    quality: &Quality,
) -> Result<(), AllocError>
    ensures { OnOk result (text.new ≡ text.old ++ in_wording telling.now.wording
        (next_line (quality_in quality.now)) (next_words (quality_in quality.now))) }
{
    let item_words = words_of(Item::NextBracket);
    let (article, said) = (Text(item_words.article), Text(item_words.said));
    let (pairs, psd) = (Count(quality.next_pairs()), quality.next_psd());
    let (line, words) = (Differences(psd), DifferencesWords(psd));
    let there = Text(". Score differences there: ");
    let (open, close) = (Text(" ("), Text(").\n"));
    say(
        text,
        telling,
        &[article, Text(" "), pairs, line, Text("\n")],
        &[said, Text(": "), pairs, there, words, open, article, close],
    )
}

/// How many players an item counts; 0 for those that count none.
pub fn players_counted(quality: &Quality, item: Item) -> usize
    ensures { result ≡ players_counted item (quality_in quality.now) }
{
    match item {
        Item::WideDifferences => usize::from(quality.wide_differences()),
        Item::ThirdColours => usize::from(quality.third_colours()),
        Item::MissedPreferences => usize::from(quality.missed_preferences()),
        Item::MissedStrong => usize::from(quality.missed_strong()),
        Item::DownAgain => quality.down_again(),
        Item::UpAgain => quality.up_again(),
        Item::DownAgainBefore => quality.down_again_before(),
        Item::UpAgainBefore => quality.up_again_before(),
        Item::Psd
        | Item::NextBracket
        | Item::DownAgainBy
        | Item::UpAgainBy
        | Item::DownAgainBeforeBy
        | Item::UpAgainBeforeBy => 0,
    }
}

/// The players whom an item counts: how many, and their seats, by rank.
#[derive(Clone, Copy)]
pub struct Counted<'a> {
    pub count: usize,
    pub seats: &'a [u16],
}

/// Puts whom an item counts.
///
/// # Errors
/// Memory was refused.
#[tactic(auto, unfolding(crate::specs::ItemTexts::who_line, crate::specs::ItemTexts::who_words))]
pub fn put_who(
    text: &mut Page,
    telling: &Telling<'_>,
    item: Item,
    counted: Counted<'_>,
) -> Result<(), AllocError>
    ensures { OnOk result (text.new
        ≡ text.old ++ who_text telling.now item counted.entry.count counted.entry.seats.now) }
{
    let item_words = words_of(item);
    let (article, said) = (Text(item_words.article), Text(item_words.said));
    let (count, ranks) = (Count(counted.count), Ranks(counted.seats));
    let players = Seats(counted.seats);
    say(
        text,
        telling,
        &[
            article,
            Text(" "),
            count,
            Text(" players"),
            ranks,
            Text("\n"),
        ],
        &[said, Text(": "), players, Text(" ("), article, Text(").\n")],
    )
}

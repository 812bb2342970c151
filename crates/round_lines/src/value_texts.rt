// The values of a quality's items as texts, beside those of another one (C.04.3 C.6 to C.19).
ghost use Rattle.std.specs.Prelude.{◌≡◌, ◌++◌, OnOk, Some};
ghost use Rattle.dutch_bracket.specs.Prelude.{first_difference, quality_in};
ghost use Rattle.round_lines.specs.ValueTexts.{against_line, against_words, candidate_text, compared_words};
ghost use Rattle.round_lines.specs.ValueTexts.{next_value, value_text, worse_words};

use crate::item_texts::players_counted;
use crate::item_words::words_of;
use crate::listing::put_cursor;
use crate::lists::put_listed;
use crate::telling::Telling;
use common_texts::Page;
use dutch_arrangements::Candidate;
use dutch_bracket::{Item, Quality};
use requests::Wording;
use std::alloc::AllocError;

/// A quality, and the chosen one, or another with which it is compared.
pub type Beside<'a> = (&'a Quality, &'a Quality);

// Puts the pairs of the next bracket, or its PSD if the other quality has as many.
fn put_next(text: &mut Page, wording: Wording, of: Beside<'_>) -> Result<(), AllocError>
    ensures { OnOk result (text.new
        ≡ text.old ++ next_value wording (quality_in of.entry.0.now) (quality_in of.entry.1.now)) }
{
    let (mine, theirs) = of;
    let pairs = mine.next_pairs();
    if pairs == theirs.next_pairs() {
        put_listed(text, wording, mine.next_psd())
    } else {
        write!(text, "{pairs}")
    }
}

// Puts the value of an item in a quality, beside another one.
fn put_value(
    text: &mut Page,
    wording: Wording,
    item: Item,
    of: Beside<'_>,
) -> Result<(), AllocError>
    ensures { OnOk result (text.new
        ≡ text.old ++ value_text wording item (quality_in of.entry.0.now) (quality_in of.entry.1.now)) }
{
    let mine = of.0;
    match item {
        Item::Psd => put_listed(text, wording, mine.psd()),
        Item::NextBracket => put_next(text, wording, of),
        Item::WideDifferences
        | Item::ThirdColours
        | Item::MissedPreferences
        | Item::MissedStrong
        | Item::DownAgain
        | Item::UpAgain
        | Item::DownAgainBefore
        | Item::UpAgainBefore => {
            let count = players_counted(mine, item);
            write!(text, "{count}")
        }
        Item::DownAgainBy => put_listed(text, wording, mine.down_again_by()),
        Item::UpAgainBy => put_listed(text, wording, mine.up_again_by()),
        Item::DownAgainBeforeBy => put_listed(text, wording, mine.down_again_before_by()),
        Item::UpAgainBeforeBy => put_listed(text, wording, mine.up_again_before_by()),
    }
}

// What an item compares in two qualities; of C.7 the PSD of the next bracket, where both have as many pairs there.
fn compared_words(item: Item, mine: &Quality, theirs: &Quality) -> &'static str
    ensures { result.now ≡ compared_words item (quality_in mine.now) (quality_in theirs.now) }
{
    match item {
        Item::NextBracket if mine.next_pairs() == theirs.next_pairs() => {
            "score differences in the next bracket"
        }
        _ => words_of(item).meaning,
    }
}

// Puts how a quality stands to the chosen one: the first item in which they differ, and its value in both; or equal,
// and so behind.
fn put_against_line(text: &mut Page, of: Beside<'_>, item: Option<Item>) -> Result<(), AllocError>
    ensures { OnOk result (text.new
        ≡ text.old ++ against_line (quality_in of.entry.0.now) (quality_in of.entry.1.now) item) }
{
    let Some(item) = item else {
        return text.push_str(" behind");
    };
    let article = words_of(item).article;
    write!(text, " {article} ")?;
    put_value(text, Wording::Plain, item, of)?;
    text.push_str(" ")?;
    put_value(text, Wording::Plain, item, (of.1, of.0))
}

// Puts the item in which a quality is worse, and what it compares, in words.
fn put_worse(text: &mut Page, of: Beside<'_>, item: Item) -> Result<(), AllocError>
    ensures { OnOk result (text.new
        ≡ text.old ++ worse_words item (quality_in of.entry.0.now) (quality_in of.entry.1.now)) }
{
    let (article, meaning) = (words_of(item).article, compared_words(item, of.0, of.1));
    write!(text, "is worse at {article} ({meaning}): ")
}

// Puts the same as `put_against_line`, in words.
fn put_against_words(text: &mut Page, of: Beside<'_>, item: Option<Item>) -> Result<(), AllocError>
    ensures { OnOk result (text.new
        ≡ text.old ++ against_words (quality_in of.entry.0.now) (quality_in of.entry.1.now) item) }
{
    match item {
        Some(item) => put_worse_by(text, of, item),
        None => {
            text.push_str("is as good, and stands behind the chosen one in the order of article D.")
        }
    }
}

// Puts the item in which a quality is worse, and its value in both, in words.
fn put_worse_by(text: &mut Page, of: Beside<'_>, item: Item) -> Result<(), AllocError>
    ensures { OnOk result (text.new
        ≡ text.old ++ against_words (quality_in of.entry.0.now) (quality_in of.entry.1.now) (Some item)) }
{
    put_worse(text, of, item)?;
    put_value(text, Wording::Words, item, of)?;
    text.push_str(", where the chosen one has ")?;
    put_value(text, Wording::Words, item, (of.1, of.0))?;
    text.push_str(".")
}

/// Puts a candidate, and how its quality stands to the chosen one's: the first item in which they differ, and its value
/// in both. In words the candidate's cursor is left out.
///
/// # Errors
/// Memory was refused.
pub fn put_candidate(
    text: &mut Page,
    telling: &Telling<'_>,
    candidate: &Candidate,
    of: Beside<'_>,
) -> Result<(), AllocError>
    ensures { OnOk result (text.new ≡ text.old
        ++ candidate_text telling.now.wording candidate.now.lists (quality_in of.entry.0.now) (quality_in of.entry.1.now)) }
{
    let item = of.0.first_difference(of.1);
    match telling.wording {
        Wording::Plain => {
            put_cursor(text, candidate)?;
            put_against_line(text, of, item)
        }
        Wording::Words => put_against_words(text, of, item),
    }
}

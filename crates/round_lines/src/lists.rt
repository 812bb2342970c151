// Lists in lines and sentences: differences, start ranks, and players with their scores.
ghost use Rattle.std.specs.Prelude.{◌≡◌, ◌++◌, OnOk, codes};
ghost use Rattle.std.specs.List.{flat_map};
ghost use Rattle.dutch_bracket.specs.Prelude.{score_at};
ghost use Rattle.round_lines.specs.CandidateTexts.{rank_text};
ghost use Rattle.round_lines.specs.ItemTexts.{differences_text, points_text};
ghost use Rattle.round_lines.specs.RoundTexts.{all_scored_words, scored_text, scored_words};
ghost use Rattle.common_texts.specs.Prelude.{halves_text};

use crate::telling::{Telling, in_wording, put_seat, start_at};
use common_texts::{HalfPoints, Page};
use dutch_player::Field;
use requests::Wording;
use std::alloc::AllocError;

/// Puts differences as points, with commas between them.
pub(crate) fn put_listed(
    text: &mut Page,
    wording: Wording,
    differences: &[u16],
) -> Result<(), AllocError>
    ensures { OnOk result (text.new ≡ text.old ++ points_text wording differences.now) }
{
    let [first, others @ ..] = differences else {
        return text.push_str(in_wording(wording, "-", "none"));
    };
    let points = HalfPoints(u32::from(*first));
    write!(text, "{points}")?;
    put_points(text, in_wording(wording, ",", ", "), others)
}

/// Puts differences as points, each behind a blank, or a dash for none.
pub(crate) fn put_differences(text: &mut Page, differences: &[u16]) -> Result<(), AllocError>
    ensures { OnOk result (text.new ≡ text.old ++ differences_text differences.now) }
{
    if differences.is_empty() {
        return text.push_str(" -");
    }
    put_points(text, " ", differences)
}

// Puts half points as points, each behind a mark.
fn put_points(text: &mut Page, mark: &str, all: &[u16]) -> Result<(), AllocError>
    ensures { OnOk result (text.new
        ≡ text.old ++ flat_map (λ half. mark.now ++ halves_text half) all.now) }
{
    for half in all {
        let points = HalfPoints(u32::from(*half));
        write!(text, "{mark}{points}")?;
    }
    Ok(())
}

/// Puts the start ranks of seats, each behind a blank.
pub(crate) fn put_ranks(text: &mut Page, field: &Field, seats: &[u16]) -> Result<(), AllocError>
    ensures { OnOk result (text.new
        ≡ text.old ++ flat_map (λ seat. codes " " ++ rank_text field.now seat) seats.now) }
{
    for seat in seats {
        let start = start_at(field, *seat);
        write!(text, " {start}")?;
    }
    Ok(())
}

/// Puts the start ranks of seats with their scores, each behind a blank.
#[tactic(auto, unfolding(crate::specs::RoundTexts::scored_text))]
pub(crate) fn put_scored(
    text: &mut Page,
    telling: &Telling<'_>,
    seats: &[u16],
) -> Result<(), AllocError>
    ensures { OnOk result (text.new ≡ text.old ++ flat_map (scored_text telling.now) seats.now) }
{
    for seat in seats {
        let start = start_at(telling.field, *seat);
        let score = HalfPoints(u32::from(score_at(telling.field, *seat)));
        write!(text, " {start} ({score})")?;
    }
    Ok(())
}

/// Puts players with their scores, with a semicolon between two of them, or that there are none.
pub(crate) fn put_scored_words(
    text: &mut Page,
    telling: &Telling<'_>,
    seats: &[u16],
) -> Result<(), AllocError>
    ensures { OnOk result (text.new ≡ text.old ++ all_scored_words telling.now seats.now) }
{
    let [first, others @ ..] = seats else {
        return text.push_str("none");
    };
    put_one_scored(text, telling, *first)?;
    put_other_scored(text, telling, others)
}

// Puts players with their scores behind another one.
fn put_other_scored(text: &mut Page, telling: &Telling<'_>, seats: &[u16]) -> Result<(), AllocError>
    ensures { OnOk result (text.new
        ≡ text.old ++ flat_map (λ seat. codes "; " ++ scored_words telling.now seat) seats.now) }
{
    for seat in seats {
        put_scored_behind(text, telling, *seat)?;
    }
    Ok(())
}

// Puts a player with their score behind another one.
fn put_scored_behind(text: &mut Page, telling: &Telling<'_>, seat: u16) -> Result<(), AllocError>
    ensures { OnOk result (text.new ≡ text.old ++ (codes "; " ++ scored_words telling.now seat)) }
{
    text.push_str("; ")?;
    put_one_scored(text, telling, seat)
}

// Puts a player with their score.
#[tactic(auto, unfolding(crate::specs::RoundTexts::scored_words))]
fn put_one_scored(text: &mut Page, telling: &Telling<'_>, seat: u16) -> Result<(), AllocError>
    ensures { OnOk result (text.new ≡ text.old ++ scored_words telling.now seat) }
{
    let score = HalfPoints(u32::from(score_at(telling.field, seat)));
    put_seat(text, telling, seat)?;
    write!(text, " ({score})")
}

// The score of a seat; 0 behind the last one.
fn score_at(field: &Field, seat: u16) -> u16
    ensures { result ≡ score_at field.now seat }
{
    if usize::from(seat) < field.len() {
        field.score(seat)
    } else {
        0
    }
}

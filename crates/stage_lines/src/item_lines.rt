// The lines of what counts against the choice in a bracket, item by item (C.04.3 C.6 to C.19).
ghost use Rattle.std.specs.Prelude.{◌≡◌, ◌++◌, OnOk};
ghost use Rattle.std.specs.List.{flat_map};
ghost use Rattle.dutch_rounds.specs.Prelude.{IsStage};
ghost use Rattle.stage_lines.specs.StageItems.{counted_text, item_text};

use common_texts::Page;
use dutch_rounds::{Item, Stage, who_counts};
use round_lines::item_texts::{Counted, players_counted, put_list, put_next, put_psd, put_who};
use round_lines::telling::Telling;
use std::alloc::AllocError;

/// Puts what counts against the choice in a bracket, item by item, for items in the order in which they count: C.6
/// always, C.7 in an ordinary bracket, of C.8 to C.15 those that are not 0 with the players who count, and of C.16 to
/// C.19 those that are not empty.
///
/// # Errors
/// Memory was refused.
pub fn put_each_item(
    text: &mut Page,
    telling: &Telling<'_>,
    stage: &Stage,
    items: &[Item],
) -> Result<(), AllocError>
    requires { IsStage telling.now.facts stage.now }
    ensures { OnOk result (text.new ≡ text.old ++ flat_map (item_text telling.now stage.now) items.now) }
{
    for item in items {
        put_item(text, telling, stage, *item)?;
    }
    Ok(())
}

// Puts an item.
fn put_item(
    text: &mut Page,
    telling: &Telling<'_>,
    stage: &Stage,
    item: Item,
) -> Result<(), AllocError>
    requires { IsStage telling.now.facts stage.now }
    ensures { OnOk result (text.new ≡ text.old ++ item_text telling.now stage.now item) }
{
    let quality = stage.quality();
    match item {
        Item::Psd => put_psd(text, telling, item, quality.psd()),
        Item::NextBracket => put_next(text, telling, stage.reached().kind(), quality),
        Item::WideDifferences
        | Item::ThirdColours
        | Item::MissedPreferences
        | Item::MissedStrong
        | Item::DownAgain
        | Item::UpAgain
        | Item::DownAgainBefore
        | Item::UpAgainBefore => put_counted(text, telling, stage, item),
        Item::DownAgainBy => put_list(text, telling, item, quality.down_again_by()),
        Item::UpAgainBy => put_list(text, telling, item, quality.up_again_by()),
        Item::DownAgainBeforeBy => put_list(text, telling, item, quality.down_again_before_by()),
        Item::UpAgainBeforeBy => put_list(text, telling, item, quality.up_again_before_by()),
    }
}

// Puts a count, if it is not 0, and who counts.
#[tactic(auto, unfolding(crate::specs::StageItems::counted_text))]
fn put_counted(
    text: &mut Page,
    telling: &Telling<'_>,
    stage: &Stage,
    item: Item,
) -> Result<(), AllocError>
    requires { IsStage telling.now.facts stage.now }
    ensures { OnOk result (text.new ≡ text.old ++ counted_text telling.now stage.now item) }
{
    let count = players_counted(stage.quality(), item);
    if count == 0 {
        return Ok(());
    }
    let who = who_counts(telling.field, stage, item);
    let seats = who.as_slice();
    put_who(text, telling, item, Counted { count, seats })
}

// The cells that all entries put, one entry after the other.
ghost use Rattle.std.specs.Prelude.{◌≡◌, ◌<◌, ◌≤◌, [], IfOk, IfSome};
ghost use Rattle.entries.specs.Outcomes.{Gives};
ghost use Rattle.entries.specs.Steps.{AreWithin, IsInReport};
ghost use Rattle.entries.specs.Entered.{is_asked, is_reached, reached_round, round_of, with_entries, with_entry};
ghost use Rattle.entries.specs.Entered.{with_new_cell, with_new_cells};
ghost use Rattle.trf16_report.specs.declared.limits.TheConstants.{MOST_ROUNDS};

use crate::entry::{EntryOptions, Event, HandEntry, NewCell, NewCells, Slot};
use crate::fault::EntryFault;
use crate::new_cells::may_be_put;
use crate::one_entry::{are_known, are_named_once, cells_by};
use std::alloc::Global;
use trf16_report::{MOST_ROUNDS, Report};

// A bye that a player asked for, or an absence.
fn is_asked(event: Event) -> bool
    ensures { result ≡ is_asked event }
{
    match event {
        Event::Asked(_) => true,
        _ => false,
    }
}

// The round of an entry, whether it is reached or not.
fn round_of(round: Option<u8>, report: &Report<'_>, event: Event) -> u8
    ensures { result ≡ round_of round report.now event }
{
    let paired = report.rounds_played();
    match round {
        Some(round) => round,
        None if is_asked(event) => paired + 1,
        None => paired,
    }
}

// A round that was paired, or the next one, if a report may have it.
fn is_reached(report: &Report<'_>, round: u8) -> bool
    ensures { result ≡ is_reached report.now round }
{
    0 < round && round <= report.rounds_played() + 1 && usize::from(round) <= MOST_ROUNDS
}

// The round of an entry, if the report reaches it.
#[tactic(auto, unfolding(crate::specs::Entered::reached_round))]
fn reached_round(options: EntryOptions, report: &Report<'_>, event: Event) -> Result<u8, EntryFault>
    ensures given { Gives (λ x. x) result (reached_round options report.now event) }
    ensures within { IfOk result (λ round. (0 < round) × (round ≤ MOST_ROUNDS)) }
{
    let round = round_of(options.round, report, event);
    if is_reached(report, round) {
        Ok(round)
    } else {
        Err(EntryFault::NotReached { round })
    }
}

// Puts a cell behind those so far, if it may take the place of what stands there.
#[tactic(auto, unfolding(crate::specs::Entered::with_new_cell))]
fn put_cell(
    correct: bool,
    report: &Report<'_>,
    so_far: &mut Vec<NewCell>,
    new: NewCell,
) -> Result<(), EntryFault>
    requires within { IsInReport new }
    requires all { AreWithin so_far.old.items }
    ensures given { Gives (λ _. so_far.new.items) result (with_new_cell correct report.now so_far.old.items new) }
    ensures all { IfOk result (λ _. AreWithin so_far.new.items) }
{
    if !may_be_put(correct, report, so_far, new) {
        return Err(EntryFault::HasCell {
            player: new.slot.player,
            round: new.slot.round,
        });
    }
    so_far.push(new)?;
    Ok(())
}

// Puts the one or two cells of an entry.
#[tactic(auto, unfolding(crate::specs::Entered::with_new_cells))]
fn put_cells(
    correct: bool,
    report: &Report<'_>,
    so_far: &mut Vec<NewCell>,
    new: NewCells,
) -> Result<(), EntryFault>
    requires first { IsInReport new.first }
    requires second { IfSome new.second IsInReport }
    requires all { AreWithin so_far.old.items }
    ensures given { Gives (λ _. so_far.new.items) result (with_new_cells correct report.now so_far.old.items new) }
    ensures all { IfOk result (λ _. AreWithin so_far.new.items) }
{
    put_cell(correct, report, so_far, new.first)?;
    match new.second {
        Some(second) => put_cell(correct, report, so_far, second),
        None => Ok(()),
    }
}

// Puts the cells of one entry.
#[tactic(auto, unfolding(crate::specs::Entered::with_entry))]
fn put_entry(
    options: EntryOptions,
    report: &Report<'_>,
    so_far: &mut Vec<NewCell>,
    entry: HandEntry,
) -> Result<(), EntryFault>
    requires { AreWithin so_far.old.items }
    ensures given { Gives (λ _. so_far.new.items) result (with_entry options report.now so_far.old.items entry) }
    ensures all { IfOk result (λ _. AreWithin so_far.new.items) }
{
    let round = reached_round(options, report, entry.event)?;
    are_known(report, entry)?;
    are_named_once(so_far, round, entry)?;
    let slot = Slot {
        player: entry.player,
        round,
    };
    let new = cells_by(report, so_far, slot, entry.event)?;
    put_cells(options.correct, report, so_far, new)
}

/// The cells that all entries put, one entry after the other, or why the first is refused that is.
pub(crate) fn cells_of_all(
    alloc: Global,
    options: EntryOptions,
    report: &Report<'_>,
    entries: &[HandEntry],
) -> Result<Vec<NewCell>, EntryFault>
    ensures given { Gives (λ all. all.items) result (with_entries options report.now [] entries.now) }
    ensures within { IfOk result (λ all. AreWithin all.items) }
{
    let mut so_far = Vec::new(alloc);
    for entry in entries {
        put_entry(options, report, &mut so_far, *entry)?;
    }
    Ok(so_far)
}

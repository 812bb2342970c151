// The lines that tell why there is no pairing: who blocks, the odd groups behind them, and that nobody may have the bye
// (C.04.3 A.9).
ghost use Rattle.std.specs.Prelude.{◌≡◌, ◌++◌, IfOk, OnOk};
ghost use Rattle.dutch_rounds.specs.Prelude.{everybody};
ghost use Rattle.dutch_bracket.specs.Prelude.{AreSeats};
ghost use Rattle.stage_lines.specs.BarrierTexts.{barrier_text, blocked_line, blocked_words, group_text};
ghost use Rattle.stage_lines.specs.BarrierTexts.{groups_text, seats_with_label, lacking_text};
ghost use Rattle.round_lines.specs.Tellings.{in_wording};

use common_texts::Page;
use dutch_arrangements::{Numbers, numbered_from};
use dutch_player::Field;
use dutch_rounds::{Barrier, lacks_bye};
use round_lines::pieces::Piece::{Ranks, Seats, Text};
use round_lines::pieces::say;
use round_lines::telling::{Telling, in_wording};
use std::alloc::{AllocError, Global};

// All seats, by rank.
#[tactic(auto, using(dutch_rounds::proofs::LowerLemmas::everybody_inside))]
fn all_seats(field: &Field) -> Numbers
    ensures all { result.items ≡ everybody field.now }
    ensures seats { AreSeats field.now result.items }
{
    numbered_from(0, field.len())
}

/// Puts why there is no pairing: who blocks the round, the odd groups behind them, and that nobody may have the bye.
#[tactic(auto, unfolding(crate::specs::BarrierTexts::barrier_text))]
pub fn put_barrier(
    text: &mut Page,
    telling: &Telling<'_>,
    barrier: &Barrier,
) -> Result<(), AllocError>
    ensures { OnOk result (text.new ≡ text.old ++ barrier_text telling.now barrier.now) }
{
    put_blocked(text, telling, barrier)?;
    put_groups(text, telling, barrier)?;
    put_lacking(text, telling)
}

// Puts that nobody may have the bye, if it is so.
fn put_lacking(text: &mut Page, telling: &Telling<'_>) -> Result<(), AllocError>
    ensures { OnOk result (text.new ≡ text.old ++ lacking_text telling.now) }
{
    if !lacks_bye(telling.field) {
        return Ok(());
    }
    text.push_str(in_wording(
        telling.wording,
        "bye none\n",
        "One player would have to have the bye, and none of those present may have it.\n",
    ))
}

// Puts the line of who blocks.
fn put_blocked(text: &mut Page, telling: &Telling<'_>, barrier: &Barrier) -> Result<(), AllocError>
    ensures { OnOk result (text.new ≡ text.old ++ in_wording telling.now.wording
        (blocked_line telling.now barrier.now) (blocked_words telling.now barrier.now)) }
{
    let seats = seats_with_label(text.allocator(), telling, barrier, 0)?;
    put_blockers(text, telling, barrier, seats.as_slice())
}

// Puts the line of these who block, if anybody does.
#[tactic(auto, unfolding(crate::specs::BarrierTexts::blocked_line, crate::specs::BarrierTexts::blocked_words))]
fn put_blockers(
    text: &mut Page,
    telling: &Telling<'_>,
    barrier: &Barrier,
    seats: &[u16],
) -> Result<(), AllocError>
    requires { seats.now ≡ seats_with_label telling.now barrier.now 0 }
    ensures { OnOk result (text.new ≡ text.old ++ in_wording telling.now.wording
        (blocked_line telling.now barrier.now) (blocked_words telling.now barrier.now)) }
{
    let line = if barrier.has_blockers(telling.field) {
        Ranks(seats)
    } else {
        Text(" -")
    };
    let words = Seats(seats);
    say(
        text,
        telling,
        &[Text("blocked by"), line, Text("\n")],
        &[Text("Blocking players: "), words, Text(".\n")],
    )
}

// Puts the odd groups, in the order of their first players.
fn put_groups(text: &mut Page, telling: &Telling<'_>, barrier: &Barrier) -> Result<(), AllocError>
    ensures { OnOk result (text.new
        ≡ text.old ++ groups_text telling.now barrier.now (everybody telling.now.facts)) }
{
    let all = all_seats(telling.field);
    for seat in all.as_slice() {
        if barrier.opens_odd_group(telling.field, *seat) {
            put_group(text, telling, barrier, barrier.label(*seat))?;
        }
    }
    Ok(())
}

// Puts a group.
#[tactic(auto, unfolding(crate::specs::BarrierTexts::group_line, crate::specs::BarrierTexts::group_words))]
fn put_group(
    text: &mut Page,
    telling: &Telling<'_>,
    barrier: &Barrier,
    group: u16,
) -> Result<(), AllocError>
    ensures { OnOk result (text.new ≡ text.old ++ group_text telling.now barrier.now group) }
{
    let seats = seats_with_label(text.allocator(), telling, barrier, group)?;
    let (line, words) = (Ranks(seats.as_slice()), Seats(seats.as_slice()));
    let odd = "Odd group, whose players may meet only each other and the blocking players: ";
    say(
        text,
        telling,
        &[Text("group"), line, Text("\n")],
        &[Text(odd), words, Text(".\n")],
    )
}

// The players with a label, by rank.
fn seats_with_label(
    alloc: Global,
    telling: &Telling<'_>,
    barrier: &Barrier,
    group: u16,
) -> Result<Vec<u16>, AllocError>
    ensures { IfOk result (λ members. members.items ≡ seats_with_label telling.now barrier.now group) }
{
    let all = all_seats(telling.field);
    all.as_slice()
        .iter()
        .copied()
        .filter(|seat| barrier.label(*seat) == group)
        .collect(alloc)
}

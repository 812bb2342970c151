// The lines of `check --notes` beside a refusal: what was found.
ghost use Rattle.std.specs.Prelude.{◌≡◌, ◌≢◌, ◌≤◌, ◌++◌, [], codes, IfOk, Ok, OnOk};
ghost use Rattle.trf16_report.specs.Prelude.{verdict_unsummed};
ghost use Rattle.report_notes.specs.RefusalNotes.{are_lines_read, fits_in_bytes};
ghost use Rattle.replies.specs.RefusalNoteTexts as texts;
ghost use Rattle.replies.specs.RefusalTexts.{fault_text};
ghost use Rattle.replies.specs.Replies.{answer_of};
ghost use Rattle.replies.specs.Statuses.{refusal};

use crate::cells_note::put_cells_note;
use crate::extension_note::put_extension_note;
use crate::notes::put_note;
use crate::refusal_texts::put_fault;
use crate::repeated_note::put_repeated_note;
use crate::reply::{Reply, Status, Text};
use common_texts::{HalfPoints, Page, put_without_controls};
use report_notes as notes;
use report_notes::{ByteOrder, Columns};
use std::alloc::{AllocError, Global};
use trf16_report::{Excess, Fault, Report};

/// Why a report that stands in some bytes is refused, and as a note what was found.
pub fn refused_with_note(
    alloc: Global,
    fault: Fault,
    bytes: &[u8],
    bye: u16,
) -> Result<Reply, AllocError>
    requires known { fault ≢ Fault.OutOfMemory }
    requires worth { bye ≤ 2 }
    ensures { IfOk result (λ reply. answer_of reply
        ≡ texts.with_note (refusal fault) (texts.refusal_note fault bytes.now bye)) }
{
    let (mut text, mut note) = (Page::new(alloc), Page::new(alloc));
    put_fault(&mut text, fault)?;
    put_refusal_note(&mut note, fault, bytes, bye)?;
    Ok(Reply {
        status: Status::Refused,
        text: Text::Noted(text, note),
    })
}

// Puts what was found: some lines, or nothing.
fn put_refusal_note(text: &mut Page, fault: Fault, bytes: &[u8], bye: u16) -> Result<(), AllocError>
    requires { bye ≤ 2 }
    ensures { OnOk result (text.new ≡ text.old ++ texts.refusal_note fault bytes.now bye) }
{
    match notes::byte_order(bytes) {
        Some(order) => text.push_str(order_text(order)),
        None => put_unmarked_note(text, fault, bytes, bye),
    }
}

// Puts what was found in a text without the mark of UTF-16.
fn put_unmarked_note(
    text: &mut Page,
    fault: Fault,
    bytes: &[u8],
    bye: u16,
) -> Result<(), AllocError>
    requires { bye ≤ 2 }
    ensures { OnOk result (text.new ≡ text.old ++ texts.unmarked_note fault bytes.now bye) }
{
    match notes::zero_byte(bytes) {
        Some(place) => put_zero(text, place),
        None => put_found(text, fault, bytes, bye),
    }
}

#[tactic(auto, unfolding(crate::specs::RefusalNoteTexts::zero_text))]
fn put_zero(text: &mut Page, place: usize) -> Result<(), AllocError>
    ensures { OnOk result (text.new ≡ text.old ++ texts.zero_text place) }
{
    write!(
        text,
        "note byte {place} is 00: if this is UTF-16, save it as UTF-8\n"
    )
}

// The text is UTF-16.
fn order_text(order: ByteOrder) -> &'static str
    ensures { result.now ≡ texts.order_text order }
{
    match order {
        ByteOrder::Little => "note bytes 1 and 2 are FF FE: this is UTF-16, save it as UTF-8\n",
        ByteOrder::Big => "note bytes 1 and 2 are FE FF: this is UTF-16, save it as UTF-8\n",
    }
}

// Puts what was found in a text that is not UTF-16.
fn put_found(text: &mut Page, fault: Fault, bytes: &[u8], bye: u16) -> Result<(), AllocError>
    requires { bye ≤ 2 }
    ensures { OnOk result (text.new ≡ text.old ++ texts.found_note fault bytes.now bye) }
{
    match fault {
        Fault::Points { player } => put_points_note(text, player, bytes, bye),
        Fault::BadExtension { line } => put_extension_note(text, bytes, line),
        Fault::Duplicate { line } => put_repeated_note(text, bytes, line),
        Fault::Colours { player, round } | Fault::Results { player, round } => {
            put_cells_note(text, bytes, player, round)
        }
        Fault::NotMutual { player, round } => put_kind_or_cells(text, bytes, player, round),
        Fault::NoSuchOpponent { .. }
        | Fault::TooMany(Excess::Players | Excess::Rounds)
        | Fault::NoPlayers => put_kind(text, bytes),
        _ => put_line_note(text, fault, bytes, bye),
    }
}

// Puts the first line of a text that is not read for its kind, if there is one.
fn put_kind(text: &mut Page, bytes: &[u8]) -> Result<(), AllocError>
    ensures { OnOk result (text.new ≡ text.old ++ texts.kind_or bytes.now []) }
{
    match notes::first_kind_note(bytes) {
        Some(note) => put_note(text, note),
        None => Ok(()),
    }
}

// Puts the same, or else what a player's line and that of the opponent hold of a round.
fn put_kind_or_cells(
    text: &mut Page,
    bytes: &[u8],
    player: u16,
    round: usize,
) -> Result<(), AllocError>
    ensures { OnOk result (text.new
        ≡ text.old ++ texts.kind_or bytes.now (texts.cells_note bytes.now player round)) }
{
    match notes::first_kind_note(bytes) {
        Some(note) => put_note(text, note),
        None => put_cells_note(text, bytes, player, round),
    }
}

// Puts what was found where a player's points are refused.
fn put_points_note(text: &mut Page, player: u16, bytes: &[u8], bye: u16) -> Result<(), AllocError>
    requires { bye ≤ 2 }
    ensures { OnOk result (text.new
        ≡ text.old ++ texts.points_note player (verdict_unsummed bytes.now bye)) }
{
    match trf16_reader::read_unsummed(text.allocator(), bytes, bye) {
        Ok(report) => put_sums_note(text, &report, player),
        Err(Fault::OutOfMemory) => Err(AllocError),
        Err(fault) => put_next_refusal(text, fault),
    }
}

// Puts the points field of a player, the sums that it was compared with, and the first game without a result.
fn put_sums_note(text: &mut Page, report: &Report<'_>, player: u16) -> Result<(), AllocError>
    ensures { OnOk result (text.new ≡ text.old ++ texts.points_note player (Ok report.now)) }
{
    if let Some(sums) = notes::sums_of(report, player) {
        put_sums(text, sums)?;
    }
    put_unfinished(text, report.unfinished())
}

// Puts the sums that a points field was compared with.
#[tactic(auto, unfolding(crate::specs::RefusalNoteTexts::sums_text))]
fn put_sums(text: &mut Page, sums: notes::Sums) -> Result<(), AllocError>
    ensures { OnOk result (text.new ≡ text.old ++ texts.sums_text sums) }
{
    let player = sums.player;
    let field = HalfPoints(u32::from(sums.field));
    let paired = HalfPoints(u32::from(sums.paired));
    let all = HalfPoints(u32::from(sums.all));
    write!(
        text,
        "note player {player}: points field {field}, rounds paired {paired}, all rounds {all}\n"
    )
}

// Puts the first game without a result, if there is one.
#[tactic(auto, unfolding(crate::specs::RefusalNoteTexts::unfinished_text))]
fn put_unfinished(text: &mut Page, game: Option<(u16, usize)>) -> Result<(), AllocError>
    ensures { OnOk result (text.new ≡ text.old ++ texts.unfinished_text game) }
{
    match game {
        Some((player, round)) => {
            write!(text, "note player {player} round {round} has no result\n")
        }
        None => Ok(()),
    }
}

// Puts why a report would be refused next.
fn put_next_refusal(text: &mut Page, fault: Fault) -> Result<(), AllocError>
    ensures { OnOk result (text.new ≡ text.old ++ (codes "note then " ++ fault_text fault)) }
{
    text.push_str("note then ")?;
    put_fault(text, fault)
}

// Puts what was found where a line is refused.
#[tactic(auto, unfolding(crate::specs::RefusalNoteTexts::bytes_text))]
fn put_line_note(text: &mut Page, fault: Fault, bytes: &[u8], bye: u16) -> Result<(), AllocError>
    requires { bye ≤ 2 }
    ensures { OnOk result (text.new ≡ text.old ++ texts.line_note fault bytes.now bye) }
{
    match line_in_bytes(text.allocator(), fault, bytes, bye)? {
        Some(line) => write!(text, "note line {line}: fits if columns are bytes\n"),
        None => put_held(text, notes::columns_of(fault, bytes), bytes),
    }
}

// The line whose columns are at fault, if it fits where they are bytes.
fn line_in_bytes(
    alloc: Global,
    fault: Fault,
    bytes: &[u8],
    bye: u16,
) -> Result<Option<usize>, AllocError>
    requires { bye ≤ 2 }
    ensures { IfOk result (λ line. line ≡ texts.line_in_bytes fault bytes.now bye) }
{
    let Some(line) = notes::line_of(fault) else {
        return Ok(None);
    };
    if fits_in_bytes(alloc, bytes, bye, line)? {
        Ok(Some(line))
    } else {
        Ok(None)
    }
}

// The byte 0xFF is in no UTF-8, so the columns of the line that stands alone are bytes.
fn fits_in_bytes(alloc: Global, bytes: &[u8], bye: u16, n: usize) -> Result<bool, AllocError>
    requires { bye ≤ 2 }
    ensures { IfOk result (λ fits. fits ≡ fits_in_bytes bytes.now bye n) }
{
    if !notes::has_characters(bytes) {
        return Ok(false);
    }
    let mut alone = Vec::from_slice(alloc, notes::line_in(bytes, n))?;
    alone.extend_from_slice(b"\n\xFF")?;
    is_read(alloc, alone.as_slice(), bye)
}

fn is_read(alloc: Global, bytes: &[u8], bye: u16) -> Result<bool, AllocError>
    requires { bye ≤ 2 }
    ensures { IfOk result (λ read. read ≡ are_lines_read (verdict_unsummed bytes.now bye)) }
{
    match trf16_reader::read_unsummed(alloc, bytes, bye) {
        Ok(_) => Ok(true),
        Err(Fault::OutOfMemory) => Err(AllocError),
        Err(fault) => Ok(notes::are_lines_read(fault)),
    }
}

// Puts what the columns hold that a refusal is about, or nothing.
fn put_held(text: &mut Page, place: Option<Columns>, bytes: &[u8]) -> Result<(), AllocError>
    ensures { OnOk result (text.new ≡ text.old ++ texts.held_text place bytes.now) }
{
    let Some(place) = place else {
        return Ok(());
    };
    put_columns(text, place)?;
    put_without_controls(text, notes::text_at(bytes, place))?;
    text.push_str("\"\n")
}

#[tactic(auto, unfolding(crate::specs::RefusalNoteTexts::columns_text))]
fn put_columns(text: &mut Page, place: Columns) -> Result<(), AllocError>
    ensures { OnOk result (text.new ≡ text.old ++ texts.columns_text place) }
{
    let Columns { line, first, last } = place;
    write!(text, "note line {line}: columns {first} to {last} hold \"")
}

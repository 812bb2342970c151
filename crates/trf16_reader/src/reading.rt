// Reading a report from its text, line by line, with the first rule that it breaks.
ghost use Rattle.std.specs.Prelude.{◌≡◌, ℕ, ◌+◌, ◌<◌, ◌≤◌, ◌&&◌, ◌-◌, ◌++◌, false, replicate, Err, IfOk, MatchResult};
ghost use Rattle.std.specs.Prelude.{None, Ok, length, vec_len};
ghost use Rattle.std.specs.List.{AllByRecursion};
ghost use Rattle.std.specs.Str.{is_utf8};
ghost use Rattle.trf16_report.specs.Lines.{lines, columns, text};
ghost use Rattle.trf16_report.specs.Outcomes.{Gives};
ghost use Rattle.trf16_report.specs.Steps.{whole_report};
ghost use Rattle.trf16_report.specs.Sheet.{entry_of, known};
ghost use Rattle.trf16_report.specs.Notes.{is_marked, first_noted, Tells, TellsApart};
ghost use Rattle.trf16_report.specs.Summed.{verdict_unsummed};
ghost use Rattle.trf16_report.specs.Verdict as verdicts;
ghost use Rattle.trf16_report.specs.declared.cell.Cell.TheVariants.{Blank};
ghost use Rattle.trf16_report.specs.declared.limits.TheConstants.{MOST_PLAYERS, MOST_ROUNDS, LAST_COLUMN};

use crate::answering::{all_cells_fit, players_fit};
use crate::grammar::cell_from;
use std::alloc::Global;
use std::str;
use trf16_report as report;
use trf16_report::{Cell, Draft, Fault, Line, LineKind, Notes, Player, Report};

// Column k of line n must be blank.
#[tactic(auto, unfolding(trf16_report::specs::Verdict::blank_at))]
fn blank_at(n: usize, line: &Line<'_>, k: usize) -> Result<(), Fault>
    requires from_one { 0 < k }
    requires in_reach { k ≤ LAST_COLUMN }
    ensures { Gives (λ x. x) result (verdicts.blank_at n line.now k) }
{
    if report::is_blank(line.text(k, k)) {
        Ok(())
    } else {
        Err(Fault::Misaligned { line: n, column: k })
    }
}

// Some columns of line n must be blank.
#[tactic(auto, using(trf16_report::proofs::ReadingLemmas::blanks_more, trf16_report::proofs::ReadingLemmas::blanks_end))]
fn blanks_at(n: usize, line: &Line<'_>, columns: &[usize]) -> Result<(), Fault>
    requires { AllByRecursion (λ k. (0 < k) × (k ≤ LAST_COLUMN)) columns.now }
    ensures { Gives (λ x. x) result (verdicts.blanks_at n line.now columns.now) }
{
    for column in columns {
        blank_at(n, line, *column)?;
    }
    Ok(())
}

// The start rank that line n names.
#[tactic(auto, unfolding(trf16_report::specs::Verdict::start_number_at))]
fn start_number_at(n: usize, line: &Line<'_>) -> Result<u16, Fault>
    ensures { Gives (λ x. x) result (verdicts.start_number_at n line.now) }
{
    match report::number_in(line.text(5, 8)) {
        None | Some(0) => Err(Fault::BadNumber { line: n }),
        Some(start) => Ok(start),
    }
}

// The start rank that line n names, which no line before may have named.
#[tactic(auto, unfolding(trf16_report::specs::Verdict::start_at))]
fn start_at(draft: &Draft<'_>, n: usize, line: &Line<'_>) -> Result<u16, Fault>
    ensures given { Gives (λ x. x) result (verdicts.start_at draft.now n line.now) }
    ensures new { IfOk result (λ start. known draft.now start ≡ false) }
{
    let start = start_number_at(n, line)?;
    if draft.knows(start) {
        return Err(Fault::Duplicate { line: n });
    }
    Ok(start)
}

#[tactic(auto, unfolding(trf16_report::specs::Verdict::points_at))]
fn points_at(n: usize, line: &Line<'_>) -> Result<Option<u16>, Fault>
    ensures { Gives (λ x. x) result (verdicts.points_at n line.now) }
{
    match report::points_in(line.text(81, 84)) {
        None => Err(Fault::BadNumber { line: n }),
        Some(points) => Ok(points),
    }
}

// The round behind `before` others, in the ten columns behind theirs.
#[tactic(auto, unfolding(trf16_report::specs::Verdict::round_at))]
fn round_at(n: usize, line: &Line<'_>, before: usize) -> Result<Cell, Fault>
    requires { before < MOST_ROUNDS }
    ensures { Gives (λ x. x) result (verdicts.round_at n line.now before) }
{
    let at = 91 + 10 * before;
    blanks_at(n, line, &[at + 5, at + 7, at + 9, at + 10])?;
    match cell_from(
        line.text(at + 1, at + 4),
        line.text(at + 6, at + 6),
        line.text(at + 8, at + 8),
    ) {
        None => Err(Fault::BadCell {
            line: n,
            round: before + 1,
        }),
        Some(cell) => Ok(cell),
    }
}

// The rounds that a line goes on to: all others are blank.
fn rounds_at(alloc: Global, n: usize, line: &Line<'_>) -> Result<Vec<Cell>, Fault>
    ensures cells { Gives (λ cells. cells.items ++ replicate (MOST_ROUNDS - vec_len cells) Blank) result
        (verdicts.rounds_at n line.now 0 MOST_ROUNDS) }
    ensures few { IfOk result (λ cells. vec_len cells ≤ MOST_ROUNDS) }
{
    let mut cells = Vec::new(alloc);
    while cells.len() < report::MOST_ROUNDS && line.reaches(92 + 10 * cells.len()) {
        cells.push(round_at(n, line, cells.len())?)?;
    }
    Ok(cells)
}

#[tactic(auto, unfolding(trf16_report::specs::Verdict::cells_at))]
fn cells_at(alloc: Global, n: usize, line: &Line<'_>) -> Result<Vec<Cell>, Fault>
    ensures given { Gives (λ cells. cells.items) result (verdicts.cells_at n line.now) }
    ensures few { IfOk result (λ cells. vec_len cells ≤ MOST_ROUNDS) }
{
    let mut cells = rounds_at(alloc, n, line)?;
    let len = report::said_len(&cells);
    cells.truncate(len);
    Ok(cells)
}

// The player that line n names, behind those of a report so far.
#[tactic(auto, unfolding(trf16_report::specs::Verdict::player_at))]
fn player_at<'a>(
    alloc: Global,
    draft: &Draft<'a>,
    n: usize,
    line: &Line<'a>,
) -> Result<Player<'a>, Fault>
    ensures given { Gives entry_of result (verdicts.player_at draft.now n line.now) }
    ensures new { IfOk result (λ player. known draft.now player.start ≡ false) }
{
    blank_at(n, line, 4)?;
    let start = start_at(draft, n, line)?;
    let points = points_at(n, line)?;
    blanks_at(n, line, &[90, 91])?;
    let cells = cells_at(alloc, n, line)?;
    Ok(Player {
        start,
        line: n,
        points,
        left: report::trimmed(line.text(9, 80)),
        right: report::trimmed(line.text(85, 89)),
        cells,
    })
}

// XXR: the total of rounds.
#[tactic(auto, unfolding(trf16_report::specs::Verdict::rounds_onto))]
fn rounds_onto(draft: &mut Draft<'_>, n: usize, bytes: &[u8]) -> Result<(), Fault>
    ensures { Gives (λ _. draft.new) result (verdicts.rounds_onto draft.old n (columns draft.old.utf8 bytes.now)) }
{
    let (_, rest) = report::split_kind(bytes, draft.is_utf8());
    let Some(rounds) = report::rounds_in(rest) else {
        return Err(Fault::BadExtension { line: n });
    };
    if draft.has_total() {
        return Err(Fault::Duplicate { line: n });
    }
    draft.set_total(rounds);
    Ok(())
}

// XXC: the initial colour.
#[tactic(auto, unfolding(trf16_report::specs::Verdict::colour_onto))]
fn colour_onto(draft: &mut Draft<'_>, n: usize, bytes: &[u8]) -> Result<(), Fault>
    ensures { Gives (λ _. draft.new) result (verdicts.colour_onto draft.old n (columns draft.old.utf8 bytes.now)) }
{
    let (_, rest) = report::split_kind(bytes, draft.is_utf8());
    let Some(initial) = report::colour_in(draft.initial(), rest) else {
        return Err(Fault::BadExtension { line: n });
    };
    draft.set_initial(initial);
    Ok(())
}

// XXZ and XXP: the start ranks of those who are absent, or who do not meet.
#[tactic(auto, unfolding(trf16_report::specs::Verdict::start_ranks_onto))]
fn start_ranks_onto(draft: &mut Draft<'_>, n: usize, bytes: &[u8]) -> Result<(), Fault>
    ensures { Gives (λ _. draft.new) result (verdicts.start_ranks_onto draft.old n (columns draft.old.utf8 bytes.now)) }
{
    let (_, rest) = report::split_kind(bytes, draft.is_utf8());
    if !report::are_start_ranks(rest) {
        return Err(Fault::BadExtension { line: n });
    }
    Ok(())
}

// 001: a player; and whether their line goes on behind the last round.
#[tactic(auto, unfolding(trf16_report::specs::Verdict::player_onto))]
fn player_onto<'a>(
    alloc: Global,
    draft: &mut Draft<'a>,
    n: usize,
    bytes: &'a [u8],
) -> Result<bool, Fault>
    ensures given { Gives (λ _. draft.new) result (verdicts.player_onto draft.old n
        (columns draft.old.utf8 bytes.now)) }
    ensures long { IfOk result (λ long. long ≡ verdicts.is_too_long (columns draft.old.utf8 bytes.now)) }
{
    let line = Line::new(alloc, bytes, draft.is_utf8())?;
    let player = player_at(alloc, draft, n, &line)?;
    draft.enter(player)?;
    Ok(line.is_too_long())
}

// Reads line n, which is no player's, onto a report.
#[tactic(auto, unfolding(trf16_report::specs::Verdict::line_onto))]
fn other_line_onto(draft: &mut Draft<'_>, n: usize, kind: &[u8], bytes: &[u8]) -> Result<(), Fault>
    requires kind { kind.now ≡ text (columns draft.old.utf8 bytes.now) 1 3 }
    requires other { verdicts.is_player (columns draft.old.utf8 bytes.now) ≡ false }
    ensures { Gives (λ _. draft.new) result (verdicts.line_onto draft.old n (columns draft.old.utf8 bytes.now)) }
{
    if report::is_word(kind, b"XXR") {
        return rounds_onto(draft, n, bytes);
    }
    if report::is_word(kind, b"XXC") {
        return colour_onto(draft, n, bytes);
    }
    if report::is_word(kind, b"XXZ") || report::is_word(kind, b"XXP") {
        return start_ranks_onto(draft, n, bytes);
    }
    Ok(())
}

// Reads line n onto a report, and tells whether it is a player's that goes on behind the last round.
#[tactic(auto, unfolding(trf16_report::specs::Verdict::line_onto))]
fn line_onto<'a>(
    alloc: Global,
    draft: &mut Draft<'a>,
    n: usize,
    bytes: &'a [u8],
) -> Result<bool, Fault>
    ensures given { Gives (λ _. draft.new) result (verdicts.line_onto draft.old n (columns draft.old.utf8 bytes.now)) }
    ensures long { let line = columns draft.old.utf8 bytes.now in IfOk result
        (λ long. long ≡ (verdicts.is_player line && verdicts.is_too_long line)) }
{
    let (kind, _) = report::split_kind(bytes, draft.is_utf8());
    if kind == b"001".as_slice() {
        return player_onto(alloc, draft, n, bytes);
    }
    other_line_onto(draft, n, kind, bytes)?;
    Ok(false)
}

// Reads all lines onto a report, notes what they say, and tells whether a player's line goes on behind the last round.
fn lines_onto<'a>(
    alloc: Global,
    draft: &mut Draft<'a>,
    notes: &mut Notes,
    text: &'a [u8],
) -> Result<bool, Fault>
    requires absent { (start : ℕ) → is_marked notes.old start ≡ false }
    requires firsts { (kind : LineKind) → first_noted notes.old kind ≡ None }
    requires together { notes.old.together ≡ false }
    requires fresh { draft.old.carried ≡ (verdicts.without_players draft.old.utf8
        (lines text.now) draft.old.bye).carried }
    ensures given { Gives (λ _. draft.new) result (verdicts.lines_onto draft.old 1 (lines text.now)) }
    ensures long { IfOk result (λ long. long ≡ verdicts.has_too_many_rounds draft.old.utf8 (lines text.now)) }
    ensures noted { IfOk result (λ _. Tells notes.new draft.new) }
{
    let utf8 = draft.is_utf8();
    let mut rest = text;
    let mut n = 1;
    let mut long = false;
    while !rest.is_empty() {
        let (line, after) = report::next_line(rest);
        let too_long = line_onto(alloc, draft, n, line)?;
        long = long || too_long;
        notes.note(n, line, utf8);
        rest = after;
        n += 1;
    }
    Ok(long)
}

fn is_utf8(bytes: &[u8]) -> bool
    ensures { result ≡ is_utf8 bytes.now }
{
    str::from_utf8(bytes).is_ok()
}

// Refuses a report that is too large, or that has no players.
#[tactic(auto, unfolding(trf16_report::specs::Verdict::sized))]
fn has_size(draft: &Draft<'_>, too_long: bool) -> Result<(), Fault>
    ensures given { Gives (λ _. draft.now) result (verdicts.sized draft.now too_long) }
    ensures few_players { IfOk result (λ _. length draft.now.players ≤ MOST_PLAYERS) }
    ensures few_rounds { IfOk result (λ _. verdicts.names_too_many_rounds draft.now ≡ false) }
{
    let count = draft.count();
    if report::MOST_PLAYERS < count {
        return Err(Fault::TooMany(report::Excess::Players));
    }
    if too_long || draft.names_too_many_rounds() {
        return Err(Fault::TooMany(report::Excess::Rounds));
    }
    if count == 0 {
        return Err(Fault::NoPlayers);
    }
    Ok(())
}

// Reads all lines onto a report, notes what they say, looks at its size, and answers who is named together.
#[tactic(auto, unfolding(trf16_report::specs::Steps::whole_report, trf16_report::specs::Verdict::sized))]
fn read_whole<'a>(
    alloc: Global,
    draft: &mut Draft<'a>,
    notes: &mut Notes,
    text: &'a [u8],
) -> Result<report::Apart, Fault>
    requires absent { (start : ℕ) → is_marked notes.old start ≡ false }
    requires firsts { (kind : LineKind) → first_noted notes.old kind ≡ None }
    requires together { notes.old.together ≡ false }
    requires fresh { draft.old.carried ≡ (verdicts.without_players draft.old.utf8
        (lines text.now) draft.old.bye).carried }
    ensures given { Gives (λ _. draft.new) result (whole_report draft.old (lines text.now)) }
    ensures noted { IfOk result (λ _. Tells notes.new draft.new) }
    ensures told_apart { IfOk result (λ apart. TellsApart apart draft.new) }
    ensures few_players { IfOk result (λ _. length draft.new.players ≤ MOST_PLAYERS) }
    ensures few_rounds { IfOk result (λ _. verdicts.names_too_many_rounds draft.new ≡ false) }
{
    let too_long = lines_onto(alloc, draft, notes, text)?;
    has_size(draft, too_long)?;
    Ok(draft.apart(alloc, notes)?)
}

// The report that a text is, before the rules on its players are looked at.
fn laid_out<'a>(alloc: Global, bytes: &'a [u8], bye: u16) -> Result<Report<'a>, Fault>
    requires { bye ≤ 2 }
    ensures { Gives (λ report. report) result (verdicts.laid_out bytes.now bye) }
{
    if report::MOST_BYTES < bytes.len() {
        return Err(Fault::TooMany(report::Excess::Bytes));
    }
    let text = report::skip_marks(bytes);
    let mut notes = Notes::new(alloc)?;
    let mut draft = Draft::new(alloc, text, is_utf8(text), bye);
    let apart = read_whole(alloc, &mut draft, &mut notes, text)?;
    Ok(draft.into_report(notes, apart))
}

// A report, unless its players break a rule.
fn report_if_fitting<'a>(report: Report<'a>, fits: Result<(), Fault>) -> Result<Report<'a>, Fault>
    ensures { MatchResult fits (λ _. result ≡ Ok report.entry) (λ fault. result ≡ Err fault) }
{
    match fits {
        Ok(()) => Ok(report),
        Err(fault) => Err(fault),
    }
}

/// Reads a report in which the pairing-allocated bye gives 2 half points, as `read_with` does.
///
/// # Errors
/// Those of `read_with`.
pub fn read<'a>(alloc: Global, bytes: &'a [u8]) -> Result<Report<'a>, Fault>
    ensures { Gives (λ report. report) result (verdicts.verdict bytes.now 2) }
{
    read_with(alloc, bytes, 2)
}

/// Reads a report of at most `MOST_BYTES` bytes, `MOST_PLAYERS` players and `MOST_ROUNDS` rounds, in which the
/// pairing-allocated bye gives `bye` half points, 0 to 2: the report that the text is, or the first rule that it
/// breaks. A column is a character if the text is UTF-8, else a byte; byte order marks in front are skipped.
///
/// # Errors
/// Too many bytes is told first; then what is wrong with a line, in the order of the lines; then too many players, too
/// many rounds, and no players; then for each player in the order of the lines what does not fit in their rounds, and
/// then their points. Want of memory may come at any growth.
#[tactic(auto, unfolding(trf16_report::specs::Verdict::verdict))]
pub fn read_with<'a>(alloc: Global, bytes: &'a [u8], bye: u16) -> Result<Report<'a>, Fault>
    requires { bye ≤ 2 }
    ensures { Gives (λ report. report) result (verdicts.verdict bytes.now bye) }
{
    let report = laid_out(alloc, bytes, bye)?;
    let fits = players_fit(&report);
    report_if_fitting(report, fits)
}

/// Reads a report as `read_with` does, but for the last rule: the points fields are read, and not compared with any
/// sum.
///
/// # Errors
/// Those of `read_with`, in the same order, but that a points field is no sum.
#[tactic(auto, unfolding(trf16_report::specs::Summed::verdict_unsummed))]
pub fn read_unsummed<'a>(alloc: Global, bytes: &'a [u8], bye: u16) -> Result<Report<'a>, Fault>
    requires { bye ≤ 2 }
    ensures { Gives (λ report. report) result (verdict_unsummed bytes.now bye) }
{
    let report = laid_out(alloc, bytes, bye)?;
    let fits = all_cells_fit(&report);
    report_if_fitting(report, fits)
}

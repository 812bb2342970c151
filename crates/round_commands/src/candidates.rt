// The command `candidates`: a bracket, its shape, and the candidates of that shape in the order of article D.
ghost use Rattle.std.specs.Prelude.{◌≡◌, ◌≤◌, IfOk, Ok};
ghost use Rattle.trf16_report.specs.Prelude.{verdict};
ghost use Rattle.dutch_arrangements.specs.Prelude.{Fits, IsIn, arrangements, candidates, rest};
ghost use Rattle.dutch_bracket.specs.Prelude.{IsOf, frame_of};
ghost use Rattle.round_commands.specs.CandidateAnswers.{AnswersCandidates, InField, Lists, AnswersFound, coming_of, status_of};
ghost use Rattle.round_commands.specs.Known.{CanBeListed};
ghost use Rattle.replies.specs.Prelude.{answer_of, not_of_bracket, not_reached, seen_before};

use common_texts::Page;
use dutch_arrangements::{Budget, Cursor, FittingShape, Rule, Shape};
use dutch_choice::finder::Finder;
use dutch_listing::Candidates;
use dutch_player::{Field, FieldFault};
use dutch_rounds::{BracketAt, Reached, bracket_at};
use replies::refusal::{bracket_undecided, cannot_be_paired, no_pairing};
use replies::views::{not_seen, read_before};
use replies::{Reply, Status, texts};
use requests::CandidatesOptions;
use round_lines::bracket_texts::{put_bracket_line, put_ending};
use round_lines::listing::{Bracket, Ending, RemainingCandidates, put_candidates};
use std::alloc::{AllocError, Global};
use trf16_report::Report;

/// What `candidates` says of the bytes of a report in which the pairing-allocated bye gives `bye` half points.
#[inline(never)]
pub fn candidates<F: Finder>(
    alloc: Global,
    options: &CandidatesOptions<'_>,
    bytes: &[u8],
    bye: u16,
) -> Result<Reply, AllocError>
    requires { bye ≤ 2 }
    ensures { IfOk result (λ reply. AnswersCandidates options.now
        (seen_before options.now.round (verdict bytes.now bye)) (answer_of reply)) }
{
    match read_before(alloc, bytes, bye, options.round)? {
        Ok(report) => of_report::<F>(alloc, options, &report),
        Err(why) => not_seen(alloc, why),
    }
}

// What `candidates` says of an accepted report.
fn of_report<F: Finder>(
    alloc: Global,
    options: &CandidatesOptions<'_>,
    report: &Report<'_>,
) -> Result<Reply, AllocError>
    ensures { IfOk result (λ reply. AnswersCandidates options.now (Ok report.now) (answer_of reply)) }
{
    match Field::new(alloc, report, options.rounds, options.initial) {
        Ok(field) => of_field::<F>(alloc, options, &field),
        Err(FieldFault::OutOfMemory) => Err(AllocError),
        Err(fault) => cannot_be_paired(alloc, fault),
    }
}

// What `candidates` says of those whom the next round is paired from.
#[tactic(auto, using(crate::proofs::CandidateLemmas::told, crate::proofs::CandidateLemmas::can_be_listed))]
fn of_field<F: Finder>(
    alloc: Global,
    options: &CandidatesOptions<'_>,
    field: &Field,
) -> Result<Reply, AllocError>
    ensures { IfOk result (λ reply. InField options.now (Ok field.now) (answer_of reply)) }
{
    let found = bracket_at::<F>(alloc, field, options.steps, options.bracket)?;
    tell(alloc, options, field, &found)
}

// What is said of it.
fn tell(
    alloc: Global,
    options: &CandidatesOptions<'_>,
    field: &Field,
    found: &BracketAt,
) -> Result<Reply, AllocError>
    requires { CanBeListed field.now found.now }
    ensures { IfOk result (λ reply. AnswersFound options.now field.now found.now (answer_of reply)) }
{
    match found {
        BracketAt::Bracket { reached, shape } => {
            let shape = *shape;
            let asked = ListedBracket {
                field,
                reached,
                shape,
            };
            list(alloc, options, &asked)
        }
        BracketAt::NotReached => tell_not_reached(alloc, options.bracket),
        BracketAt::NoPairing => Ok(no_pairing()),
        BracketAt::Undecided { bracket, used } => bracket_undecided(alloc, *bracket, *used),
    }
}

// A bracket whose candidates are asked for: one of a field, and the shape in which they are listed.
#[derive(Drop)]
struct ListedBracket<'a> {
    field: &'a Field,
    reached: &'a Reached,
    shape: Shape,
}

// All candidates of a bracket and a shape, on the heap. (Apart from its caller, as a listing is on the stack until it
// is moved.)
#[inline(never)]
fn all_candidates<'a, R: Rule>(
    alloc: Global,
    fitting: FittingShape<'a>,
    rule: &'a R,
) -> Result<Box<Candidates<'a, R>>, AllocError>
    ensures coming { IfOk result (λ all. all.value.coming
        ≡ candidates (R.meets rule.now) (R.may_be_left rule.now) fitting.entry.bracket.now fitting.entry.shape) }
    ensures frame { IfOk result (λ all. all.value.frame ≡ fitting.entry.bracket.now) }
{
    Ok(Box::new(alloc, Candidates::new(fitting.bracket, fitting.shape, rule))?)
}

// Those that stand behind a cursor, likewise.
#[inline(never)]
fn candidates_behind<'a, R: Rule>(
    alloc: Global,
    fitting: FittingShape<'a>,
    rule: &'a R,
    cursor: Cursor,
) -> Result<Box<Candidates<'a, R>>, AllocError>
    requires given { IsIn cursor (arrangements fitting.bracket.now fitting.shape) }
    ensures coming { IfOk result (λ others. others.value.coming
        ≡ rest (R.meets rule.now) (R.may_be_left rule.now) fitting.entry.bracket.now fitting.entry.shape cursor) }
    ensures frame { IfOk result (λ others. others.value.frame ≡ fitting.entry.bracket.now) }
{
    let behind = Candidates::from(fitting.bracket, fitting.shape, rule, cursor);
    Ok(Box::new(alloc, behind)?)
}

// A bracket and its candidates, all or those behind the cursor.
#[inline(never)]
#[tactic(auto, using(crate::proofs::CandidateLemmas::cursor_is_in, crate::proofs::CandidateLemmas::not_listed))]
fn list(
    alloc: Global,
    options: &CandidatesOptions<'_>,
    asked: &ListedBracket<'_>,
) -> Result<Reply, AllocError>
    requires of { IsOf asked.now.field.now asked.now.reached.now }
    requires fits { Fits (frame_of asked.now.field.now asked.now.reached.now) asked.now.shape }
    ensures { IfOk result (λ reply. Lists options.now asked.now.field.now asked.now.reached.now asked.now.shape
        (coming_of asked.now.field.now asked.now.reached.now asked.now.shape options.now.from) (answer_of reply)) }
{
    let ListedBracket {
        field,
        reached,
        shape,
    } = *asked;
    let frame = reached.frame(field);
    let rule = reached.rule(field);
    let fitting = FittingShape {
        bracket: &frame,
        shape,
    };
    match &options.from {
        None => {
            let mut coming = all_candidates(alloc, fitting, &rule)?;
            list_coming(alloc, options, asked, &mut *coming)
        }
        Some(from) => match Cursor::read(from.as_str(), &frame, shape) {
            Ok(cursor) => {
                let mut coming = candidates_behind(alloc, fitting, &rule, cursor)?;
                list_coming(alloc, options, asked, &mut *coming)
            }
            Err(_) => tell_not_of_bracket(alloc, options.bracket),
        },
    }
}

// A bracket and the candidates to come.
#[tactic(auto, using(crate::proofs::CandidateLemmas::listed))]
fn list_coming<'a, R: Rule>(
    alloc: Global,
    options: &CandidatesOptions<'_>,
    asked: &ListedBracket<'a>,
    candidates: &mut Candidates<'a, R>,
) -> Result<Reply, AllocError>
    requires frame { candidates.old.frame ≡ frame_of asked.now.field.now asked.now.reached.now }
    requires coming { coming_of asked.now.field.now asked.now.reached.now asked.now.shape options.now.from
        ≡ Ok candidates.old.coming }
    ensures { IfOk result (λ reply. Lists options.now asked.now.field.now asked.now.reached.now asked.now.shape
        (coming_of asked.now.field.now asked.now.reached.now asked.now.shape options.now.from) (answer_of reply)) }
{
    let mut budget = Budget {
        limit: options.steps,
        used: 0,
    };
    let bracket = Bracket {
        field: asked.field,
        reached: asked.reached,
    };
    let coming = RemainingCandidates {
        bracket,
        candidates,
    };
    let mut text = Page::new(alloc);
    put_bracket_line(
        &mut text,
        options.bracket,
        asked.reached.kind(),
        asked.shape,
    )?;
    let ending = put_candidates(&mut text, coming, options.count, &mut budget)?;
    put_ending(&mut text, options.bracket, ending)?;
    Ok(Reply::of_page(status_of(ending), text))
}

// The status of a listing that ended so.
fn status_of(ending: Ending) -> Status
    ensures { result ≡ status_of ending }
{
    match ending {
        Ending::AtEnd | Ending::AtCount => Status::Done,
        Ending::Stopped { .. } => Status::Undecided,
    }
}

// The round ends before the bracket that is asked for.
fn tell_not_reached(alloc: Global, number: u16) -> Result<Reply, AllocError>
    ensures { IfOk result (λ reply. answer_of reply ≡ not_reached number) }
{
    let mut text = Page::new(alloc);
    texts::put_not_reached(&mut text, number)?;
    Ok(Reply::of_page(Status::BadWords, text))
}

// The cursor is not one of the bracket that is asked for.
fn tell_not_of_bracket(alloc: Global, number: u16) -> Result<Reply, AllocError>
    ensures { IfOk result (λ reply. answer_of reply ≡ not_of_bracket number) }
{
    let mut text = Page::new(alloc);
    texts::put_not_of_bracket(&mut text, number)?;
    Ok(Reply::of_page(Status::BadWords, text))
}

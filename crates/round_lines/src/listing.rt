// The lines of candidates, as many as are asked for, one after the other.
ghost use Rattle.std.specs.Prelude.{◌≡◌, ◌++◌, IfOk, OnOk, codes};
ghost use Rattle.std.specs.List.{flat_map};
ghost use Rattle.std.specs.Fmt.{decimal};
ghost use Rattle.dutch_arrangements.specs.Prelude.{Spends, cursor_text, list_text};
ghost use Rattle.dutch_bracket.specs.Prelude.{frame_of};
ghost use Rattle.round_lines.specs.Listings.{IsListing, Puts, StopsAtLimit};
ghost use Rattle.round_lines.specs.CandidateTexts.{down_text, candidate_text, line_text, pair_text, pairs_text};
ghost use Rattle.round_lines.specs.CandidateTexts.{start_of};

use common_texts::Page;
use dutch_arrangements::{Budget, Candidate, Rule, Step};
use dutch_bracket::Reached;
use dutch_listing::Candidates;
use dutch_player::Field;
use std::alloc::AllocError;

/// How a listing ended.
#[derive(Clone, Copy)]
pub enum Ending {
    /// No candidate is left.
    AtEnd,
    /// As many came as were asked for.
    AtCount,
    /// The limit of steps, which is `used`, was reached first.
    Stopped { used: u64 },
}

/// A bracket of a field, whose numbers are told as start ranks.
#[derive(Drop)]
pub struct Bracket<'a> {
    pub field: &'a Field,
    pub reached: &'a Reached,
}

/// A bracket, and its candidates that are to come. (They are lent, as a listing is large.)
#[derive(Drop)]
pub struct RemainingCandidates<'a, 'c, R: Rule> {
    pub bracket: Bracket<'a>,
    pub candidates: &'c mut Candidates<'a, R>,
}

/// Puts the lines of the next `count` candidates, or of fewer if no more are left or all steps of the budget are used
/// up before, and says how they end.
///
/// # Errors
/// Memory was refused.
#[tactic(auto, using(crate::proofs::ListingLemmas::underway_none, crate::proofs::ListingLemmas::underway_line, crate::proofs::ListingLemmas::underway_end, crate::proofs::ListingLemmas::underway_stopped, crate::proofs::ListingLemmas::underway_count))]
pub fn put_candidates<R: Rule>(
    text: &mut Page,
    coming: RemainingCandidates<'_, '_, R>,
    count: usize,
    budget: &mut Budget,
) -> Result<Ending, AllocError>
    requires { coming.candidates.now.frame ≡ frame_of coming.bracket.field.now coming.bracket.reached.now }
    ensures listing { IfOk result (λ ending. Puts text.old text.new
        (IsListing (line_text coming.entry.bracket.field.now coming.entry.bracket.reached.now)
        coming.entry.candidates.now.coming count budget.old.limit ending)) }
    ensures stopped { IfOk result (λ ending. StopsAtLimit ending budget.new) }
    ensures spends { Spends budget.old budget.new }
{
    let RemainingCandidates {
        bracket,
        candidates,
    } = coming;
    let mut done = 0;
    while done < count {
        match candidates.next(budget) {
            Step::Found(candidate) => put_line(text, &bracket, &candidate)?,
            Step::End => return Ok(Ending::AtEnd),
            Step::Undecided => return Ok(Ending::Stopped { used: budget.used }),
        }
        done += 1;
    }
    Ok(Ending::AtCount)
}

/// Puts the line of a candidate: its cursor, its pairs, and its downfloaters.
#[tactic(auto, unfolding(crate::specs::CandidateTexts::candidate_text))]
pub fn put_line(
    text: &mut Page,
    bracket: &Bracket<'_>,
    candidate: &Candidate,
) -> Result<(), AllocError>
    ensures { OnOk result (text.new
        ≡ text.old ++ candidate_text bracket.now.field.now bracket.now.reached.now candidate.now) }
{
    put_cursor(text, candidate)?;
    put_pairs(text, bracket, candidate.s1(), candidate.s2())?;
    put_pairs(text, bracket, candidate.s1r(), candidate.s2r())?;
    put_down(text, bracket, candidate.down())?;
    text.push_str("\n")
}

/// Puts the cursor of a candidate, list by list. (A cursor is large, and so is its text.)
pub(crate) fn put_cursor(text: &mut Page, candidate: &Candidate) -> Result<(), AllocError>
    ensures { OnOk result (text.new ≡ text.old ++ cursor_text candidate.now.lists) }
{
    put_list(text, candidate.s1())?;
    text.push_str("/")?;
    put_list(text, candidate.s2())?;
    text.push_str("/")?;
    put_list(text, candidate.s1r())?;
    text.push_str("/")?;
    put_list(text, candidate.s2r())
}

// Puts the numbers of a list with commas between them, or 0 where there is none.
fn put_list(text: &mut Page, numbers: &[u16]) -> Result<(), AllocError>
    ensures { OnOk result (text.new ≡ text.old ++ list_text numbers.now) }
{
    match numbers {
        [] => text.push_str("0"),
        [first, others @ ..] => {
            write!(text, "{first}")?;
            put_others(text, others)
        }
    }
}

// Puts numbers with a comma before each.
fn put_others(text: &mut Page, numbers: &[u16]) -> Result<(), AllocError>
    ensures { OnOk result (text.new ≡ text.old ++ flat_map (λ n. codes "," ++ decimal n) numbers.now) }
{
    for number in numbers {
        write!(text, ",{number}")?;
    }
    Ok(())
}

impl<'a> Bracket<'a> {
    // The start rank of a number; 0 for a number that is none of the bracket's.
    fn start_of(&self, number: u16) -> u16
        ensures { result ≡ start_of self.now.field.now self.now.reached.now number }
    {
        if !self.reached.has(number) {
            return 0;
        }
        self.field.start_rank(self.reached.seat(number))
    }
}

// Puts the pairs of two lists, place by place.
#[tactic(auto, using(crate::proofs::ListingLemmas::pairs_end))]
fn put_pairs(
    text: &mut Page,
    bracket: &Bracket<'_>,
    firsts: &[u16],
    seconds: &[u16],
) -> Result<(), AllocError>
    ensures { OnOk result (text.new ≡ text.old
        ++ pairs_text bracket.now.field.now bracket.now.reached.now firsts.now seconds.now) }
{
    for (i, first) in firsts.iter().enumerate() {
        if seconds.len() <= i {
            return Ok(());
        }
        put_pair(text, bracket, *first, seconds[i])?;
    }
    Ok(())
}

// Puts two who are paired.
fn put_pair(
    text: &mut Page,
    bracket: &Bracket<'_>,
    first: u16,
    second: u16,
) -> Result<(), AllocError>
    ensures { OnOk result (text.new
        ≡ text.old ++ pair_text bracket.now.field.now bracket.now.reached.now first second) }
{
    let (first, second) = (bracket.start_of(first), bracket.start_of(second));
    write!(text, " {first}-{second}")
}

// Puts those who are left over.
fn put_down(text: &mut Page, bracket: &Bracket<'_>, down: &[u16]) -> Result<(), AllocError>
    ensures { OnOk result (text.new
        ≡ text.old ++ down_text bracket.now.field.now bracket.now.reached.now down.now) }
{
    if down.is_empty() {
        return Ok(());
    }
    text.push_str(" down")?;
    put_each(text, bracket, down)
}

// Puts players with a blank before each.
fn put_each(text: &mut Page, bracket: &Bracket<'_>, numbers: &[u16]) -> Result<(), AllocError>
    ensures { OnOk result (text.new ≡ text.old
        ++ flat_map (λ n. codes " " ++ decimal (start_of bracket.now.field.now bracket.now.reached.now n))
        numbers.now) }
{
    for number in numbers {
        let start = bracket.start_of(*number);
        write!(text, " {start}")?;
    }
    Ok(())
}

// Why a player does not meet another one in the next round, or does not have the bye: what stands against it first.
ghost use Rattle.std.specs.Prelude.{◌≡◌, ◌≤◌, ◌++◌, IfOk, IfSome, MatchOption, None, OnOk, Some, length, option_copied};
ghost use Rattle.std.specs.List.{AllByRecursion};
ghost use Rattle.dutch_sequence.specs.declared.numbers.TheConstants.{LIMIT};
ghost use Rattle.dutch_rounds.specs.Prelude.{IsStage};
ghost use Rattle.dutch_candidates.specs.Wishes.{grants};
ghost use Rattle.stage_lines.specs.InsteadTexts.{in_bracket, instead_text};
ghost use Rattle.command_line.specs.InsteadAnswers as answers;
ghost use Rattle.player_lines.specs.Obstacles.{obstacle_text};
ghost use Rattle.replies.specs.Prelude.{answer_of, done};

use crate::not_paired::tell_undecided;
use common_texts::Page;
use dutch_choice::finder::Finder;
use dutch_player::Field;
use dutch_rounds::{Instead, Stage, Wish, best_instead};
use player_lines::{Obstacle, against_bye, against_meeting, put_obstacle};
use replies::{Reply, Status};
use round_lines::Asked;
use round_lines::telling::Telling;
use stage_lines::instead_lines::{Searched, put_found, put_front, put_granted};
use std::alloc::{AllocError, Global};
use std::marker::Model;

/// Whom a player asks for instead.
#[derive(Clone, Copy)]
pub enum Rival {
    /// Nobody: the player asks for the bye.
    Bye,
    /// The player of a seat.
    Seat(u16),
}

/// A round that is paired: how it is told, the brackets that it reached, the seat that has the bye, if one has, and
/// whether the round has other boards in the report.
#[derive(Drop)]
pub struct Paired<'a> {
    pub telling: &'a Telling<'a>,
    pub stages: &'a [Stage],
    pub bye: &'a [u16],
    pub other_boards: bool,
}

impl<'a> Model for Paired<'a> {
    ghost use Rattle.command_line.specs.InsteadAnswers.{PairedRound};

    ghost Value = { PairedRound };

    ghost view = { λ r. record {
      telling = r.telling.now;
      stages = r.stages.now;
      bye = r.bye.now;
      other_boards = r.other_boards;
    } };
}

/// What is asked: by whom and for whom, by their start ranks, or by 0 for the bye; and in how many steps a candidate
/// may be searched for.
#[derive(Clone, Copy)]
pub struct AskedInSteps {
    pub asked: Asked,
    pub steps: u64,
}

/// Answers a player who asks for another opponent instead, or for the bye. The answer is the first of these that stands
/// against it:
///
/// - one of the two is absent;
/// - they have met (C.1), a line `XXP` keeps them apart, or C.3 does;
/// - for the bye: C.2, or that nobody has it;
/// - what is chosen in the bracket that decides it (`decided_in`), with the best candidate there that would grant it.
///
/// # Errors
/// Memory was refused.
#[inline(never)]
pub fn instead<F: Finder>(
    alloc: Global,
    round: &Paired<'_>,
    asking: AskedInSteps,
) -> Result<Reply, AllocError>
    requires { AllByRecursion (IsStage round.now.telling.facts) round.now.stages }
    ensures { IfOk result (λ reply. answers.AnswersInstead round.now asking.asked.player asking.asked.number
        asking.steps (answer_of reply)) }
{
    let (telling, asked) = (round.telling, asking.asked);
    let Some(player) = telling.field.seat_with(asked.player) else {
        return stands_against(alloc, telling, asked, Obstacle::Absent);
    };
    let Some(rival) = rival_of(telling.field, asked.number) else {
        return stands_against(alloc, telling, asked, Obstacle::Absent);
    };
    of_meeting::<F>(alloc, round, Meeting { player, rival }, asking)
}

// What is answered where both are present.
fn of_meeting<F: Finder>(
    alloc: Global,
    round: &Paired<'_>,
    meeting: Meeting,
    asking: AskedInSteps,
) -> Result<Reply, AllocError>
    requires { AllByRecursion (IsStage round.now.telling.facts) round.now.stages }
    ensures { IfOk result (λ reply. answers.AnswersPresent round.now.telling asking.steps asking.asked.player
        asking.asked.number (answers.obstacle_of round.now meeting.player meeting.rival)
        (answers.decided_in round.now.stages meeting.player meeting.rival) (answer_of reply)) }
{
    let telling = round.telling;
    if let Some(obstacle) = obstacle_of(round, meeting) {
        return stands_against(alloc, telling, asking.asked, obstacle);
    }
    match decided_in(telling.field, round.stages, meeting) {
        Some(decided) => by_wish::<F>(alloc, telling, decided, asking),
        None => Ok(Reply::of_str(Status::Done, "")),
    }
}

// A meeting that is asked for: the seat of who asks, and for whom.
#[derive(Clone, Copy)]
struct Meeting {
    player: u16,
    rival: Rival,
}

// The bye for 0; otherwise the seat of a start rank.
fn rival_of(field: &Field, number: u16) -> Option<Rival>
    ensures { result ≡ answers.rival_of field.now number }
{
    if number == 0 {
        return Some(Rival::Bye);
    }
    match field.seat_with(number) {
        Some(seat) => Some(Rival::Seat(seat)),
        None => None,
    }
}

// What stands against it, whatever is chosen in a bracket.
fn obstacle_of(round: &Paired<'_>, meeting: Meeting) -> Option<Obstacle>
    ensures { result ≡ answers.obstacle_of round.now meeting.player meeting.rival }
{
    let telling = round.telling;
    match meeting.rival {
        Rival::Bye => { against_bye(telling.report, telling.field, round.bye, meeting.player) }
        Rival::Seat(other) => {
            against_meeting(telling.report, telling.field, meeting.player, other)
        }
    }
}

// The line on what stands against it.
fn stands_against(
    alloc: Global,
    telling: &Telling<'_>,
    asked: Asked,
    obstacle: Obstacle,
) -> Result<Reply, AllocError>
    ensures { IfOk result (λ reply. answer_of reply ≡ done (instead_text telling.now asked.player asked.number
        (obstacle_text telling.now asked.player asked.number obstacle))) }
{
    let mut text = Page::new(alloc);
    put_against(&mut text, telling, asked, obstacle)?;
    Ok(Reply::of_page(Status::Done, text))
}

// Puts that the player does not get it, and what stands against it.
fn put_against(
    text: &mut Page,
    telling: &Telling<'_>,
    asked: Asked,
    obstacle: Obstacle,
) -> Result<(), AllocError>
    ensures { OnOk result (text.new ≡ text.old ++ instead_text telling.now asked.player asked.number
        (obstacle_text telling.now asked.player asked.number obstacle)) }
{
    put_front(text, telling, asked)?;
    put_obstacle(text, telling, asked, obstacle)?;
    text.push_str("\n")
}

fn stands_in_one(stages: &[Stage], seat: u16) -> bool
    ensures { result ≡ answers.stands_in_one stages.now seat }
{
    stages
        .iter()
        .any(|stage| stage.reached().seats().contains(&seat))
}

// The bye is given behind all brackets.
fn goes_on(stages: &[Stage], rival: Rival) -> bool
    ensures { result ≡ answers.goes_on stages.now rival }
{
    match rival {
        Rival::Bye => true,
        Rival::Seat(seat) => stands_in_one(stages, seat),
    }
}

// The number of a seat among those of a bracket, from 1; 0 if it does not stand there.
#[tactic(auto, using(crate::proofs::InsteadLemmas::passed, crate::proofs::InsteadLemmas::found, crate::proofs::InsteadLemmas::none))]
fn number_among(seats: &[u16], seat: u16) -> u16
    requires { length seats.now ≤ LIMIT }
    ensures { result ≡ answers.number_among seats.now seat }
{
    for (i, other) in seats.iter().enumerate() {
        if *other == seat {
            return i as u16 + 1;
        }
    }
    0
}

// The number of a seat in a bracket.
#[tactic(auto, using(crate::proofs::InsteadLemmas::few_seats))]
fn number_in(field: &Field, stage: &Stage, seat: u16) -> u16
    requires { IsStage field.now stage.now }
    ensures { result ≡ answers.number_in stage.now seat }
{
    number_among(stage.reached().seats(), seat)
}

// A bracket that keeps its pairs, in which two seats stand.
fn keeps_both(stage: &Stage, player: u16, other: u16) -> bool
    ensures { result ≡ answers.keeps_both player other stage.now }
{
    let seats = stage.reached().seats();
    !stage.is_again() && (seats.contains(&player) && seats.contains(&other))
}

// The first bracket that keeps its pairs and in which two seats stand: only there can they be paired.
fn shared_in<'a>(field: &Field, stages: &'a [Stage], player: u16, other: u16) -> Option<&'a Stage>
    requires { AllByRecursion (IsStage field.now) stages.now }
    ensures shared { option_copied result ≡ answers.shared_in stages.now player other }
    ensures stage { IfSome result (λ stage. IsStage field.now stage.now) }
{
    let [stage, behind @ ..] = stages else {
        return None;
    };
    if keeps_both(stage, player, other) {
        return Some(stage);
    }
    shared_in(field, behind, player, other)
}

// Who does not stand behind a bracket.
fn settled_of(behind: &[Stage], meeting: Meeting) -> u16
    ensures { result ≡ answers.settled_of behind.now meeting.player meeting.rival }
{
    match meeting.rival {
        Rival::Seat(other) if stands_in_one(behind, meeting.player) => other,
        Rival::Seat(_) | Rival::Bye => meeting.player,
    }
}

// The first bracket behind which one of the two does not stand, and the wish that this one is left over in it.
fn settled_in<'a>(field: &Field, stages: &'a [Stage], meeting: Meeting) -> Option<(&'a Stage, Wish)>
    requires { AllByRecursion (IsStage field.now) stages.now }
    ensures decided { MatchOption result (answers.settled_in stages.now meeting.player meeting.rival ≡ None)
        (λ decided. answers.settled_in stages.now meeting.player meeting.rival ≡ Some (decided.0.now, decided.1)) }
    ensures stage { IfSome result (λ decided. IsStage field.now decided.0.now) }
{
    let [stage, behind @ ..] = stages else {
        return None;
    };
    if stands_in_one(behind, meeting.player) && goes_on(behind, meeting.rival) {
        return settled_in(field, behind, meeting);
    }
    let settled = number_in(field, stage, settled_of(behind, meeting));
    Some((stage, Wish::LeftOver(settled)))
}

// The bracket that decides it, and what is wished there. It is the first bracket that keeps its pairs in which both
// stand, where alone the two could meet: that they meet. If there is none, or the bye is asked for, it is the first
// bracket behind which one of them does not stand: that this one is left over.
fn decided_in<'a>(field: &Field, stages: &'a [Stage], meeting: Meeting) -> Option<(&'a Stage, Wish)>
    requires { AllByRecursion (IsStage field.now) stages.now }
    ensures decided { MatchOption result (answers.decided_in stages.now meeting.player meeting.rival ≡ None)
        (λ decided. answers.decided_in stages.now meeting.player meeting.rival ≡ Some (decided.0.now, decided.1)) }
    ensures stage { IfSome result (λ decided. IsStage field.now decided.0.now) }
{
    let Rival::Seat(other) = meeting.rival else {
        return settled_in(field, stages, meeting);
    };
    let Some(stage) = shared_in(field, stages, meeting.player, other) else {
        return settled_in(field, stages, meeting);
    };
    let first = number_in(field, stage, meeting.player);
    let second = number_in(field, stage, other);
    Some((stage, Wish::Pair(first, second)))
}

// The answer to a wish in a bracket: that what is chosen there grants it, or else what a search for a candidate that
// grants it finds.
fn by_wish<F: Finder>(
    alloc: Global,
    telling: &Telling<'_>,
    decided: (&Stage, Wish),
    asking: AskedInSteps,
) -> Result<Reply, AllocError>
    requires { IsStage telling.now.facts decided.0.now }
    ensures { IfOk result (λ reply. answers.AnswersWish telling.now asking.steps asking.asked.player asking.asked.number
        decided.entry.0.now decided.entry.1 (grants decided.entry.1 decided.entry.0.now.candidate.lists)
        (answer_of reply)) }
{
    if decided.1.is_granted(decided.0.candidate()) {
        let mut text = Page::new(alloc);
        put_granted(&mut text, telling, asking.asked)?;
        return Ok(Reply::of_page(Status::Done, text));
    }
    by_search::<F>(alloc, telling, decided, asking)
}

// What a search for a candidate that grants a wish in a bracket finds.
#[tactic(auto, using(crate::proofs::InsteadLemmas::searched))]
fn by_search<F: Finder>(
    alloc: Global,
    telling: &Telling<'_>,
    decided: (&Stage, Wish),
    asking: AskedInSteps,
) -> Result<Reply, AllocError>
    requires { IsStage telling.now.facts decided.0.now }
    ensures { IfOk result (λ reply. answers.IsSearched telling.now asking.steps asking.asked.player asking.asked.number
        decided.entry.0.now decided.entry.1 (answer_of reply)) }
{
    let (stage, wish) = decided;
    let found = best_instead::<F>(alloc, telling.field, stage, wish, asking.steps)?;
    let found = &found;
    tell(
        alloc,
        telling,
        asking.asked,
        Searched { stage, wish, found },
    )
}

// What is told of what a search in a bracket found.
#[inline(never)]
fn tell(
    alloc: Global,
    telling: &Telling<'_>,
    asked: Asked,
    searched: Searched<'_>,
) -> Result<Reply, AllocError>
    ensures { IfOk result (λ reply. answer_of reply
        ≡ answers.search_answer telling.now asked.player asked.number searched.entry.stage.now searched.entry.wish searched.entry.found.now) }
{
    match searched.found {
        Instead::Undecided { used } => {
            tell_undecided(
                alloc,
                telling.wording,
                searched.stage.reached().number(),
                *used,
            )
        }
        Instead::Best { .. }
        | Instead::NoneEligible
        | Instead::FewerMovedDown
        | Instead::NoneLegal => in_bracket(alloc, telling, asked, searched),
    }
}

// The line on what a search in a bracket found.
fn in_bracket(
    alloc: Global,
    telling: &Telling<'_>,
    asked: Asked,
    searched: Searched<'_>,
) -> Result<Reply, AllocError>
    ensures { IfOk result (λ reply. answer_of reply
        ≡ done (in_bracket telling.now asked.player asked.number searched.entry.stage.now searched.entry.wish searched.entry.found.now)) }
{
    let mut text = Page::new(alloc);
    put_searched(&mut text, telling, asked, searched)?;
    Ok(Reply::of_page(Status::Done, text))
}

// Puts that the player does not get it, and what a search in a bracket found.
fn put_searched(
    text: &mut Page,
    telling: &Telling<'_>,
    asked: Asked,
    searched: Searched<'_>,
) -> Result<(), AllocError>
    ensures { OnOk result (text.new ≡ text.old
        ++ in_bracket telling.now asked.player asked.number searched.entry.stage.now searched.entry.wish searched.entry.found.now) }
{
    put_front(text, telling, asked)?;
    put_found(text, telling, searched)?;
    text.push_str("\n")
}

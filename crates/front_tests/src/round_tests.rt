// Rounds: when there is no pairing, who stands in a bracket, and why.
ghost use Rattle.std.specs.Prelude.{◌≤◌, length};
ghost use Rattle.dutch_order.specs.Prelude.{Fits};
ghost use Rattle.dutch_order.specs.TheConstants.{LIMIT};
ghost use Rattle.dutch_pair.specs.Prelude.{IsOf, IsStage, frame_of};

use crate::reports;
use crate::rules::AMPLE;
use dutch_order::{Budget, Candidates, Numbers, Shape, Step, numbered_from};
use dutch_pair as pair;
use dutch_pair::calls::the_first_scoregroup_is_next;
use dutch_pair::{AllStages, Answer, BracketAt, BracketKind, Item, Outcome, Quality, Stage};
use dutch_player::Field;
use std::alloc::Global;
use std::test::Fail;

// The seats of all present players.
fn everybody(field: &Field) -> Numbers
    ensures { length result.items ≤ LIMIT }
{
    numbered_from(0, field.len())
}

// Completion of all present players by the rule of their seats.
fn completion_of(field: &Field) -> Answer {
    let mut budget = Budget {
        limit: AMPLE,
        used: 0,
    };
    pair::completes(&everybody(field), &pair::seats(field), &mut budget)
}

// There is no pairing exactly if the players cannot be paired out.
fn agree(alloc: Global, field: &Field) -> Result<bool, Fail> {
    let answer = completion_of(field);
    Ok(match pair::pair_round(alloc, field, AMPLE)? {
        Outcome::Paired(_) => answer == Answer::Yes,
        Outcome::NoPairing => answer == Answer::No,
        Outcome::Undecided { .. } => false,
    })
}

#[test]
fn no_pairing_exactly_if_they_cannot_be_paired_out(rt: HostRuntime) -> Result<(), Fail> {
    let reports: [(&[reports::Line], Option<u8>); 10] = [
        (&reports::FOUR, Some(5)),
        (&reports::FIVE, Some(5)),
        (&reports::ONE_MOVES_DOWN, None),
        (&reports::ALL_HAVE_MET, None),
        (&reports::THREE_ARE_APART, Some(5)),
        (&reports::TWO_HAVE_MET, None),
        (&reports::HALF_A_POINT_EACH, Some(5)),
        (&reports::TWO_LEAD, Some(3)),
        (&reports::TWO_LEAD, Some(4)),
        (&reports::THREE_ARE_ABSENT, None),
    ];
    for (lines, total) in reports {
        let field = reports::field_of(rt.alloc(), lines, total)?;
        assert!(rt; agree(rt.alloc(), &field)?);
    }
    Ok(())
}

fn is_bracket(found: &BracketAt, kind: BracketKind, players: usize, mdps: usize) -> bool {
    let BracketAt::Bracket { reached, shape } = found else {
        return false;
    };
    let same = match (reached.kind(), kind) {
        (BracketKind::Ordinary, BracketKind::Ordinary)
        | (BracketKind::Last, BracketKind::Last)
        | (BracketKind::Penultimate, BracketKind::Penultimate)
        | (BracketKind::Collapsed, BracketKind::Collapsed) => true,
        _ => false,
    };
    same && reached.seats().len() == players && shape.mdps == mdps
}

// The lower two have met, so the upper two are paired again with them.
#[test]
fn the_brackets_of_a_round(rt: HostRuntime) -> Result<(), Fail> {
    let field = reports::field_of(rt.alloc(), &reports::TWO_HAVE_MET, None)?;
    let first = pair::bracket_at(rt.alloc(), &field, AMPLE, 1)?;
    assert!(rt; is_bracket(&first, BracketKind::Ordinary, 2, 0));
    let second = pair::bracket_at(rt.alloc(), &field, AMPLE, 2)?;
    assert!(rt; is_bracket(&second, BracketKind::Penultimate, 2, 0));
    let third = pair::bracket_at(rt.alloc(), &field, AMPLE, 3)?;
    assert!(rt; is_bracket(&third, BracketKind::Collapsed, 4, 2));
    let fourth = pair::bracket_at(rt.alloc(), &field, AMPLE, 4)?;
    assert!(rt; matches!(fourth, BracketAt::NotReached));
    Ok(())
}

// The opponents of a bracket's first player, candidate by candidate.
fn opponents_of_the_first(
    alloc: Global,
    field: &Field,
    reached: &pair::Reached,
    shape: Shape,
) -> Result<Vec<u16>, Fail>
    requires of { IsOf field.now reached.now }
    requires fits { Fits (frame_of field.now reached.now) shape }
{
    let (frame, rule) = (reached.frame(field), reached.rule(field));
    let mut candidates = Candidates::new(&frame, shape, &rule);
    let mut budget = Budget {
        limit: AMPLE,
        used: 0,
    };
    let mut opponents = Vec::new(alloc);
    for _turn in 0..10u32 {
        let Step::Found(candidate) = candidates.next(&mut budget) else {
            break;
        };
        opponents.extend_from_slice(candidate.s2())?;
    }
    Ok(opponents)
}

#[test]
fn the_candidates_of_a_bracket(rt: HostRuntime) -> Result<(), Fail> {
    let field = reports::field_of(rt.alloc(), &reports::ONE_MOVES_DOWN, None)?;
    let found = pair::bracket_at(rt.alloc(), &field, AMPLE, 2)?;
    let BracketAt::Bracket { reached, shape } = found else {
        return Err(Fail::new("the bracket is not reached"));
    };
    assert!(rt; (shape.pairs, shape.mdps, reached.mdps()) == (1, 1, 1));
    let opponents = opponents_of_the_first(rt.alloc(), &field, &reached, shape)?;
    assert!(rt; opponents.as_slice() == [2, 3].as_slice());
    Ok(())
}

// What an explanation says of the second bracket of `ONE_MOVES_DOWN`: the first meets the second, and the fourth moves
// down.
fn is_explained(alloc: Global, field: &Field, stage: &Stage) -> Result<bool, Fail>
    requires { IsStage field.now stage.now }
{
    let chosen = stage.quality();
    let others = pair::best_instead(alloc, field, stage, pair::Wish::Pair(1, 3), AMPLE)?;
    let pair::Instead::Best {
        quality,
        candidate: _candidate,
    } = others
    else {
        return Ok(false);
    };
    Ok(
        (stage.reached().number(), stage.is_again()) == (2, false)
            && stage.candidate().down() == [3].as_slice()
            && has_least_items(chosen)
            && is_worse_in_colours(&quality, chosen)
            && pair::who_counts(field, stage, Item::MissedPreferences).is_empty(),
    )
}

// Nobody floats as before.
fn has_no_floats(quality: &Quality) -> bool {
    (quality.down_again(), quality.up_again()) == (0, 0)
        && (quality.down_again_before(), quality.up_again_before()) == (0, 0)
        && quality.down_again_by().is_empty()
        && quality.up_again_by().is_empty()
        && quality.down_again_before_by().is_empty()
        && quality.up_again_before_by().is_empty()
}

// The differences 2 and 1, and a pair of the next bracket with the difference 1; nobody is counted.
fn has_least_items(quality: &Quality) -> bool {
    (quality.psd(), quality.next_psd()) == ([2, 1].as_slice(), [1].as_slice())
        && quality.next_pairs() == 1
        && (quality.wide_differences(), quality.third_colours()) == (0, 0)
        && (quality.missed_preferences(), quality.missed_strong()) == (0, 0)
        && has_no_floats(quality)
}

// One player misses a strong preference, which is the first difference.
fn is_worse_in_colours(quality: &Quality, chosen: &Quality) -> bool {
    chosen.is_better(quality)
        && (quality.missed_preferences(), quality.missed_strong()) == (1, 1)
        && matches!(
            quality.first_difference(chosen),
            Some(Item::MissedPreferences)
        )
}

#[test]
fn a_bracket_is_explained(rt: HostRuntime) -> Result<(), Fail> {
    let field = reports::field_of(rt.alloc(), &reports::ONE_MOVES_DOWN, None)?;
    let AllStages::Paired { stages, bye } = pair::stages(rt.alloc(), &field, AMPLE)? else {
        return Err(Fail::new("the round is not paired"));
    };
    let [_, stage, _] = stages.as_slice() else {
        return Err(Fail::new("there are not three brackets"));
    };
    assert!(rt; bye.is_empty() && is_explained(rt.alloc(), &field, stage)?);
    assert_eq!(rt; pair::ITEMS.len(), 14);
    Ok(())
}

// The quality of what is chosen, asked for once more, above the first scoregroup of the lower players.
fn quality_again(field: &Field, stage: &Stage) -> Option<Quality>
    requires { IsStage field.now stage.now }
{
    let lower = pair::lower_of(field, stage.reached());
    the_first_scoregroup_is_next(field, stage.reached(), &lower);
    let (next, _others) = pair::split_first_group(field, &lower);
    let mut budget = Budget {
        limit: AMPLE,
        used: 0,
    };
    pair::quality(field, stage.reached(), stage.candidate(), next, &mut budget)
}

#[test]
fn the_quality_of_a_candidate(rt: HostRuntime) -> Result<(), Fail> {
    let field = reports::field_of(rt.alloc(), &reports::ONE_MOVES_DOWN, None)?;
    let AllStages::Paired { stages, bye: _bye } = pair::stages(rt.alloc(), &field, AMPLE)? else {
        return Err(Fail::new("the round is not paired"));
    };
    let [_, stage, _] = stages.as_slice() else {
        return Err(Fail::new("there are not three brackets"));
    };
    let Some(again) = quality_again(&field, stage) else {
        return Err(Fail::new("undecided"));
    };
    assert!(rt; has_least_items(&again));
    Ok(())
}

// Nobody blocks, and each is an odd group, whose players may meet nobody else.
#[test]
fn why_there_is_no_pairing(rt: HostRuntime) -> Result<(), Fail> {
    let field = reports::field_of(rt.alloc(), &reports::ALL_HAVE_MET, None)?;
    assert!(rt; !pair::lacks_bye(&field));
    let Some(barrier) = pair::barrier_of(rt.alloc(), &field, AMPLE)? else {
        return Err(Fail::new("no reason was found"));
    };
    assert!(rt; !barrier.has_blockers(&field));
    for seat in 0..field.len() as u16 {
        assert!(rt; barrier.label(seat) > 0 && barrier.opens_odd_group(&field, seat));
    }
    Ok(())
}

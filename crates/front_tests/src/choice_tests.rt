// The choice in a bracket, as a caller asks for it who has the bracket alone.

use crate::reports::{ONE_MOVES_DOWN, field_of};
use dutch_order::{Budget, Shape};
use dutch_pair::calls::a_bracket_stands_above_the_lower;
use dutch_pair::{BracketAt, Choice, bracket_at, choose, lower_of};
use dutch_player::Field;
use std::alloc::Global;
use std::test::Fail;

// The choice in the second bracket, above one lower player, and the shape that the bracket was reached with.
fn choice_in_the_second(alloc: Global, field: &Field) -> Result<(Choice, Shape), Fail> {
    let BracketAt::Bracket { reached, shape } = bracket_at(alloc, field, 1000, 2)? else {
        return Err(Fail::new("not reached"));
    };
    a_bracket_stands_above_the_lower(field, 2, &reached, shape);
    let lower = lower_of(field, &reached);
    if lower.as_slice() != [3].as_slice() {
        return Err(Fail::new("others stand below"));
    }
    let mut budget = Budget {
        limit: 1000,
        used: 0,
    };
    Ok((choose(alloc, field, &reached, &lower, &mut budget)?, shape))
}

fn is_one_with_two(choice: &Choice, shape: Shape) -> bool {
    let Choice::Chosen {
        shape: chosen,
        candidate,
        quality,
    } = choice
    else {
        return false;
    };
    (chosen.pairs, chosen.mdps) == (shape.pairs, shape.mdps)
        && quality.psd() == [2, 1].as_slice()
        && (quality.next_pairs(), quality.missed_strong()) == (1, 0)
        && (candidate.s1(), candidate.s2()) == ([1].as_slice(), [2].as_slice())
        && candidate.down() == [3].as_slice()
}

// The first wants black and meets the second, who wants white; the fourth moves down.
#[test]
fn choice_of_a_bracket(rt: HostRuntime) -> Result<(), Fail> {
    let field = field_of(rt.alloc(), &ONE_MOVES_DOWN, None)?;
    let (choice, shape) = choice_in_the_second(rt.alloc(), &field)?;
    assert!(rt; is_one_with_two(&choice, shape));
    Ok(())
}

// Standings with all keys: score and values as they are worked out by hand.

use crate::reports::{HALF_AND_FORFEIT, Line, ONE_MOVES_DOWN, text_of};
use std::alloc::Global;
use std::test::Fail;
use tiebreak::{Key, Row, Standings, TieFault, table};
use trf16::{read, read_with};

// A player, their score in half points, and direct encounter and Buchholz in half points, Sonneborn-Berger in quarters.
type Expected = (u16, u16, [Option<u32>; 3]);

// The standings of a report in which the pairing-allocated bye gives so many half points.
fn standings_of(alloc: Global, lines: &[Line], bye: u16) -> Result<Standings, Fail> {
    let text = text_of(alloc, lines)?;
    let bye = bye.min(2);
    let report = read_with(alloc, text.as_bytes(), bye).map_err(|_| "the report is refused")?;
    let keys = [Key::Direct, Key::Buchholz, Key::SonnebornBerger];
    Ok(table(alloc, &report, &keys).map_err(|_| "there are no standings")?)
}

fn is_row(row: &Row, expected: &Expected) -> bool {
    let (start, score, values) = expected;
    row.start() == *start && row.score() == *score && row.values() == values.as_slice()
}

fn are_rows(rows: &[Row], expected: &[Expected]) -> bool {
    for (row, wanted) in rows.iter().zip(expected.iter()) {
        if !is_row(row, wanted) {
            return false;
        }
    }
    rows.len() == expected.len()
}

#[test]
fn all_keys_break_ties(rt: HostRuntime) -> Result<(), Fail> {
    let standings = standings_of(rt.alloc(), &ONE_MOVES_DOWN, 2)?;
    let expected = [
        (1, 2, [None, Some(0), Some(0)]),
        (2, 1, [Some(1), Some(1), Some(1)]),
        (4, 1, [Some(1), Some(1), Some(1)]),
        (3, 0, [None, Some(2), Some(0)]),
    ];
    assert!(rt; are_rows(standings.rows(), &expected));
    Ok(())
}

#[test]
fn rounds_without_a_game(rt: HostRuntime) -> Result<(), Fail> {
    let standings = standings_of(rt.alloc(), &HALF_AND_FORFEIT, 2)?;
    let expected = [
        (1, 3, [None, Some(3), Some(4)]),
        (2, 2, [Some(2), Some(6), Some(4)]),
        (3, 2, [Some(0), Some(2), Some(0)]),
    ];
    assert!(rt; are_rows(standings.rows(), &expected));
    Ok(())
}

#[test]
fn a_bye_of_half_a_point(rt: HostRuntime) -> Result<(), Fail> {
    let standings = standings_of(rt.alloc(), &HALF_AND_FORFEIT, 1)?;
    let expected = [
        (1, 3, [None, Some(3), Some(4)]),
        (2, 2, [None, Some(5), Some(2)]),
        (3, 1, [None, Some(3), Some(1)]),
    ];
    assert!(rt; are_rows(standings.rows(), &expected));
    Ok(())
}

#[test]
fn a_game_without_a_result(rt: HostRuntime) -> Result<(), Fail> {
    let text = text_of(
        rt.alloc(),
        &[("001    1", "   2 w"), ("001    2", "   1 b")],
    )?;
    let report = read(rt.alloc(), text.as_bytes()).map_err(|_| "the report is refused")?;
    let refused = table(rt.alloc(), &report, &[]);
    assert!(rt;
        matches!(
            refused,
            Err(TieFault::Unfinished {
                player: 1,
                round: 1
            })
        )
    );
    Ok(())
}

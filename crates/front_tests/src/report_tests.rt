// Reports: what they say, the reports that are made of them, and their texts.

use crate::reports::{Line, THREE_ARE_ABSENT, TWO_LEAD, text_of};
use dutch_pair::{Outcome, pair_round};
use dutch_player::Field;
use std::alloc::Global;
use std::test::Fail;
use trf16::{Cell, Fault, Kind, Pairs, Report};

fn says_who_is_there(report: &Report<'_>) -> bool {
    report.count() == 6
        && report.players().len() == 6
        && report.knows(6)
        && report.absent(4)
        && report.is_named_absent(4)
        && !report.absent(3)
        && !report.apart(1, 3)
}

fn says_what_was_played(report: &Report<'_>) -> bool {
    let won = Cell::Forfeit {
        opponent: 4,
        colour: Some(trf16::Colour::White),
        won: true,
    };
    report.cell(3, 1) == won
        && report.cell(3, 2) == Cell::Blank
        && (report.points(3, 1), report.points(5, 1)) == (2, 0)
        && report.rounds_played() == 1
        && report.unfinished().is_none()
}

fn says_how_it_is_paired(report: &Report<'_>) -> bool {
    report.total_rounds() == Some(5)
        && report.initial().is_none()
        && report.bye() == 2
        && report.carried(2) == Some(b"XXZ 4 5 6".as_slice())
        && report.carried(3).is_none()
        && report
            .unsupported(&[Kind::Xxa, Kind::Xxs, Kind::Rank])
            .is_none()
}

#[test]
fn a_report_is_asked(rt: HostRuntime) -> Result<(), Fail> {
    let text = text_of(rt.alloc(), &THREE_ARE_ABSENT)?;
    let report = trf16::read(rt.alloc(), text.as_bytes()).map_err(|_| "the report is refused")?;
    assert!(rt; says_who_is_there(&report));
    assert!(rt; says_what_was_played(&report));
    assert!(rt; says_how_it_is_paired(&report));
    Ok(())
}

#[test]
fn reports_are_refused(rt: HostRuntime) {
    let alone = trf16::read(rt.alloc(), b"001");
    assert!(rt; matches!(alone, Err(Fault::BadNumber { line: 1 })));
    let twice = trf16::read(rt.alloc(), b"001    1\n001    1\n");
    assert!(rt; matches!(twice, Err(Fault::Duplicate { line: 2 })));
    assert!(rt; matches!(trf16::read(rt.alloc(), b""), Err(Fault::NoPlayers)));
}

// The text of a report with its next round paired, of so many rounds in all.
fn with_next_round(alloc: Global, text: &[u8], total: u8) -> Result<Vec<u8>, Fail> {
    let report = trf16::read(alloc, text).map_err(|_| "the report is refused")?;
    let field = Field::new(alloc, &report, Some(total), None).map_err(|_| "no round is left")?;
    let Outcome::Paired(boards) = pair_round(alloc, &field, 10_000_000)? else {
        return Err(Fail::new("there are no boards"));
    };
    if !trf16::can_be_paired(&report, &boards) {
        return Err(Fail::new("the boards are not of this report"));
    }
    let report = report.with_round(alloc, &boards)?;
    let mut device = trf16::Counted::new(Vec::new(alloc));
    trf16::write(&report, &mut device).map_err(|_| "no memory for the text")?;
    Ok(device.into_inner())
}

const FIRST_ROUND: [Line; 4] = [
    ("001    1", "   3 w  "),
    ("001    2", "   4 b  "),
    ("001    3", "   1 b  "),
    ("001    4", "   2 w  "),
];

#[test]
fn a_round_is_paired_and_written(rt: HostRuntime) -> Result<(), Fail> {
    let before = b"001    1\n001    2\n001    3\n001    4\n";
    let after = with_next_round(rt.alloc(), before, 5)?;
    assert_eq!(rt; after.len(), 400);
    assert!(rt; after.as_slice() == text_of(rt.alloc(), &FIRST_ROUND)?.as_bytes());
    Ok(())
}

#[test]
fn a_report_as_it_stood_before_a_round(rt: HostRuntime) -> Result<(), Fail> {
    let text = text_of(rt.alloc(), &TWO_LEAD)?;
    let report = trf16::read(rt.alloc(), text.as_bytes()).map_err(|_| "the report is refused")?;
    let Some(before) = trf16::before_round(rt.alloc(), &report, 2)? else {
        return Err(Fail::new("no such round"));
    };
    assert!(rt; (report.rounds_played(), before.rounds_played()) == (2, 1));
    assert!(rt; trf16::before_round(rt.alloc(), &report, 4)?.is_none());
    Ok(())
}

// Columns 81 to 84 have the points.
const HALF_A_POINT_TOO_MUCH: &[u8] =
    b"001    1                                                                         0.5";

#[test]
fn points_fields_are_summed(rt: HostRuntime) -> Result<(), Fail> {
    let refused = trf16::read(rt.alloc(), HALF_A_POINT_TOO_MUCH);
    assert!(rt; matches!(refused, Err(Fault::Points { player: 1 })));
    let report = trf16::read_unsummed(rt.alloc(), HALF_A_POINT_TOO_MUCH, 2).map_err(|_| "refused")?;
    let right = trf16::summed(rt.alloc(), &report)?;
    assert!(rt; matches!(right.player(1), Some(player) if player.points == Some(0)));
    Ok(())
}

// Who has no rating and no title goes by start rank.
#[test]
fn start_ranks_are_put_in_order(rt: HostRuntime) -> Result<(), Fail> {
    let text = text_of(rt.alloc(), &[("001    7", ""), ("001    5", "")])?;
    let report = trf16::read(rt.alloc(), text.as_bytes()).map_err(|_| "the report is refused")?;
    assert!(rt; trf16::first_unread(&report).is_none());
    let renumbered = trf16::renumbered_text(rt.alloc(), &report)?;
    assert!(rt; renumbered.starts_with(b"001    2") && renumbered.len() == 180);
    Ok(())
}

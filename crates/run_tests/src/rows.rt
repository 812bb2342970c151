// Reports made of cells, runs over them, and what a run must have left.
use crate::command_tests::{Ended, run_on};
use command_line::Status;
use std::alloc::{AllocError, Global};

// A line of a player with a points field and the cells of their rounds, each of 10 columns.
pub(crate) fn line(
    alloc: Global,
    start: u8,
    points: &str,
    cells: &str,
) -> Result<String, AllocError> {
    format!(in alloc; "001 {start:>4}{:72}{points:>4}{:5}{cells}\n", "", "")
}

// Lines of other kinds, and then players with these cells, from start rank 1 on.
pub(crate) fn report(alloc: Global, others: &str, players: &[&str]) -> Result<String, AllocError> {
    let mut text = String::from_str(alloc, others)?;
    let mut start = 0u8;
    for cells in players {
        start = start.saturating_add(1);
        let player = line(alloc, start, "", cells)?;
        text.push_str(player.as_str())?;
    }
    Ok(text)
}

// So many players without rounds.
pub(crate) fn newcomers(alloc: Global, count: u8) -> Result<String, AllocError> {
    let mut text = String::new(alloc);
    for start in 0..count {
        let player = line(alloc, start.saturating_add(1), "", "")?;
        text.push_str(player.as_str())?;
    }
    Ok(text)
}

// Four players, of whom one won, two drew and one lost.
pub(crate) fn one_round(alloc: Global) -> Result<String, AllocError> {
    let players = ["     3 w 1", "     4 b =", "     1 b 0", "     2 w ="];
    report(alloc, "XXR 5\n", &players)
}

// Two players who had a bye, and below them two who met.
pub(crate) fn two_byes(alloc: Global) -> Result<String, AllocError> {
    let players = ["  0000 - F", "  0000 - F", "     4 w =", "     3 b ="];
    report(alloc, "XXR 3\n", &players)
}

// Six players, the first two of whom had white and won twice.
pub(crate) fn two_rounds(alloc: Global) -> Result<String, AllocError> {
    let players = [
        "     3 w 1     5 w 1",
        "     4 w 1     6 w 1",
        "     1 b 0     4 w =",
        "     2 b 0     3 b =",
        "     6 w =     1 b 0",
        "     5 b =     2 b 0",
    ];
    report(alloc, "", &players)
}

// A run over a report. Blanks part the words, and behind a blank at the end is an empty one.
pub(crate) fn run_over(alloc: Global, words: &str, report: &String) -> Result<Ended, AllocError> {
    let words: Vec<&str> = words.split(' ').collect(alloc)?;
    Ok(run_on(alloc, words.as_slice(), report.as_bytes(), 100_000, 1000))
}

// The text that a run left on standard output.
pub(crate) fn output(ended: &Ended) -> &str {
    str::from_utf8(ended.out.as_slice()).unwrap_or("")
}

pub(crate) fn has_told(ended: &Ended, status: Status, text: &str) -> bool {
    ended.status == status && ended.out.as_slice() == text.as_bytes() && ended.err.is_empty()
}

pub(crate) fn has_refused_words(ended: &Ended, text: &str) -> bool {
    ended.status == Status::BadWords
        && ended.out.is_empty()
        && ended.err.as_slice() == text.as_bytes()
}

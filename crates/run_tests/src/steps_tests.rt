// Runs under every limit of steps: up to the least one that decides, each answer is that a bracket is undecided.
use crate::command_tests::{Ended, has_printed};
use crate::rows::{
    has_refused_words, has_told, newcomers, one_round, output, run_over, two_byes, two_rounds,
};
use command_line::Status;
use std::alloc::{AllocError, Global};

// A report of a tournament of so many rounds, how many brackets its next round has, and the boards that `pair` prints.
#[derive(Drop)]
struct Case<'a> {
    report: &'a String,
    rounds: u8,
    brackets: u32,
    boards: &'a str,
}

// `pair` with a limit of steps.
fn pair_within(alloc: Global, case: &Case<'_>, steps: u32) -> Result<Ended, AllocError> {
    let rounds = case.rounds;
    let words = format!(in alloc; "pair --rounds {rounds} --steps {steps}")?;
    run_over(alloc, words.as_str(), case.report)
}

// Any of the first brackets may be the one in which the steps ran out.
fn is_undecided(
    alloc: Global,
    ended: &Ended,
    brackets: u32,
    steps: u32,
) -> Result<bool, AllocError> {
    for before in 0..brackets {
        let bracket = before.saturating_add(1);
        let text = format!(in alloc; "undecided bracket {bracket} steps {steps}\n")?;
        if has_told(ended, Status::Undecided, text.as_str()) {
            return Ok(true);
        }
    }
    Ok(false)
}

// The least limit of steps with which `pair` is not undecided in a bracket that is reached, and what it then left.
fn first_decided(alloc: Global, case: &Case<'_>) -> Result<(u32, Ended), AllocError> {
    for steps in 0..100_000 {
        let ended = pair_within(alloc, case, steps)?;
        if !is_undecided(alloc, &ended, case.brackets, steps)? {
            return Ok((steps, ended));
        }
    }
    let ended = pair_within(alloc, case, 100_000)?;
    Ok((100_000, ended))
}

// The least limit that decides must give the case's boards, and greater ones the same.
fn is_decided_for_good(alloc: Global, case: &Case<'_>) -> Result<bool, AllocError> {
    let (least, first) = first_decided(alloc, case)?;
    let next = pair_within(alloc, case, least.saturating_add(1))?;
    let later = pair_within(alloc, case, least.saturating_mul(10))?;
    Ok(
        has_printed(&first, case.boards)
            && has_printed(&next, case.boards)
            && has_printed(&later, case.boards),
    )
}

// The case has the right number of brackets: the last of them is reached, and none behind it.
fn has_brackets(alloc: Global, case: &Case<'_>) -> Result<bool, AllocError> {
    let rounds = case.rounds;
    let last = case.brackets;
    let words = format!(in alloc; "candidates --rounds {rounds} --bracket {last}")?;
    let reached = run_over(alloc, words.as_str(), case.report)?;
    let behind = last.saturating_add(1);
    let words = format!(in alloc; "candidates --rounds {rounds} --bracket {behind}")?;
    let ended = run_over(alloc, words.as_str(), case.report)?;
    let text = format!(in alloc; "words: bracket {behind} is not reached\n")?;
    Ok(reached.status == Status::Done && has_refused_words(&ended, text.as_str()))
}

#[test]
fn least_steps_that_pair_one_bracket(rt: HostRuntime) -> Result<(), AllocError> {
    let alloc = rt.alloc();
    let players = newcomers(alloc, 5)?;
    let case = Case {
        report: &players,
        rounds: 5,
        brackets: 1,
        boards: "3\n1 3\n4 2\n5 0\n",
    };
    assert!(rt; has_brackets(alloc, &case)?);
    assert!(rt; is_decided_for_good(alloc, &case)?);
    Ok(())
}

#[test]
fn least_steps_that_pair_ordinary_brackets(rt: HostRuntime) -> Result<(), AllocError> {
    let alloc = rt.alloc();
    let players = one_round(alloc)?;
    let case = Case {
        report: &players,
        rounds: 5,
        brackets: 3,
        boards: "2\n2 1\n3 4\n",
    };
    assert!(rt; has_brackets(alloc, &case)?);
    assert!(rt; is_decided_for_good(alloc, &case)?);
    Ok(())
}

#[test]
fn least_steps_that_pair_a_collapsed_bracket(rt: HostRuntime) -> Result<(), AllocError> {
    let alloc = rt.alloc();
    let players = two_byes(alloc)?;
    let case = Case {
        report: &players,
        rounds: 3,
        brackets: 3,
        boards: "2\n1 3\n4 2\n",
    };
    assert!(rt; has_brackets(alloc, &case)?);
    assert!(rt; is_decided_for_good(alloc, &case)?);
    Ok(())
}

#[test]
fn least_steps_that_pair_topscorers(rt: HostRuntime) -> Result<(), AllocError> {
    let alloc = rt.alloc();
    let players = two_rounds(alloc)?;
    for (rounds, boards) in [(3, "3\n2 1\n6 3\n4 5\n"), (4, "3\n4 1\n5 2\n6 3\n")] {
        let case = Case {
            report: &players,
            rounds,
            brackets: 2,
            boards,
        };
        assert!(rt; has_brackets(alloc, &case)?, "{rounds} rounds");
        assert!(rt; is_decided_for_good(alloc, &case)?, "{rounds} rounds");
    }
    Ok(())
}

#[test]
fn few_steps_decide_no_round(rt: HostRuntime) -> Result<(), AllocError> {
    let alloc = rt.alloc();
    let players = newcomers(alloc, 5)?;
    for steps in 0..2 {
        let words = format!(in alloc; "pair --rounds 5 --steps {steps}")?;
        let ended = run_over(alloc, words.as_str(), &players)?;
        let text = format!(in alloc; "undecided bracket 1 steps {steps}\n")?;
        assert!(rt; has_told(&ended, Status::Undecided, text.as_str()));
    }
    Ok(())
}

// What `candidates` leaves with the least limit of steps under which it prints one.
fn first_listed(alloc: Global, words: &str, report: &String) -> Result<Ended, AllocError> {
    for steps in 0..100_000 {
        let limited = format!(in alloc; "{words} --steps {steps}")?;
        let ended = run_over(alloc, limited.as_str(), report)?;
        if output(&ended).lines().count() > 2 {
            return Ok(ended);
        }
    }
    run_over(alloc, words, report)
}

// A text but its last line, without the end of the line before.
fn without_last_line(text: &str) -> &str {
    match text.trim_end().rsplit_once('\n') {
        Some((before, _)) => before,
        None => "",
    }
}

// The cursor of the last candidate of a list.
fn last_cursor(list: &str) -> &str {
    let line = match list.rsplit_once('\n') {
        Some((_, last)) => last,
        None => list,
    };
    match line.split_once(' ') {
        Some((cursor, _)) => cursor,
        None => line,
    }
}

#[test]
fn list_goes_on_from_its_last_cursor(rt: HostRuntime) -> Result<(), AllocError> {
    let alloc = rt.alloc();
    let players = newcomers(alloc, 4)?;
    let words = "candidates --bracket 1 --rounds 5";
    let part = first_listed(alloc, words, &players)?;
    assert!(rt; part.status == Status::Undecided);
    let listed = without_last_line(output(&part));
    let cursor = last_cursor(listed);
    let from = format!(in alloc; "{words} --from {cursor}")?;
    let rest = run_over(alloc, from.as_str(), &players)?;
    let head = "bracket 1 last pairs 2 mdps 0\n";
    let behind = output(&rest).strip_prefix(head).unwrap_or("");
    let joined = format!(in alloc; "{listed}\n{behind}")?;
    let whole = run_over(alloc, words, &players)?;
    assert!(rt; has_printed(&whole, joined.as_str()));
    Ok(())
}

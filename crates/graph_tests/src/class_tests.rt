// Graphs whose costs go by class: whether they say so or not, the same is found, but with fewer looks if they do.
use crate::cheapest_tests::{AMPLE, BOUNDS, Graph, Lists, MOST, at, draw, drawn, is_shown};
use cheapest::{Found, cheapest};
use std::alloc::Global;
use std::test::Fail;

// What a pair costs by the classes of its vertices, in rows of eight.
fn draw_table(alloc: Global, state: &mut u64, below: u32) -> Result<Vec<u32>, Fail> {
    let mut table = Vec::new(alloc);
    for _ in 0..64 {
        table.push(drawn(state, below))?;
    }
    Ok(table)
}

// What a table says of the classes of a pair.
fn cost_in(table: &[u32], pair: usize, classes: usize) -> u32 {
    let classes = classes.max(1);
    let (one, other) = (pair / 8 % classes, pair % 8 % classes);
    let row = one.min(other);
    at(table, row.wrapping_mul(8).wrapping_add(one.max(other)))
}

// The pairs that have a cost, each at the cost that a table has for it.
fn costs_by_class(
    alloc: Global,
    costs: &[u32],
    table: &[u32],
    classes: usize,
) -> Result<Vec<u32>, Fail> {
    let mut by_class = Vec::new(alloc);
    for (pair, cost) in costs.iter().enumerate() {
        let is_joined = *cost < MOST;
        let cost = cost_in(table, pair, classes);
        by_class.push(if is_joined { cost } else { MOST })?;
    }
    Ok(by_class)
}

// It costs as much to leave a vertex over as the first one of its class.
fn left_by_class(alloc: Global, left: &[u32], classes: usize) -> Result<Vec<u32>, Fail> {
    let mut by_class = Vec::new(alloc);
    for v in 0..8usize {
        by_class.push(at(left, v % classes.max(1)))?;
    }
    Ok(by_class)
}

// A drawn graph whose costs go by class, of four classes at most: so in most graphs the first labels come from classes.
fn draw_by_class(alloc: Global, state: &mut u64, turn: usize) -> Result<Lists, Fail> {
    let lists = draw(alloc, state, turn)?;
    let table = draw_table(alloc, state, BOUNDS[turn / 5 % 4])?;
    let classes = 1 + lists.classes % 4;
    Ok(Lists {
        size: lists.size,
        costs: costs_by_class(alloc, &lists.costs, &table, usize::from(classes))?,
        left: left_by_class(alloc, &lists.left, usize::from(classes))?,
        classes,
    })
}

// What is found of a graph, and in how many steps.
#[derive(Drop)]
struct Counted {
    found: Found,
    steps: u64,
}

fn search(alloc: Global, graph: &Graph) -> Result<Counted, Fail> {
    let mut left = AMPLE;
    let found = cheapest(alloc, graph, &mut left)?;
    Ok(Counted {
        found,
        steps: AMPLE - left,
    })
}

fn are_same(one: &Found, other: &Found) -> bool {
    one.partners.as_slice() == other.partners.as_slice()
        && one.labels.as_slice() == other.labels.as_slice()
}

// How many steps are saved by a graph that says that its costs go by class. None if it takes more, if another matching
// is found then, or if that is not shown to be cheapest.
fn steps_saved(alloc: Global, lists: &Lists) -> Result<Option<u64>, Fail> {
    let mut graph = lists.graph();
    let silent = search(alloc, &graph)?;
    graph.by_class = true;
    let told = search(alloc, &graph)?;
    if !are_same(&silent.found, &told.found) || !is_shown(alloc, &graph, &told.found)? {
        return Ok(None);
    }
    Ok(silent.steps.checked_sub(told.steps))
}

#[test]
fn drawn_classes(rt: HostRuntime) -> Result<(), Fail> {
    let mut state: u64 = 4;
    let mut with_fewer: u32 = 0;
    for turn in 0..1_000usize {
        let lists = draw_by_class(rt.alloc(), &mut state, turn)?;
        let saved = steps_saved(rt.alloc(), &lists)?;
        assert!(rt; saved.is_some(), "turn {turn}");
        if saved > Some(0) {
            with_fewer = with_fewer.saturating_add(1);
        }
    }
    assert!(rt; with_fewer > 100, "{with_fewer} with fewer steps");
    Ok(())
}

// Of eight vertices of one class each is asked about itself and all behind it, 36 looks. If they cost the same, the first
// vertex is asked about itself and the second one alone. Two looks are a step.
#[test]
fn one_class(rt: HostRuntime) -> Result<(), Fail> {
    let lists = Lists {
        size: 8,
        costs: vec![in rt.alloc(); 1; 64]?,
        left: vec![in rt.alloc(); 2; 8]?,
        classes: 1,
    };
    assert!(rt; steps_saved(rt.alloc(), &lists)? == Some(17));
    Ok(())
}

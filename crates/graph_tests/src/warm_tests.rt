// Searches that begin where others ended, on small graphs out of which pairs are taken: beside a search anew, and with
// what the checks of `dual` say of their certificates, also of those that end once they show enough.
use crate::cheapest_tests::{
    AMPLE, Graph, Lists, MOST, at, cost_of, draw, drawn, floor_of, found_of, is_shown, least,
    tailed, twice,
};
use cheapest::{Fault, Found, Start, cheapest_from};
use dual::Wide;
use std::alloc::Global;
use std::test::Fail;

// The costs of a graph without some of its pairs.
fn without_some(alloc: Global, state: &mut u64, costs: &[u32]) -> Result<Vec<u32>, Fail> {
    let mut kept = vec![in alloc; MOST; 64]?;
    for a in 0..8 {
        for b in a + 1..8 {
            if drawn(state, 4) > 0 {
                let cost = at(costs, 8 * a + b);
                kept[8 * a + b] = cost;
                kept[8 * b + a] = cost;
            }
        }
    }
    Ok(kept)
}

// What is told of a graph to a search on another one: all that was found, but for the labels of a few vertices.
fn start_of(alloc: Global, state: &mut u64, found: &Found) -> Result<Start, Fail> {
    let mut labels = Vec::new(alloc);
    for label in found.labels.iter() {
        let is_kept = drawn(state, 6) > 0;
        labels.push(is_kept.then_some(*label))?;
    }
    Ok(Start {
        labels,
        partners: found.partners.clone()?,
        enough: None,
    })
}

// What is found of a graph with ample steps, beginning with a start.
fn found_from(alloc: Global, graph: &Graph, start: &Start) -> Result<Found, Fail> {
    let mut left = AMPLE;
    Ok(cheapest_from(alloc, graph, start, &mut left)?)
}

// Whether a search from a start finds what costs as little as that of one anew, and its certificate shows it.
fn is_as_good(alloc: Global, graph: &Graph, start: &Start) -> Result<bool, Fail> {
    let found = found_from(alloc, graph, start)?;
    let anew = found_of(alloc, graph)?;
    let is_cheapest = cost_of(graph, &found) == cost_of(graph, &anew);
    Ok(is_cheapest && is_shown(alloc, graph, &found)?)
}

// A graph, and what is told to a search on it: what one before has found when it had more pairs.
#[derive(Drop)]
struct Changed {
    lists: Lists,
    start: Start,
}

fn draw_changed(alloc: Global, state: &mut u64, turn: usize) -> Result<Changed, Fail> {
    let before = draw(alloc, state, turn)?;
    let found = found_of(alloc, &before.graph())?;
    let start = start_of(alloc, state, &found)?;
    let costs = without_some(alloc, state, &before.costs)?;
    let lists = Lists {
        size: before.size,
        costs,
        left: before.left,
        classes: before.classes,
    };
    Ok(Changed { lists, start })
}

#[test]
fn graphs_that_lose_pairs(rt: HostRuntime) -> Result<(), Fail> {
    let mut state: u64 = 2;
    for turn in 0..3_000usize {
        let changed = draw_changed(rt.alloc(), &mut state, turn)?;
        let is_as_good = is_as_good(rt.alloc(), &changed.lists.graph(), &changed.start)?;
        assert!(rt; is_as_good, "turn {turn}");
    }
    Ok(())
}

// Whether a certificate shows that each matching costs more.
fn shows_more(alloc: Global, graph: &Graph, found: &Found, cost: Wide) -> Result<bool, Fail> {
    let Some(floor) = floor_of(alloc, graph, found)? else {
        return Ok(false);
    };
    Ok(match floor.debt().plus(cost) {
        Some(least) => least.is_less(floor.base()),
        None => false,
    })
}

// Whether a search with an end finds a cheapest matching if it costs no more than what is enough, and else a
// certificate that shows more. Costs count twice.
fn ends_rightly(alloc: Global, graph: &Graph, start: &Start, enough: u32) -> Result<bool, Fail> {
    let found = found_from(alloc, graph, start)?;
    if least(alloc, graph)?.saturating_mul(2) <= enough {
        is_shown(alloc, graph, &found)
    } else {
        shows_more(alloc, graph, &found, Wide::from_u64(u64::from(enough)))
    }
}

// Whether a search ends rightly with what is enough, for each number from a few below the least cost to that itself.
// Where some vertex is left over that must not be, nothing is asked.
fn all_end_rightly(alloc: Global, graph: &Graph, start: &mut Start) -> Result<bool, Fail> {
    let least = least(alloc, graph)?;
    if least >= MOST {
        return Ok(true);
    }
    for below in 0..6u32 {
        let enough = least.saturating_mul(2).saturating_sub(below);
        start.enough = Some(Wide::from_u64(u64::from(enough)));
        if !ends_rightly(alloc, graph, start, enough)? {
            return Ok(false);
        }
    }
    Ok(true)
}

#[test]
fn searches_with_an_end(rt: HostRuntime) -> Result<(), Fail> {
    let mut state: u64 = 3;
    for turn in 0..1_000usize {
        let mut changed = draw_changed(rt.alloc(), &mut state, turn)?;
        let graph = changed.lists.graph();
        let all_end_rightly = all_end_rightly(rt.alloc(), &graph, &mut changed.start)?;
        assert!(rt; all_end_rightly, "turn {turn}");
    }
    Ok(())
}

// A start that says nothing but what is enough.
fn blank_start(alloc: Global, enough: u32) -> Start {
    Start {
        labels: Vec::new(alloc),
        partners: Vec::new(alloc),
        enough: Some(twice(enough)),
    }
}

// A triangle with a tail costs 5: who asks for no more than 4 gets a certificate that shows more, and no whole matching.
#[test]
fn an_early_end(rt: HostRuntime) -> Result<(), Fail> {
    let alloc = rt.alloc();
    let graph = tailed(4);
    for (enough, is_whole) in [(5, true), (4, false)] {
        let found = found_from(alloc, &graph, &blank_start(alloc, enough))?;
        let is_early = shows_more(alloc, &graph, &found, twice(enough))?;
        assert!(rt; is_early != is_whole, "enough is {enough}");
        assert!(rt;
            (cost_of(&graph, &found) == 5) == is_whole,
            "enough is {enough}"
        );
    }
    Ok(())
}

// Who begins where a search ended without a priced set asks about its pairs alone: two looks, which are a step.
#[test]
fn from_its_own_end(rt: HostRuntime) -> Result<(), Fail> {
    let graph = tailed(4);
    let before = found_of(rt.alloc(), &graph)?;
    let labels = before.labels.iter().map(|label| Some(*label));
    let start = Start {
        labels: labels.collect(rt.alloc())?,
        partners: before.partners.clone()?,
        enough: None,
    };
    let mut left = 1;
    let found = cheapest_from(rt.alloc(), &graph, &start, &mut left)?;
    assert!(rt; left == 0 && cost_of(&graph, &found) == 5);
    let stopped = cheapest_from(rt.alloc(), &graph, &start, &mut left);
    assert!(rt; matches!(stopped, Err(Fault::Stopped)));
    Ok(())
}

// A path of four vertices, whose pairs cost 3, 5 and 3.
const PATH: [u32; 27] = [
    MOST, 3, MOST, MOST, MOST, MOST, MOST, MOST, 3, MOST, 5, MOST, MOST, MOST, MOST, MOST, MOST, 5,
    MOST, 3, MOST, MOST, MOST, MOST, MOST, MOST, 3,
];

// The first vertices of it; each may be left over, for 10.
fn path(size: u16) -> Graph<'static> {
    Graph {
        size,
        costs: &PATH,
        left: &[10; 8],
        classes: size,
        by_class: false,
    }
}

// A start on the path, with the pair of its second and its third vertex.
fn start_on_path(alloc: Global, labels: &[u64]) -> Result<Start, Fail> {
    let labels = labels.iter().map(|label| Some(Wide::from_u64(*label)));
    Ok(Start {
        labels: labels.collect(alloc)?,
        partners: Vec::from_array(alloc, [None, Some(2), Some(1)])?,
        enough: None,
    })
}

// Whether so many steps are enough to find a cheapest matching, and one less is not.
fn takes(alloc: Global, graph: &Graph, start: &Start, steps: u64) -> Result<bool, Fail> {
    let mut left = steps.saturating_sub(1);
    let stopped = cheapest_from(alloc, graph, start, &mut left);
    let is_stopped = matches!(stopped, Err(Fault::Stopped));
    left = steps;
    let found = cheapest_from(alloc, graph, start, &mut left)?;
    Ok(is_stopped && left == 0 && is_shown(alloc, graph, &found)?)
}

// The first vertex is alone, and the second one has just the label for it. The partner of this one is paired with the
// last one, or left over: one look for the pair of the start, one from the first vertex at each that stands behind it,
// the last one first, and one from the partner at most. Or it has none, since the labels do not allow the pair; then the
// third vertex is paired with the last one at its first look. Two looks are a step. A search from the first vertex would
// look at all others, and then from the partner too.
#[test]
fn over_one_pair(rt: HostRuntime) -> Result<(), Fail> {
    for (size, labels, steps) in [
        (4, [19, 15, 15, 19], 3),
        (3, [4, 30, 0, 0], 2),
        (4, [19, 15, 20, 14], 3),
    ] {
        let start = start_on_path(rt.alloc(), &labels)?;
        assert!(rt;
            takes(rt.alloc(), &path(size), &start, steps)?,
            "{size} vertices, {steps} steps"
        );
    }
    Ok(())
}

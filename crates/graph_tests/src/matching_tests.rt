// Matchings of small graphs, beside those that a search over all sets of edges finds, and what their labels show.
ghost use Rattle.std.specs.Prelude.{◌≤◌, length};

use matching::{Fault, Found, Graph, greatest};
use std::alloc::Global;
use std::test::Fail;

// A graph by its edges, in either order.
#[derive(Drop)]
struct Edges<'a> {
    size: u16,
    edges: &'a [(u16, u16)],
}

impl Graph for Edges<'_> {
    ghost use Rattle.std.specs.Prelude.{◌==◌, ◌&&◌, ◌||◌};
    ghost use Rattle.std.specs.List.{list_any};

    ghost vertices = { λ g. g.size };

    ghost joined = { λ g a b. list_any (λ e. ((e.0 == a) && (e.1 == b)) || ((e.0 == b) && (e.1 == a))) g.edges.now };

    fn size(&self) -> u16 {
        self.size
    }

    fn joins(&self, a: u16, b: u16) -> bool {
        self.edges
            .iter()
            .any(|(x, y)| (*x == a && *y == b) || (*x == b && *y == a))
    }
}

// More steps than any test makes.
const AMPLE: u64 = 1_000_000;

// The most edges of which no two meet, nor one that is taken: each edge is left out, and tried where it can be. Taken
// vertices are ones.
fn most_pairs(edges: &[(u16, u16)], taken: u64) -> usize
    ensures { result ≤ length edges.now }
{
    let Some(((a, b), others)) = edges.split_first() else {
        return 0;
    };
    let ends = 1u64.wrapping_shl(u32::from(*a)) | 1u64.wrapping_shl(u32::from(*b));
    let without = most_pairs(others, taken);
    if taken & ends != 0 {
        return without;
    }
    without.max(1 + most_pairs(others, taken | ends))
}

// The labels show that no matching leaves fewer alone if no edge joins two groups, and if more groups are odd than
// there are blockers, by as many as are alone. Each number from 1 to the greatest is that of a group.
fn is_shown(edges: &[(u16, u16)], found: &Found) -> bool {
    let labels = &found.labels;
    let alone = found.partners.iter().filter(|o| o.is_none()).count();
    let blockers = labels.iter().filter(|label| **label == 0).count();
    let odd = (1..=found.most)
        .filter(|group| labels.iter().filter(|label| *label == group).count() % 2 == 1)
        .count();
    let apart = edges.iter().all(|(a, b)| {
        let (one, other) = (labels.get(usize::from(*a)), labels.get(usize::from(*b)));
        one == other || one == Some(&0) || other == Some(&0)
    });
    let numbered = (1..=found.most).all(|group| labels.contains(&group));
    apart && numbered && odd.checked_sub(blockers) == Some(alone)
}

// What is found with ample steps.
fn found_of(alloc: Global, size: u16, edges: &[(u16, u16)]) -> Result<Found, Fail> {
    let mut left = AMPLE;
    Ok(greatest(alloc, &Edges { size, edges }, &mut left)?)
}

// How many pairs are found, if the labels show that there are no more, and a search over all sets of edges finds as
// many.
fn pairs_of(alloc: Global, size: u16, edges: &[(u16, u16)]) -> Result<Option<usize>, Fail> {
    let found = found_of(alloc, size, edges)?;
    let paired = found.partners.iter().filter(|o| o.is_some()).count();
    let is_right = is_shown(edges, &found) && paired == 2 * most_pairs(edges, 0);
    Ok(is_right.then_some(paired / 2))
}

// Each with its number of vertices and of pairs: a triangle with a tail, and a circle of five with two tails, whose
// pairs are found by folding a circle; the graph of Petersen; a star; two triangles; no vertex, and no edge.
const GRAPHS: [(u16, &[(u16, u16)], usize); 7] = [
    (4, &TAILED, 2),
    (
        8,
        &[
            (0, 1),
            (1, 2),
            (2, 3),
            (3, 4),
            (4, 5),
            (5, 1),
            (0, 6),
            (2, 7),
        ],
        4,
    ),
    (
        10,
        &[
            (0, 1),
            (1, 2),
            (2, 3),
            (3, 4),
            (4, 0),
            (0, 5),
            (1, 6),
            (2, 7),
            (3, 8),
            (4, 9),
            (5, 7),
            (7, 9),
            (9, 6),
            (6, 8),
            (8, 5),
        ],
        5,
    ),
    (6, &STAR, 1),
    (6, &TRIANGLES, 2),
    (0, &[], 0),
    (4, &[], 0),
];

const TAILED: [(u16, u16); 4] = [(0, 1), (1, 2), (2, 0), (0, 3)];

const STAR: [(u16, u16); 5] = [(0, 1), (0, 2), (0, 3), (0, 4), (0, 5)];

const TRIANGLES: [(u16, u16); 6] = [(0, 1), (1, 2), (2, 0), (3, 4), (4, 5), (5, 3)];

#[test]
fn pairs_of_known_graphs(rt: HostRuntime) -> Result<(), Fail> {
    for (size, edges, pairs) in GRAPHS {
        assert_eq!(rt;
            pairs_of(rt.alloc(), size, edges)?,
            Some(pairs),
            "{size} vertices"
        );
    }
    Ok(())
}

#[test]
fn partners_of_a_tailed_triangle(rt: HostRuntime) -> Result<(), Fail> {
    let found = found_of(rt.alloc(), 4, &TAILED)?;
    assert!(rt; found.partners.as_slice() == [Some(3), Some(2), Some(1), Some(0)].as_slice());
    Ok(())
}

#[test]
fn labels_of_a_star_and_of_triangles(rt: HostRuntime) -> Result<(), Fail> {
    let table = [
        (STAR.as_slice(), [0, 1, 2, 3, 4, 5]),
        (TRIANGLES.as_slice(), [1, 1, 1, 2, 2, 2]),
    ];
    for (edges, labels) in table {
        assert!(rt; found_of(rt.alloc(), 6, edges)?.labels.as_slice() == labels.as_slice());
    }
    Ok(())
}

// The edges of a graph: the digits of `marks`, written with ones and zeros, say from the last one on which two vertices
// are joined.
fn marked(alloc: Global, size: u16, marks: u64) -> Result<Vec<(u16, u16)>, Fail> {
    let mut edges = Vec::new(alloc);
    let mut rest = marks;
    let side = u32::from(size);
    for place in 0..side * side {
        let (a, b) = (place / side, place % side);
        if a < b {
            if rest & 1 == 1 {
                edges.push((a as u16, b as u16))?;
            }
            rest >>= 1;
        }
    }
    Ok(edges)
}

#[test]
fn all_graphs_of_six(rt: HostRuntime) -> Result<(), Fail> {
    let alloc = rt.alloc();
    for marks in 0..32_768 {
        let edges = marked(alloc, 6, marks)?;
        assert!(rt; pairs_of(alloc, 6, &edges)?.is_some(), "marks {marks}");
    }
    Ok(())
}

#[test]
fn graphs_of_seven_to_nine(rt: HostRuntime) -> Result<(), Fail> {
    let alloc = rt.alloc();
    let mut state: u64 = 1;
    for turn in 0..1_000u16 {
        let before = state;
        state = state
            .wrapping_mul(6_364_136_223_846_793_005)
            .wrapping_add(1_442_695_040_888_963_407);
        // few edges: in every second graph each pair of vertices is joined by one of four
        let marks = if turn % 2 == 0 {
            state >> 28
        } else {
            (state >> 28) & (before >> 20)
        };
        let edges = marked(alloc, 7 + turn % 3, marks)?;
        assert!(rt;
            pairs_of(alloc, 7 + turn % 3, &edges)?.is_some(),
            "turn {turn}"
        );
    }
    Ok(())
}

// A no is a stop for want of a step; none is any other failure.
fn finds(alloc: Global, graph: &Edges, left: &mut u64) -> Option<bool> {
    match greatest(alloc, graph, left) {
        Ok(_) => Some(true),
        Err(Fault::Stopped) => Some(false),
        Err(Fault::OutOfMemory) => None,
    }
}

#[test]
fn each_vertex_asked_about_is_a_step(rt: HostRuntime) {
    let tailed = Edges {
        size: 4,
        edges: &TAILED,
    };
    for (given, found, kept) in [(0, false, 0), (9, false, 0), (10, true, 0), (13, true, 3)] {
        let mut left = given;
        assert!(rt;
            finds(rt.alloc(), &tailed, &mut left) == Some(found) && left == kept,
            "{given} steps"
        );
    }
}

// Matchings of small graphs with costs, beside the least cost that a table over all sets of vertices gives, and what
// the checks of `dual` say of their certificates.
ghost use Rattle.std.specs.Prelude.{◌≡◌, ◌+◌, ◌*◌, get_or, nat_lt, is_some};

use cheapest::{Costs, Fault, Found, cheapest};
use dual::{Before, Floor, MatchingRule, Pool, Wide};
use std::alloc::{AllocError, Global};
use std::test::Fail;

// From here on a pair is not joined, and a vertex must not be left over.
pub(crate) const MOST: u32 = 1_000_000;

// More steps than any test makes.
pub(crate) const AMPLE: u64 = 1_000_000;

// A graph by what each pair costs, in rows of eight, and what it costs to leave each vertex over.
#[derive(Drop)]
pub(crate) struct Graph<'a> {
    pub(crate) size: u16,
    pub(crate) costs: &'a [u32],
    pub(crate) left: &'a [u32],
    // so many classes have vertices, whether these cost the same or not
    pub(crate) classes: u16,
    // whether it says that costs go by class
    pub(crate) by_class: bool,
}

// A number of a list; the most of all behind it.
pub(crate) fn at(list: &[u32], place: usize) -> u32
    ensures { result ≡ get_or list.now place 1000000 }
{
    if place < list.len() {
        list[place]
    } else {
        1_000_000
    }
}

// A number of a list, if it is below the most of all.
fn below_most(list: &[u32], place: usize) -> Option<Wide>
    ensures { is_some result ≡ nat_lt (get_or list.now place 1000000) 1000000 }
{
    let cost = at(list, place);
    if cost < MOST {
        Some(Wide::from_u64(u64::from(cost)))
    } else {
        None
    }
}

// Where a pair stands among the costs.
fn place(a: u16, b: u16) -> usize
    ensures { result ≡ 8 * a + b }
{
    8 * usize::from(a) + usize::from(b)
}

impl Costs for Graph<'_> {
    type Class = u16;

    ghost use Rattle.std.specs.Prelude.{◌+◌, ◌*◌, nat_lt, get_or};

    ghost vertices = { λ g. g.size };

    ghost joined = { λ g a b. nat_lt (get_or g.costs.now (8 * a + b) 1000000) 1000000 };

    fn size(&self) -> u16 {
        self.size
    }

    fn cost(&self, a: u16, b: u16) -> Option<Wide> {
        below_most(self.costs, place(a, b))
    }

    fn left_cost(&self, a: u16) -> Option<Wide> {
        below_most(self.left, usize::from(a))
    }

    fn class(&self, a: u16) -> u16 {
        a % self.classes.max(1)
    }

    fn costs_by_class(&self) -> bool {
        self.by_class
    }

    fn looks_from(&self, a: u16) -> u16 {
        a.wrapping_mul(self.classes)
    }
}

// The same costs, each counted twice, as certificates count them.
#[derive(Drop)]
struct Doubled<'a> {
    costs: &'a [u32],
    left: &'a [u32],
}

pub(crate) fn twice(cost: u32) -> Wide
    ensures { result ≡ 2 * cost }
{
    Wide::from_u64(2 * u64::from(cost))
}

impl MatchingRule for Doubled<'_> {
    ghost use Rattle.std.specs.Prelude.{◌+◌, ◌*◌, nat_lt, get_or};

    ghost costs = { λ t. record {
      meets = λ a b. nat_lt (get_or t.costs.now (8 * a + b) 1000000) 1000000;
      weight = λ a b. 2 * get_or t.costs.now (8 * a + b) 1000000;
      may_be_left = λ a. nat_lt (get_or t.left.now a 1000000) 1000000;
      left_cost = λ a. 2 * get_or t.left.now a 1000000;
    } };

    ghost knows = { λ _ _. Unit {0} };

    fn may_meet(&self, a: u16, b: u16) -> bool {
        at(self.costs, place(a, b)) < MOST
    }

    fn weight(&self, a: u16, b: u16) -> Wide {
        twice(at(self.costs, place(a, b)))
    }

    fn may_be_left(&self, a: u16) -> bool {
        at(self.left, usize::from(a)) < MOST
    }

    fn left_cost(&self, a: u16) -> Wide {
        twice(at(self.left, usize::from(a)))
    }
}

fn is_in(set: usize, v: u32) -> bool {
    set.wrapping_shr(v) & 1 == 1
}

// The least that a set of vertices costs, if that of each set with a smaller number is known: its first vertex is left
// over, or paired.
fn least_of(graph: &Graph, known: &[u32], set: usize) -> u32 {
    let v = set.trailing_zeros() as usize;
    let others = set & set.wrapping_sub(1);
    let mut least = at(graph.left, v).saturating_add(at(known, others));
    for u in 0..8u32 {
        if is_in(others, u) {
            let rest = at(known, others & !1usize.wrapping_shl(u));
            let cost = at(graph.costs, v.wrapping_mul(8).wrapping_add(u as usize));
            least = least.min(cost.saturating_add(rest));
        }
    }
    least
}

// The least that a matching costs.
pub(crate) fn least(alloc: Global, graph: &Graph) -> Result<u32, Fail> {
    let mut known = Vec::new(alloc);
    known.push(0)?;
    let sets = 1usize.wrapping_shl(u32::from(graph.size));
    for set in 1..sets {
        known.push(least_of(graph, &known, set))?;
    }
    Ok(at(&known, sets.saturating_sub(1)))
}

pub(crate) fn cost_of(graph: &Graph, found: &Found) -> u32 {
    let mut cost: u32 = 0;
    for (a, partner) in found.partners.iter().enumerate() {
        let part = match partner {
            None => at(graph.left, a),
            Some(b) if a < usize::from(*b) => at(graph.costs, 8 * a + usize::from(*b)),
            Some(_) => 0,
        };
        cost = cost.saturating_add(part);
    }
    cost
}

// The floor that a certificate is for as many vertices left over as the matching leaves, if it is feasible, and also
// one for any number of them.
pub(crate) fn floor_of(
    alloc: Global,
    graph: &Graph,
    found: &Found,
) -> Result<Option<Floor>, AllocError> {
    let rule = Doubled {
        costs: graph.costs,
        left: graph.left,
    };
    let players: Vec<u16> = (0..graph.size).collect(alloc)?;
    let left = found
        .partners
        .iter()
        .filter(|partner| partner.is_none())
        .count();
    if players.len() > 8 || left > players.len() {
        return Ok(None);
    }
    let pool = Pool {
        rule: &rule,
        players: &players,
    };
    if found.certificate.floor_for_any(alloc, &pool)?.is_none() {
        return Ok(None);
    }
    found.certificate.floor(alloc, &pool, left)
}

// A certificate that is feasible, and worth just what the matching costs, shows that this is the least. Where some
// vertex is left over that must not be, nothing is worth as much.
pub(crate) fn is_shown(alloc: Global, graph: &Graph, found: &Found) -> Result<bool, Fail> {
    let least = least(alloc, graph)?;
    let cost = cost_of(graph, found);
    let Some(floor) = floor_of(alloc, graph, found)? else {
        return Ok(false);
    };
    let is_worth_it = floor.debt().plus(twice(cost)) == Some(floor.base());
    Ok(least >= MOST || (cost == least && is_worth_it))
}

pub(crate) fn found_of(alloc: Global, graph: &Graph) -> Result<Found, Fail> {
    let mut left = AMPLE;
    Ok(cheapest(alloc, graph, &mut left)?)
}

// How many priced sets a certificate has, if it shows that nothing is cheaper, and a table says so too.
fn sets_of(alloc: Global, graph: &Graph) -> Result<Option<usize>, Fail> {
    let found = found_of(alloc, graph)?;
    let is_shown = is_shown(alloc, graph, &found)?;
    Ok(is_shown.then_some(found.certificate.sets.len()))
}

// Numbers that look like drawn ones.
pub(crate) fn drawn(state: &mut u64, below: u32) -> u32 {
    *state = state
        .wrapping_mul(6_364_136_223_846_793_005)
        .wrapping_add(1_442_695_040_888_963_407);
    (*state >> 33) as u32 % below.max(1)
}

// Costs below a number of so many of four pairs.
fn draw_costs(alloc: Global, state: &mut u64, joined: u32, below: u32) -> Result<Vec<u32>, Fail> {
    let mut costs = vec![in alloc; MOST; 64]?;
    for a in 0..8 {
        for b in a + 1..8 {
            if drawn(state, 4) < joined {
                let cost = drawn(state, below);
                costs[8 * a + b] = cost;
                costs[8 * b + a] = cost;
            }
        }
    }
    Ok(costs)
}

// Costs below a number to leave over so many of four vertices.
fn draw_left(alloc: Global, state: &mut u64, some: u32, below: u32) -> Result<Vec<u32>, Fail> {
    let mut left = vec![in alloc; MOST; 8]?;
    for place in 0..8 {
        if drawn(state, 4) < some {
            left[place] = drawn(state, below);
        }
    }
    Ok(left)
}

pub(crate) const BOUNDS: [u32; 4] = [2, 4, 12, 1_000];

// What a graph refers to.
#[derive(Drop)]
pub(crate) struct Lists {
    pub(crate) size: u16,
    pub(crate) costs: Vec<u32>,
    pub(crate) left: Vec<u32>,
    pub(crate) classes: u16,
}

impl Lists {
    pub(crate) fn graph(&self) -> Graph<'_> {
        Graph {
            size: self.size,
            costs: &self.costs,
            left: &self.left,
            classes: self.classes,
            by_class: false,
        }
    }
}

// A graph of up to eight vertices that looks like a drawn one.
pub(crate) fn draw(alloc: Global, state: &mut u64, turn: usize) -> Result<Lists, Fail> {
    let below = BOUNDS[turn / 5 % 4];
    let costs = draw_costs(alloc, state, 1 + (turn % 4) as u32, below)?;
    let left = draw_left(alloc, state, (turn / 4 % 5) as u32, below)?;
    Ok(Lists {
        size: (turn % 9) as u16,
        costs,
        left,
        classes: 1 + (turn / 20 % 8) as u16,
    })
}

#[test]
fn drawn_graphs(rt: HostRuntime) -> Result<(), Fail> {
    let mut state: u64 = 1;
    let mut with_sets: u32 = 0;
    for turn in 0..3_000usize {
        let lists = draw(rt.alloc(), &mut state, turn)?;
        let sets = sets_of(rt.alloc(), &lists.graph())?;
        assert!(rt; sets.is_some(), "turn {turn}");
        if sets > Some(0) {
            with_sets = with_sets.saturating_add(1);
        }
    }
    assert!(rt; with_sets > 100, "{with_sets} with sets");
    Ok(())
}

// A triangle at no cost, to whose first vertex a fourth one is joined for 5.
const TAILED: [u32; 25] = [
    MOST, 0, 0, 5, MOST, MOST, MOST, MOST, 0, MOST, 0, MOST, MOST, MOST, MOST, MOST, 0, 0, MOST,
    MOST, MOST, MOST, MOST, MOST, 5,
];

// The first vertices of it; each may be left over, for 9.
pub(crate) fn tailed(size: u16) -> Graph<'static> {
    Graph {
        size,
        costs: &TAILED,
        left: &[9; 8],
        classes: size,
        by_class: false,
    }
}

// One of a triangle is left over: only a priced set shows that. With the fourth vertex nobody is.
#[test]
fn triangles(rt: HostRuntime) -> Result<(), Fail> {
    for (size, sets) in [(3, 1), (4, 0)] {
        assert!(rt;
            sets_of(rt.alloc(), &tailed(size))? == Some(sets),
            "{size} vertices"
        );
    }
    let found = found_of(rt.alloc(), &tailed(4))?;
    assert!(rt; found.partners.as_slice() == [Some(3), Some(2), Some(1), Some(0)].as_slice());
    Ok(())
}

#[test]
fn too_few_steps(rt: HostRuntime) {
    let mut left = 1;
    let found = cheapest(rt.alloc(), &tailed(4), &mut left);
    assert!(rt; matches!(found, Err(Fault::Stopped)) && left == 0);
}

// How many pairs are asked about if a certificate of the four vertices is checked again, with marks for those who have
// turned; none if a floor is another one than before.
fn looks_again(alloc: Global, found: &Found, turned: &[bool]) -> Result<Option<u64>, AllocError> {
    let rule = Doubled {
        costs: &TAILED,
        left: &[9; 8],
    };
    let pool = Pool {
        rule: &rule,
        players: &[0, 1, 2, 3],
    };
    let Some(floor) = found.certificate.floor(alloc, &pool, 0)? else {
        return Ok(None);
    };
    let before = Before {
        rule: &rule,
        table: &found.certificate,
        floor: &floor,
        turned,
    };
    let again = found.certificate.floor_again(alloc, &pool, 0, &before)?;
    let for_any = found
        .certificate
        .floor_for_any_again(alloc, &pool, &before)?;
    let (Some(again), Some(for_any)) = (again, for_any) else {
        return Ok(None);
    };
    if for_any.looks != again.looks || for_any.floor.slack(0, 3) != floor.slack(0, 3) {
        return Ok(None);
    }
    Ok(Some(again.looks))
}

// Nobody's pairs, those of one, and all. Past the end of the marks each vertex has turned.
#[test]
fn checked_again(rt: HostRuntime) -> Result<(), Fail> {
    let found = found_of(rt.alloc(), &tailed(4))?;
    for (turned, looks) in [
        ([false; 4].as_slice(), 0),
        ([false, true, false, false].as_slice(), 7),
        ([false, true, false].as_slice(), 12),
        ([true; 4].as_slice(), 16),
    ] {
        assert!(rt;
            looks_again(rt.alloc(), &found, turned)? == Some(looks),
            "{looks} pairs"
        );
    }
    Ok(())
}

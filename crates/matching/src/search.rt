// The searches: from each vertex that is alone one, for a way to another such vertex on which every second pair is a
// pair so far. Before them each vertex is paired with the first one that it can have, which saves most searches where
// many are joined. Each vertex asked about is a step.
ghost use Rattle.std.specs.Prelude.{◌≡◌, ◌≤◌, ◌<◌, ◌+◌, ◌*◌, Some, slice_set, IfSome, IfOk, OnErr};
ghost use Rattle.std.specs.Option.{MatchOption};
ghost use Rattle.std.specs.Result.{MatchResult};
ghost use Rattle.matching.specs.Matchings.{most_steps};
ghost use Rattle.matching.specs.declared.fault.Fault.TheVariants.{Stopped};

use crate::fault::Fault;
use crate::forest::{Forest, Mark};
use crate::graph::Graph;

/// Takes a step, if one is left.
fn take_step(left: &mut u64) -> Result<(), Fault>
    ensures { MatchResult result
        (λ _. left.new + 1 ≡ left.old)
        (λ fault. (fault ≡ Stopped) × (left.new ≡ 0) × (left.old ≡ 0)) }
{
    if *left == 0 {
        return Err(Fault::Stopped);
    }
    *left -= 1;
    Ok(())
}

impl Forest {
    /// Pairs two vertices.
    fn pair(&mut self, v: u16, u: u16)
        requires one { v < self.old.size }
        requires other { u < self.old.size }
        ensures partners { self.new.partner.ends.items
            ≡ slice_set (slice_set self.old.partner.ends.items v (Some u)) u (Some v) }
        ensures size { self.new.size ≡ self.old.size }
    {
        self.partner.put(v, Some(u));
        self.partner.put(u, Some(v));
    }

    /// The first vertex behind a vertex that is alone and joined to it, with a step for each vertex asked about.
    fn first_alone<G: Graph>(&self, graph: &G, v: u16, left: &mut u64) -> Result<Option<u16>, Fault>
        requires vertex { v < self.now.size }
        requires of_graph { self.now.size ≡ G.vertices graph.now }
        ensures behind { IfOk result (λ found. IfSome found (λ u. (v < u) × (u < self.now.size))) }
        ensures steps { MatchResult result
            (λ found. MatchOption found (left.new + self.now.size ≡ left.old + v + 1)
            (λ u. left.new + u ≡ left.old + v))
            (λ _. (left.new ≡ 0) × (left.old < self.now.size)) }
    {
        let end = self.size;
        for u in v + 1..end {
            take_step(left)?;
            if self.partner.at(u).is_none() && graph.joins(v, u) {
                return Ok(Some(u));
            }
        }
        Ok(None)
    }

    /// Pairs a vertex with the first one behind it that it can have.
    fn pair_with_first<G: Graph>(&mut self, graph: &G, v: u16, left: &mut u64) -> Result<(), Fault>
        requires vertex { v < self.old.size }
        requires of_graph { self.old.size ≡ G.vertices graph.now }
        ensures size { self.new.size ≡ self.old.size }
        ensures falls { left.new ≤ left.old }
        ensures few { left.old ≤ left.new + self.old.size }
        ensures stopped { OnErr result ((left.new ≡ 0) × (left.old < self.old.size)) }
    {
        if let Some(u) = self.first_alone(graph, v, left)? {
            self.pair(v, u);
        }
        Ok(())
    }

    /// Pairs each vertex that is alone with the first one that it can have.
    fn begin<G: Graph>(&mut self, graph: &G, left: &mut u64) -> Result<(), Fault>
        requires { self.old.size ≡ G.vertices graph.now }
        ensures size { self.new.size ≡ self.old.size }
        ensures falls { left.new ≤ left.old }
        ensures few { left.old ≤ left.new + self.old.size * self.old.size }
        ensures stopped { OnErr result ((left.new ≡ 0) × (left.old < self.old.size * self.old.size)) }
    {
        for v in 0..self.size {
            if self.partner.at(v).is_none() {
                self.pair_with_first(graph, v, left)?;
            }
        }
        Ok(())
    }

    /// Takes a vertex that was not reached into the tree, and its partner as an outer vertex. If it has none, a way
    /// ends there: true.
    fn grow(&mut self, v: u16, u: u16) -> bool
        requires outer { v < self.old.size }
        requires neighbour { u < self.old.size }
        ensures { self.new.size ≡ self.old.size }
    {
        self.parent.put(u, Some(v));
        let Some(partner) = self.partner.at(u) else {
            return true;
        };
        self.marks[usize::from(u)] = Mark::Inner;
        self.marks[usize::from(partner)] = Mark::Waiting;
        false
    }

    /// Goes from an outer vertex to a neighbour of it; whether a way ends there.
    fn go_to(&mut self, v: u16, u: u16) -> bool
        requires outer { v < self.old.size }
        requires neighbour { u < self.old.size }
        ensures { self.new.size ≡ self.old.size }
    {
        match self.marks[usize::from(u)] {
            Mark::Unseen => self.grow(v, u),
            Mark::Waiting | Mark::Searched => {
                if self.base_of(v) != self.base_of(u) {
                    self.fold(v, u);
                }
                false
            }
            Mark::Inner | Mark::Grouped | Mark::Blocker => false,
        }
    }

    /// Looks at the neighbours of an outer vertex, with a step for each vertex asked about, until a way ends at one.
    fn look_from<G: Graph>(
        &mut self,
        graph: &G,
        v: u16,
        left: &mut u64,
    ) -> Result<Option<u16>, Fault>
        requires outer { v < self.old.size }
        requires of_graph { self.old.size ≡ G.vertices graph.now }
        ensures size { self.new.size ≡ self.old.size }
        ensures end { IfOk result (λ o. IfSome o (λ u. u < self.old.size)) }
        ensures steps { MatchResult result
            (λ end. MatchOption end (left.new + self.old.size ≡ left.old) (λ u. left.new + u + 1 ≡ left.old))
            (λ _. (left.new ≡ 0) × (left.old < self.old.size)) }
    {
        self.marks[usize::from(v)] = Mark::Searched;
        for u in 0..self.size {
            take_step(left)?;
            if graph.joins(v, u) && self.go_to(v, u) {
                return Ok(Some(u));
            }
        }
        Ok(None)
    }

    /// Searches from a vertex that is alone, until a way ends or no neighbour is left. The answer is where the way
    /// ends.
    fn find_way<G: Graph>(
        &mut self,
        graph: &G,
        root: u16,
        left: &mut u64,
    ) -> Result<Option<u16>, Fault>
        requires root { root < self.old.size }
        requires of_graph { self.old.size ≡ G.vertices graph.now }
        ensures size { self.new.size ≡ self.old.size }
        ensures end { IfOk result (λ o. IfSome o (λ u. u < self.old.size)) }
        ensures falls { left.new ≤ left.old }
        ensures few { left.old ≤ left.new + self.old.size * self.old.size }
        ensures stopped { OnErr result ((left.new ≡ 0) × (left.old < self.old.size * self.old.size)) }
    {
        self.marks[usize::from(root)] = Mark::Waiting;
        for _ in 0..self.size {
            let Some(v) = self.first(Mark::Waiting) else {
                return Ok(None);
            };
            let end = self.look_from(graph, v, left)?;
            if end.is_some() {
                return Ok(end);
            }
        }
        Ok(None)
    }

    /// Pairs the vertices of a way anew, from its end back to the root.
    fn pair_along(&mut self, end: u16)
        requires { end < self.old.size }
        ensures { self.new.size ≡ self.old.size }
    {
        let mut v = end;
        for _ in 0..self.size {
            let Some(outer) = self.parent.at(v) else {
                return;
            };
            let left_over = self.partner.at(outer);
            self.pair(v, outer);
            let Some(next) = left_over else {
                return;
            };
            v = next;
        }
    }

    /// Forgets the tree of a search that found a way.
    fn forget_tree(&mut self)
        ensures { self.new.size ≡ self.old.size }
    {
        for v in 0..self.size {
            if !matches!(self.marks[usize::from(v)], Mark::Grouped | Mark::Blocker) {
                self.marks[usize::from(v)] = Mark::Unseen;
                self.parent.put(v, None);
                self.base.put(v, None);
            }
        }
    }

    /// Leaves the tree of a search that failed out of all later ones.
    fn leave_tree(&mut self)
        ensures { self.new.size ≡ self.old.size }
    {
        for v in 0..self.size {
            self.marks[usize::from(v)] = match self.marks[usize::from(v)] {
                Mark::Waiting | Mark::Searched => Mark::Grouped,
                Mark::Inner => Mark::Blocker,
                other => other,
            };
        }
    }

    /// Searches from a vertex that is alone, and pairs it if that can be.
    fn pair_root<G: Graph>(&mut self, graph: &G, root: u16, left: &mut u64) -> Result<(), Fault>
        requires root { root < self.old.size }
        requires of_graph { self.old.size ≡ G.vertices graph.now }
        ensures size { self.new.size ≡ self.old.size }
        ensures falls { left.new ≤ left.old }
        ensures few { left.old ≤ left.new + self.old.size * self.old.size }
        ensures stopped { OnErr result ((left.new ≡ 0) × (left.old < self.old.size * self.old.size)) }
    {
        match self.find_way(graph, root, left)? {
            Some(end) => {
                self.pair_along(end);
                self.forget_tree();
            }
            None => self.leave_tree(),
        }
        Ok(())
    }

    /// Pairs as many vertices as can be.
    pub(crate) fn pair_all<G: Graph>(&mut self, graph: &G, left: &mut u64) -> Result<(), Fault>
        requires { self.old.size ≡ G.vertices graph.now }
        ensures size { self.new.size ≡ self.old.size }
        ensures falls { left.new ≤ left.old }
        ensures few { left.old ≤ left.new + most_steps self.old.size }
        ensures stopped { OnErr result ((left.new ≡ 0) × (left.old < most_steps self.old.size)) }
    {
        self.begin(graph, left)?;
        for root in 0..self.size {
            if self.partner.at(root).is_none() {
                self.pair_root(graph, root, left)?;
            }
        }
        Ok(())
    }
}

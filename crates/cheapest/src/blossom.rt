// The folding of a blossom: two outer vertices are joined, so that the ways from both to the root close a circle of odd
// length. All its nodes lie in one blossom from then on, which is outer.
use crate::forest::{Forest, Mark};
use crate::graph::Costs;
use dual::Wide;

// The two pairs of vertices that lead from an outer node up to the next one.
#[derive(Clone, Copy)]
struct Way {
    // from its base to the partner of that one, in an inner node
    matched: (u16, u16),
    // from that inner node to the outer one from which it was reached
    reached: (u16, u16),
}

impl<C: Costs> Forest<'_, C> {
    // The way from an outer node up to the next one; none from the root.
    fn way_up(&self, node: u16) -> Option<Way> {
        let base = self.base_of(node);
        let partner = self.partner_of(base)?;
        let inner = self.outer_of(partner);
        let (from, at) = self.reached.at(usize::from(inner))?;
        Some(Way {
            matched: (base, partner),
            reached: (at, from),
        })
    }

    // Notes the outer nodes on the way from a vertex to the root.
    fn note_way(&mut self, v: u16) {
        self.on_way.clear();
        let mut node = self.outer_of(v);
        for _ in 0..self.nodes {
            self.on_way.put(usize::from(node), true);
            let Some(way) = self.way_up(node) else {
                return;
            };
            node = self.outer_of(way.reached.1);
        }
    }

    // The first outer node on the way from a vertex to the root that is noted.
    fn meeting_node(&self, v: u16) -> Option<u16> {
        let mut node = self.outer_of(v);
        for _ in 0..self.nodes {
            if self.on_way.at(usize::from(node)) {
                return Some(node);
            }
            let way = self.way_up(node)?;
            node = self.outer_of(way.reached.1);
        }
        None
    }

    // Puts the node of a vertex into a blossom, with a pair of vertices as its way to the next node of the circle.
    fn link(&mut self, blossom: u16, pair: (u16, u16)) {
        let node = usize::from(self.outer_of(pair.0));
        self.next.put(node, Some(pair));
        self.parent.put(node, Some(blossom));
    }

    // Puts the nodes from a vertex up to a node into a blossom, each with its way up.
    fn link_up(&mut self, blossom: u16, v: u16, top: u16) {
        let mut node = self.outer_of(v);
        for _ in 0..self.nodes {
            if node == top {
                return;
            }
            let Some(way) = self.way_up(node) else {
                return;
            };
            self.link(blossom, way.matched);
            self.link(blossom, way.reached);
            node = self.outer_of(way.reached.1);
        }
    }

    // Puts the nodes from a node down to a vertex into a blossom, each with its way down.
    fn link_down(&mut self, blossom: u16, v: u16, top: u16) {
        let mut node = self.outer_of(v);
        for _ in 0..self.nodes {
            if node == top {
                return;
            }
            let Some(way) = self.way_up(node) else {
                return;
            };
            self.link(blossom, (way.matched.1, way.matched.0));
            self.link(blossom, (way.reached.1, way.reached.0));
            node = self.outer_of(way.reached.1);
        }
    }

    // The first number of a blossom that is not in use.
    fn first_unused(&self) -> Option<u16> {
        for node in self.size..self.nodes {
            if !self.live.at(usize::from(node)) {
                return Some(node);
            }
        }
        None
    }

    // Tells all vertices of a blossom that it is outermost.
    fn take_in(&mut self, blossom: u16) {
        for v in 0..self.size {
            if self.parent_of(self.outer_of(v)) == Some(blossom) {
                self.outer.put(usize::from(v), Some(blossom));
            }
        }
    }

    // Begins a blossom with a base, in which nothing lies yet.
    fn begin_blossom(&mut self, blossom: u16, base: u16) {
        let place = usize::from(blossom);
        self.base.put(place, Some(base));
        self.parent.put(place, None);
        self.labels.put(place, Wide::zero());
        self.live.put(place, true);
        self.end = self.end.max(blossom.saturating_add(1));
        self.is_folded = true;
        self.mark(blossom, Mark::Outer);
    }

    /// Folds the blossom that two joined outer vertices close.
    pub(crate) fn fold(&mut self, u: u16, v: u16) {
        self.note_way(u);
        let (Some(top), Some(blossom)) = (self.meeting_node(v), self.first_unused()) else {
            return;
        };
        self.begin_blossom(blossom, self.base_of(top));
        self.link_up(blossom, u, top);
        self.link_down(blossom, v, top);
        self.link(blossom, (v, u));
        self.take_in(blossom);
    }
}

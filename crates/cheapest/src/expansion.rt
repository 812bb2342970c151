// The unfolding of a blossom: its nodes are outermost again, and those in which its base is not are paired along the
// circle.
use crate::forest::{Forest, Mark};
use crate::graph::Costs;

impl<C: Costs> Forest<'_, C> {
    // The node that lies in a blossom, and holds a vertex of it.
    fn node_in(&self, blossom: u16, v: u16) -> u16 {
        let mut node = v;
        for _ in 0..self.nodes {
            match self.parent_of(node) {
                Some(parent) if parent != blossom => node = parent,
                _ => return node,
            }
        }
        node
    }

    // Tells all vertices of a blossom the node that they are in once it is gone.
    fn let_out(&mut self, blossom: u16) {
        for v in 0..self.size {
            if self.outer_of(v) == blossom {
                let node = self.node_in(blossom, v);
                self.outer.put(usize::from(v), Some(node));
            }
        }
    }

    // Takes all nodes out of a blossom.
    fn let_go(&mut self, blossom: u16) {
        for node in 0..self.nodes {
            if self.parent_of(node) == Some(blossom) {
                self.parent.put(usize::from(node), None);
            }
        }
    }

    // The next node on a circle.
    fn next_of(&self, node: u16) -> Option<u16> {
        let (_, there) = self.next.at(usize::from(node))?;
        Some(self.outer_of(there))
    }

    // Pairs a node of a circle with the next one. The answer is the node behind both.
    fn pair_with_next(&mut self, node: u16) -> Option<u16> {
        let (here, there) = self.next.at(usize::from(node))?;
        let other = self.outer_of(there);
        self.pair(here, there);
        self.base.put(usize::from(node), Some(here));
        self.base.put(usize::from(other), Some(there));
        self.next_of(other)
    }

    // Pairs the nodes of a circle, but that of the base.
    fn pair_circle(&mut self, base: u16) {
        let first = self.outer_of(base);
        self.base.put(usize::from(first), Some(base));
        let mut node = self.next_of(first);
        for _ in 0..self.nodes {
            let Some(here) = node else {
                return;
            };
            if here == first {
                return;
            }
            node = self.pair_with_next(here);
        }
    }

    // Unfolds an outermost blossom.
    fn unfold(&mut self, blossom: u16) {
        self.let_out(blossom);
        self.let_go(blossom);
        self.live.put(usize::from(blossom), false);
        self.pair_circle(self.base_of(blossom));
    }

    /// Unfolds all blossoms.
    pub(crate) fn unfold_all(&mut self) {
        for _ in self.size..self.end {
            for blossom in self.size..self.end {
                if self.is_outermost_blossom(blossom) {
                    self.unfold(blossom);
                }
            }
        }
    }

    /// Marks a node as inner, reached by a pair of vertices.
    pub(crate) fn reach(&mut self, node: u16, pair: (u16, u16)) {
        self.mark(node, Mark::Inner);
        self.reached.put(usize::from(node), Some(pair));
    }

    // The way goes along a circle, from each node to its next one.
    fn is_even_way(&self, from: u16, end: u16) -> bool {
        let mut node = from;
        let mut is_even = true;
        for _ in 0..self.nodes {
            if node == end {
                return is_even;
            }
            let Some(next) = self.next_of(node) else {
                return is_even;
            };
            node = next;
            is_even = !is_even;
        }
        is_even
    }

    // Marks the nodes on a circle from the bottom, where the tree goes on, to the node by which it was entered: each
    // second one is inner, and reached from the node behind it.
    fn mark_against(&mut self, bottom: u16, entry: u16) {
        let mut node = bottom;
        let mut is_inner = true;
        for _ in 0..self.nodes {
            let Some((here, there)) = self.next.at(usize::from(node)) else {
                return;
            };
            if node == entry {
                return;
            }
            if is_inner {
                self.reach(node, (there, here));
            } else {
                self.mark(node, Mark::Outer);
            }
            is_inner = !is_inner;
            node = self.outer_of(there);
        }
    }

    // Marks the nodes on a circle from the node by which it was entered to the bottom: each second one is inner, and
    // reached from the node before it.
    fn mark_along(&mut self, entry: u16, bottom: u16) {
        let mut node = entry;
        let mut is_inner = true;
        for _ in 0..self.nodes {
            let Some(pair) = self.next.at(usize::from(node)) else {
                return;
            };
            if node == bottom {
                return;
            }
            node = self.outer_of(pair.1);
            is_inner = !is_inner;
            if is_inner {
                self.reach(node, pair);
            } else {
                self.mark(node, Mark::Outer);
            }
        }
    }

    /// Unfolds an inner blossom. Its nodes on the even way from the one by which it was reached to that of its base are
    /// in the tree.
    pub(crate) fn expand(&mut self, blossom: u16) {
        let Some(pair) = self.reached.at(usize::from(blossom)) else {
            return;
        };
        self.unfold(blossom);
        let bottom = self.outer_of(self.base_of(blossom));
        let entry = self.outer_of(pair.1);
        if self.is_even_way(bottom, entry) {
            self.mark_against(bottom, entry);
        } else {
            self.mark_along(entry, bottom);
        }
        self.reach(entry, pair);
    }
}

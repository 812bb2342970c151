// The folding of a blossom: two outer vertices of one tree are joined, so that the ways from both to the root close a
// circle of odd length. All its vertices become outer, and it is one vertex from then on, its base: the first that is
// on both ways.
ghost use Rattle.std.specs.Prelude.{◌≡◌, ◌<◌, length, IfSome};

use crate::forest::{Forest, Mark};

impl Forest {
    /// The next base on the way from a base to the root; none at the root.
    fn above(&self, base: u16) -> Option<u16>
        requires { base < self.now.size }
        ensures { IfSome result (λ v. v < self.now.size) }
    {
        let inner = self.partner.at(base)?;
        let outer = self.parent.at(inner)?;
        Some(self.base_of(outer))
    }

    /// Notes the bases on the way from a vertex to the root.
    fn note_way(&mut self, v: u16)
        requires { v < self.old.size }
        ensures { self.new.size ≡ self.old.size }
    {
        self.on_way.fill(false);
        let mut base = self.base_of(v);
        for _ in 0..self.size {
            self.on_way[usize::from(base)] = true;
            let Some(next) = self.above(base) else {
                return;
            };
            base = next;
        }
    }

    /// The first base on the way from a vertex to the root that is noted.
    fn meeting_node(&self, v: u16) -> Option<u16>
        requires { v < self.now.size }
        ensures { IfSome result (λ base. base < self.now.size) }
    {
        let mut base = self.base_of(v);
        for _ in 0..self.size {
            if self.on_way[usize::from(base)] {
                return Some(base);
            }
            base = self.above(base)?;
        }
        None
    }

    /// Turns the way from a vertex to a base: its outer vertices are now reached the other way round too, the first
    /// from `from`.
    fn turn_way(&mut self, v: u16, base: u16, from: u16)
        requires start { v < self.old.size }
        requires from { from < self.old.size }
        ensures { self.new.size ≡ self.old.size }
    {
        let (mut outer, mut from) = (v, from);
        for _ in 0..self.size {
            let here = self.base_of(outer);
            let Some(inner) = self.partner.at(outer) else {
                return;
            };
            if here == base {
                return;
            }
            let there = self.base_of(inner);
            self.folded[usize::from(here)] = true;
            self.folded[usize::from(there)] = true;
            self.parent.put(outer, Some(from));
            let Some(next) = self.parent.at(inner) else {
                return;
            };
            (outer, from) = (next, inner);
        }
    }

    /// Gives a base to all vertices of what is folded. Those that were inner are outer now.
    fn take_in(&mut self, base: u16)
        requires { base < self.old.size }
        ensures { self.new.size ≡ self.old.size }
    {
        for v in 0..self.size {
            if self.folded[usize::from(self.base_of(v))] {
                self.base.put(v, Some(base));
                if self.marks[usize::from(v)] == Mark::Inner {
                    self.marks[usize::from(v)] = Mark::Waiting;
                }
            }
        }
    }

    /// Folds the blossom that two joined outer vertices close.
    pub(crate) fn fold(&mut self, v: u16, u: u16)
        requires one { v < self.old.size }
        requires other { u < self.old.size }
        ensures { self.new.size ≡ self.old.size }
    {
        self.note_way(v);
        let Some(base) = self.meeting_node(u) else {
            return;
        };
        self.folded.fill(false);
        self.turn_way(v, base, u);
        self.turn_way(u, base, v);
        self.take_in(base);
    }
}

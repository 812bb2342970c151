// Labels for all vertices once the searches have ended: 0 for a blocker, and for each group a number from 1 on, in the
// order of their bases. The vertices that no failed search has reached are one group.
ghost use Rattle.std.specs.Prelude.{◌≡◌, ◌≤◌, ◌<◌, vec_len, All, IfOk};
ghost use Rattle.matching.specs.Matchings.{AreLabels};

use crate::forest::{Forest, Mark};
use std::alloc::{AllocError, Global};

/// A label for each vertex, and the greatest of them.
#[derive(Drop)]
pub(crate) struct Labels {
    pub(crate) labels: Vec<u16>,
    pub(crate) most: u16,
}

impl Forest {
    /// Makes one group of the vertices that no failed search has reached, with the first of them as base.
    fn gather_rest(&mut self)
        ensures { self.new.size ≡ self.old.size }
    {
        let Some(base) = self.first(Mark::Unseen) else {
            return;
        };
        for v in 0..self.size {
            if self.marks[usize::from(v)] == Mark::Unseen {
                self.base.put(v, Some(base));
            }
        }
    }

    /// Numbers the groups from 1 on, each at its base. The answer is how many there are.
    fn number_bases(&self, labels: &mut Vec<u16>) -> u16
        requires size { vec_len labels.old ≡ self.now.size }
        requires none { All (λ label. label ≤ 0) labels.old.items }
        ensures size { vec_len labels.new ≡ self.now.size }
        ensures within { All (λ label. label ≤ result) labels.new.items }
    {
        let mut most = 0;
        for v in 0..self.size {
            if self.marks[usize::from(v)] != Mark::Blocker && self.base_of(v) == v {
                most += 1;
                labels[usize::from(v)] = most;
            }
        }
        most
    }

    /// Gives each vertex the number of its base; a blocker keeps 0.
    fn spread_numbers(&self, labels: &mut Vec<u16>, most: u16)
        requires size { vec_len labels.old ≡ self.now.size }
        requires within { All (λ label. label ≤ most) labels.old.items }
        ensures size { vec_len labels.new ≡ self.now.size }
        ensures within { All (λ label. label ≤ most) labels.new.items }
    {
        for v in 0..self.size {
            if self.marks[usize::from(v)] != Mark::Blocker {
                labels[usize::from(v)] = labels[usize::from(self.base_of(v))];
            }
        }
    }

    /// The labels of all vertices.
    pub(crate) fn labels(&mut self, alloc: Global) -> Result<Labels, AllocError>
        ensures { IfOk result (λ found. AreLabels self.old.size found.most found.labels.items) }
    {
        let mut labels = vec![in alloc; 0; usize::from(self.size)]?;
        self.gather_rest();
        let most = self.number_bases(&mut labels);
        self.spread_numbers(&mut labels, most);
        Ok(Labels { labels, most })
    }
}

// What is handed out of the labels. The number of vertices is the graph's: nothing need be known of the forest's own.
ghost use Rattle.std.specs.Prelude.{◌≡◌, All, IfErr, IfOk, length, vec_len};
ghost use Rattle.cheapest.specs.Certificates.{HasPlaces};
ghost use Rattle.cheapest.specs.declared.fault.Fault.TheVariants.{Stopped};

use crate::fault::Fault;
use crate::forest::Forest;
use crate::graph::Costs;
use crate::steps::{rest, sum};
use dual::{CertificateTable, MarkedSet, Wide};
use std::alloc::{AllocError, Global};

impl<C: Costs> Forest<'_, C> {
    // A vertex is in all blossoms around its own one, so that each parent is looked at.
    fn is_inside(&self, v: u16, blossom: u16) -> bool {
        let mut node = v;
        for _ in 0..self.nodes {
            let Some(parent) = self.parent_of(node) else {
                return false;
            };
            if parent == blossom {
                return true;
            }
            node = parent;
        }
        false
    }

    // A mark for each vertex of a blossom.
    fn marks_of(&self, alloc: Global, size: u16, blossom: u16) -> Result<Vec<bool>, AllocError>
        ensures { IfOk result (λ marks. vec_len marks ≡ size) }
    {
        let mut marks = Vec::with_capacity(alloc, usize::from(size))?;
        for v in 0..size {
            marks.push(self.is_inside(v, blossom))?;
        }
        Ok(marks)
    }

    fn has_price(&self, blossom: u16) -> bool {
        self.live.at(usize::from(blossom)) && !self.label(blossom).is_zero()
    }

    // A blossom as a set, with its price.
    fn marked_set(&self, alloc: Global, size: u16, blossom: u16) -> Result<MarkedSet, AllocError>
        ensures { IfOk result (λ set. length set.marks.items ≡ size) }
    {
        let marks = self.marks_of(alloc, size, blossom)?;
        Ok(MarkedSet {
            marks,
            price: self.label(blossom),
        })
    }

    // The blossoms that have a price.
    fn priced_sets(&self, alloc: Global, size: u16) -> Result<Vec<MarkedSet>, AllocError>
        ensures { IfOk result (λ sets. All (λ set. length set.marks.items ≡ size) sets.items) }
    {
        let mut sets = Vec::new(alloc);
        for blossom in self.size..self.end {
            if self.has_price(blossom) {
                let set = self.marked_set(alloc, size, blossom)?;
                sets.push(set)?;
            }
        }
        Ok(sets)
    }

    // The most by which the label of a vertex is above what it costs to leave it over.
    fn most_above(&self) -> Wide {
        let mut most = Wide::zero();
        for v in 0..self.size {
            let above = rest(self.label(v), self.gains.left.at(usize::from(v)));
            if most.is_less(above) {
                most = above;
            }
        }
        most
    }

    // What each vertex could be left over for, less its label.
    fn potentials(&self, alloc: Global, size: u16, given_left: Wide) -> Result<Vec<Wide>, Fault>
        ensures places { IfOk result (λ potentials. vec_len potentials ≡ size) }
        ensures going { IfErr result (λ fault. fault ≡ Stopped → ⊥) }
    {
        let mut potentials = Vec::with_capacity(alloc, usize::from(size))?;
        for v in 0..size {
            let most = sum(self.gains.left.at(usize::from(v)), given_left)?;
            potentials.push(rest(most, self.label(v)))?;
        }
        Ok(potentials)
    }

    // The label of a vertex, and half of the price, rounded up, of each blossom around it: with such labels no price is
    // needed.
    fn whole_label(&self, v: u16) -> Result<Wide, Fault>
        ensures going { IfErr result (λ fault. fault ≡ Stopped → ⊥) }
    {
        let mut label = self.label(v);
        let mut node = v;
        for _ in 0..self.nodes {
            let Some(parent) = self.parent_of(node) else {
                return Ok(label);
            };
            let price = self.label(parent);
            label = sum(label, rest(price, price.halved()))?;
            node = parent;
        }
        Ok(label)
    }

    /// The labels of all vertices, for another search to begin with.
    pub(crate) fn labels(&self, alloc: Global, size: u16) -> Result<Vec<Wide>, Fault>
        ensures places { IfOk result (λ labels. vec_len labels ≡ size) }
        ensures going { IfErr result (λ fault. fault ≡ Stopped → ⊥) }
    {
        let mut labels = Vec::with_capacity(alloc, usize::from(size))?;
        for v in 0..size {
            labels.push(self.whole_label(v)?)?;
        }
        Ok(labels)
    }

    /// The certificate that the labels are. Potentials below 0 are had by giving more.
    pub(crate) fn certificate(&self, alloc: Global, size: u16) -> Result<CertificateTable, Fault>
        ensures places { IfOk result (HasPlaces size) }
        ensures going { IfErr result (λ fault. fault ≡ Stopped → ⊥) }
    {
        let given_left = self.most_above();
        let given = sum(given_left, given_left)?;
        let sets = self.priced_sets(alloc, size)?;
        Ok(CertificateTable {
            potentials: self.potentials(alloc, size, given_left)?,
            given,
            given_left,
            sets,
        })
    }
}

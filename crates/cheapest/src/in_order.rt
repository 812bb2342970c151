// Which of several cheapest matchings is found: as far as it is easy, the one in which each vertex in turn has the first
// partner that it can have, from where the graph has it begin to look. A graph may do without.
ghost use Rattle.std.specs.Prelude.{◌≡◌, ◌≤◌, IfErr};
ghost use Rattle.cheapest.specs.declared.fault.Fault.TheVariants.{Stopped};

use crate::fault::Fault;
use crate::forest::Forest;
use crate::graph::Costs;
use crate::steps::take_step;

impl<C: Costs> Forest<'_, C> {
    // Pairs a vertex with the first one that is alone and that labels allow, from where the graph has it begin.
    fn pair_in_order(&mut self, v: u16, left: &mut u64) -> Result<(), Fault>
        ensures falls { left.new ≤ left.old }
        ensures stopped { IfErr result (λ fault. fault ≡ Stopped → left.new ≡ 0) }
    {
        for u in self.gains.looks_from(v)..self.size {
            if u != v && self.is_alone(u) {
                take_step(left)?;
                if self.is_tight(v, u)? {
                    self.pair(v, u);
                    return Ok(());
                }
            }
        }
        Ok(())
    }

    /// Pairs all vertices that labels allow to be paired, in the order of the graph.
    pub(crate) fn pair_all_in_order(&mut self, left: &mut u64) -> Result<(), Fault>
        ensures falls { left.new ≤ left.old }
        ensures stopped { IfErr result (λ fault. fault ≡ Stopped → left.new ≡ 0) }
    {
        for v in 0..self.size {
            if self.is_alone(v) {
                self.pair_in_order(v, left)?;
            }
        }
        Ok(())
    }

    // Whether a blossom counts for pairs inside it.
    fn has_labelled_blossom(&self) -> bool {
        for node in self.size..self.end {
            if self.live.at(usize::from(node)) && !self.label(node).is_zero() {
                return true;
            }
        }
        false
    }

    // Forgets all pairs and all blossoms. Labels stay.
    fn forget_pairs(&mut self) {
        self.partner.clear();
        self.base.clear();
        self.outer.clear();
        self.parent.clear();
        self.live.clear();
        self.end = self.size;
    }

    /// Pairs all vertices anew in the order of the graph, if no blossom counts for any pair. Labels stay, so what is found
    /// is as cheap.
    pub(crate) fn pair_anew(&mut self, left: &mut u64) -> Result<(), Fault>
        ensures falls { left.new ≤ left.old }
        ensures stopped { IfErr result (λ fault. fault ≡ Stopped → left.new ≡ 0) }
    {
        if self.has_labelled_blossom() {
            return Ok(());
        }
        self.forget_pairs();
        self.pair_all_in_order(left)?;
        self.pair_all_nearby(left)?;
        self.settle_all(left)
    }
}

// The searches: from each vertex that is alone and has a label beyond 0, one for a partner, or for another vertex that
// may be left over in its place.
ghost use Rattle.std.specs.Prelude.{◌≡◌, ◌≤◌, IfErr};
ghost use Rattle.cheapest.specs.declared.fault.Fault.TheVariants.{Stopped};

use crate::events::NextMove;
use crate::fault::Fault;
use crate::forest::{Forest, Mark};
use crate::graph::Costs;
use crate::steps::take_step;
use dual::Wide;

impl<C: Costs> Forest<'_, C> {
    // Gives an outer vertex a partner, or none, and pairs all anew on the way from its node to the root.
    fn pair_up_to_root(&mut self, vertex: u16, partner: Option<u16>) {
        let (mut vertex, mut partner) = (vertex, partner);
        for _ in 0..self.nodes {
            let node = self.outer_of(vertex);
            let left_over = self.partner_of(self.base_of(node));
            self.base.put(usize::from(node), Some(vertex));
            self.partner.put(usize::from(vertex), partner);
            let Some(left_over) = left_over else {
                return;
            };
            let inner = usize::from(self.outer_of(left_over));
            let Some((from, at)) = self.reached.at(inner) else {
                return;
            };
            self.base.put(inner, Some(at));
            self.partner.put(usize::from(at), Some(from));
            (vertex, partner) = (from, Some(at));
        }
    }

    // Takes a node that was not reached into the tree, and the one that it is paired with as an outer one. If it is
    // alone, the way ends there: true.
    fn grow(&mut self, u: u16, v: u16) -> bool {
        let node = self.outer_of(v);
        if let Some(partner) = self.partner_of(self.base_of(node)) {
            self.reach(node, (u, v));
            self.mark(self.outer_of(partner), Mark::Outer);
            return false;
        }
        self.base.put(usize::from(node), Some(v));
        self.partner.put(usize::from(v), Some(u));
        self.pair_up_to_root(u, Some(v));
        true
    }

    // Takes the pair of an outer vertex and another one; whether the search is at its end.
    fn join(&mut self, u: u16, v: u16) -> bool {
        match self.mark_of(v) {
            Mark::Free => self.grow(u, v),
            Mark::Outer => {
                self.fold(u, v);
                false
            }
            Mark::Inner => false,
        }
    }

    // Does what can be done; whether the search is at its end.
    fn act(&mut self, next_move: NextMove) -> bool {
        match next_move {
            NextMove::Join(u, v) => self.join(u, v),
            NextMove::Expand(blossom) => {
                self.expand(blossom);
                false
            }
            NextMove::Leave(v) => {
                self.pair_up_to_root(v, None);
                true
            }
        }
    }

    // Changes the labels until something can be done, and does it; whether the search is at its end, also because the
    // labels show enough.
    fn go_on(&mut self, left: &mut u64) -> Result<bool, Fault>
        ensures falls { left.new ≤ left.old }
        ensures stopped { IfErr result (λ fault. fault ≡ Stopped → left.new ≡ 0) }
    {
        self.note_marks()?;
        self.scan_all(left)?;
        self.look_anew_at_all(left)?;
        let Some(event) = self.first_event() else {
            return Ok(true);
        };
        if !event.by.is_zero() {
            self.adjust(event.by)?;
        }
        if self.is_enough {
            return Ok(true);
        }
        Ok(self.act(event.next_move))
    }

    // The first vertex that is alone, beside the root.
    fn other_alone(&self, root: u16) -> Option<u16> {
        for v in 0..self.size {
            if v != root && self.is_alone(v) {
                return Some(v);
            }
        }
        None
    }

    // Notes which vertices lead to an end: the partner of each can be paired at once with the first one that is alone. Each
    // vertex asked about is a step.
    fn note_leads(&mut self, root: u16, left: &mut u64) -> Result<(), Fault>
        ensures falls { left.new ≤ left.old }
        ensures stopped { IfErr result (λ fault. fault ≡ Stopped → left.new ≡ 0) }
    {
        self.leads.clear();
        let Some(alone) = self.other_alone(root) else {
            return Ok(());
        };
        for w in 0..self.size {
            take_step(left)?;
            if let Some(v) = self.partner_of(w)
                && self.is_tight(alone, w)?
            {
                self.leads.put(usize::from(v), true);
            }
        }
        Ok(())
    }

    // Searches from a vertex that is alone, and forgets the tree of the search before. Each node is grown, folded and
    // expanded once at most.
    fn settle(&mut self, root: u16, left: &mut u64) -> Result<(), Fault>
        ensures falls { left.new ≤ left.old }
        ensures stopped { IfErr result (λ fault. fault ≡ Stopped → left.new ≡ 0) }
    {
        self.marks.clear();
        self.scanned.clear();
        self.left_to_others.clear();
        self.nearest.clear();
        self.noted.clear();
        self.reached.clear();
        self.fallen = Wide::zero();
        self.is_folded = false;
        self.note_leads(root, left)?;
        self.mark(self.outer_of(root), Mark::Outer);
        for _ in 0..3 * u32::from(self.nodes) {
            if self.go_on(left)? {
                return Ok(());
            }
        }
        Ok(())
    }

    /// Whether a search has to begin from a vertex.
    pub(crate) fn is_unsettled(&self, v: u16) -> bool {
        !self.is_enough && self.is_alone(v) && !self.label(v).is_zero()
    }

    /// Searches from each vertex that is alone and has a label beyond 0, until the labels show enough.
    pub(crate) fn settle_all(&mut self, left: &mut u64) -> Result<(), Fault>
        ensures falls { left.new ≤ left.old }
        ensures stopped { IfErr result (λ fault. fault ≡ Stopped → left.new ≡ 0) }
    {
        for v in 0..self.size {
            if self.is_unsettled(v) {
                self.settle(v, left)?;
            }
        }
        Ok(())
    }
}

// The first labels and pairs of a search that begins anew: labels by class, then as low as one vertex after the other
// can have them, and pairs that gain just as much.
ghost use Rattle.std.specs.Prelude.{◌≡◌, ◌≤◌, IfErr};
ghost use Rattle.cheapest.specs.declared.fault.Fault.TheVariants.{Stopped, TooGreat};

use crate::classes::Classes;
use crate::fault::Fault;
use crate::forest::Forest;
use crate::graph::Costs;
use crate::steps::{greater, rest, take_step};
use crate::transport::Transport;
use dual::Wide;
use std::alloc::Global;

// A vertex, and what the labels have beyond the gain of the pair with it.
#[derive(Clone, Copy)]
struct Neighbour {
    vertex: u16,
    slack: Wide,
}

impl<C: Costs> Forest<'_, C> {
    // Half of the most that a pair of a vertex gains, with a step for each vertex asked about.
    fn first_label(&self, v: u16, left: &mut u64) -> Result<Wide, Fault>
        ensures falls { left.new ≤ left.old }
        ensures stopped { IfErr result (λ fault. fault ≡ Stopped → left.new ≡ 0) }
    {
        let mut most = Wide::zero();
        for u in 0..self.size {
            take_step(left)?;
            if let Some(gain) = self.gains.of(v, u) {
                most = greater(most, gain.halved());
            }
        }
        Ok(most)
    }

    fn label_by_gains(&mut self, left: &mut u64) -> Result<(), Fault>
        ensures falls { left.new ≤ left.old }
        ensures stopped { IfErr result (λ fault. fault ≡ Stopped → left.new ≡ 0) }
    {
        for v in 0..self.size {
            let label = self.first_label(v, left)?;
            self.labels.put(usize::from(v), label);
        }
        Ok(())
    }

    // The nearer of two neighbours; of two that are equally near one that is alone.
    fn nearer(&self, first: Option<Neighbour>, second: Neighbour) -> Neighbour {
        let Some(first) = first else {
            return second;
        };
        let is_free = self.is_alone(second.vertex) && !self.is_alone(first.vertex);
        let is_as_near = !first.slack.is_less(second.slack);
        if second.slack.is_less(first.slack) || (is_as_near && is_free) {
            second
        } else {
            first
        }
    }

    // The nearest neighbour of a vertex, with a step for each vertex asked about. (None is better than one that is alone
    // and as near as can be.)
    fn nearest_neighbour(&self, v: u16, left: &mut u64) -> Result<Option<Neighbour>, Fault>
        ensures falls { left.new ≤ left.old }
        ensures stopped { IfErr result (λ fault. fault ≡ Stopped → left.new ≡ 0) }
    {
        let mut nearest = None;
        for vertex in 0..self.size {
            take_step(left)?;
            if let Some(gain) = self.gains.of(v, vertex) {
                let slack = self.slack(v, vertex, gain)?;
                nearest = Some(self.nearer(nearest, Neighbour { vertex, slack }));
                if slack.is_zero() && self.is_alone(vertex) {
                    return Ok(nearest);
                }
            }
        }
        Ok(nearest)
    }

    // Lowers the label of a vertex as far as it can be, and pairs it if that leads to another one that is alone.
    fn lower(&mut self, v: u16, left: &mut u64) -> Result<(), Fault>
        ensures falls { left.new ≤ left.old }
        ensures stopped { IfErr result (λ fault. fault ≡ Stopped → left.new ≡ 0) }
    {
        let label = self.label(v);
        let Some(near) = self.nearest_neighbour(v, left)? else {
            return Ok(());
        };
        self.labels.put(usize::from(v), rest(label, near.slack));
        if !label.is_less(near.slack) && self.is_alone(near.vertex) {
            self.pair(v, near.vertex);
        }
        Ok(())
    }

    // Notes in a transport what a pair gains, with a step.
    fn note_gain(
        &self,
        pair: (u16, u16),
        transport: &mut Transport,
        left: &mut u64,
    ) -> Result<(), Fault>
        ensures falls { left.new ≤ left.old }
        ensures stopped { IfErr result (λ fault. fault ≡ Stopped → left.new ≡ 0) }
    {
        take_step(left)?;
        let (a, b) = pair;
        if let Some(gain) = self.gains.of(a, b) {
            transport.note_pair(a, b, gain);
        }
        Ok(())
    }

    // Notes in a transport what a vertex gains with all behind it, with a step for each that is asked about. Where costs
    // go by class, a gain that is known of two classes is that of all their pairs.
    fn note_gains_of(&self, a: u16, transport: &mut Transport, left: &mut u64) -> Result<(), Fault>
        ensures falls { left.new ≤ left.old }
        ensures stopped { IfErr result (λ fault. fault ≡ Stopped → left.new ≡ 0) }
    {
        let by_class = self.gains.costs.costs_by_class();
        for b in a..self.size {
            if !(by_class && transport.knows_pair(a, b)) {
                self.note_gain((a, b), transport, left)?;
            }
        }
        Ok(())
    }

    // Notes in a transport what each two vertices gain.
    fn note_gains(&self, transport: &mut Transport, left: &mut u64) -> Result<(), Fault>
        ensures falls { left.new ≤ left.old }
        ensures stopped { IfErr result (λ fault. fault ≡ Stopped → left.new ≡ 0) }
    {
        for a in 0..self.size {
            self.note_gains_of(a, transport, left)?;
        }
        Ok(())
    }

    // Gives each vertex the label of its class.
    fn label_by_class(&mut self, transport: &Transport) -> Result<(), Fault>
        ensures { IfErr result (λ fault. fault ≡ TooGreat) }
    {
        for v in 0..self.size {
            let label = transport.label(v)?;
            self.labels.put(usize::from(v), label);
        }
        Ok(())
    }

    // Labels all vertices by a transport between their classes.
    fn transport_labels(&mut self, transport: &mut Transport, left: &mut u64) -> Result<(), Fault>
        ensures falls { left.new ≤ left.old }
        ensures stopped { IfErr result (λ fault. fault ≡ Stopped → left.new ≡ 0) }
    {
        transport.make_places()?;
        self.note_gains(transport, left)?;
        transport.find(left)?;
        self.label_by_class(transport)
    }

    // Labels all vertices: by class, unless most are in a class of their own. (Then a transport would take longer than
    // the searches.)
    fn label_all(&mut self, alloc: Global, left: &mut u64) -> Result<(), Fault>
        ensures falls { left.new ≤ left.old }
        ensures stopped { IfErr result (λ fault. fault ≡ Stopped → left.new ≡ 0) }
    {
        let mut classes = Classes::new(alloc);
        classes.read(alloc, self.gains.costs)?;
        if classes.count() > self.size / 2 {
            return self.label_by_gains(left);
        }
        let mut transport = Transport::new(alloc, classes);
        self.transport_labels(&mut transport, left)
    }

    // Lowers the labels of all vertices that are alone.
    fn lower_all(&mut self, left: &mut u64) -> Result<(), Fault>
        ensures falls { left.new ≤ left.old }
        ensures stopped { IfErr result (λ fault. fault ≡ Stopped → left.new ≡ 0) }
    {
        for v in 0..self.size {
            if self.is_alone(v) {
                self.lower(v, left)?;
            }
        }
        Ok(())
    }

    /// Labels all vertices, and pairs those that are paired at once.
    pub(crate) fn begin(&mut self, alloc: Global, left: &mut u64) -> Result<(), Fault>
        ensures falls { left.new ≤ left.old }
        ensures stopped { IfErr result (λ fault. fault ≡ Stopped → left.new ≡ 0) }
    {
        self.label_all(alloc, left)?;
        self.pair_all_in_order(left)?;
        self.lower_all(left)
    }
}

// A search that begins where another one ended: with its labels, with those of its pairs that the labels still allow,
// and with what is enough.
//
// Most vertices that are alone then can be paired at once, over one pair: `root` with `v`, and the partner `w` of `v`
// with `y`, who is alone too, all where labels have just what the pairs gain. Or `v` is alone itself, or `w` has a label
// of 0 and is left over. No label changes. A search would end so too, but after all looks of `root` and `w`.
ghost use Rattle.std.specs.Prelude.{◌≡◌, ◌≤◌, IfErr};
ghost use Rattle.cheapest.specs.declared.fault.Fault.TheVariants.{Stopped, TooGreat};

use crate::fault::Fault;
use crate::forest::Forest;
use crate::found::Start;
use crate::graph::Costs;
use crate::steps::{greater, rest, sum, take_step};
use dual::Wide;

// What a list has for a vertex; a list that is too short has nothing.
fn entry<T: Copy + Drop>(list: &[Option<T>], v: u16) -> Option<T> {
    let place = usize::from(v);
    if place < list.len() {
        list[place]
    } else {
        None
    }
}

impl Start {
    fn label(&self, v: u16) -> Option<Wide> {
        entry(&self.labels, v)
    }

    fn partner(&self, v: u16) -> Option<u16> {
        entry(&self.partners, v)
    }

    // The second vertex of a pair, of which this one is the first.
    fn partner_behind(&self, a: u16) -> Option<u16> {
        let b = self.partner(a)?;
        (a < b && self.partner(b) == Some(a)).then_some(b)
    }
}

impl<C: Costs> Forest<'_, C> {
    // Gives all vertices that have a label in a start this label.
    fn take_labels(&mut self, start: &Start) {
        for v in 0..self.size {
            if let Some(label) = start.label(v) {
                self.labels.put(usize::from(v), label);
            }
        }
    }

    // The lowest label that a vertex can have beside those that have one: in a start, or because they come first. Each
    // vertex asked about is a step.
    fn lowest_label(&self, v: u16, start: &Start, left: &mut u64) -> Result<Wide, Fault>
        ensures falls { left.new ≤ left.old }
        ensures stopped { IfErr result (λ fault. fault ≡ Stopped → left.new ≡ 0) }
    {
        let mut lowest = Wide::zero();
        for u in 0..self.size {
            take_step(left)?;
            let has_label = u < v || start.label(u).is_some();
            if has_label && let Some(gain) = self.gains.of(v, u) {
                lowest = greater(lowest, rest(gain, self.label(u)));
            }
        }
        Ok(lowest)
    }

    // Gives each vertex that has no label in a start the lowest that it can have, one after the other.
    fn label_others(&mut self, start: &Start, left: &mut u64) -> Result<(), Fault>
        ensures falls { left.new ≤ left.old }
        ensures stopped { IfErr result (λ fault. fault ≡ Stopped → left.new ≡ 0) }
    {
        for v in 0..self.size {
            if start.label(v).is_none() {
                let label = self.lowest_label(v, start, left)?;
                self.labels.put(usize::from(v), label);
            }
        }
        Ok(())
    }

    /// Whether two vertices are joined, and their labels have just what the pair gains.
    pub(crate) fn is_tight(&self, a: u16, b: u16) -> Result<bool, Fault>
        ensures { IfErr result (λ fault. fault ≡ TooGreat) }
    {
        match self.gains.of(a, b) {
            Some(gain) => Ok(sum(self.label(a), self.label(b))? == gain),
            None => Ok(false),
        }
    }

    // Pairs two vertices if their labels have just what they gain.
    fn keep_pair(&mut self, a: u16, b: u16) -> Result<(), Fault>
        ensures { IfErr result (λ fault. fault ≡ TooGreat) }
    {
        if self.is_tight(a, b)? {
            self.pair(a, b);
        }
        Ok(())
    }

    // Keeps the pairs of a start that the labels allow, with a step for each that is asked about.
    fn keep_pairs(&mut self, start: &Start, left: &mut u64) -> Result<(), Fault>
        ensures falls { left.new ≤ left.old }
        ensures stopped { IfErr result (λ fault. fault ≡ Stopped → left.new ≡ 0) }
    {
        for a in 0..self.size {
            if let Some(b) = start.partner_behind(a) {
                take_step(left)?;
                self.keep_pair(a, b)?;
            }
        }
        Ok(())
    }

    // A vertex other than the root that is alone, and that a vertex can be paired with at once. Each one asked about is a
    // step.
    fn alone_beside(&self, w: u16, root: u16, left: &mut u64) -> Result<Option<u16>, Fault>
        ensures falls { left.new ≤ left.old }
        ensures stopped { IfErr result (λ fault. fault ≡ Stopped → left.new ≡ 0) }
    {
        for y in 0..self.size {
            if y != root && self.is_alone(y) {
                take_step(left)?;
                if self.is_tight(w, y)? {
                    return Ok(Some(y));
                }
            }
        }
        Ok(None)
    }

    // Pairs the root with a vertex whose label allows it; whether it did. If the vertex has a partner, this one has to
    // find another one that is alone, or be left over, as it may be with a label of 0.
    fn pair_over(&mut self, root: u16, v: u16, left: &mut u64) -> Result<bool, Fault>
        ensures falls { left.new ≤ left.old }
        ensures stopped { IfErr result (λ fault. fault ≡ Stopped → left.new ≡ 0) }
    {
        if let Some(w) = self.partner_of(v) {
            let beside = self.alone_beside(w, root, left)?;
            match beside {
                Some(y) => self.pair(w, y),
                None if self.label(w).is_zero() => self.partner.put(usize::from(w), None),
                None => return Ok(false),
            }
        }
        self.pair(root, v);
        Ok(true)
    }

    // Pairs a vertex that is alone if that is possible at once, over one pair at most, with a step for each vertex asked
    // about. Those who come last lose their partners first.
    fn pair_nearby(&mut self, root: u16, left: &mut u64) -> Result<(), Fault>
        ensures falls { left.new ≤ left.old }
        ensures stopped { IfErr result (λ fault. fault ≡ Stopped → left.new ≡ 0) }
    {
        for v in (0..self.size).rev() {
            take_step(left)?;
            if self.is_tight(root, v)? && self.pair_over(root, v, left)? {
                return Ok(());
            }
        }
        Ok(())
    }

    /// Pairs all vertices from which a search would have to begin, where that is possible at once.
    pub(crate) fn pair_all_nearby(&mut self, left: &mut u64) -> Result<(), Fault>
        ensures falls { left.new ≤ left.old }
        ensures stopped { IfErr result (λ fault. fault ≡ Stopped → left.new ≡ 0) }
    {
        for v in 0..self.size {
            if self.is_unsettled(v) {
                self.pair_nearby(v, left)?;
            }
        }
        Ok(())
    }

    // By how much the bound that the labels are may rise until it is enough; none if it is greater already. The bound is
    // what it costs to leave all vertices over, less all labels: there are no blossoms yet.
    fn first_room(&self, enough: Wide) -> Result<Option<Wide>, Fault>
        ensures { IfErr result (λ fault. fault ≡ TooGreat) }
    {
        let mut room = enough;
        let mut bound = Wide::zero();
        for v in 0..self.size {
            room = sum(room, self.label(v))?;
            bound = sum(bound, self.gains.left.at(usize::from(v)))?;
        }
        Ok(room.minus(bound))
    }

    // Notes what is enough.
    fn note_enough(&mut self, enough: Wide) -> Result<(), Fault>
        ensures { IfErr result (λ fault. fault ≡ TooGreat) }
    {
        self.room = self.first_room(enough)?;
        self.is_enough = self.room.is_none();
        Ok(())
    }

    /// Labels all vertices, and pairs those that a start has paired if the labels allow it, and then those that can be
    /// paired over one pair.
    pub(crate) fn begin_from(&mut self, start: &Start, left: &mut u64) -> Result<(), Fault>
        ensures falls { left.new ≤ left.old }
        ensures stopped { IfErr result (λ fault. fault ≡ Stopped → left.new ≡ 0) }
    {
        self.take_labels(start);
        self.label_others(start, left)?;
        self.keep_pairs(start, left)?;
        self.pair_all_nearby(left)?;
        match start.enough {
            Some(enough) => self.note_enough(enough),
            None => Ok(()),
        }
    }
}

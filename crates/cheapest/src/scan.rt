// Which outer vertex is nearest to a vertex: by which pair the labels could come down least until they have just what
// the pair gains. The vertices of the greatest blossom leave this to the others. Each vertex asked about is a step.
ghost use Rattle.std.specs.Prelude.{◌≡◌, ◌≤◌, IfErr};
ghost use Rattle.cheapest.specs.declared.fault.Fault.TheVariants.{Stopped, TooGreat};

use crate::fault::Fault;
use crate::forest::{Forest, Mark};
use crate::graph::Costs;
use crate::steps::{rest, sum, take_step};
use dual::Wide;

impl<C: Costs> Forest<'_, C> {
    /// What the labels of two vertices that are in no common blossom have beyond the gain of the pair.
    pub(crate) fn slack(&self, a: u16, b: u16, gain: Wide) -> Result<Wide, Fault>
        ensures { IfErr result (λ fault. fault ≡ TooGreat) }
    {
        let labels = sum(self.label(a), self.label(b))?;
        Ok(rest(labels, gain))
    }

    /// What two vertices gain that can be joined. Two vertices of one blossom are not joined again.
    fn gain_apart(&self, a: u16, b: u16) -> Option<Wide> {
        if self.outer_of(a) == self.outer_of(b) {
            return None;
        }
        self.gains.of(a, b)
    }

    /// The nearest vertex is stale once a blossom has taken in both.
    fn is_stale(&self, v: u16, nearest: u16) -> bool {
        self.outer_of(v) == self.outer_of(nearest)
    }

    // How far the labels will have come down when a vertex can be joined to an outer one. Where both are outer, both
    // labels come down.
    fn due_of(&self, u: u16, v: u16, gain: Wide) -> Result<Wide, Fault>
        ensures { IfErr result (λ fault. fault ≡ TooGreat) }
    {
        let slack = self.slack(u, v, gain)?;
        match self.noted.at(usize::from(v)) {
            Mark::Free => sum(self.fallen, slack),
            Mark::Outer => sum(self.fallen, slack.halved()),
            Mark::Inner => Ok(slack),
        }
    }

    // Works out anew when a vertex can be joined to the one nearest to it.
    fn note_due(&mut self, v: u16) -> Result<(), Fault>
        ensures { IfErr result (λ fault. fault ≡ TooGreat) }
    {
        let place = usize::from(v);
        if let Some(nearest) = self.nearest.at(place)
            && let Some(gain) = self.gains.of(nearest, v)
        {
            let due = self.due_of(nearest, v, gain)?;
            self.due.put(place, due);
        }
        Ok(())
    }

    /// Notes the marks of vertices, and works out anew when those can be joined that have got another one.
    pub(crate) fn note_marks(&mut self) -> Result<(), Fault>
        ensures { IfErr result (λ fault. fault ≡ TooGreat) }
    {
        for v in 0..self.size {
            let (place, mark) = (usize::from(v), self.mark_of(v));
            if self.noted.at(place) != mark {
                self.noted.put(place, mark);
                self.note_due(v)?;
            }
        }
        Ok(())
    }

    /// Notes an outer vertex if it is nearer to a vertex than any before. What is stale stays so, until all are looked
    /// at anew.
    fn consider(&mut self, u: u16, v: u16, gain: Wide) -> Result<(), Fault>
        ensures { IfErr result (λ fault. fault ≡ TooGreat) }
    {
        let place = usize::from(v);
        let due = self.due_of(u, v, gain)?;
        let is_nearer = match self.nearest.at(place) {
            None => true,
            Some(nearest) => !self.is_stale(v, nearest) && due.is_less(self.due.at(place)),
        };
        if is_nearer {
            self.nearest.put(place, Some(u));
            self.due.put(place, due);
        }
        Ok(())
    }

    // Yes for a vertex of the same node, and for an inner one in no blossom: that one stays inner, or looks for itself once
    // it is outer.
    fn is_passed_over(&self, u: u16, v: u16) -> bool {
        let is_inner = self.noted.at(usize::from(v)) == Mark::Inner && self.outer_of(v) == v;
        is_inner || self.outer_of(u) == self.outer_of(v)
    }

    // Looks at a vertex from an outer one.
    fn look_at(&mut self, u: u16, v: u16) -> Result<(), Fault>
        ensures { IfErr result (λ fault. fault ≡ TooGreat) }
    {
        match self.gain_apart(u, v) {
            Some(gain) => self.consider(u, v, gain),
            None => Ok(()),
        }
    }

    /// Looks at all neighbours of an outer vertex, with a step for each vertex asked about.
    fn scan(&mut self, u: u16, left: &mut u64) -> Result<(), Fault>
        ensures falls { left.new ≤ left.old }
        ensures stopped { IfErr result (λ fault. fault ≡ Stopped → left.new ≡ 0) }
    {
        self.scanned.put(usize::from(u), true);
        for v in 0..self.size {
            if !self.is_passed_over(u, v) {
                take_step(left)?;
                self.look_at(u, v)?;
            }
        }
        Ok(())
    }

    /// Looks at the neighbours of all outer vertices at which nobody has looked yet.
    pub(crate) fn scan_all(&mut self, left: &mut u64) -> Result<(), Fault>
        ensures falls { left.new ≤ left.old }
        ensures stopped { IfErr result (λ fault. fault ≡ Stopped → left.new ≡ 0) }
    {
        for u in 0..self.size {
            let place = usize::from(u);
            if self.noted.at(place) == Mark::Outer && !self.scanned.at(place) {
                self.scan(u, left)?;
            }
        }
        Ok(())
    }

    /// Finds anew which outer vertex is nearest to an outer vertex, with a step for each vertex asked about.
    fn look_anew(&mut self, v: u16, left: &mut u64) -> Result<(), Fault>
        ensures falls { left.new ≤ left.old }
        ensures stopped { IfErr result (λ fault. fault ≡ Stopped → left.new ≡ 0) }
    {
        self.nearest.put(usize::from(v), None);
        for u in 0..self.size {
            take_step(left)?;
            if self.noted.at(usize::from(u)) == Mark::Outer {
                self.look_at(u, v)?;
            }
        }
        Ok(())
    }

    // Leaves to others whoever is in a common blossom with the vertex nearest to it.
    fn leave_stale(&mut self) {
        for v in 0..self.size {
            let place = usize::from(v);
            if let Some(nearest) = self.nearest.at(place)
                && self.is_stale(v, nearest)
            {
                self.nearest.put(place, None);
                self.left_to_others.put(place, true);
            }
        }
    }

    // Counts the vertices of each outer blossom.
    fn count_vertices(&mut self) {
        self.counts.clear();
        for v in 0..self.size {
            let node = usize::from(self.outer_of(v));
            if self.noted.at(usize::from(v)) == Mark::Outer && self.live.at(node) {
                self.counts
                    .put(node, self.counts.at(node).saturating_add(1));
            }
        }
    }

    // The outer blossom with the most vertices.
    fn greatest_blossom(&mut self) -> Option<u16> {
        self.count_vertices();
        let mut greatest = None;
        let mut most = 0;
        for node in self.size..self.end {
            let count = self.counts.at(usize::from(node));
            if count > most {
                greatest = Some(node);
                most = count;
            }
        }
        greatest
    }

    // Looks anew for a vertex that was left to others, unless it is in a blossom.
    fn look_beside(&mut self, v: u16, blossom: Option<u16>, left: &mut u64) -> Result<(), Fault>
        ensures falls { left.new ≤ left.old }
        ensures stopped { IfErr result (λ fault. fault ≡ Stopped → left.new ≡ 0) }
    {
        let place = usize::from(v);
        if !self.left_to_others.at(place) || Some(self.outer_of(v)) == blossom {
            return Ok(());
        }
        self.left_to_others.put(place, false);
        self.look_anew(v, left)
    }

    /// Looks anew for each vertex whose nearest one is in a common blossom with it, but for those of the greatest
    /// blossom: of two outer vertices it is enough that one knows how near the other is.
    pub(crate) fn look_anew_at_all(&mut self, left: &mut u64) -> Result<(), Fault>
        ensures falls { left.new ≤ left.old }
        ensures stopped { IfErr result (λ fault. fault ≡ Stopped → left.new ≡ 0) }
    {
        if !self.is_folded {
            return Ok(());
        }
        self.is_folded = false;
        self.leave_stale();
        let greatest = self.greatest_blossom();
        for v in 0..self.size {
            self.look_beside(v, greatest, left)?;
        }
        Ok(())
    }
}

// What happens first if the labels of outer nodes come down and those of inner ones go up.
ghost use Rattle.std.specs.Prelude.{◌≡◌, IfErr};
ghost use Rattle.cheapest.specs.declared.fault.Fault.TheVariants.{TooGreat};

use crate::fault::Fault;
use crate::forest::{Forest, Mark};
use crate::graph::Costs;
use crate::steps::{rest, sum};
use dual::Wide;

/// What can be done with labels that have come down so far.
#[derive(Clone, Copy)]
pub(crate) enum NextMove {
    /// The pair of an outer vertex and another one can be taken.
    Join(u16, u16),
    /// An inner blossom has a label of 0.
    Expand(u16),
    /// An outer vertex has a label of 0, and may be left over.
    Leave(u16),
}

/// A move, and by how much the labels have to change before it can be done.
#[derive(Clone, Copy)]
pub(crate) struct Event {
    pub(crate) by: Wide,
    pub(crate) next_move: NextMove,
}

// What comes of joining a vertex, the better the later: the tree folds, or grows, or grows by a vertex behind which the
// search can end, or the search ends. A fold makes outer vertices of inner ones, and each has to be looked at; so it is
// put off as long as anything else can be done.
#[derive(Clone, Copy, PartialEq, Eq, PartialOrd, Ord)]
enum Outcome {
    Folds,
    Grows,
    Leads,
    Ends,
}

// The one of two events that comes first.
fn sooner(first: Option<Event>, second: Option<Event>) -> Option<Event> {
    match (first, second) {
        (Some(a), Some(b)) => Some(if b.by.is_less(a.by) { b } else { a }),
        (Some(a), None) => Some(a),
        (None, other) => other,
    }
}

impl<C: Costs> Forest<'_, C> {
    // Labels are compared; where there is no other one yet, any node is lower.
    fn is_lower(&self, node: u16, other: Option<u16>) -> bool {
        match other {
            Some(other) => self.label(node).is_less(self.label(other)),
            None => true,
        }
    }

    // The outer vertex with the least label, which can be left over first.
    fn first_to_leave(&self) -> Option<Event> {
        let mut first = None;
        for v in 0..self.size {
            if self.noted.at(usize::from(v)) == Mark::Outer && self.is_lower(v, first) {
                first = Some(v);
            }
        }
        let first = first?;
        Some(Event {
            by: self.label(first),
            next_move: NextMove::Leave(first),
        })
    }

    // An inner vertex notes its nearest one too, but is not joined to it while it is inner.
    fn can_join(&self, v: u16) -> bool {
        let place = usize::from(v);
        self.nearest.at(place).is_some() && self.noted.at(place) != Mark::Inner
    }

    // Whether the search ends if a vertex is joined: its node was not reached, and has a base without a partner.
    fn is_end(&self, v: u16) -> bool {
        let base = self.base_of(self.outer_of(v));
        self.noted.at(usize::from(v)) == Mark::Free && self.partner_of(base).is_none()
    }

    // What comes of joining a vertex.
    fn outcome(&self, v: u16) -> Outcome {
        if self.noted.at(usize::from(v)) == Mark::Outer {
            Outcome::Folds
        } else if self.is_end(v) {
            Outcome::Ends
        } else if self.leads.at(usize::from(v)) {
            Outcome::Leads
        } else {
            Outcome::Grows
        }
    }

    // Where there is no other one yet, any vertex comes first. Of two at once, the one with the better outcome; of two
    // with the same, the one that comes later, so that the partners of the others stay.
    fn joins_before(&self, v: u16, other: Option<u16>) -> bool {
        let Some(other) = other else {
            return true;
        };
        let due = self.due.at(usize::from(v));
        let other_due = self.due.at(usize::from(other));
        due.is_less(other_due) || (due == other_due && self.outcome(v) >= self.outcome(other))
    }

    // The first vertex that can be joined to the nearest one.
    fn first_to_join(&self) -> Option<Event> {
        let mut first = None;
        for v in 0..self.size {
            if self.can_join(v) && self.joins_before(v, first) {
                first = Some(v);
            }
        }
        let place = usize::from(first?);
        Some(Event {
            by: rest(self.due.at(place), self.fallen),
            next_move: NextMove::Join(self.nearest.at(place)?, first?),
        })
    }

    // The first inner blossom whose label comes down to 0.
    fn first_to_expand(&self) -> Option<Event> {
        let mut first = None;
        for node in self.size..self.end {
            let is_inner = self.marks.at(usize::from(node)) == Mark::Inner;
            if is_inner && self.is_outermost_blossom(node) && self.is_lower(node, first) {
                first = Some(node);
            }
        }
        let first = first?;
        Some(Event {
            by: self.label(first).halved(),
            next_move: NextMove::Expand(first),
        })
    }

    /// The first event of all.
    pub(crate) fn first_event(&self) -> Option<Event> {
        let first = sooner(self.first_to_leave(), self.first_to_join());
        sooner(first, self.first_to_expand())
    }

    // Changes the labels of vertices: those of outer nodes come down, and those of inner ones go up.
    fn adjust_vertices(&mut self, by: Wide) -> Result<(), Fault>
        ensures { IfErr result (λ fault. fault ≡ TooGreat) }
    {
        for v in 0..self.size {
            let place = usize::from(v);
            let label = match self.noted.at(place) {
                Mark::Outer => rest(self.label(v), by),
                Mark::Inner => sum(self.label(v), by)?,
                Mark::Free => continue,
            };
            self.labels.put(place, label);
        }
        Ok(())
    }

    // Changes the labels of blossoms, so that pairs inside them have what they had.
    fn adjust_blossoms(&mut self, by: Wide) -> Result<(), Fault>
        ensures { IfErr result (λ fault. fault ≡ TooGreat) }
    {
        for node in self.size..self.end {
            let place = usize::from(node);
            if self.is_outermost_blossom(node) {
                let label = match self.marks.at(place) {
                    Mark::Outer => sum(self.label(node), by)?,
                    Mark::Inner => rest(self.label(node), by),
                    Mark::Free => self.label(node),
                };
                self.labels.put(place, label);
            }
        }
        Ok(())
    }

    // The bound that the labels are rises by as much as the root's label comes down: the tree has one outer node more
    // than inner ones.
    fn take_room(&mut self, by: Wide) {
        if let Some(room) = self.room {
            self.room = room.minus(by);
            self.is_enough = room.is_less(by);
        }
    }

    /// Changes all labels.
    pub(crate) fn adjust(&mut self, by: Wide) -> Result<(), Fault>
        ensures { IfErr result (λ fault. fault ≡ TooGreat) }
    {
        self.take_room(by);
        self.fallen = sum(self.fallen, by)?;
        self.adjust_vertices(by)?;
        self.adjust_blossoms(sum(by, by)?)
    }
}

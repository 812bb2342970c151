// A transport between classes of vertices, from which the first labels come. Each class is a row and a column. A row
// has a unit for each vertex of its class, and a column a place for each. A unit that goes from a row into a column
// gains the most that two joined vertices of the two classes gain; where none are joined, none goes. It may also stay.
ghost use Rattle.std.specs.Prelude.{◌≡◌, IfErr};
ghost use Rattle.cheapest.specs.declared.fault.Fault.TheVariants.{TooGreat};

use crate::classes::Classes;
use crate::fault::Fault;
use crate::places::Places;
use crate::steps::sum;
use dual::Wide;
use std::alloc::{AllocError, Global};

/// The rows of a transport, or its columns.
#[derive(Drop)]
pub(crate) struct Side {
    pub(crate) labels: Places<Wide>,
    /// Units of a row that stay, or places of a column that are free.
    pub(crate) open: Places<u16>,
    pub(crate) reached: Places<bool>,
    /// The row or the column of the other side from which it is reached.
    pub(crate) from: Places<u16>,
}

/// A transport between the classes of a graph.
#[derive(Drop)]
pub(crate) struct Transport {
    pub(crate) classes: u16,
    by_vertex: Classes,
    /// What a unit gains, if it may go; by row and column.
    pub(crate) gains: Places<Option<Wide>>,
    /// How many units go; by row and column.
    pub(crate) units: Places<u16>,
    pub(crate) rows: Side,
    pub(crate) columns: Side,
    /// What the labels of a column and of the row nearest to it have beyond the gain.
    pub(crate) slacks: Places<Option<Wide>>,
}

impl Side {
    fn new(alloc: Global) -> Side {
        Side {
            labels: Places::new(alloc, Wide::zero()),
            open: Places::new(alloc, 0),
            reached: Places::new(alloc, false),
            from: Places::new(alloc, 0),
        }
    }

    fn grow(&mut self, classes: &Classes) -> Result<(), AllocError> {
        let count = usize::from(classes.count());
        self.labels.grow(count)?;
        self.open.grow(count)?;
        self.reached.grow(count)?;
        self.from.grow(count)?;
        for class in 0..classes.count() {
            self.open.put(usize::from(class), classes.size(class));
        }
        Ok(())
    }

    pub(crate) fn label(&self, class: u16) -> Wide {
        self.labels.at(usize::from(class))
    }

    pub(crate) fn open(&self, class: u16) -> u16 {
        self.open.at(usize::from(class))
    }

    /// So many units more stay.
    pub(crate) fn open_more(&mut self, class: u16, count: u16) {
        let open = self.open(class).saturating_add(count);
        self.open.put(usize::from(class), open);
    }

    /// So many units less stay, or so many places less are free.
    pub(crate) fn close(&mut self, class: u16, count: u16) {
        let open = self.open(class).saturating_sub(count);
        self.open.put(usize::from(class), open);
    }

    pub(crate) fn is_reached(&self, class: u16) -> bool {
        self.reached.at(usize::from(class))
    }

    pub(crate) fn from(&self, class: u16) -> u16 {
        self.from.at(usize::from(class))
    }
}

impl Transport {
    /// A transport between the classes of all vertices, with no places yet.
    pub(crate) fn new(alloc: Global, by_vertex: Classes) -> Transport {
        Transport {
            classes: by_vertex.count(),
            by_vertex,
            gains: Places::new(alloc, None),
            units: Places::new(alloc, 0),
            rows: Side::new(alloc),
            columns: Side::new(alloc),
            slacks: Places::new(alloc, None),
        }
    }

    /// Makes places for all classes: no unit may go yet.
    pub(crate) fn make_places(&mut self) -> Result<(), AllocError> {
        let count = usize::from(self.classes);
        self.gains.grow(count * count)?;
        self.units.grow(count * count)?;
        self.slacks.grow(count)?;
        self.rows.grow(&self.by_vertex)?;
        self.columns.grow(&self.by_vertex)
    }

    /// Where a row and a column stand.
    pub(crate) fn place(&self, row: u16, column: u16) -> usize {
        usize::from(row) * usize::from(self.classes) + usize::from(column)
    }

    pub(crate) fn units(&self, row: u16, column: u16) -> u16 {
        self.units.at(self.place(row, column))
    }

    pub(crate) fn put_units(&mut self, row: u16, column: u16, units: u16) {
        let place = self.place(row, column);
        self.units.put(place, units);
    }

    fn note(&mut self, row: u16, column: u16, gain: Wide) {
        let place = self.place(row, column);
        let is_more = match self.gains.at(place) {
            Some(most) => most.is_less(gain),
            None => true,
        };
        if is_more {
            self.gains.put(place, Some(gain));
        }
    }

    /// Notes what two joined vertices gain.
    pub(crate) fn note_pair(&mut self, a: u16, b: u16, gain: Wide) {
        let (one, other) = (self.by_vertex.of(a), self.by_vertex.of(b));
        self.note(one, other, gain);
        self.note(other, one, gain);
    }

    /// Whether it is known that joined vertices of the classes of two vertices gain something.
    pub(crate) fn knows_pair(&self, a: u16, b: u16) -> bool {
        let place = self.place(self.by_vertex.of(a), self.by_vertex.of(b));
        self.gains.at(place).is_some()
    }

    /// The label of a vertex: half of what the row and the column of its class have. So no two joined vertices gain more
    /// than their labels.
    pub(crate) fn label(&self, v: u16) -> Result<Wide, Fault>
        ensures { IfErr result (λ fault. fault ≡ TooGreat) }
    {
        let class = self.by_vertex.of(v);
        let both = sum(self.rows.label(class), self.columns.label(class))?;
        Ok(both.halved())
    }
}

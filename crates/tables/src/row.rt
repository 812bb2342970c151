// One player's row in the standings.
ghost use Rattle.std.specs.Prelude.{◌≡◌, IfOk};
ghost use Rattle.tables.specs.Standings.{with_value, row_goes_before};

use crate::ranking::Placed;
use std::alloc::{AllocError, Global};
use std::marker::Model;

/// A player, their score, and the values of the keys in their order.
#[derive(Drop)]
pub struct Row {
    start: u16,
    score: u16,
    values: Vec<Option<u32>>,
}

impl Model for Row {
    ghost use Rattle.tables.specs.Keys.{RowFacts};

    ghost Value = { RowFacts };

    ghost view = { λ r. record { start = r.start; score = r.score; values = r.values.items } };
}

impl Row {
    ghost use Rattle.std.specs.Prelude.{[]};

    // A row without any value.
    pub(crate) fn new(alloc: Global, start: u16, score: u16) -> Row
        ensures { result ≡ record { start = start; score = score; values = [] } }
    {
        Row {
            start,
            score,
            values: Vec::new(alloc),
        }
    }

    /// The start rank, 1 to 9999.
    pub fn start(&self) -> u16
        ensures { result ≡ self.now.start }
    {
        self.start
    }

    /// The score in half points.
    pub fn score(&self) -> u16
        ensures { result ≡ self.now.score }
    {
        self.score
    }

    /// The values of the keys, in the order of the keys: half points, and quarters of a point for Sonneborn-Berger. A
    /// value is none if direct encounter tells nothing.
    pub fn values(&self) -> &[Option<u32>]
        ensures { result.now ≡ self.now.values }
    {
        &self.values
    }

    // The row with the value of one more key.
    pub(crate) fn with_value(&self, alloc: Global, value: Option<u32>) -> Result<Row, AllocError>
        ensures { IfOk result (λ row. row ≡ with_value self.now value) }
    {
        let mut values = Vec::from_slice(alloc, &self.values)?;
        values.push(value)?;
        Ok(Row {
            start: self.start,
            score: self.score,
            values,
        })
    }
}

impl Placed for Row {
    ghost before = { row_goes_before };

    fn goes_before(&self, other: &Row) -> bool {
        other
            .score
            .cmp(&self.score)
            .then(other.values.cmp(&self.values))
            .then(self.start.cmp(&other.start))
            .is_lt()
    }
}

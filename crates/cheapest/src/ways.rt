// The searches of a transport (after the Hungarian method): from each row of which units stay though its label is
// beyond 0, one for a column with free places, or for another row whose units may stay in their place.
ghost use Rattle.std.specs.Prelude.{◌≡◌, ◌≤◌, IfErr};
ghost use Rattle.cheapest.specs.declared.fault.Fault.TheVariants.{Stopped, TooGreat};

use crate::fault::Fault;
use crate::steps::{rest, sum, take_step};
use crate::transport::Transport;
use dual::Wide;

// Where a search ends: at a row whose label is 0, or at a column with free places.
#[derive(Clone, Copy)]
enum End {
    Row(u16),
    Column(u16),
}

// A row, or a column, and by how much the labels have to change before a search reaches it.
#[derive(Clone, Copy)]
struct Event {
    class: u16,
    by: Wide,
}

// The one of two events that comes first.
fn sooner(first: Option<Event>, second: Event) -> Event {
    match first {
        Some(first) if !second.by.is_less(first.by) => first,
        _ => second,
    }
}

impl Transport {
    // What the labels of a row and a column have beyond the gain, if a unit may go.
    fn slack(&self, row: u16, column: u16) -> Result<Option<Wide>, Fault>
        ensures { IfErr result (λ fault. fault ≡ TooGreat) }
    {
        let Some(gain) = self.gains.at(self.place(row, column)) else {
            return Ok(None);
        };
        let labels = sum(self.rows.label(row), self.columns.label(column))?;
        Ok(Some(rest(labels, gain)))
    }

    // Notes a row if it is nearer to a column than any before.
    fn consider(&mut self, row: u16, column: u16) -> Result<(), Fault>
        ensures { IfErr result (λ fault. fault ≡ TooGreat) }
    {
        let place = usize::from(column);
        let Some(slack) = self.slack(row, column)? else {
            return Ok(());
        };
        let is_nearer = match self.slacks.at(place) {
            Some(least) => slack.is_less(least),
            None => true,
        };
        if is_nearer && !self.columns.is_reached(column) {
            self.slacks.put(place, Some(slack));
            self.columns.from.put(place, row);
        }
        Ok(())
    }

    // Reaches a row from a column, with a step for each column asked about.
    fn reach_row(&mut self, row: u16, from: u16, left: &mut u64) -> Result<(), Fault>
        ensures falls { left.new ≤ left.old }
        ensures stopped { IfErr result (λ fault. fault ≡ Stopped → left.new ≡ 0) }
    {
        self.rows.reached.put(usize::from(row), true);
        self.rows.from.put(usize::from(row), from);
        for column in 0..self.classes {
            take_step(left)?;
            self.consider(row, column)?;
        }
        Ok(())
    }

    // Reaches a column, and from it all rows that have units there.
    fn reach_column(&mut self, column: u16, left: &mut u64) -> Result<(), Fault>
        ensures falls { left.new ≤ left.old }
        ensures stopped { IfErr result (λ fault. fault ≡ Stopped → left.new ≡ 0) }
    {
        self.columns.reached.put(usize::from(column), true);
        for row in 0..self.classes {
            if !self.rows.is_reached(row) && self.units(row, column) > 0 {
                self.reach_row(row, column, left)?;
            }
        }
        Ok(())
    }

    // The row that was reached whose label comes down to 0 first.
    fn first_row(&self) -> Option<Event> {
        let mut first = None;
        for class in 0..self.classes {
            if self.rows.is_reached(class) {
                let by = self.rows.label(class);
                first = Some(sooner(first, Event { class, by }));
            }
        }
        first
    }

    // The column that comes next.
    fn first_column(&self) -> Option<Event> {
        let mut first = None;
        for class in 0..self.classes {
            if !self.columns.is_reached(class)
                && let Some(by) = self.slacks.at(usize::from(class))
            {
                first = Some(sooner(first, Event { class, by }));
            }
        }
        first
    }

    // Changes the label of a row and of a column: that of a row which was reached comes down, and that of a column goes
    // up.
    fn adjust_class(&mut self, class: u16, by: Wide) -> Result<(), Fault>
        ensures { IfErr result (λ fault. fault ≡ TooGreat) }
    {
        let place = usize::from(class);
        if self.rows.is_reached(class) {
            let label = rest(self.rows.label(class), by);
            self.rows.labels.put(place, label);
        }
        if self.columns.is_reached(class) {
            let label = sum(self.columns.label(class), by)?;
            self.columns.labels.put(place, label);
        } else if let Some(slack) = self.slacks.at(place) {
            self.slacks.put(place, Some(rest(slack, by)));
        }
        Ok(())
    }

    fn adjust(&mut self, by: Wide) -> Result<(), Fault>
        ensures { IfErr result (λ fault. fault ≡ TooGreat) }
    {
        for class in 0..self.classes {
            self.adjust_class(class, by)?;
        }
        Ok(())
    }

    // Changes the labels until something comes next, and reaches it; where the search ends, if it does.
    fn go_on(&mut self, left: &mut u64) -> Result<Option<End>, Fault>
        ensures falls { left.new ≤ left.old }
        ensures stopped { IfErr result (λ fault. fault ≡ Stopped → left.new ≡ 0) }
    {
        let Some(row) = self.first_row() else {
            return Ok(None);
        };
        let column = match self.first_column() {
            Some(column) if column.by.is_less(row.by) => column,
            _ => {
                self.adjust(row.by)?;
                return Ok(Some(End::Row(row.class)));
            }
        };
        self.adjust(column.by)?;
        if self.columns.open(column.class) > 0 {
            return Ok(Some(End::Column(column.class)));
        }
        self.reach_column(column.class, left)?;
        Ok(None)
    }

    // How many units can go on the way from a root to a column, by those that have to leave the columns on it.
    fn most_on_way(&self, root: u16, column: u16) -> u16 {
        let mut most = self.rows.open(root);
        let mut row = self.columns.from(column);
        for _ in 0..self.classes {
            if row == root {
                return most;
            }
            let before = self.rows.from(row);
            most = most.min(self.units(row, before));
            row = self.columns.from(before);
        }
        most
    }

    // Sends units on the way from a root to a column.
    fn send(&mut self, root: u16, column: u16, count: u16) {
        self.rows.close(root, count);
        let mut column = column;
        for _ in 0..self.classes {
            let row = self.columns.from(column);
            let units = self.units(row, column).saturating_add(count);
            self.put_units(row, column, units);
            if row == root {
                return;
            }
            column = self.rows.from(row);
            let units = self.units(row, column).saturating_sub(count);
            self.put_units(row, column, units);
        }
    }

    // Sends as many units as can go on the way from a root to an end.
    fn send_to(&mut self, root: u16, end: End) {
        match end {
            End::Column(column) => {
                let count = self
                    .most_on_way(root, column)
                    .min(self.columns.open(column));
                self.columns.close(column, count);
                self.send(root, column, count);
            }
            End::Row(row) if row != root => {
                let column = self.rows.from(row);
                let units = self.units(row, column);
                let count = self.most_on_way(root, column).min(units);
                self.put_units(row, column, units.saturating_sub(count));
                self.rows.open_more(row, count);
                self.send(root, column, count);
            }
            End::Row(_) => (),
        }
    }

    // Searches from a row, and forgets the search before. Each column is reached once at most.
    fn search(&mut self, root: u16, left: &mut u64) -> Result<(), Fault>
        ensures falls { left.new ≤ left.old }
        ensures stopped { IfErr result (λ fault. fault ≡ Stopped → left.new ≡ 0) }
    {
        self.rows.reached.clear();
        self.columns.reached.clear();
        self.slacks.clear();
        self.reach_row(root, root, left)?;
        for _ in 0..=self.classes {
            if let Some(end) = self.go_on(left)? {
                self.send_to(root, end);
                return Ok(());
            }
        }
        Ok(())
    }

    // Searches from a row as long as units of it stay, and its label is beyond 0. (Each search takes units, a row's
    // label or a column's places.)
    fn settle(&mut self, root: u16, left: &mut u64) -> Result<(), Fault>
        ensures falls { left.new ≤ left.old }
        ensures stopped { IfErr result (λ fault. fault ≡ Stopped → left.new ≡ 0) }
    {
        for _ in 0..self.rows.open(root) {
            if self.rows.open(root) > 0 && !self.rows.label(root).is_zero() {
                self.search(root, left)?;
            }
        }
        Ok(())
    }

    // Labels a row by the most that a unit of it gains.
    fn label_row(&mut self, row: u16) {
        let mut most = Wide::zero();
        for column in 0..self.classes {
            if let Some(gain) = self.gains.at(self.place(row, column))
                && most.is_less(gain)
            {
                most = gain;
            }
        }
        self.rows.labels.put(usize::from(row), most);
    }

    fn label_rows(&mut self) {
        for row in 0..self.classes {
            self.label_row(row);
        }
    }

    /// Finds labels of the rows and the columns, and how many units go: so that no unit gains more than the labels of
    /// its row and its column have, and that all units gain together as much as can be.
    pub(crate) fn find(&mut self, left: &mut u64) -> Result<(), Fault>
        ensures falls { left.new ≤ left.old }
        ensures stopped { IfErr result (λ fault. fault ≡ Stopped → left.new ≡ 0) }
    {
        self.label_rows();
        for row in 0..self.classes {
            self.settle(row, left)?;
        }
        Ok(())
    }
}

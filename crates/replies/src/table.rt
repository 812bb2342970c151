// Tables: lines of labels that stand in columns, each of them as wide as the widest of its labels.
ghost use Rattle.std.specs.Prelude.{◌≡◌, ◌++◌, ◌∷◌, [], IfOk, IfSome, OnOk};
ghost use Rattle.replies.specs.Tables as tables;
ghost use Rattle.common_texts.specs.Texts.{name_or_dash};
ghost use Rattle.trf16_report.specs.Prelude.{blanks};

use common_texts::{Page, name_or_dash};
use std::alloc::{AllocError, Global};
use std::fmt::Display;
use std::marker::Model;
use trf16_report::column_count;

/// The side of its column at which a label stands.
#[derive(Clone, Copy)]
pub enum Alignment {
    Left,
    Right,
}

// A text that stands at a side of its column.
#[derive(Drop)]
pub struct Label {
    side: Alignment,
    text: Page,
}

impl Model for Label {
    ghost use Rattle.replies.specs.Tables.{LabelFacts};

    ghost Value = { LabelFacts };

    ghost view = { λ l. record { side = l.side; text = l.text } };
}

impl Label {
    // How wide the label is.
    fn width(&self, utf8: bool) -> usize
        ensures { result ≡ tables.width utf8 self.now.text }
    {
        column_count(self.text.as_bytes(), utf8)
    }

    // Puts the label, with blanks up to a width.
    fn put(&self, text: &mut Page, utf8: bool, wide: usize) -> Result<(), AllocError>
        ensures { OnOk result (text.new ≡ text.old ++ tables.padded_label utf8 wide self.now) }
    {
        let missing = wide.saturating_sub(self.width(utf8));
        match self.side {
            Alignment::Left => {
                text.push_bytes(self.text.as_bytes())?;
                put_blanks(text, missing)
            }
            Alignment::Right => {
                put_blanks(text, missing)?;
                text.push_bytes(self.text.as_bytes())
            }
        }
    }
}

/// A line of a table: its labels from the first column on.
#[derive(Drop)]
pub struct TableLine {
    labels: Vec<Label>,
}

impl Model for TableLine {
    ghost use Rattle.std.specs.Prelude.{List};
    ghost use Rattle.replies.specs.Tables.{LabelFacts};

    ghost Value = { List LabelFacts };

    ghost view = { λ l. l.labels.items };
}

impl TableLine {
    /// A line without labels.
    pub fn new(alloc: Global) -> TableLine
        ensures { result ≡ [] }
    {
        TableLine {
            labels: Vec::new(alloc),
        }
    }

    /// What the line has its memory from.
    pub fn allocator(&self) -> Global {
        *self.labels.allocator()
    }

    /// What `write!` calls: puts a text in the next column, at its right. Each `write!` fills a column of its own.
    pub fn write_fmt<D: Display + Drop>(&mut self, value: D) -> Result<(), AllocError>
        ensures { OnOk result (IfSome (D.output value) (λ text. self.new ≡ self.old ++ tables.right text ∷ [])) }
    {
        let mut text = Page::new(self.allocator());
        text.write_fmt(value)?;
        self.labels.push(Label {
            side: Alignment::Right,
            text,
        })?;
        Ok(())
    }

    /// Puts a name in the next column, at its left: with a question mark in place of each control character, or as a
    /// dash where it is blank.
    pub fn push_name(&mut self, name: &[u8]) -> Result<(), AllocError>
        ensures { OnOk result (self.new ≡ self.old ++ tables.left (name_or_dash name.now) ∷ []) }
    {
        let text = Page::from_bytes(name_or_dash(self.allocator(), name)?);
        self.labels.push(Label {
            side: Alignment::Left,
            text,
        })?;
        Ok(())
    }

    // How wide the line is in a column, which counts from 0.
    fn width_in(&self, utf8: bool, column: usize) -> usize
        ensures { result ≡ tables.width_in utf8 column self.now }
    {
        match self.labels.as_slice().get(column) {
            Some(label) => label.width(utf8),
            None => 0,
        }
    }
}

pub(crate) fn put_blanks(text: &mut Page, count: usize) -> Result<(), AllocError>
    ensures { OnOk result (text.new ≡ text.old ++ blanks count) }
{
    for _ in 0..count {
        text.push_str(" ")?;
    }
    Ok(())
}

// How wide a column is.
fn widest(lines: &[TableLine], utf8: bool, column: usize) -> usize
    ensures { result ≡ tables.widest utf8 column lines.now }
{
    let mut most = 0usize;
    for line in lines {
        most = most.max(line.width_in(utf8, column));
    }
    most
}

// How wide the first columns are, so many of them.
fn widths(
    alloc: Global,
    lines: &[TableLine],
    utf8: bool,
    count: usize,
) -> Result<Vec<usize>, AllocError>
    ensures { IfOk result (λ all. all.items ≡ tables.widths utf8 count lines.now) }
{
    let mut all = Vec::new(alloc);
    for column in 0..count {
        all.push(widest(lines, utf8, column))?;
    }
    Ok(all)
}

// Puts what parts a label from those behind it, or the end of the line.
fn put_gap(text: &mut Page, behind: &[Label]) -> Result<(), AllocError>
    ensures { OnOk result (text.new ≡ text.old ++ tables.gap behind.now) }
{
    text.push_str(if behind.is_empty() { "\n" } else { "  " })
}

// Puts a line, each of its labels as wide as its column.
fn put_line(
    text: &mut Page,
    utf8: bool,
    widths: &[usize],
    line: &TableLine,
) -> Result<(), AllocError>
    ensures { OnOk result (text.new ≡ text.old ++ tables.labels_text utf8 widths.now 0 line.now) }
{
    let labels = line.labels.as_slice();
    for (i, label) in labels.iter().enumerate() {
        let wide = widths.get(i).copied().unwrap_or(0);
        label.put(text, utf8, wide)?;
        put_gap(text, labels.split_at(i + 1).1)?;
    }
    Ok(())
}

/// Puts a table of `count` columns, whose columns are characters where `utf8` says so, else bytes.
pub fn put_table(
    text: &mut Page,
    lines: &[TableLine],
    utf8: bool,
    count: usize,
) -> Result<(), AllocError>
    ensures { OnOk result (text.new ≡ text.old ++ tables.table_text utf8 count lines.now) }
{
    let widths = widths(text.allocator(), lines, utf8, count)?;
    for line in lines {
        put_line(text, utf8, widths.as_slice(), line)?;
    }
    Ok(())
}

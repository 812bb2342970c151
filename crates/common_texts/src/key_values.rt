// The values of keys as text.
ghost use Rattle.std.specs.Prelude.{◌≡◌, Some};
ghost use Rattle.common_texts.specs.KeyTexts.{quarter_text, quarters_text, value_text};

use crate::points::HalfPoints;
use std::fmt;
use tables::Key;

// Quarters of a point, shown as points with two decimals.
#[derive(Drop)]
struct QuarterPoints(u32);

impl fmt::Display for QuarterPoints {
    ghost output = { λ quarter. Some (quarters_text quarter.0) };

    fn fmt<W: fmt::Write>(&self, f: &mut fmt::Formatter<W>) -> fmt::Result {
        let points = self.0 / 4;
        let decimals = decimals(self.0 % 4);
        write!(f, "{points}{decimals}")
    }
}

// The decimals of quarters of a point.
fn decimals(quarter: u32) -> &'static str
    ensures { result.now ≡ quarter_text quarter }
{
    match quarter {
        0 => ".00",
        1 => ".25",
        2 => ".50",
        _ => ".75",
    }
}

/// The value of a key that breaks ties, shown as points; as a dash if it tells nothing.
#[derive(Drop)]
pub struct KeyValue {
    /// The key.
    pub key: Key,
    /// Its value, in half points, or in quarters of a point for Sonneborn-Berger; none if it tells nothing.
    pub value: Option<u32>,
}

impl fmt::Display for KeyValue {
    ghost output = { λ it. Some (value_text it.key it.value) };

    fn fmt<W: fmt::Write>(&self, f: &mut fmt::Formatter<W>) -> fmt::Result {
        let Some(value) = self.value else {
            return f.write_str("-");
        };
        match self.key {
            Key::Direct | Key::Buchholz => write!(f, "{}", HalfPoints(value)),
            Key::SonnebornBerger => write!(f, "{}", QuarterPoints(value)),
        }
    }
}

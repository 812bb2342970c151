// Points as text.
ghost use Rattle.std.specs.Prelude.{◌≡◌, Some};
ghost use Rattle.common_texts.specs.Texts.{halves_text};

use std::fmt;

/// Half points, shown as points with one decimal.
#[derive(Drop)]
pub struct HalfPoints(pub u32);

impl fmt::Display for HalfPoints {
    ghost output = { λ half. Some (halves_text half.0) };

    #[tactic(auto, unfolding(crate::specs::Texts::halves_text))]
    fn fmt<W: fmt::Write>(&self, f: &mut fmt::Formatter<W>) -> fmt::Result {
        let points = self.0 / 2;
        if self.0 % 2 == 0 {
            write!(f, "{points}.0")
        } else {
            write!(f, "{points}.5")
        }
    }
}

// The next round of a report, as a method of the report.
ghost use Rattle.std.specs.Prelude.{◌≡◌, IfOk};
ghost use Rattle.trf16_report.specs.Prelude.{CanBePaired, Sheet, with_round};

use std::alloc::{AllocError, Global};
use trf16_report::Report;

/// What can be paired: a report.
pub trait Pairs<'a> {
    // What its lines say.
    ghost sheet: { Self → Sheet };

    /// The report with its next round paired. A board is white and black in start ranks; if black is 0, white has the
    /// pairing-allocated bye. Each points field that is not blank becomes the sum over the rounds up to the next.
    ///
    /// # Errors
    /// Memory was refused.
    fn with_round(&self, alloc: Global, boards: &[(u16, u16)]) -> Result<Report<'a>, AllocError>
        requires { CanBePaired boards.now (sheet self.now) }
        ensures { IfOk result (λ paired. paired ≡ with_round boards.now (sheet self.now)) };
}

impl<'a> Pairs<'a> for Report<'a> {
    ghost sheet = { λ report. report };

    fn with_round(&self, alloc: Global, boards: &[(u16, u16)]) -> Result<Report<'a>, AllocError> {
        trf16_writer::with_round(alloc, self, boards)
    }
}

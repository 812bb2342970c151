//! The arbiter's command line: from words and the bytes of a tournament report to a text and a status. Its one call is
//! `run`, whose contract is the relation `IsRun` of specs/Run.antt; the program over it reads the words and the
//! standard streams.
//!
//! The command `explain` stands here, and puts its lines together from those of `stage_lines` and `round_lines`. The
//! other commands stand in `round_commands` and in `replies`.
//!
//! To mind: a text is made whole in memory, and if memory is refused, the call says so.
#![tactic(auto)]

mod explain;
mod instead;
mod not_paired;
mod other_boards;
mod running;

pub use replies::Status;
pub use running::run;

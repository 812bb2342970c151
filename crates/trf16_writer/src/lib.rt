//! The canonical text of a report, and the reports that are made of another one: with its next round paired, with its
//! points fields summed, as it stood before one of its rounds, and with the right start ranks.
//!
//! `write` gives the text, and what it writes reads back as the same report: so say the laws in `trf16_laws`. Nobody
//! waits for this crate who only asks a report.
//!
//! A report that is made of another one borrows the same text. A call that takes memory says so if it is refused. The
//! definitions of what is written, and of the reports that are made, stand in `trf16_report/specs`, since what is asked
//! of a report speaks of them too.
//!
//! The right start ranks are 1, 2 and so on by rating, then title, then the start rank that a player has (article
//! C.04.2). `renumbered_text` gives the canonical text of the report `renumbered`: each start rank on a player's line,
//! in a cell and on a line `XXZ` or `XXP` is the new one, and everything else stays. `renumbered_players_alone` gives
//! the players of that report without its other lines. `first_unread` gives the first line that names players in a way
//! that is not read, behind which a report cannot be renumbered. Laws in `report_laws` say what is kept. The time grows
//! with the text, and with the square of the number of players, of whom there are at most 1,024.
#![tactic(auto)]

mod alone;
mod back;
mod new_starts;
mod renumbered_lines;
mod renumbered_players;
mod renumbering;
mod round;
mod start_key;
mod sums;
mod turn;
mod unread;
mod writing;

pub use alone::renumbered_players_alone;
pub use back::before_round;
pub use renumbering::renumbered_text;
pub use round::{can_be_paired, with_round};
pub use sums::summed;
pub use unread::first_unread;
pub use writing::write;

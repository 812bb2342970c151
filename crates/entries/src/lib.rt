//! Results and byes that are entered by hand. Specified by what a report is once they are put in, one after the other,
//! and by which words are entries.
//!
//! `entry_in` reads a word as an entry. `entered` gives the report that comes of some entries, or the first reason, in
//! one stated order, why they are refused. It changes nothing but the cells that the entries name, with the other sides
//! of results, and the points; and what comes of it keeps the rules on two players by which a report is read. Laws in
//! `entry_laws` say so.
//!
//! For each entry the cells that were put so far are looked through, of which there are at most two for each entry, and
//! then for each player once more.
//!
//! To mind: rounds count from 1, points are half points, and a player is named by a start rank. A call that takes
//! memory says so if it is refused.
#![tactic(auto)]

mod all_entries;
mod entering;
mod entry;
mod fault;
mod new_cells;
mod one_entry;
mod words;

pub use entering::entered;
pub use entry::{EntryOptions, Event, GameOf, GameResult, HandEntry, NewCell, NewCells, Slot};
pub use fault::EntryFault;
pub use words::entry_in;

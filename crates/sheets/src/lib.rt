//! The page of a tournament: one HTML document with its rounds, who sits where by name, the standings, and the players.
//! Specified by a page that is made of elements, section by section, and by the one function of `markup` that writes
//! elements.
//!
//! `document` gives the page of a report, with the keys that break ties. It has no script, loads nothing, and needs no
//! other file. Texts of the report are escaped, so no name can add a tag or an attribute: laws in `page_laws` say so.
//!
//! The page is written piece by piece into one text; no tree of it stands in memory. The time grows with the text, and
//! with the square of the number of players.
#![tactic(auto)]

mod head_lines;
mod name_lists;
mod orders;
mod page;
mod parts;
mod persons;
mod player_lists;
mod rounds;
mod standings_parts;
mod style;
mod texts;

pub use page::document;

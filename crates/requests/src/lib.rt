//! What the words of the command line ask for: a command with its options, help, the version, or why they are refused.
//! Specified by clap's own model of a command line.
//!
//! `meant_words` gives the words as they are read, and `read_words` reads them: to a `Task`, which is a `Request` and
//! what its report is read by; to the text that clap has for help or a mistake; or to a `WordFault`, where an option
//! says what clap lets pass.
//!
//! To mind: both need memory, and fail if that is refused. No report is read here, so it is not known whether a player
//! or a bracket that the words name is there.
#![tactic(auto)]

mod arguments;
mod commands;
mod entries_in;
mod keys;
mod options;
mod words;

pub use entries_in::Entries;
pub use keys::Keys;
pub use options::{
    BoardsOptions, CandidatesOptions, CheckOptions, EnterOptions, ExplainOptions, FormatOptions,
    GivenCursor, PairOptions, Question, SheetOptions, Shown, StandingsOptions, WordFault, Wording,
};
pub use words::{Meaning, Request, Task, meant_words, read_words};

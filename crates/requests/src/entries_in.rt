// The entries that the words of `enter` name.
ghost use Rattle.std.specs.Prelude.{◌≡◌, IfOk, map};
ghost use Rattle.requests.specs.EntryWords.{enter_options, entries_in, entry_words};
ghost use Rattle.requests.specs.Options.{rows_in};

use crate::options::{EnterOptions, WordFault, few_rounds_in, flag_in};
use clap::ArgMatches;
use entries::{HandEntry, entry_in};
use std::alloc::{AllocError, Global};
use std::marker::Model;

/// Some entries, in the order of their words.
#[derive(Drop)]
pub struct Entries {
    list: Vec<HandEntry>,
}

impl Model for Entries {
    ghost use Rattle.std.specs.Prelude.{List};
    ghost use Rattle.entries.specs.declared.entry.HandEntry.{HandEntry};

    ghost Value = { List HandEntry };

    ghost view = { λ e. e.list.items };
}

impl Entries {
    /// The entries, the first in front.
    pub fn as_slice(&self) -> &[HandEntry]
        ensures { result.now ≡ self.now }
    {
        self.list.as_slice()
    }
}

// The entries that some words name, or the place of the first that is none.
fn entries_in(alloc: Global, words: &[&str]) -> Result<Result<Entries, WordFault>, AllocError>
    ensures { IfOk result (λ found. found ≡ entries_in (map (λ word. word.now) words.now)) }
{
    let mut list = Vec::new(alloc);
    for word in words {
        let Some(entry) = entry_in(word.as_bytes()) else {
            return Ok(Err(WordFault::BadEntry {
                place: list.len() + 1,
            }));
        };
        list.push(entry)?;
    }
    Ok(Ok(Entries { list }))
}

// The entries that the words of `enter` name; clap lets no words pass without one.
fn all_entries_in(
    alloc: Global,
    matches: &ArgMatches<'_>,
) -> Result<Result<Entries, WordFault>, AllocError>
    ensures { IfOk result (λ found. found ≡ entries_in (entry_words (rows_in matches.now))) }
{
    match matches.get_strs("entry") {
        Some(words) => entries_in(alloc, words),
        None => entries_in(alloc, &[]),
    }
}

/// The options of `enter`, or what is wrong with its entries.
///
/// # Errors
/// Memory was refused.
pub fn enter_options(
    alloc: Global,
    matches: &ArgMatches<'_>,
) -> Result<Result<EnterOptions, WordFault>, AllocError>
    ensures { IfOk result (λ found. found ≡ enter_options (rows_in matches.now)) }
{
    match all_entries_in(alloc, matches)? {
        Ok(entries) => Ok(Ok(EnterOptions {
            entries,
            round: few_rounds_in(matches, "round"),
            correct: flag_in(matches, "correct"),
        })),
        Err(fault) => Ok(Err(fault)),
    }
}

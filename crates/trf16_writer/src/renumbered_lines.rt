// Lines that name start ranks, with the new ones.
ghost use Rattle.std.specs.Prelude.{◌≡◌, ◌++◌, IfOk, option_map, option_copied};
ghost use Rattle.std.specs.List.{flat_map};
ghost use Rattle.trf16_report.specs.Prelude.{words, number_behind, renumbered_word};
ghost use Rattle.trf16_report.specs.Prelude.{renumbered_line};
ghost use Rattle.trf16_writer.specs.StartTable.{new_in};

use crate::new_starts::NewStarts;
use itoa::Buffer;
use std::alloc::{AllocError, Global};
use trf16_report::{is_word, next_word, number_of, split_kind};

// A number behind a blank; nothing of 0.
fn push_number(line: &mut Vec<u8>, number: u16) -> Result<(), AllocError>
    ensures { IfOk result (λ _. line.new.items ≡ line.old.items ++ number_behind number) }
{
    if number == 0 {
        return Ok(());
    }
    let mut buffer = Buffer::new();
    line.push(b' ')?;
    line.extend_from_slice(buffer.format(number).as_bytes())
}

// The new start rank that a word names, behind a blank; nothing if no player has the old one.
fn push_word(line: &mut Vec<u8>, new: &NewStarts, word: &[u8]) -> Result<(), AllocError>
    ensures { IfOk result (λ _. line.new.items ≡ line.old.items ++ renumbered_word (new_in new.now) word.now) }
{
    match number_of(word) {
        Some(start) => push_number(line, new.at(start)),
        None => Ok(()),
    }
}

// The same of all words.
fn push_words(line: &mut Vec<u8>, new: &NewStarts, bytes: &[u8]) -> Result<(), AllocError>
    ensures { IfOk result (λ _. line.new.items
        ≡ line.old.items ++ flat_map (renumbered_word (new_in new.now)) (words bytes.now)) }
{
    let mut rest = bytes;
    while let Some((word, after)) = next_word(rest) {
        push_word(line, new, word)?;
        rest = after;
    }
    Ok(())
}

// A line that is carried, with the new start ranks if it names some.
fn renumbered_bytes(
    alloc: Global,
    utf8: bool,
    new: &NewStarts,
    line: &[u8],
) -> Result<Vec<u8>, AllocError>
    ensures { IfOk result (λ renumbered. renumbered.items ≡ renumbered_line utf8 (new_in new.now) line.now) }
{
    let (kind, rest) = split_kind(line, utf8);
    if is_word(kind, b"XXZ") || is_word(kind, b"XXP") {
        let mut renumbered = Vec::from_slice(alloc, kind)?;
        push_words(&mut renumbered, new, rest)?;
        return Ok(renumbered);
    }
    Vec::from_slice(alloc, line)
}

/// A line with the new start ranks, if it is carried; none for a player's line.
pub(crate) fn renumbered_line(
    alloc: Global,
    utf8: bool,
    new: &NewStarts,
    line: Option<&[u8]>,
) -> Result<Option<Vec<u8>>, AllocError>
    ensures { IfOk result (λ renumbered. option_map (λ bytes. bytes.items) renumbered
        ≡ option_map (renumbered_line utf8 (new_in new.now)) (option_copied line.entry)) }
{
    match line {
        Some(bytes) => Ok(Some(renumbered_bytes(alloc, utf8, new, bytes)?)),
        None => Ok(None),
    }
}

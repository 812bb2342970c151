// The words of a call: one on each line of a text.
ghost use Rattle.std.specs.Prelude.{map};
ghost use Rattle.arbiter_c.specs.Said.{ReadsWords};

use std::alloc::Global;
use std::str;
use trf16_report::next_line;

/// Why nothing was run.
#[derive(Clone, Copy)]
pub(crate) enum Unsaid {
    /// A word is not UTF-8.
    NoText,
    /// Memory was refused.
    NoMemory,
}

// The words of a text, one on each line. The last line may lack its end.
#[tactic(auto, using(crate::proofs::WordLemmas::read_whole, crate::proofs::WordLemmas::fault_in))]
pub(crate) fn words_of<'a>(alloc: Global, text: &'a [u8]) -> Result<Vec<&'a str>, Unsaid>
    ensures { ReadsWords (λ words. map (λ word. word.now) words.items) text.now result }
{
    let mut words = Vec::new(alloc);
    let mut rest = text;
    while !rest.is_empty() {
        let (line, after) = next_line(rest);
        let Ok(word) = str::from_utf8(line) else {
            return Err(Unsaid::NoText);
        };
        if words.push(word).is_err() {
            return Err(Unsaid::NoMemory);
        }
        rest = after;
    }
    Ok(words)
}

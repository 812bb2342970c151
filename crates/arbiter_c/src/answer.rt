// What is said to the words and the report of a call.
ghost use Rattle.std.specs.Prelude.{◌≡◌, IfOk, map};
ghost use Rattle.arbiter_c.specs.Said.{IsSaid, IsSaidByRun, said_of};

use crate::devices::{Held, ReportBytes};
use crate::words::{Unsaid, words_of};
use command_line::{Status, run};
use dutch_search::WithFloors;
use std::alloc::{AllocError, Global};

// What standard error tells where a word is not UTF-8, and where memory was refused.
const NO_TEXT: &[u8] = b"words: not UTF-8\n";

const NO_MEMORY: &[u8] = b"memory: refused\n";

/// How a run ended, and what it wrote to its two outputs.
#[derive(Drop)]
pub(crate) struct Answered {
    pub(crate) status: Status,
    pub(crate) output: Vec<u8>,
    pub(crate) message: Vec<u8>,
}

// What is said to the words, one on each line of a text, and to the report.
pub(crate) fn answer(alloc: Global, words: &[u8], report: &[u8]) -> Result<Answered, Unsaid>
    ensures { IsSaid words.now report.now (said_of result) }
{
    let words = words_of(alloc, words)?;
    match run_over(alloc, words.as_slice(), report) {
        Ok(answered) => Ok(answered),
        Err(AllocError) => Err(Unsaid::NoMemory),
    }
}

// Runs the words over the report, with outputs in memory.
fn run_over<'a>(alloc: Global, words: &'a [&'a str], report: &[u8]) -> Result<Answered, AllocError>
    ensures { IfOk result (λ answered. IsSaidByRun (map (λ word. word.now) words.now) report.now (said_of (Ok answered))) }
{
    let mut reader = ReportBytes::new(report);
    let mut out = Held::new(alloc);
    let mut err = Held::new(alloc);
    let status = run::<WithFloors, _, _, _>(alloc, words, &mut reader, &mut out, &mut err);
    if out.failures > 0 || err.failures > 0 {
        return Err(AllocError);
    }
    Ok(Answered {
        status,
        output: out.text,
        message: err.text,
    })
}

// The status of what is said.
pub(crate) fn status_of(answered: &Result<Answered, Unsaid>) -> Status
    ensures { result ≡ (said_of answered.now).status }
{
    match answered {
        Ok(ended) => ended.status,
        Err(Unsaid::NoText) => Status::BadWords,
        Err(Unsaid::NoMemory) => Status::Trouble,
    }
}

// What stands on standard output.
pub(crate) fn output_of(answered: &Result<Answered, Unsaid>) -> &[u8]
    ensures { result.now ≡ (said_of answered.now).output }
{
    match answered {
        Ok(ended) => ended.output.as_slice(),
        Err(_) => &[],
    }
}

// What stands on standard error.
pub(crate) fn message_of(answered: &Result<Answered, Unsaid>) -> &[u8]
    ensures { result.now ≡ (said_of answered.now).message }
{
    match answered {
        Ok(ended) => ended.message.as_slice(),
        Err(Unsaid::NoText) => NO_TEXT,
        Err(Unsaid::NoMemory) => NO_MEMORY,
    }
}

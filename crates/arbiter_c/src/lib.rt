//! The engine as a library for C and whatever can call C: one call, `arbiter_run`, from the words of a command line and
//! the bytes of a report to a status and two texts. It says what the program says, by the same `run`. The header,
//! share/arbiter.h, tells a caller in C what the call wants and gives.
//!
//! To mind: nothing is kept between calls, and nothing is shared by calls at the same time.
#![tactic(auto)]

ghost use Rattle.std.specs.Prelude.{◌≡◌};
ghost use Rattle.arbiter_c.specs.Call.{IsCall};

mod answer;
mod devices;
mod rooms;
mod words;

use answer::{answer, message_of, output_of, status_of};
use rooms::put;
use std::alloc::Global;

/// How long the two texts of a call are, whatever room they had.
#[repr(C)]
pub struct Lengths {
    pub output: usize,
    pub message: usize,
}

/// Runs the words, one on each line of a text, over a report, and answers the number of the status. What the program
/// would write to standard output stands in `output`, and what it would write to standard error in `message`, each as
/// far as there is room; `lengths` tells how long both texts are.
#[unsafe(no_mangle)]
#[tactic(auto, using(crate::proofs::CallLemmas::called))]
pub extern "C" fn arbiter_run(
    alloc: Global,
    words: &[u8],
    report: &[u8],
    output: &mut [u8],
    message: &mut [u8],
    lengths: &mut Lengths,
) -> u8
    ensures { IsCall words.now report.now
        (record { before = output.old; after = output.new; told = lengths.new.output })
        (record { before = message.old; after = message.new; told = lengths.new.message }) result }
{
    let answered = answer(alloc, words, report);
    lengths.output = put(output_of(&answered), output);
    lengths.message = put(message_of(&answered), message);
    status_of(&answered).code()
}

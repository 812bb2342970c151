// A run of the program: from its words and the bytes of its input to the text that it writes.
ghost use Rattle.std.specs.Prelude.{◌≡◌, ◌⊎◌, ◌≤◌, ◌+◌, IfOk, map};
ghost use Rattle.command_line.specs.Commands.{Answers};
ghost use Rattle.command_line.specs.Known.{CanBeAnswered};
ghost use Rattle.replies.specs.Prelude.{out_of_memory, read_fault, reading_of, most_read, answer_of};
ghost use Rattle.trf16_report.specs.Prelude.{use_of};
ghost use Rattle.replies.specs.Prelude.{words_refusal};
ghost use Rattle.command_line.specs.Run.{IsAnswer, IsReplyTo, IsRun};
ghost use Rattle.requests.specs.Prelude.{meant_words};

use crate::explain::explain;
use common_texts::Page;
use dutch_choice::finder::Finder;
use replies::check::check;
use replies::enter::enter;
use replies::format::format;
use replies::refusal::words_refused;
use replies::sheet::sheet;
use replies::standings::standings;
use replies::{InputFault, Reply, Status, read_input};
use requests::{Meaning, Request, Task, WordFault, meant_words, read_words};
use round_commands::boards::boards;
use round_commands::candidates::candidates;
use round_commands::pair::pair;
use std::alloc::{AllocError, Global};
use trf16_report::{Sink, Source};

/// How much memory a run takes in one block at its start, in bytes, and gives back at once. The C library then keeps up
/// to twice as much; behind the third round `pair` takes 424 KiB for 20 players, and 952 for 1,024.
const WORKING_MEMORY: usize = 1 << 19;

// Takes a block of memory and gives it back untouched. The C library gives the free end of its heap back to the system
// once that is larger than it has learned to keep, and then takes it anew, page by page, for the next bracket. From a
// block of this size it learns to keep twice as much. Nothing else depends on it: if it is refused, the run goes on.
#[inline(never)]
fn widen_heap(alloc: Global) {
    let _: Result<Vec<u8>, AllocError> = Vec::with_capacity(alloc, WORKING_MEMORY);
}

/// Carries out what the words after the program's name ask for, over the report that the source
/// gives, and answers with the status of the program's end.
///
/// The words are read before the source. If they are refused or ask for help, nothing is read.
///
/// A round is paired with the help of a finder. By any finder the answers are the same, but that it
/// decides how many steps a bracket takes, and so what is undecided at a limit, and how much memory
/// is wanted.
pub fn run<'a, F: Finder, R: Source, O: Sink, E: Sink>(
    alloc: Global,
    words: &'a [&'a str],
    reader: &mut R,
    out: &mut O,
    err: &mut E,
) -> Status
    ensures { IsRun (map (λ word. word.now) words.now)
        (reading_of R.left R.failures R.calls reader.old reader.new)
        (use_of O.held O.failures out.old out.new)
        (use_of E.held E.failures err.old err.new) result }
{
    widen_heap(alloc);
    reply::<F, R>(alloc, words, reader).write(out, err)
}

// What is answered to the words, as they are meant, and to what the source gives.
fn reply<'a, F: Finder, R: Source>(alloc: Global, words: &'a [&'a str], reader: &mut R) -> Reply
    ensures answers { IsAnswer (meant_words (map (λ word. word.now) words.now))
        (reading_of R.left R.failures R.calls reader.old reader.new) (answer_of result) }
    ensures bounded { R.calls reader.new ≤ R.calls reader.old + most_read }
{
    match meant_words(alloc, words) {
        Ok(all) => reply_to::<F, R>(alloc, all.as_slice(), reader),
        Err(AllocError) => out_of_memory(),
    }
}

// What is answered to the words and to what the source gives.
fn reply_to<'a, F: Finder, R: Source>(alloc: Global, words: &'a [&'a str], reader: &mut R) -> Reply
    ensures answers { IsAnswer (map (λ word. word.now) words.now)
        (reading_of R.left R.failures R.calls reader.old reader.new) (answer_of result) }
    ensures bounded { R.calls reader.new ≤ R.calls reader.old + most_read }
{
    match read_words(alloc, words) {
        Ok(Meaning::Command(task)) => reply_to_task::<F, R>(alloc, task, reader),
        Ok(Meaning::Help(text)) => Reply::of_page(
            Status::Done,
            Page::from_bytes(text.into_bytes()),
        ),
        Ok(Meaning::Mistake(text)) => {
            Reply::of_page(Status::BadWords, Page::from_bytes(text.into_bytes()))
        }
        Ok(Meaning::Refused(fault)) => reply_to_fault(alloc, fault),
        Err(AllocError) => out_of_memory(),
    }
}

// What is answered where an option says what clap lets pass.
fn reply_to_fault(alloc: Global, fault: WordFault) -> Reply
    ensures { (answer_of result ≡ words_refusal fault) ⊎ (answer_of result ≡ out_of_memory) }
{
    match words_refused(alloc, fault) {
        Ok(reply) => reply,
        Err(AllocError) => out_of_memory(),
    }
}

// What is answered to a task, over what the source gives.
#[tactic(auto, using(crate::proofs::RunLemmas::answered))]
fn reply_to_task<F: Finder, R: Source>(alloc: Global, task: Task<'_>, reader: &mut R) -> Reply
    requires rounds { CanBeAnswered task.request }
    requires worth { task.bye ≤ 2 }
    ensures replies { IsReplyTo task.entry
        (reading_of R.left R.failures R.calls reader.old reader.new) (answer_of result) }
    ensures bounded { R.calls reader.new ≤ R.calls reader.old + most_read }
{
    match read_input(alloc, reader) {
        Ok(input) => match answer::<F>(alloc, task, input.as_slice()) {
            Ok(reply) => reply,
            Err(AllocError) => out_of_memory(),
        },
        Err(InputFault::Read) => read_fault(),
        Err(InputFault::Memory) => out_of_memory(),
    }
}

// The answer of a command to the bytes of its input.
fn answer<F: Finder>(alloc: Global, task: Task<'_>, input: &[u8]) -> Result<Reply, AllocError>
    requires rounds { CanBeAnswered task.request }
    requires worth { task.bye ≤ 2 }
    ensures { IfOk result (λ reply. Answers task.entry input.now (answer_of reply)) }
{
    let Task { request, bye } = task;
    match request {
        Request::Check(options) => check(alloc, options, input, bye),
        Request::Format(options) => format(alloc, &options, input, bye),
        Request::Enter(options) => enter(alloc, &options, input, bye),
        Request::Boards(options) => boards(alloc, options, input, bye),
        Request::Candidates(options) => candidates::<F>(alloc, &options, input, bye),
        Request::Explain(options) => explain::<F>(alloc, options, input, bye),
        Request::Standings(options) => standings(alloc, &options, input, bye),
        Request::Sheet(options) => sheet(alloc, &options, input, bye),
        Request::Pair(options) => pair::<F>(alloc, options, input, bye),
    }
}

// A call of the source failed.
fn read_fault() -> Reply
    ensures { answer_of result ≡ read_fault }
{
    Reply::of_str(Status::Trouble, "device: read failed\n")
}

// Memory was refused.
fn out_of_memory() -> Reply
    ensures { answer_of result ≡ out_of_memory }
{
    Reply::of_str(Status::Trouble, "memory: refused\n")
}

// The arbiter at the command line: it reads a tournament report from standard input, and checks, rewrites, pairs or
// ranks it.
#![tactic(auto)]

ghost use Rattle.std.specs.Prelude.{◌≡◌, ◌≢◌};
ghost use Rattle.std.specs.IoError.{error_kind};

mod pipe;

use command_line::{Status, run};
use dutch_search::WithFloors;
use pipe::{Noting, Silenced};
use std::cell::Cell;
use std::io::ErrorKind;
use std::process::ExitCode;
use std::{env, io};
use trf16_report::Counted;

fn main(rt: HostRuntime) -> ExitCode {
    let status = match run_on(&rt) {
        Ok(status) => status,
        Err(error) => without_words(&rt, &error),
    };
    ExitCode::from(status.code())
}

// Runs the program over its words and the three standard streams.
fn run_on(rt: &HostRuntime) -> io::Result<Status> {
    let alloc = rt.alloc();
    let all: Vec<String> = env::args(rt)?.collect(alloc)?;
    let mut words: Vec<&str> = Vec::new(alloc);
    for word in all.iter().skip(1) {
        words.push(word.as_str())?;
    }
    let mut reader = Counted::new(rt.stdin());
    let is_gone = Cell::new(false);
    let mut out = Counted::new(Noting::new(rt.stdout(), &is_gone));
    let mut err = Counted::new(Silenced::new(rt.stderr(), &is_gone));
    Ok(run::<WithFloors, _, _, _>(alloc, words.as_slice(), &mut reader, &mut out, &mut err))
}

// The words could not be had: they are no text, or memory was refused.
fn without_words(rt: &HostRuntime, error: &io::Error) -> Status
    ensures no_text { error_kind error.now ≡ ErrorKind.InvalidData → result ≡ Status.BadWords }
    ensures no_memory { error_kind error.now ≢ ErrorKind.InvalidData → result ≡ Status.Trouble }
{
    let (status, text) = match error.kind() {
        ErrorKind::InvalidData => (Status::BadWords, "words: not UTF-8"),
        _ => (Status::Trouble, "memory: refused"),
    };
    let _ = rt.eprintln(text);
    status
}

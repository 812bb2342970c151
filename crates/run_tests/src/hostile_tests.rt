// Damaged reports and failing devices: each prefix of a report, each of its bytes changed, a read that fails at each
// call, and writes that end behind each byte.
use crate::command_tests::{Breaking, Dripping, check, has_refused, run_on};
use crate::rows::{line, newcomers, report};
use command_line::{Status, run};
use dutch_search::WithFloors;
use std::alloc::{AllocError, Global};
use std::io;
use std::io::{ErrorKind, Read, Write};
use trf16_report::Counted;

// Two players who have met.
const MET: [&str; 2] = ["     2 w 1", "     1 b 0"];

// Takes one byte a call, and once it is full fails or takes none.
#[derive(Drop)]
struct Narrow {
    held: Vec<u8>,
    room: usize,
    fails: bool,
}

impl Write for Narrow {
    fn write(&mut self, piece: &[u8]) -> io::Result<usize> {
        let Some((first, _)) = piece.split_first() else {
            return Ok(0);
        };
        if self.room > 0 {
            self.held.push(*first)?;
            self.room -= 1;
            return Ok(1);
        }
        if self.fails {
            return Err(io::Error::from(ErrorKind::BrokenPipe));
        }
        Ok(0)
    }

    fn flush(&mut self) -> io::Result<()> {
        Ok(())
    }
}

fn with_room(alloc: Global, room: usize, fails: bool) -> Counted<Narrow> {
    let held = Vec::new(alloc);
    Counted::new(Narrow { held, room, fails })
}

// The verdict must be the same where each call gives one byte.
fn has_a_verdict(alloc: Global, text: &[u8]) -> bool {
    let whole = check(alloc, text);
    let dripped = run_on(alloc, &["check"], Dripping(text), 1000, 1000);
    (whole.status == Status::Done || whole.status == Status::Refused)
        && dripped.status == whole.status
        && dripped.out.as_slice() == whole.out.as_slice()
        && dripped.err.as_slice() == whole.err.as_slice()
}

#[test]
fn each_prefix_has_a_verdict(rt: HostRuntime) -> Result<(), AllocError> {
    let alloc = rt.alloc();
    let text = report(alloc, "", &MET)?;
    for length in 0..text.len() + 1 {
        let prefix = &text.as_bytes()[..length];
        assert!(rt; has_a_verdict(alloc, prefix), "{length} bytes");
    }
    Ok(())
}

// Each byte of the text in turn is replaced by the one given.
fn has_verdicts_with(alloc: Global, text: &[u8], byte: u8) -> Result<bool, AllocError> {
    for place in 0..text.len() {
        let mut changed = Vec::from_slice(alloc, text)?;
        if let Some(it) = changed.get_mut(place) {
            *it = byte;
        }
        if !has_a_verdict(alloc, changed.as_slice()) {
            return Ok(false);
        }
    }
    Ok(true)
}

#[test]
fn each_changed_byte_has_a_verdict(rt: HostRuntime) -> Result<(), AllocError> {
    let alloc = rt.alloc();
    let text = report(alloc, "", &MET)?;
    for byte in [0, 0xff, b'0'] {
        assert!(rt; has_verdicts_with(alloc, text.as_bytes(), byte)?, "{byte}");
    }
    Ok(())
}

// A source of one byte a call that fails behind its first n bytes fails at call n + 1.
#[test]
fn each_failed_read_is_told(rt: HostRuntime) -> Result<(), AllocError> {
    let alloc = rt.alloc();
    let text = report(alloc, "", &MET)?;
    for length in 0..text.len() + 1 {
        let source = Breaking(Dripping(&text.as_bytes()[..length]));
        let ended = run_on(alloc, &["check"], source, 1000, 1000);
        assert!(rt;
            ended.status == Status::Trouble && ended.out.is_empty(),
            "{length}"
        );
        assert_eq!(rt; ended.err.as_slice(), b"device: read failed\n".as_slice());
    }
    Ok(())
}

// The status of a run over four players, and what it leaves in an output of some room. Its standard error always fails.
fn run_into<'a>(
    alloc: Global,
    words: &'a [&'a str],
    room: usize,
    fails: bool,
) -> Result<(Status, Vec<u8>), AllocError> {
    let players = newcomers(alloc, 4)?;
    let mut reader = Counted::new(players.as_bytes());
    let mut out = with_room(alloc, room, fails);
    let mut err = with_room(alloc, 0, true);
    let status = run::<WithFloors, _, _, _>(alloc, words, &mut reader, &mut out, &mut err);
    Ok((status, out.into_inner().held))
}

// An output that has room for only some bytes must get the first ones of the text; `Done` means that it got all.
fn has_first_bytes<'a>(
    alloc: Global,
    words: &'a [&'a str],
    fails: bool,
) -> Result<bool, AllocError> {
    let (_, text) = run_into(alloc, words, 1000, fails)?;
    for room in 0..text.len() + 1 {
        let (status, held) = run_into(alloc, words, room, fails)?;
        let is_done = status == Status::Done;
        let is_told = is_done || status == Status::Trouble;
        let has_all = room == text.len();
        if !is_told || is_done != has_all || held.len() != room || !text.starts_with(&held) {
            return Ok(false);
        }
    }
    Ok(!text.is_empty())
}

#[test]
fn each_full_output_has_the_first_bytes(rt: HostRuntime) -> Result<(), AllocError> {
    let boards = ["pair", "--rounds=5"].as_slice();
    let written = ["pair", "--rounds=5", "--report"].as_slice();
    for (words, fails) in [
        (boards, false),
        (boards, true),
        (written, false),
        (written, true),
    ] {
        assert!(rt; has_first_bytes(rt.alloc(), words, fails)?, "{fails}");
    }
    Ok(())
}

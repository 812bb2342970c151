// Runs over memory: small reports with the answers that must come, and devices that fail or give little at a time.
use command_line::{Status, run};
use dutch_search::WithFloors;
use std::alloc::{AllocError, Global};
use std::io;
use std::io::{ErrorKind, Read, Write};
use trf16_report::Counted;

const FOUR_PLAYERS: &[u8] = b"001    1\n001    2\n001    3\n001    4\n";

// Gives one byte a call.
#[derive(Drop)]
pub(crate) struct Dripping<'a>(pub(crate) &'a [u8]);

impl<'a> Read for Dripping<'a> {
    fn read(&mut self, into: &mut [u8]) -> io::Result<usize> {
        let Some((first, rest)) = self.0.split_first() else {
            return Ok(0);
        };
        if into.is_empty() {
            return Ok(0);
        }
        into[0] = *first;
        self.0 = rest;
        Ok(1)
    }
}

// Is interrupted where its bytes end.
#[derive(Drop)]
pub(crate) struct Breaking<'a>(pub(crate) Dripping<'a>);

impl<'a> Read for Breaking<'a> {
    fn read(&mut self, into: &mut [u8]) -> io::Result<usize> {
        match self.0.read(into) {
            Ok(0) => Err(io::Error::from(ErrorKind::Interrupted)),
            answer => answer,
        }
    }
}

// Never ends, gives one byte a call, and fails once it has been called so many times.
#[derive(Drop)]
struct Endless(u32);

impl Read for Endless {
    fn read(&mut self, into: &mut [u8]) -> io::Result<usize> {
        if self.0 == 0 {
            return Err(io::Error::from(ErrorKind::Interrupted));
        }
        self.0 -= 1;
        if into.is_empty() {
            return Ok(0);
        }
        into[0] = b'x';
        Ok(1)
    }
}

// Takes three bytes a call, and none once it is full.
#[derive(Drop)]
struct Small {
    held: Vec<u8>,
    room: usize,
}

impl Write for Small {
    fn write(&mut self, piece: &[u8]) -> io::Result<usize> {
        let count = piece.len().min(3).min(self.room);
        self.held.extend_from_slice(&piece[..count])?;
        self.room -= count;
        Ok(count)
    }

    fn flush(&mut self) -> io::Result<()> {
        Ok(())
    }
}

// What a run left.
#[derive(Drop)]
pub(crate) struct Ended {
    pub(crate) status: Status,
    pub(crate) out: Vec<u8>,
    pub(crate) err: Vec<u8>,
}

// A run over a reader, with writers of some room.
pub(crate) fn run_on<'a, R: Read + Drop>(
    alloc: Global,
    words: &'a [&'a str],
    reader: R,
    out_room: usize,
    err_room: usize,
) -> Ended {
    let mut reader = Counted::new(reader);
    let held = Vec::new(alloc);
    let room = out_room;
    let mut out = Counted::new(Small { held, room });
    let held = Vec::new(alloc);
    let room = err_room;
    let mut err = Counted::new(Small { held, room });
    let status = run::<WithFloors, _, _, _>(alloc, words, &mut reader, &mut out, &mut err);
    Ended {
        status,
        out: out.into_inner().held,
        err: err.into_inner().held,
    }
}

// `check` of a text.
pub(crate) fn check(alloc: Global, text: &[u8]) -> Ended {
    run_on(alloc, &["check"], text, 1000, 1000)
}

pub(crate) fn has_printed(ended: &Ended, text: &str) -> bool {
    ended.status == Status::Done && ended.out.as_slice() == text.as_bytes() && ended.err.is_empty()
}

pub(crate) fn has_refused(ended: &Ended, text: &str) -> bool {
    ended.status == Status::Refused
        && ended.out.is_empty()
        && ended.err.as_slice() == text.as_bytes()
}

#[test]
fn endless_source_is_too_long(rt: HostRuntime) {
    let ended = run_on(rt.alloc(), &["check"], Endless(1_048_577), 0, 1000);
    assert!(rt; has_refused(&ended, "refused: too many bytes\n"));
}

#[test]
fn full_output_has_a_part_of_the_text(rt: HostRuntime) {
    let ended = run_on(rt.alloc(), &["check"], FOUR_PLAYERS, 11, 1000);
    assert!(rt; ended.status == Status::Trouble);
    assert_eq!(rt; ended.out.as_slice(), b"accepted pl".as_slice());
    assert_eq!(rt; ended.err.as_slice(), b"device: write failed\n".as_slice());
}

#[test]
fn full_standard_error_changes_no_status(rt: HostRuntime) {
    let ended = run_on(rt.alloc(), &["check"], b"".as_slice(), 0, 9);
    assert!(rt; ended.status == Status::Refused);
    assert_eq!(rt; ended.err.as_slice(), b"refused: ".as_slice());
    let ended = run_on(rt.alloc(), &["check"], FOUR_PLAYERS, 0, 0);
    assert!(rt; ended.status == Status::Trouble);
}

// The texts are clap's; that nothing is read is seen from a source that would fail.
#[test]
fn help_and_version_are_printed(rt: HostRuntime) {
    let table = [
        (["--help"].as_slice(), "Usage: arbiter <COMMAND>"),
        (["check", "--help"].as_slice(), "Usage: arbiter check"),
        (
            ["--version"].as_slice(),
            "arbiter 1.2 (FIDE C.04.3, 2017; TRF16)\n",
        ),
    ];
    for (words, part) in table {
        let ended = run_on(rt.alloc(), words, Breaking(Dripping(b"")), 10_000, 0);
        assert!(rt; ended.status == Status::Done);
        assert!(rt; contains(ended.out.as_slice(), part.as_bytes()));
    }
}

#[test]
fn other_words_are_refused(rt: HostRuntime) {
    let table = [
        ([].as_slice(), "Usage: arbiter <COMMAND>"),
        (["pairs"].as_slice(), "unrecognized subcommand 'pairs'"),
        (["check", "x"].as_slice(), "unexpected argument 'x'"),
        (
            ["check", "--rounds", "5"].as_slice(),
            "Usage: arbiter check",
        ),
    ];
    for (words, part) in table {
        let ended = run_on(rt.alloc(), words, Breaking(Dripping(b"")), 0, 1000);
        assert!(rt; ended.status == Status::BadWords);
        assert!(rt; contains(ended.err.as_slice(), part.as_bytes()));
    }
}

#[test]
fn options_are_refused_before_reading(rt: HostRuntime) {
    let table = [
        (
            ["pair", "--initial", "red"].as_slice(),
            "words: bad colour\n",
        ),
        (
            [
                "candidates",
                "--bracket",
                "1",
                "--from",
                "x",
                "--initial",
                "red",
            ]
            .as_slice(),
            "words: bad colour\n",
        ),
        (
            ["standings", "--by", "sb,sb"].as_slice(),
            "words: bad keys\n",
        ),
    ];
    for (words, text) in table {
        let ended = run_on(rt.alloc(), words, Breaking(Dripping(b"")), 0, 1000);
        assert!(rt; ended.status == Status::BadWords);
        assert_eq!(rt; ended.err.as_slice(), text.as_bytes());
    }
}

fn contains(text: &[u8], part: &[u8]) -> bool {
    part.is_empty() || text.windows(part.len()).any(|window| window == part)
}

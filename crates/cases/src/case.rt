// A case: what a run is given, and what must come of it.
ghost use Rattle.std.specs.Prelude.{◌≡◌, ◌<◌, ◌↔◌, IsTrue, IfSome, IsNone, length};

use crate::folder::Folder;
use command_line::{Status, run};
use dutch_search::WithFloors;
use std::alloc::{AllocError, Global};
use std::io;
use trf16_report::Counted;

/// A run of the command line, and what must come of it.
#[derive(Drop)]
pub struct Case {
    words: String,
    report: Vec<u8>,
    status: u32,
    // (`None`: some text, whatever it says)
    output: Option<Vec<u8>>,
    complaint: Option<Vec<u8>>,
}

/// What came of a run.
#[derive(Drop)]
pub struct Ended {
    status: Status,
    output: Vec<u8>,
    complaint: Vec<u8>,
}

impl Case {
    /// The case that a folder holds.
    ///
    /// # Errors
    /// A file of it is missing or cannot be read, or memory was refused.
    pub fn read(folder: &Folder<'_>) -> io::Result<Case> {
        Ok(Case {
            words: folder.text("words")?,
            report: report_in(folder)?,
            status: folder.number("status")?,
            output: output_in(folder)?,
            complaint: folder.find("stderr")?,
        })
    }

    /// Runs it.
    ///
    /// # Errors
    /// Memory was refused.
    pub fn run(&self, alloc: Global) -> Result<Ended, AllocError> {
        let words: Vec<&str> = self.words.lines().collect(alloc)?;
        let mut reader = Counted::new(self.report.as_slice());
        let mut output = Counted::new(Vec::new(alloc));
        let mut complaint = Counted::new(Vec::new(alloc));
        let status = run::<WithFloors, _, _, _>(
            alloc,
            words.as_slice(),
            &mut reader,
            &mut output,
            &mut complaint,
        );
        Ok(Ended {
            status,
            output: output.into_inner(),
            complaint: complaint.into_inner(),
        })
    }

    /// What came otherwise than it must.
    pub fn differences(&self, ended: &Ended) -> [Option<&'static str>; 3] {
        [
            told(
                u32::from(ended.status.code()) == self.status,
                "another status",
            ),
            told(
                is_right(self.output.as_deref(), ended.output.as_slice()),
                "another standard output",
            ),
            told(
                is_right(self.complaint.as_deref(), ended.complaint.as_slice()),
                "another standard error",
            ),
        ]
    }
}

// A text, unless all is right.
fn told(is_right: bool, text: &'static str) -> Option<&'static str> {
    if is_right { None } else { Some(text) }
}

// Where a case tells no text, it is enough that there is one.
fn is_right(wanted: Option<&[u8]>, came: &[u8]) -> bool
    ensures told { IfSome wanted.entry (λ text. IsTrue result ↔ text.now ≡ came.now) }
    ensures not_told { IsNone wanted.entry → (IsTrue result ↔ 0 < length came.now) }
{
    match wanted {
        Some(text) => text == came,
        None => !came.is_empty(),
    }
}

// The report that a case gives.
fn report_in(folder: &Folder<'_>) -> io::Result<Vec<u8>> {
    let mut report = folder.get("report.trf")?;
    let Some(piece) = folder.find("repeated")? else {
        return Ok(report);
    };
    repeat_onto(&mut report, piece.as_slice(), folder.number("times")?)?;
    if let Some(end) = folder.find("end.trf")? {
        report.extend_from_slice(end.as_slice())?;
    }
    Ok(report)
}

// What must come on standard output, if the case tells it.
fn output_in(folder: &Folder<'_>) -> io::Result<Option<Vec<u8>>> {
    let Some(mut output) = folder.find("stdout")? else {
        return Ok(None);
    };
    if let Some(piece) = folder.find("stdout.repeated")? {
        repeat_onto(
            &mut output,
            piece.as_slice(),
            folder.number("stdout.times")?,
        )?;
    }
    Ok(Some(output))
}

// Puts a piece behind a text, as often as is said.
fn repeat_onto(text: &mut Vec<u8>, piece: &[u8], times: u32) -> Result<(), AllocError> {
    for _ in 0..times {
        text.extend_from_slice(piece)?;
    }
    Ok(())
}

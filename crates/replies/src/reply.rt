// The reply of a run: a status and a text, which is written to standard output or to standard error; beside a refusal
// perhaps a note.
ghost use Rattle.std.specs.Prelude.{◌≡◌, ◌⊎◌, IfOk};
ghost use Rattle.trf16_report.specs.Prelude.{use_of};
ghost use Rattle.replies.specs.Statuses.{behind, code_of, is_output, plain};
ghost use Rattle.replies.specs.Replies.{answer_of, note_of, text_of};
ghost use Rattle.replies.specs.WrittenAnswers.{HasTextOrPart, IsCut, IsPrinted, IsToldWith, IsWritten};

use common_texts::Page;
use std::alloc::AllocError;
use trf16_report::{Sink, put_all};

// What standard error tells where standard output failed.
const WRITE_FAILED: &[u8] = b"device: write failed\n";

// Writes a text to standard error, which may fail: then nobody is told.
fn say<E: Sink>(err: &mut E, text: &[u8])
    ensures { HasTextOrPart text.now (use_of E.held E.failures err.old err.new) }
{
    let _ = put_all(err, text);
}

/// How a run ended.
#[derive(Clone, Copy, PartialEq, Eq)]
pub enum Status {
    /// The command was carried out.
    Done,
    /// The report is refused.
    Refused,
    /// The words are refused.
    BadWords,
    /// No pairing meets the absolute criteria.
    NoPairing,
    /// A limit of steps was reached first.
    Undecided,
    /// A device failed, or memory was refused.
    Trouble,
}

impl Status {
    /// The number with which the program ends.
    pub fn code(self) -> u8
        ensures { result ≡ code_of self }
    {
        match self {
            Status::Done => 0,
            Status::Refused => 1,
            Status::BadWords => 2,
            Status::NoPairing => 3,
            Status::Undecided => 4,
            Status::Trouble => 5,
        }
    }

    // The text then goes to standard output, and otherwise to standard error.
    fn is_output(self) -> bool
        ensures { result ≡ is_output self }
    {
        matches!(self, Status::Done | Status::NoPairing | Status::Undecided)
    }
}

/// A text of the program: one that it has, one that it made, or a refusal with a note of what was found.
#[derive(Drop)]
pub enum Text {
    Fixed(&'static str),
    Made(Page),
    Noted(Page, Page),
}

impl Text {
    fn as_bytes(&self) -> &[u8]
        ensures { result.now ≡ text_of self.now }
    {
        match self {
            Text::Fixed(text) => text.as_bytes(),
            Text::Made(text) | Text::Noted(text, _) => text.as_bytes(),
        }
    }

    // The note that goes with the text.
    fn note(&self) -> &[u8]
        ensures { result.now ≡ note_of self.now }
    {
        match self {
            Text::Fixed(_) | Text::Made(_) => &[],
            Text::Noted(_, note) => note.as_bytes(),
        }
    }
}

/// What a run says: its status, and the text that goes with it.
#[derive(Drop)]
pub struct Reply {
    pub status: Status,
    pub text: Text,
}

impl Reply {
    /// A status, and a text that was made for it.
    pub fn of_page(status: Status, text: Page) -> Reply
        ensures { answer_of result ≡ plain status text }
    {
        Reply {
            status,
            text: Text::Made(text),
        }
    }

    /// A status, and a text that the program has.
    pub fn of_str(status: Status, text: &'static str) -> Reply
        ensures { answer_of result ≡ plain status text.entry.now }
    {
        Reply {
            status,
            text: Text::Fixed(text),
        }
    }

    /// The status, and the text behind another one.
    ///
    /// # Errors
    /// Memory was refused.
    pub fn behind(&self, text: Page) -> Result<Reply, AllocError>
        ensures { IfOk result (λ reply. answer_of reply ≡ behind text (answer_of self.now)) }
    {
        let mut both = text;
        both.push_bytes(self.text.as_bytes())?;
        Ok(Reply::of_page(self.status, both))
    }

    // Writes the text to standard error, which may fail, and then the note to standard output, if there is one.
    fn tell<O: Sink, E: Sink>(&self, out: &mut O, err: &mut E) -> Status
        ensures { IsToldWith (answer_of self.now).note (answer_of self.now) (use_of O.held O.failures out.old out.new)
            (use_of E.held E.failures err.old err.new) result }
    {
        say(err, self.text.as_bytes());
        let note = self.text.note();
        if note.is_empty() {
            return self.status;
        }
        if put_all(out, note).is_err() {
            say(err, WRITE_FAILED);
            return Status::Trouble;
        }
        self.status
    }

    // Writes the text to standard output.
    fn print<O: Sink, E: Sink>(&self, out: &mut O, err: &mut E) -> Status
        ensures { IsPrinted (answer_of self.now) (use_of O.held O.failures out.old out.new)
            (use_of E.held E.failures err.old err.new) result
            ⊎ IsCut (answer_of self.now) (use_of O.held O.failures out.old out.new)
            (use_of E.held E.failures err.old err.new) result }
    {
        if put_all(out, self.text.as_bytes()).is_err() {
            say(err, WRITE_FAILED);
            return Status::Trouble;
        }
        self.status
    }

    /// Writes the text where its status says, and a note to standard output, and answers with the status of the run: if
    /// standard output fails, that is told on standard error. A failure of standard error changes nothing.
    pub fn write<O: Sink, E: Sink>(&self, out: &mut O, err: &mut E) -> Status
        ensures { IsWritten (answer_of self.now) (use_of O.held O.failures out.old out.new)
            (use_of E.held E.failures err.old err.new) result }
    {
        if self.status.is_output() {
            self.print(out, err)
        } else {
            self.tell(out, err)
        }
    }
}

// A text that is made piece by piece.
ghost use Rattle.std.specs.Prelude.{◌≡◌, ◌++◌, [], OnOk};
ghost use Rattle.std.specs.Fmt.{AppendsText};

use std::alloc::{AllocError, Global};
use std::fmt::{self, Display, Write};
use std::marker::Model;

/// A text that is made piece by piece: bytes, since the names of a report need not be UTF-8.
#[derive(Drop)]
pub struct Page {
    bytes: Vec<u8>,
}

impl Model for Page {
    ghost use Rattle.std.specs.Prelude.{ℕ, List};

    ghost Value = { List ℕ };

    ghost view = { λ p. p.bytes.items };
}

impl Page {
    /// Nothing yet.
    pub fn new(alloc: Global) -> Page
        ensures { result ≡ [] }
    {
        Page {
            bytes: Vec::new(alloc),
        }
    }

    /// Bytes that are a text already.
    pub fn from_bytes(bytes: Vec<u8>) -> Page
        ensures { result ≡ bytes.items }
    {
        Page { bytes }
    }

    /// What the text has its memory from.
    pub fn allocator(&self) -> Global {
        *self.bytes.allocator()
    }

    /// Puts a piece behind what is there.
    pub fn push_str(&mut self, piece: &str) -> Result<(), AllocError>
        ensures { OnOk result (self.new ≡ self.old ++ piece.now) }
    {
        self.push_bytes(piece.as_bytes())
    }

    /// Puts bytes behind what is there.
    pub fn push_bytes(&mut self, piece: &[u8]) -> Result<(), AllocError>
        ensures { OnOk result (self.new ≡ self.old ++ piece.now) }
    {
        self.bytes.extend_from_slice(piece)
    }

    /// What `write!` calls: puts a value behind what is there, with no text of its own between. (Where memory is
    /// refused, a part of it may have been put.)
    pub fn write_fmt<D: Display + Drop>(&mut self, value: D) -> Result<(), AllocError>
        ensures { OnOk result (AppendsText self.old self.new (D.output value)) }
    {
        match Write::write(self, value) {
            Ok(()) => Ok(()),
            Err(fmt::Error) => Err(AllocError),
        }
    }

    /// The text.
    pub fn as_bytes(&self) -> &[u8]
        ensures { result.now ≡ self.now }
    {
        self.bytes.as_slice()
    }
}

impl Write for Page {
    ghost use Rattle.std.specs.Prelude.{◌≡◌, ◌++◌};

    ghost write_str_gives = { λ page bytes then. then ≡ page ++ bytes };

    fn write_str(&mut self, piece: &str) -> fmt::Result {
        match self.push_str(piece) {
            Ok(()) => Ok(()),
            Err(AllocError) => Err(fmt::Error),
        }
    }
}

// Standard output and standard error, of which the second falls silent once the reader of the first has gone away:
// `arbiter .. | head -1` ends with the status of a write that failed, and says nothing, as other programs do.
ghost use Rattle.std.specs.Prelude.{◌≡◌};

use std::cell::Cell;
use std::io;
use std::io::{ErrorKind, Write};

/// A writer that notes where its reader has gone away.
#[derive(Drop)]
pub(crate) struct Noting<'a, W> {
    inner: W,
    is_gone: &'a Cell<bool>,
}

impl<'a, W> Noting<'a, W> {
    /// The writer, and where it notes that its reader has gone away.
    pub(crate) fn new(inner: W, is_gone: &'a Cell<bool>) -> Noting<'a, W>
        ensures { result.inner ≡ inner }
    {
        Noting { inner, is_gone }
    }
}

impl<W: Write> Write for Noting<'_, W> {
    // What the writer inside has: nothing is lost or made up on the way.
    ghost contents = { λ noting. W.contents noting.inner };

    fn write(&mut self, bytes: &[u8]) -> io::Result<usize> {
        let written = self.inner.write(bytes);
        if let Err(error) = &written {
            if error.kind() == ErrorKind::BrokenPipe {
                self.is_gone.set(true);
            }
        }
        written
    }

    fn flush(&mut self) -> io::Result<()> {
        self.inner.flush()
    }
}

/// A writer that takes all bytes and writes none once it is noted that another writer's reader has gone away.
#[derive(Drop)]
pub(crate) struct Silenced<'a, W> {
    inner: W,
    is_gone: &'a Cell<bool>,
}

impl<'a, W> Silenced<'a, W> {
    /// The writer, and where it is noted that the other one's reader has gone away.
    pub(crate) fn new(inner: W, is_gone: &'a Cell<bool>) -> Silenced<'a, W>
        ensures { result.inner ≡ inner }
    {
        Silenced { inner, is_gone }
    }
}

impl<W: Write> Write for Silenced<'_, W> {
    fn write(&mut self, bytes: &[u8]) -> io::Result<usize> {
        if self.is_gone.get() {
            return Ok(bytes.len());
        }
        self.inner.write(bytes)
    }

    fn flush(&mut self) -> io::Result<()> {
        self.inner.flush()
    }
}

// The devices that a report is read from and written to, one call at a time, with their calls and failures counted.
ghost use Rattle.std.specs.Prelude.{◌≡◌, ◌<◌, ◌≤◌, ℕ, List, Option, None, IfOk, length};
ghost use Rattle.std.specs.Io.KnownBytes.{ReadConsumes, WriteAppends};
ghost use Rattle.trf16_report.specs.Devices.{CountsFailure, CountsOne, inner_of, calls_of, failures_of};

use std::io::{Read, Write};

/// The largest count of calls or failures: a count that has reached it stays as it is.
pub const MOST_COUNTED: u64 = u64::MAX;

/// A call of a device failed.
#[derive(Debug, Clone, Copy, PartialEq)]
pub struct Failed;

/// What bytes are read from, one call at a time. An answer of 0 to a call with room is the end.
pub trait Source {
    // How many calls failed.
    ghost failures: { Self → ℕ };

    // How many calls were made.
    ghost calls: { Self → ℕ };

    // The bytes that are still to come, where they are known.
    ghost left: { Self → Option (List ℕ) } = { λ _. None };

    /// Reads some bytes into the front of `into`, and answers how many.
    fn take(&mut self, into: &mut [u8]) -> Result<usize, Failed>
        ensures bound { IfOk result (λ n. n ≤ length into.new) }
        ensures failures { CountsFailure (failures self.old) (failures self.new) result }
        ensures calls { CountsOne (calls self.old) (calls self.new) }
        ensures bytes { ReadConsumes (left self.old) (left self.new) result into.new };
}

/// What bytes are written to, one call at a time.
pub trait Sink {
    // How many calls failed.
    ghost failures: { Self → ℕ };

    // How many calls were made.
    ghost calls: { Self → ℕ };

    // The bytes that are written, where they are known.
    ghost held: { Self → Option (List ℕ) } = { λ _. None };

    /// Writes some bytes from the front of `piece`, at least one if it has any, and answers how
    /// many. A failed call writes none.
    fn put(&mut self, piece: &[u8]) -> Result<usize, Failed>
        ensures bound { IfOk result (λ n. n ≤ length piece.now) }
        ensures some { IfOk result (λ n. 0 < length piece.now → 0 < n) }
        ensures failures { CountsFailure (failures self.old) (failures self.new) result }
        ensures calls { CountsOne (calls self.old) (calls self.new) }
        ensures bytes { WriteAppends (held self.old) (held self.new) result piece.now };
}

/// Any reader or writer of std as a device: its calls and failures are counted, each of the two up
/// to [`MOST_COUNTED`].
#[derive(Drop)]
pub struct Counted<T> {
    inner: T,
    calls: u64,
    failures: u64,
}

impl<T> Counted<T> {
    /// The device of a reader or a writer, with nothing counted yet.
    pub fn new(inner: T) -> Counted<T>
        ensures inner { inner_of result ≡ inner }
        ensures calls { calls_of result ≡ 0 }
        ensures failures { failures_of result ≡ 0 }
    {
        Counted {
            inner,
            calls: 0,
            failures: 0,
        }
    }

    /// The reader or writer itself.
    pub fn into_inner(self) -> T
        ensures { result ≡ inner_of self }
    {
        self.inner
    }
}

impl<R: Read> Source for Counted<R> {
    ghost failures = { failures_of };

    ghost calls = { calls_of };

    ghost left = { λ counted. R.remaining (inner_of counted) };

    fn take(&mut self, into: &mut [u8]) -> Result<usize, Failed> {
        self.calls = self.calls.saturating_add(1);
        match self.inner.read(into) {
            Ok(count) => Ok(count),
            Err(_) => {
                self.failures = self.failures.saturating_add(1);
                Err(Failed)
            }
        }
    }
}

impl<W: Write> Sink for Counted<W> {
    ghost failures = { failures_of };

    ghost calls = { calls_of };

    ghost held = { λ counted. W.contents (inner_of counted) };

    fn put(&mut self, piece: &[u8]) -> Result<usize, Failed> {
        self.calls = self.calls.saturating_add(1);
        match self.inner.write(piece) {
            Ok(0) if !piece.is_empty() => {
                self.failures = self.failures.saturating_add(1);
                Err(Failed)
            }
            Ok(count) => Ok(count),
            Err(_) => {
                self.failures = self.failures.saturating_add(1);
                Err(Failed)
            }
        }
    }
}

// Devices in memory: a report that is all there, and outputs that grow.
ghost use Rattle.std.specs.Prelude.{◌≡◌, [], Some};

use std::alloc::Global;
use trf16_report::{Failed, Sink, Source};

/// A report in memory. No call of it fails.
#[derive(Drop)]
pub(crate) struct ReportBytes<'a> {
    rest: &'a [u8],
    calls: u64,
}

impl<'a> ReportBytes<'a> {
    pub(crate) fn new(report: &'a [u8]) -> ReportBytes<'a>
        ensures rest { result.rest.now ≡ report.now }
        ensures calls { result.calls ≡ 0 }
    {
        ReportBytes {
            rest: report,
            calls: 0,
        }
    }
}

impl Source for ReportBytes<'_> {
    ghost failures = { λ report. 0 };

    ghost calls = { λ report. report.calls };

    ghost left = { λ report. Some report.rest.now };

    fn take(&mut self, into: &mut [u8]) -> Result<usize, Failed> {
        self.calls = self.calls.saturating_add(1);
        let count = self.rest.len().min(into.len());
        let (front, rest) = self.rest.split_at(count);
        into[..count].copy_from_slice(front);
        self.rest = rest;
        Ok(count)
    }
}

/// An output in memory. A call of it fails where memory is refused.
#[derive(Drop)]
pub(crate) struct Held {
    pub(crate) text: Vec<u8>,
    pub(crate) failures: u64,
    calls: u64,
}

impl Held {
    pub(crate) fn new(alloc: Global) -> Held
        ensures text { result.text.items ≡ [] }
        ensures failures { result.failures ≡ 0 }
    {
        Held {
            text: Vec::new(alloc),
            failures: 0,
            calls: 0,
        }
    }
}

impl Sink for Held {
    ghost failures = { λ held. held.failures };

    ghost calls = { λ held. held.calls };

    ghost held = { λ held. Some held.text.items };

    fn put(&mut self, piece: &[u8]) -> Result<usize, Failed> {
        self.calls = self.calls.saturating_add(1);
        if self.text.extend_from_slice(piece).is_err() {
            self.failures = self.failures.saturating_add(1);
            return Err(Failed);
        }
        Ok(piece.len())
    }
}

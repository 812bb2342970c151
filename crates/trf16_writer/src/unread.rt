// Lines that name players in a way that is not read.
ghost use Rattle.std.specs.Prelude.{◌≡◌};
ghost use Rattle.trf16_report.specs.Prelude.{columns, names_unread, first_unread};

use trf16_report::{Report, is_word, split_kind};

fn names_unread(line: &[u8], utf8: bool) -> bool
    ensures { result ≡ names_unread (columns utf8 line.now) }
{
    let (kind, _) = split_kind(line, utf8);
    is_word(kind, b"013") || is_word(kind, b"XXA")
}

/// The number of the first line, from 1, that names players in a way that is not read: of the kind `013`, which names
/// the players of a team, or `XXA`. A report that has one cannot be renumbered.
pub fn first_unread(report: &Report<'_>) -> Option<usize>
    ensures { result ≡ first_unread report.now }
{
    let utf8 = report.is_utf8();
    let mut lines = report.carried_lines();
    let mut n = 0usize;
    while let Some(line) = lines.next() {
        n += 1;
        if let Some(bytes) = line
            && names_unread(bytes, utf8)
        {
            return Some(n);
        }
    }
    None
}

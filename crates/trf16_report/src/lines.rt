// The byte order marks in front of a text, and then its lines, one after the other.
ghost use Rattle.std.specs.Prelude.{◌≡◌, ℕ, ◌<◌, ◌≤◌, ◌∷◌, length, slice_index, true, false};
ghost use Rattle.trf16_report.specs.Lines.{without_marks, lines, ends_line};
ghost use Rattle.trf16_report.specs.Steps.{behind_end};

/// The text behind the byte order marks in front of it, however many.
pub fn skip_marks(bytes: &[u8]) -> &[u8]
    ensures { result.now ≡ without_marks bytes.now }
{
    let mut rest = bytes;
    while let [0xEF, 0xBB, 0xBF, after @ ..] = rest {
        rest = after;
    }
    rest
}

// Where the first line ends, without its end.
fn line_len(bytes: &[u8]) -> usize
    ensures within { result ≤ length bytes.now }
    ensures inside { (k : ℕ) → k < result → ends_line (slice_index bytes.now k) ≡ false }
    ensures behind { result < length bytes.now → ends_line (slice_index bytes.now result) ≡ true }
{
    bytes
        .iter()
        .position(|byte| *byte == b'\r' || *byte == b'\n')
        .unwrap_or(bytes.len())
}

// What stands behind the line end in front; nothing if the text ends there.
fn behind_end(rest: &[u8]) -> &[u8]
    ensures value { result.now ≡ behind_end rest.now }
    ensures shorter { 0 < length rest.now → length result.now < length rest.now }
{
    let Some((first, after)) = rest.split_first() else {
        return rest;
    };
    match after.split_first() {
        Some((second, last)) if *first == b'\r' && *second == b'\n' => last,
        _ => after,
    }
}

/// The first line of a text that is not empty, without its end, and what stands behind that end.
pub fn next_line(bytes: &[u8]) -> (&[u8], &[u8])
    requires { 0 < length bytes.now }
    ensures first { lines bytes.now ≡ result.0.now ∷ lines result.1.now }
    ensures shorter { length result.1.now < length bytes.now }
{
    let (line, rest) = bytes.split_at(line_len(bytes));
    (line, behind_end(rest))
}

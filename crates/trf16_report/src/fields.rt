// The fields of a line: words, numbers and points.
ghost use Rattle.std.specs.Prelude.{◌≡◌, ℕ, ◌≢◌, ◌<◌, ◌≤◌, ◌∷◌, [], length, slice_index, drop, true};
ghost use Rattle.std.specs.Prelude.{MatchOption, IfSome};
ghost use Rattle.std.specs.Char.{is_ascii_digit};
ghost use Rattle.std.specs.List.{list_all};
ghost use Rattle.trf16_report.specs.Fields as fields;

// How many blanks stand in front.
fn blank_len(bytes: &[u8]) -> usize
    ensures within { result ≤ length bytes.now }
    ensures same { fields.words (drop result bytes.now) ≡ fields.words bytes.now }
    ensures behind { result < length bytes.now → slice_index bytes.now result ≢ 32 }
{
    for (i, byte) in bytes.iter().enumerate() {
        if *byte != b' ' {
            return i;
        }
    }
    bytes.len()
}

// How many bytes stand in front of the first blank.
fn word_len(bytes: &[u8]) -> usize
    ensures within { result ≤ length bytes.now }
    ensures inside { (k : ℕ) → k < result → slice_index bytes.now k ≢ 32 }
    ensures behind { result < length bytes.now → slice_index bytes.now result ≡ 32 }
{
    bytes
        .iter()
        .position(|byte| *byte == b' ')
        .unwrap_or(bytes.len())
}

/// The first word of a text and what stands behind it, or none if there are only blanks.
pub fn next_word(bytes: &[u8]) -> Option<(&[u8], &[u8])>
    ensures first { MatchOption result (fields.words bytes.now ≡ []) (λ x. fields.words bytes.now
        ≡ x.0.now ∷ fields.words x.1.now) }
    ensures shorter { IfSome result (λ x. length x.1.now < length bytes.now) }
{
    let (_, rest) = bytes.split_at(blank_len(bytes));
    if rest.is_empty() {
        return None;
    }
    Some(rest.split_at(word_len(rest)))
}

// The number that one to four digits spell.
fn number_after(digits: &[u8]) -> u16
    requires few { length digits.now ≤ 4 }
    requires decimal { list_all is_ascii_digit digits.now ≡ true }
    ensures value { result ≡ fields.number_after 0 digits.now }
    ensures bound { result < 10000 }
{
    let mut value = 0;
    for digit in digits {
        value = 10 * value + u16::from(*digit - b'0');
    }
    value
}

fn has_digits_alone(word: &[u8]) -> bool
    ensures { result ≡ list_all is_ascii_digit word.now }
{
    word.iter().all(|byte| byte.is_ascii_digit())
}

fn is_number(word: &[u8]) -> bool
    ensures { result ≡ fields.is_number word.now }
{
    if word.is_empty() || 4 < word.len() {
        return false;
    }
    has_digits_alone(word)
}

/// The number that a word of one to four digits spells.
pub fn number_of(word: &[u8]) -> Option<u16>
    ensures value { result ≡ fields.number_of word.now }
    ensures bound { IfSome result (λ n. n < 10000) }
{
    if is_number(word) {
        Some(number_after(word))
    } else {
        None
    }
}

/// The one number of a field, 0 to 9999.
pub fn number_in(field: &[u8]) -> Option<u16>
    ensures value { result ≡ fields.number_in (fields.words field.now) }
    ensures bound { IfSome result (λ n. n < 10000) }
{
    let (word, rest) = next_word(field)?;
    match next_word(rest) {
        Some(_) => None,
        None => number_of(word),
    }
}

// The half points behind a decimal point, of whole points in front of it.
fn half_after(whole: u16, digits: &[u8]) -> Option<u16>
    requires { whole < 10000 }
    ensures value { result ≡ fields.half_after whole digits.now }
    ensures bound { IfSome result (λ points. points < 20000) }
{
    match digits {
        [b'0'] => Some(2 * whole),
        [b'5'] => Some(2 * whole + 1),
        _ => None,
    }
}

// The half points that a text of few bytes spells.
fn points_after(word: &[u8]) -> Option<u16>
    requires { length word.now ≤ 4 }
    ensures value { result ≡ fields.points_after 0 word.now }
    ensures bound { IfSome result (λ points. points < 20000) }
{
    let mut whole = 0;
    for (i, byte) in word.iter().enumerate() {
        if byte.is_ascii_digit() {
            whole = 10 * whole + u16::from(*byte - b'0');
        } else if *byte == b'.' || *byte == b',' {
            return half_after(whole, word.split_at(i + 1).1);
        } else {
            return None;
        }
    }
    Some(2 * whole)
}

/// The half points that a word of one to four bytes spells.
pub(crate) fn points_of(word: &[u8]) -> Option<u16>
    ensures value { result ≡ fields.points_of word.now }
    ensures bound { IfSome result (λ points. points < 20000) }
{
    if 1 <= word.len() && word.len() <= 4 {
        points_after(word)
    } else {
        None
    }
}

/// The points of a field in half points, none if it is blank; no answer if it is neither.
pub fn points_in(field: &[u8]) -> Option<Option<u16>>
    ensures value { result ≡ fields.points_in (fields.words field.now) }
    ensures bound { IfSome result (λ points. IfSome points (λ p. p < 20000)) }
{
    let Some((word, rest)) = next_word(field) else {
        return Some(None);
    };
    match next_word(rest) {
        Some(_) => None,
        None => points_of(word).map(Some),
    }
}

/// A text without the blanks at its end.
pub fn trimmed(bytes: &[u8]) -> &[u8]
    ensures { result.now ≡ fields.trimmed bytes.now }
{
    let mut rest = bytes;
    while let Some((last, front)) = rest.split_last() {
        if *last != b' ' {
            return rest;
        }
        rest = front;
    }
    rest
}

/// A text without the blanks at its ends.
pub fn without_blanks(bytes: &[u8]) -> &[u8]
    ensures { result.now ≡ fields.without_blanks bytes.now }
{
    for (i, byte) in bytes.iter().enumerate() {
        if *byte != b' ' {
            return trimmed(bytes.split_at(i).1);
        }
    }
    &[]
}

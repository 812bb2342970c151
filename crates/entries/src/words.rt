// Which words are entries.
ghost use Rattle.std.specs.Prelude.{◌≡◌, ◌≤◌, drop, length, take};
ghost use Rattle.entries.specs.Words as words;
ghost use Rattle.entries.specs.declared.entry.GameResult.TheVariants.{Played};

use crate::entry::{Event, GameResult, HandEntry};
use trf16_report::{Bye, GameOutcome, number_of};

// How many digits stand at the front of a word.
fn digit_count(word: &[u8]) -> usize
    ensures digits { take result word.now ≡ words.digits_of word.now }
    ensures behind { drop result word.now ≡ words.behind_digits word.now }
    ensures within { result ≤ length word.now }
{
    for (i, byte) in word.iter().enumerate() {
        if !byte.is_ascii_digit() {
            return i;
        }
    }
    word.len()
}

// The digits at the front of a word, and what stands behind them.
fn split_digits(word: &[u8]) -> (&[u8], &[u8])
    ensures digits { result.0.now ≡ words.digits_of word.now }
    ensures behind { result.1.now ≡ words.behind_digits word.now }
{
    word.split_at(digit_count(word))
}

// The start rank that some digits spell.
fn start_in(digits: &[u8]) -> Option<u16>
    ensures { result ≡ words.start_in digits.now }
{
    match number_of(digits) {
        None | Some(0) => None,
        Some(start) => Some(start),
    }
}

// The result that a letter in upper case is.
fn result_of(letter: u8) -> Option<GameResult>
    ensures { result ≡ words.result_of letter }
{
    match letter {
        b'1' => Some(result_played(true, GameOutcome::Win)),
        b'=' => Some(result_played(true, GameOutcome::Draw)),
        b'0' => Some(result_played(true, GameOutcome::Loss)),
        b'W' => Some(result_played(false, GameOutcome::Win)),
        b'D' => Some(result_played(false, GameOutcome::Draw)),
        b'L' => Some(result_played(false, GameOutcome::Loss)),
        b'+' => Some(GameResult::Forfeited { won: true }),
        b'-' => Some(GameResult::Forfeited { won: false }),
        _ => None,
    }
}

fn result_played(rated: bool, got: GameOutcome) -> GameResult
    ensures { result ≡ Played rated got }
{
    GameResult::Played { rated, got }
}

// The bye that a letter in upper case asks for.
fn asked_of(letter: u8) -> Option<Bye>
    ensures { result ≡ words.asked_of letter }
{
    match letter {
        b'H' => Some(Bye::Half),
        b'F' => Some(Bye::Full),
        b'Z' => Some(Bye::Zero),
        _ => None,
    }
}

// What a letter in upper case says of a player.
fn event_of(letter: u8) -> Option<Event>
    ensures { result ≡ words.event_of letter }
{
    if let Some(bye) = asked_of(letter) {
        return Some(Event::Asked(bye));
    }
    Some(Event::Scores(result_of(letter)?))
}

// What stands behind the colon: nothing, or one letter in either case.
fn marked_in(mark: &[u8]) -> Option<Event>
    ensures { result ≡ words.marked_in mark.now }
{
    match mark {
        [] => Some(Event::NoResult),
        [letter] => event_of(letter.to_ascii_uppercase()),
        _ => None,
    }
}

// The result behind the two players: none, or a colon and one letter in either case.
fn score_in(rest: &[u8]) -> Option<Option<GameResult>>
    ensures { result ≡ words.score_in rest.now }
{
    match rest {
        [] => Some(None),
        [b':', letter] => Some(Some(result_of(letter.to_ascii_uppercase())?)),
        _ => None,
    }
}

// What stands behind the dash: 0, or the player with Black and perhaps a result.
fn meeting_in(other: &[u8]) -> Option<Event>
    ensures { result ≡ words.meeting_in other.now }
{
    if other == b"0".as_slice() {
        return Some(Event::Allocated);
    }
    let (digits, rest) = split_digits(other);
    let black = start_in(digits)?;
    let score = score_in(rest)?;
    Some(Event::Meets { black, score })
}

// What stands behind the player.
fn event_in(rest: &[u8]) -> Option<Event>
    ensures { result ≡ words.event_in rest.now }
{
    match rest {
        [b':', mark @ ..] => marked_in(mark),
        [b'-', other @ ..] => meeting_in(other),
        _ => None,
    }
}

/// The entry that a word is, or none if it has another form: `P:` and perhaps a letter, which is the result `1`, `=`,
/// `0`, `W`, `D`, `L`, `+` or `-`, or the bye `H`, `F` or `Z`; `W-B`, perhaps with a colon and the letter of a result;
/// or `W-0`. Letters may have either case. A player is one to four digits, and not 0.
pub fn entry_in(word: &[u8]) -> Option<HandEntry>
    ensures { result ≡ words.entry_in word.now }
{
    let (digits, rest) = split_digits(word);
    let player = start_in(digits)?;
    let event = event_in(rest)?;
    Some(HandEntry { player, event })
}

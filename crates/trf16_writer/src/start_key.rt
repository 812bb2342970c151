// What the order of start ranks goes by: rating, title and the start rank that a player has.
ghost use Rattle.std.specs.Prelude.{◌≡◌, ◌≤◌, ◌<◌};
ghost use Rattle.std.specs.Option.{option_map_or};
ghost use Rattle.trf16_report.specs.Prelude.{columns, text, words, number_in, entry_of, titles, place_among};
ghost use Rattle.trf16_writer.specs.StartKeys.{key_of, is_before};

use trf16_report::{Player, is_word, next_word, number_of, split_columns, without_blanks};

// The titles, the highest first.
const TITLES: &[u8] = b"GM IM WGM FM WIM CM WFM WCM";

/// What a player's place goes by.
#[derive(Clone, Copy)]
pub(crate) struct StartKey {
    /// 0 to 9999.
    pub rating: u16,
    /// How many titles are higher: 0 to 8.
    pub higher_titles: u8,
    /// The start rank in the report.
    pub start: u16,
}

// Some columns of what is carried of a player's line, from 1.
fn columns_in(left: &[u8], utf8: bool, first: usize, last: usize) -> &[u8]
    requires from_one { 0 < first }
    requires in_order { first ≤ last }
    ensures { result.now ≡ text (columns utf8 left.now) first last }
{
    let (_, behind) = split_columns(left, utf8, first - 1);
    split_columns(behind, utf8, last - (first - 1)).0
}

// The one number of a field; 0 if something else stands there.
fn rating_in(field: &[u8]) -> u16
    ensures value { result ≡ option_map_or (λ n. n) (number_in (words field.now)) 0 }
    ensures few { result < 10000 }
{
    let Some((word, rest)) = next_word(field) else {
        return 0;
    };
    match next_word(rest) {
        Some(_) => 0,
        None => number_of(word).unwrap_or(0),
    }
}

// How many titles are higher than one; all of them if it is none of these.
fn higher_titles(title: &[u8]) -> u8
    ensures { result ≡ place_among titles title.now }
{
    let mut rest = TITLES;
    let mut count = 0;
    while let Some((higher, after)) = next_word(rest) {
        if is_word(title, higher) {
            return count;
        }
        count += 1;
        rest = after;
    }
    count
}

impl StartKey {
    /// The key of a player.
    pub(crate) fn of(player: &Player<'_>, utf8: bool) -> StartKey
        ensures { result ≡ key_of utf8 (entry_of player.now) }
    {
        StartKey {
            rating: rating_in(columns_in(player.left, utf8, 41, 44)),
            higher_titles: higher_titles(without_blanks(columns_in(player.left, utf8, 3, 5))),
            start: player.start,
        }
    }

    pub(crate) fn is_before(&self, other: &StartKey) -> bool
        ensures { result ≡ is_before self.now other.now }
    {
        if self.rating != other.rating {
            return other.rating < self.rating;
        }
        if self.higher_titles != other.higher_titles {
            return self.higher_titles < other.higher_titles;
        }
        self.start < other.start
    }
}

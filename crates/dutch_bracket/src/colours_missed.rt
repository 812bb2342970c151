// Players who get a colour that is not for them (C.04.3 C.8 to C.11).
ghost use Rattle.std.specs.Prelude.{◌≡◌, ◌≤◌, length};
ghost use Rattle.dutch_player.specs.Prelude.{seat_at, is_same};
ghost use Rattle.dutch_bracket.specs.Quality as quality;

use crate::seated::Pair;
use dutch_arrangements::LIMIT;
use dutch_player::{Field, Strength};
use trf16_report::Colour;

/// What is wrong with the colour that a player gets.
#[derive(Clone, Copy)]
pub enum Miss {
    /// Their colour difference gets over +2 or under -2 (C.8).
    Wide,
    /// It is that of their last two games (C.9).
    Third,
    /// It is not that of their preference (C.10).
    Preference,
    /// It is not that of their preference, which is strong and not absolute (C.11).
    StrongPreference,
}

pub(crate) fn is_same(mine: Colour, theirs: Colour) -> bool
    ensures { result ≡ is_same mine theirs }
{
    match (mine, theirs) {
        (Colour::White, Colour::White) | (Colour::Black, Colour::Black) => true,
        _ => false,
    }
}

fn is_strong(strength: Strength) -> bool
    ensures { result ≡ quality.is_strong strength }
{
    match strength {
        Strength::Strong => true,
        Strength::Absolute | Strength::Mild => false,
    }
}

/// The colour difference after one more game is over +2 or under -2.
fn is_wide(field: &Field, seat: u16, colour: Colour) -> bool
    ensures { result ≡ quality.is_wide (seat_at field.now seat) colour }
{
    let games = field.difference(seat);
    match colour {
        Colour::White => games > 1 || games < -3,
        Colour::Black => games > 3 || games < -1,
    }
}

/// The colour is that of the last two games.
fn is_third(field: &Field, seat: u16, colour: Colour) -> bool
    ensures { result ≡ quality.is_third (seat_at field.now seat) colour }
{
    match field.last_two(seat) {
        Some(last) => is_same(colour, last),
        None => false,
    }
}

/// The colour is not that of the preference.
fn is_missed(field: &Field, seat: u16, colour: Colour) -> bool
    ensures { result ≡ quality.is_missed (seat_at field.now seat) colour }
{
    match field.preference(seat) {
        Some(wanted) => !is_same(wanted.colour, colour),
        None => false,
    }
}

/// The colour is not that of a strong preference.
fn is_strong_missed(field: &Field, seat: u16, colour: Colour) -> bool
    ensures { result ≡ quality.is_strong_missed (seat_at field.now seat) colour }
{
    match field.preference(seat) {
        Some(wanted) => is_strong(wanted.strength) && !is_same(wanted.colour, colour),
        None => false,
    }
}

/// Yes if the player of a seat misses so if they get this colour (C.8 to C.11).
pub fn misses(field: &Field, miss: Miss, seat: u16, colour: Colour) -> bool
    ensures { result ≡ quality.misses miss (seat_at field.now seat) colour }
{
    match miss {
        Miss::Wide => is_wide(field, seat, colour),
        Miss::Third => is_third(field, seat, colour),
        Miss::Preference => is_missed(field, seat, colour),
        Miss::StrongPreference => is_strong_missed(field, seat, colour),
    }
}

/// How many of the two players of a pair miss so.
#[tactic(auto, unfolding(crate::specs::Quality::count_in))]
pub fn count_in(field: &Field, miss: Miss, pair: Pair) -> u16
    ensures value { result ≡ quality.count_in field.now (quality.misses miss) pair }
    ensures few { result ≤ 2 }
{
    let (white, black) = field.colours(pair.0, pair.1);
    u16::from(misses(field, miss, white, Colour::White))
        + u16::from(misses(field, miss, black, Colour::Black))
}

/// One of a pair is a topscorer.
pub fn has_topscorer(field: &Field, pair: Pair) -> bool
    ensures { result ≡ quality.has_topscorer field.now pair }
{
    field.topscorer(pair.0) || field.topscorer(pair.1)
}

/// How many players in pairs miss so.
pub(crate) fn count_in_pairs(field: &Field, miss: Miss, pairs: &[Pair]) -> u16
    requires { length pairs.now ≤ LIMIT }
    ensures { result ≡ quality.count_in_pairs field.now (quality.misses miss) pairs.now }
{
    let mut count = 0;
    for pair in pairs {
        count += count_in(field, miss, *pair);
    }
    count
}

/// How many players in pairs with a topscorer miss so.
pub(crate) fn count_with_topscorers(field: &Field, miss: Miss, pairs: &[Pair]) -> u16
    requires { length pairs.now ≤ LIMIT }
    ensures { result ≡ quality.count_with_topscorers field.now (quality.misses miss) pairs.now }
{
    let mut count = 0;
    for pair in pairs {
        if has_topscorer(field, *pair) {
            count += count_in(field, miss, *pair);
        }
    }
    count
}

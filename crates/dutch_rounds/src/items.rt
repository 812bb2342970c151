// The players whom each item of a quality counts (C.04.3 C.8 to C.15).
ghost use Rattle.std.specs.Prelude.{◌≡◌, ◌+◌, ◌*◌, ◌<◌, ◌≤◌, [], if◌then◌else◌, length, map, filter};
ghost use Rattle.arrayvec.specs.ArrayVec.{array_vec_len};
ghost use Rattle.dutch_player.specs.declared.float.Float.TheVariants.{Up, Down};
ghost use Rattle.dutch_bracket.specs.Prelude as brackets;
ghost use Rattle.dutch_rounds.specs.Outcomes.{IsStage};

use crate::stage::Stage;
use dutch_arrangements::LIMIT;
use dutch_bracket::colours_missed::{Miss, has_topscorer, misses};
use dutch_bracket::differences::put;
use dutch_bracket::floats::FloatRound;
use dutch_bracket::item::Item;
use dutch_bracket::reached::Seats;
use dutch_bracket::seated::{Pair, Seated, by_seats, goes, is_uneven};
use dutch_player::{Field, Float};
use trf16_report::Colour;

/// Puts a seat to its place if something holds, the highest number first.
fn put_if(holds: bool, seat: u16, seats: &mut Seats)
    requires { array_vec_len seats.old < LIMIT }
    ensures items { seats.new.items ≡ brackets.placed_all seats.old.items (brackets.only_if holds seat) }
    ensures len { array_vec_len seats.new ≤ array_vec_len seats.old + 1 }
{
    if holds {
        put(seats, seat);
    }
}

/// Puts those of the players of a pair who miss so to their places.
#[tactic(auto, using(dutch_bracket::proofs::Places::placed_all_append), unfolding(dutch_bracket::specs::Items::those_in))]
fn put_pair(field: &Field, miss: Miss, pair: Pair, seats: &mut Seats)
    requires { array_vec_len seats.old + 2 ≤ LIMIT }
    ensures items { seats.new.items ≡ brackets.placed_all seats.old.items (brackets.those_in field.now
        (brackets.misses miss) pair) }
    ensures len { array_vec_len seats.new ≤ array_vec_len seats.old + 2 }
{
    let (white, black) = field.colours(pair.0, pair.1);
    put_if(misses(field, miss, white, Colour::White), white, seats);
    put_if(misses(field, miss, black, Colour::Black), black, seats);
}

/// Puts those of the players of a pair who miss so to their places, if one of the two is a topscorer.
fn put_if_topscorer(field: &Field, miss: Miss, pair: Pair, seats: &mut Seats)
    requires { array_vec_len seats.old + 2 ≤ LIMIT }
    ensures items { seats.new.items
        ≡ brackets.placed_all seats.old.items
        (if brackets.has_topscorer field.now pair then brackets.those_in field.now
        (brackets.misses miss) pair else []) }
    ensures len { array_vec_len seats.new ≤ array_vec_len seats.old + 2 }
{
    if has_topscorer(field, pair) {
        put_pair(field, miss, pair, seats);
    }
}

/// Puts the players of pairs who miss so to their places.
#[tactic(auto, using(crate::proofs::ItemSeats::pair_put))]
fn put_pairs(field: &Field, miss: Miss, pairs: &[Pair], seats: &mut Seats)
    requires { array_vec_len seats.old + 2 * length pairs.now ≤ LIMIT }
    ensures { seats.new.items ≡ brackets.placed_all seats.old.items (brackets.those_in_pairs field.now
        (brackets.misses miss) pairs.now) }
{
    for pair in pairs {
        put_pair(field, miss, *pair, seats);
    }
}

/// Puts the players of pairs with a topscorer who miss so to their places.
fn put_with_topscorers(field: &Field, miss: Miss, pairs: &[Pair], seats: &mut Seats)
    requires { array_vec_len seats.old + 2 * length pairs.now ≤ LIMIT }
    ensures { seats.new.items ≡ brackets.placed_all seats.old.items (brackets.those_with_topscorers field.now
        (brackets.misses miss) pairs.now) }
{
    for pair in pairs {
        put_if_topscorer(field, miss, *pair, seats);
    }
}

/// Puts the players of pairs who float as in a round before to their places.
fn put_again(past: FloatRound<'_>, pairs: &[Pair], seats: &mut Seats)
    requires { array_vec_len seats.old + length pairs.now ≤ LIMIT }
    ensures items { seats.new.items ≡ brackets.placed_all seats.old.items
        (brackets.seats_of (brackets.again past.entry.field.now past.entry.float past.entry.back
        (map (brackets.goes past.entry.field.now past.entry.float) (filter
        (brackets.is_uneven past.entry.field.now) pairs.now)))) }
    ensures len { array_vec_len seats.new ≤ array_vec_len seats.old + length pairs.now }
{
    for pair in pairs {
        if is_uneven(past.field, *pair) {
            let floater = goes(past.field, past.float, *pair);
            if past.was_of(floater.seat) {
                put(seats, floater.seat);
            }
        }
    }
}

/// Puts the downfloaters who float as in a round before to their places.
fn put_down_again(past: FloatRound<'_>, least: u16, down: &[u16], seats: &mut Seats)
    requires { array_vec_len seats.old + length down.now ≤ LIMIT }
    ensures { seats.new.items ≡ brackets.placed_all seats.old.items
        (brackets.seats_of (brackets.again past.entry.field.now past.entry.float past.entry.back
        (map (brackets.floats_down past.entry.field.now least) down.now))) }
{
    for seat in down {
        if past.was_of(*seat) {
            put(seats, *seat);
        }
    }
}

/// Fills a list with those who go down and had a downfloat in the last round (1), or else in the one before it.
#[tactic(auto, using(crate::proofs::ItemSeats::seats_again), unfolding(dutch_bracket::specs::Seated::going_down))]
fn fill_going_down(field: &Field, back: u8, candidate: &Seated, seats: &mut Seats)
    ensures { seats.new.items
        ≡ brackets.highest_first (brackets.seats_of (brackets.again field.now Down back
        (brackets.going_down field.now candidate.now))) }
{
    seats.clear();
    let past = FloatRound::new(field, Float::Down, back);
    put_again(past, &candidate.pairs, seats);
    put_down_again(past, candidate.lowest, &candidate.down, seats);
}

/// Fills a list with those of a candidate whom an item counts, the highest number first.
#[tactic(auto, unfolding(dutch_bracket::specs::Seated::going_up, dutch_bracket::specs::Seated::going_down))]
fn fill_counted(field: &Field, candidate: &Seated, item: Item, seats: &mut Seats)
    requires { 2 * length candidate.now.pairs ≤ LIMIT }
    ensures { seats.new.items ≡ brackets.highest_first (brackets.counted field.now candidate.now item) }
{
    seats.clear();
    let pairs = &candidate.pairs;
    match item {
        Item::WideDifferences => put_with_topscorers(field, Miss::Wide, pairs, seats),
        Item::ThirdColours => put_with_topscorers(field, Miss::Third, pairs, seats),
        Item::MissedPreferences => put_pairs(field, Miss::Preference, pairs, seats),
        Item::MissedStrong => put_pairs(field, Miss::StrongPreference, pairs, seats),
        Item::DownAgain => fill_going_down(field, 1, candidate, seats),
        Item::UpAgain => put_again(FloatRound::new(field, Float::Up, 1), pairs, seats),
        Item::DownAgainBefore => fill_going_down(field, 2, candidate, seats),
        Item::UpAgainBefore => put_again(FloatRound::new(field, Float::Up, 2), pairs, seats),
        Item::Psd
        | Item::NextBracket
        | Item::DownAgainBy
        | Item::UpAgainBy
        | Item::DownAgainBeforeBy
        | Item::UpAgainBeforeBy => {}
    }
}

/// The players whom an item counts of what is chosen in a bracket (C.8 to C.15): their seats by rank, none for the
/// other items.
#[tactic(auto, using(crate::proofs::WalkEnds::candidate_is, crate::proofs::ItemSeats::pairs_few))]
pub fn who_counts(field: &Field, stage: &Stage, item: Item) -> Seats
    requires { IsStage field.now stage.now }
    ensures { result.items ≡ brackets.who_counts field.now stage.now.reached stage.now.candidate item }
{
    let candidate = by_seats(field, stage.reached().seats(), stage.candidate());
    let mut seats = Seats::new();
    fill_counted(field, &candidate, item, &mut seats);
    seats.reverse();
    seats
}

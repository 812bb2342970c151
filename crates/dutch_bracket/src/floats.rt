// Players who go down or up again, as in one of the last two rounds (C.04.3 C.12 to C.19).
ghost use Rattle.std.specs.Prelude.{◌≡◌, ◌+◌, ◌≤◌, length, map, filter};
ghost use Rattle.arrayvec.specs.ArrayVec.{array_vec_len};
ghost use Rattle.dutch_player.specs.declared.float.Float.TheVariants.{Up, Down};
ghost use Rattle.dutch_bracket.specs.Seated.{is_uneven, goes, floats_down, going_down, going_up};
ghost use Rattle.dutch_bracket.specs.Quality.{again, differences, float_of, is_float, placed_all};

use crate::differences::put;
use crate::seated::{Pair, Seated, difference_down, goes, is_uneven};
use dutch_arrangements::{LIMIT, Numbers};
use dutch_player::{Field, Float};

/// Yes if a player had this float in a round. `had` is the float that they had there; none if they had none.
pub fn is_float(float: Float, had: Option<Float>) -> bool
    ensures { result ≡ is_float float had }
{
    match (float, had) {
        (Float::Up, Some(Float::Up)) | (Float::Down, Some(Float::Down)) => true,
        _ => false,
    }
}

/// A float in the last round of a field (1), or else in the one before it.
#[derive(Clone, Copy)]
pub struct FloatRound<'a> {
    pub field: &'a Field,
    pub float: Float,
    pub back: u8,
}

impl<'a> FloatRound<'a> {
    /// A float so many rounds ago.
    pub fn new(field: &'a Field, float: Float, back: u8) -> FloatRound<'a>
        ensures field { result.field.now ≡ field.now }
        ensures float { result.float ≡ float }
        ensures back { result.back ≡ back }
    {
        FloatRound { field, float, back }
    }

    /// Yes if the seat had this float in this round.
    pub fn was_of(&self, seat: u16) -> bool
        ensures { result ≡ is_float self.now.float (float_of self.now.field.now self.now.back seat) }
    {
        is_float(self.float, self.field.float(seat, self.back))
    }
}

/// Puts the differences of the players of pairs who float as in a round before to their places.
fn put_pairs(past: FloatRound<'_>, pairs: &[Pair], by: &mut Numbers)
    requires { array_vec_len by.old + length pairs.now ≤ LIMIT }
    ensures items { by.new.items ≡ placed_all by.old.items
        (map (λ floater. floater.by) (again past.entry.field.now past.entry.float past.entry.back
        (map (goes past.entry.field.now past.entry.float) (filter (is_uneven past.entry.field.now) pairs.now)))) }
    ensures len { array_vec_len by.new ≤ array_vec_len by.old + length pairs.now }
{
    for pair in pairs {
        if is_uneven(past.field, *pair) {
            let floater = goes(past.field, past.float, *pair);
            if past.was_of(floater.seat) {
                put(by, floater.by);
            }
        }
    }
}

/// Puts the differences of downfloaters who float as in a round before to their places.
fn put_down(past: FloatRound<'_>, least: u16, down: &[u16], by: &mut Numbers)
    requires { array_vec_len by.old + length down.now ≤ LIMIT }
    ensures items { by.new.items ≡ placed_all by.old.items
        (map (λ floater. floater.by) (again past.entry.field.now past.entry.float past.entry.back
        (map (floats_down past.entry.field.now least) down.now))) }
{
    for seat in down {
        if past.was_of(*seat) {
            put(by, difference_down(past.field, least, *seat));
        }
    }
}

/// Fills a list with the differences of those who go down and had a downfloat in the last round (1), or else in the
/// one before it, the highest first.
#[tactic(auto, using(crate::proofs::Places::placed_again), unfolding(crate::specs::Seated::going_down))]
pub(crate) fn fill_down_again(field: &Field, candidate: &Seated, back: u8, by: &mut Numbers)
    ensures { by.new.items ≡ differences (again field.now Down back (going_down field.now candidate.now)) }
{
    by.clear();
    let past = FloatRound::new(field, Float::Down, back);
    put_pairs(past, &candidate.pairs, by);
    put_down(past, candidate.lowest, &candidate.down, by);
}

/// Fills a list with the differences of those who go up and had an upfloat in the last round (1), or else in the one
/// before it, the highest first.
#[tactic(auto, unfolding(crate::specs::Seated::going_up))]
pub(crate) fn fill_up_again(field: &Field, candidate: &Seated, back: u8, by: &mut Numbers)
    ensures { by.new.items ≡ differences (again field.now Up back (going_up field.now candidate.now)) }
{
    by.clear();
    put_pairs(
        FloatRound::new(field, Float::Up, back),
        &candidate.pairs,
        by,
    );
}

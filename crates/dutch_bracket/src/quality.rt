// The quality of a candidate, by which candidates of one shape are compared (C.04.3 C.6 to C.19), specified item by
// item.
ghost use Rattle.std.specs.Prelude.{◌≡◌, ◌≤◌, true, length};
ghost use Rattle.dutch_bracket.specs.Seated.{by_seats, IsCandidate};
ghost use Rattle.dutch_bracket.specs.Quality.{quality_with, is_better};
ghost use Rattle.dutch_bracket.specs.NextBracket.{no_value};
ghost use Rattle.dutch_bracket.specs.QualityIn.{quality_in, next_in, with_next, with_floats};

use crate::colours_missed::{Miss, count_in_pairs, count_with_topscorers};
use crate::differences::fill_psd;
use crate::floats::{fill_down_again, fill_up_again};
use crate::reached::push_all;
use crate::seated::Seated;
use dutch_arrangements::{Candidate, LIMIT, Numbers};
use dutch_player::Field;
use dutch_sequence::numbers::refill;
use std::cmp::Reverse;
use std::marker::Model;

/// What the next bracket can be (C.7): its number of pairs, and the least PSD for it.
#[derive(Drop)]
pub struct NextValue {
    pub pairs: usize,
    pub psd: Numbers,
}

impl Model for NextValue {
    ghost use Rattle.dutch_bracket.specs.Quality.{NextValue};

    ghost Value = { NextValue };

    ghost view = { λ n. record { pairs = n.pairs; psd = n.psd.items } };
}

impl NextValue {
    /// The one value of all candidates if C.7 does not count.
    pub fn none() -> NextValue
        ensures { result ≡ no_value }
    {
        NextValue {
            pairs: 0,
            psd: Numbers::new(),
        }
    }

    /// The same value once more.
    pub fn copied(&self) -> NextValue
        ensures { result ≡ self.now }
    {
        let mut psd = Numbers::new();
        push_all(&self.psd, &mut psd);
        NextValue {
            pairs: self.pairs,
            psd,
        }
    }
}

impl NextValue {
    ghost use Rattle.dutch_bracket.specs.NextBracket.{IsNoBetter};

    /// Yes if it is not better than what a quality says of the next bracket. A no says nothing.
    pub fn is_no_better_than(&self, quality: &Quality) -> bool
        ensures { result ≡ true → IsNoBetter self.now (next_in (quality_in quality.now)) }
    {
        if self.pairs != quality.next_pairs() {
            return self.pairs < quality.next_pairs();
        }
        !self.psd.as_slice().cmp(quality.next_psd()).is_lt()
    }
}

/// The quality of a candidate: the items in the order in which they count. The smaller goes first; of the pairs of the
/// next bracket the greater.
#[derive(Default, Drop, PartialEq, Eq, PartialOrd, Ord)]
pub struct Quality {
    pub psd: Numbers,
    next_pairs: Reverse<usize>,
    pub next_psd: Numbers,
    pub wide_differences: u16,
    pub third_colours: u16,
    pub missed_preferences: u16,
    pub missed_strong: u16,
    down_again: usize,
    up_again: usize,
    down_again_before: usize,
    up_again_before: usize,
    pub down_again_by: Numbers,
    pub up_again_by: Numbers,
    pub down_again_before_by: Numbers,
    pub up_again_before_by: Numbers,
}

impl Quality {
    /// Yes if this quality is the better one; of two equal ones neither is.
    #[tactic(auto, using(crate::proofs::InTurn::better_in_turn))]
    pub fn is_better(&self, other: &Quality) -> bool
        ensures { result ≡ is_better (quality_in self.now) (quality_in other.now) }
    {
        self.cmp(other).is_lt()
    }

    /// Fills what it says of the next bracket (C.7).
    pub fn put_next(&mut self, pairs: usize, psd: &[u16])
        requires { length psd.now ≤ LIMIT }
        ensures { quality_in self.new ≡ with_next (record { pairs = pairs; psd = psd.now }) (quality_in self.old) }
    {
        self.next_pairs = Reverse(pairs);
        self.next_psd.clear();
        push_all(psd, &mut self.next_psd);
    }

    /// Becomes the same as another one. (It is large: so no more is copied than its lists have.)
    pub fn fill(&mut self, other: &Quality)
        ensures { self.new ≡ other.now }
    {
        refill(&mut self.psd, &other.psd);
        self.next_pairs = other.next_pairs;
        refill(&mut self.next_psd, &other.next_psd);
        self.wide_differences = other.wide_differences;
        self.third_colours = other.third_colours;
        self.missed_preferences = other.missed_preferences;
        self.missed_strong = other.missed_strong;
        self.down_again = other.down_again;
        self.up_again = other.up_again;
        self.down_again_before = other.down_again_before;
        self.up_again_before = other.up_again_before;
        refill(&mut self.down_again_by, &other.down_again_by);
        refill(&mut self.up_again_by, &other.up_again_by);
        refill(&mut self.down_again_before_by, &other.down_again_before_by);
        refill(&mut self.up_again_before_by, &other.up_again_before_by);
    }

    /// Leaves out the differences of C.16 to C.19, and becomes worse by one player at C.15.
    pub fn drop_differences(&mut self) {
        self.up_again_before = self.up_again_before.saturating_add(1);
        self.down_again_by.clear();
        self.up_again_by.clear();
        self.down_again_before_by.clear();
        self.up_again_before_by.clear();
    }

    /// Becomes worse than any other one in the first item that floats decide (C.12), so that none of those counts.
    pub fn put_worst_floats(&mut self) {
        self.down_again = usize::MAX;
    }

    /// C.6: the PSD, the differences of all pairs and all downfloaters in half points, the highest first.
    pub fn psd(&self) -> &[u16]
        ensures { result.now ≡ (quality_in self.now).psd }
    {
        &self.psd
    }

    /// C.7: how many pairs the next bracket can have; 0 if C.7 does not count.
    pub fn next_pairs(&self) -> usize
        ensures { result ≡ (quality_in self.now).next_pairs }
    {
        self.next_pairs.0
    }

    /// C.7: the least PSD of the next bracket with so many pairs, in half points, the highest first.
    pub fn next_psd(&self) -> &[u16]
        ensures { result.now ≡ (quality_in self.now).next_psd }
    {
        &self.next_psd
    }

    /// C.8: how many players in pairs with a topscorer get a colour difference over +2 or under -2.
    pub fn wide_differences(&self) -> u16
        ensures { result ≡ (quality_in self.now).wide_differences }
    {
        self.wide_differences
    }

    /// C.9: how many players in pairs with a topscorer get the colour of their last two games.
    pub fn third_colours(&self) -> u16
        ensures { result ≡ (quality_in self.now).third_colours }
    {
        self.third_colours
    }

    /// C.10: how many players in pairs do not get the colour of their preference.
    pub fn missed_preferences(&self) -> u16
        ensures { result ≡ (quality_in self.now).missed_preferences }
    {
        self.missed_preferences
    }

    /// C.11: how many players in pairs do not get the colour of a strong preference.
    pub fn missed_strong(&self) -> u16
        ensures { result ≡ (quality_in self.now).missed_strong }
    {
        self.missed_strong
    }

    /// C.12: how many players who go down had a downfloat in the last round.
    pub fn down_again(&self) -> usize
        ensures { result ≡ (quality_in self.now).down_again }
    {
        self.down_again
    }

    /// C.13: how many players who go up had an upfloat in the last round.
    pub fn up_again(&self) -> usize
        ensures { result ≡ (quality_in self.now).up_again }
    {
        self.up_again
    }

    /// C.14: how many players who go down had a downfloat in the round before the last.
    pub fn down_again_before(&self) -> usize
        ensures { result ≡ (quality_in self.now).down_again_before }
    {
        self.down_again_before
    }

    /// C.15: how many players who go up had an upfloat in the round before the last.
    pub fn up_again_before(&self) -> usize
        ensures { result ≡ (quality_in self.now).up_again_before }
    {
        self.up_again_before
    }

    /// C.16: the differences of the players of C.12 in half points, the highest first.
    pub fn down_again_by(&self) -> &[u16]
        ensures { result.now ≡ (quality_in self.now).down_again_by }
    {
        &self.down_again_by
    }

    /// C.17: the differences of the players of C.13 in half points, the highest first.
    pub fn up_again_by(&self) -> &[u16]
        ensures { result.now ≡ (quality_in self.now).up_again_by }
    {
        &self.up_again_by
    }

    /// C.18: the differences of the players of C.14 in half points, the highest first.
    pub fn down_again_before_by(&self) -> &[u16]
        ensures { result.now ≡ (quality_in self.now).down_again_before_by }
    {
        &self.down_again_before_by
    }

    /// C.19: the differences of the players of C.15 in half points, the highest first.
    pub fn up_again_before_by(&self) -> &[u16]
        ensures { result.now ≡ (quality_in self.now).up_again_before_by }
    {
        &self.up_again_before_by
    }
}

/// The lists in which a quality is worked out, filled anew for each candidate and each beginning: its players by seats,
/// and its items.
#[derive(Default, Drop)]
pub struct QualityLists {
    pub seated: Seated,
    pub quality: Quality,
}

/// Fills what a quality says of those who go down or up again in a candidate by seats (C.12 to C.19).
#[tactic(auto, using(crate::proofs::Places::length_differences), unfolding(crate::specs::Quality::quality_with, crate::specs::QualityIn::with_floats))]
pub fn fill_floats(field: &Field, candidate: &Seated, quality: &mut Quality)
    ensures { quality_in quality.new ≡ with_floats field.now candidate.now (quality_in quality.old) }
{
    fill_down_again(field, candidate, 1, &mut quality.down_again_by);
    fill_up_again(field, candidate, 1, &mut quality.up_again_by);
    fill_down_again(field, candidate, 2, &mut quality.down_again_before_by);
    fill_up_again(field, candidate, 2, &mut quality.up_again_before_by);
    quality.down_again = quality.down_again_by.len();
    quality.up_again = quality.up_again_by.len();
    quality.down_again_before = quality.down_again_before_by.len();
    quality.up_again_before = quality.up_again_before_by.len();
}

/// Fills a quality with the items of a candidate by seats, except that of C.7, which stays.
#[tactic(auto, unfolding(crate::specs::Quality::quality_with, crate::specs::QualityIn::with_floats))]
pub fn fill_seated(field: &Field, candidate: &Seated, quality: &mut Quality)
    ensures { quality_in quality.new ≡ quality_with field.now candidate.now (next_in (quality_in quality.old)) }
{
    fill_psd(field, candidate, &mut quality.psd);
    quality.wide_differences = count_with_topscorers(field, Miss::Wide, &candidate.pairs);
    quality.third_colours = count_with_topscorers(field, Miss::Third, &candidate.pairs);
    quality.missed_preferences = count_in_pairs(field, Miss::Preference, &candidate.pairs);
    quality.missed_strong = count_in_pairs(field, Miss::StrongPreference, &candidate.pairs);
    fill_floats(field, candidate, quality);
}

/// Fills the quality of a candidate of a bracket with these seats, for the value of the next bracket that it has.
pub fn fill_quality(field: &Field, seats: &[u16], candidate: &Candidate, room: &mut QualityLists)
    requires { IsCandidate candidate.now }
    ensures { quality_in room.new.quality
        ≡ quality_with field.now (by_seats field.now seats.now candidate.now) (next_in (quality_in room.old.quality)) }
{
    room.seated.fill(field, seats, candidate);
    fill_seated(field, &room.seated, &mut room.quality);
}

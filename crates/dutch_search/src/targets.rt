// What a pass by weight has as its target (C.04.3 B.8): the quality of a cheapest matching of the bracket.
//
// Whoever finds a matching is not trusted, and nothing is promised of a target: a pass that finds no candidate near it
// is made again without one.
use crate::both::BothFloors;
use crate::last_beginning::WalkNotes;
use dutch_arrangements::{LIMIT, Numbers};
use dutch_bracket::context::Context;
use dutch_bracket::differences::put;
use dutch_bracket::quality::{NextValue, QualityLists, fill_seated};
use dutch_bracket::seated::{Pair, Seated, difference_down};
use dutch_passes::Workroom;
use dutch_weight_floors::asking::Matched;
use dutch_weight_floors::unpaired_graph::is_in;

/// Adds the pairs of a matching to those of a candidate, as far as there is room.
fn put_matched(context: &Context<'_>, pairs: &[Pair], seated: &mut Seated) {
    let reached = context.reached();
    for pair in pairs {
        let has_room = seated.pairs.len() + seated.down.len() < LIMIT;
        if has_room && reached.has(pair.0) && reached.has(pair.1) {
            seated
                .pairs
                .push((reached.seat(pair.0), reached.seat(pair.1)));
        }
    }
}

/// Adds those who are in no pair of a matching to the downfloaters of a candidate, as far as there is room.
fn put_unmatched(context: &Context<'_>, pairs: &[Pair], seated: &mut Seated) {
    let reached = context.reached();
    for above in 0..context.len() {
        let number = above as u16 + 1;
        let has_room = seated.pairs.len() + seated.down.len() < LIMIT;
        if has_room && !is_in(pairs, number) {
            seated.down.push(reached.seat(number));
        }
    }
}

/// Fills in a matching by number: its pairs, and those whom it leaves over.
fn seat_matching(context: &Context<'_>, pairs: &[Pair], seated: &mut Seated) {
    seated.pairs.clear();
    seated.down.clear();
    seated.lowest = context.lowest();
    put_matched(context, pairs, seated);
    put_unmatched(context, pairs, seated);
}

/// The score of a number of the bracket or of the next lower scoregroup, in half points; 0 if it is none.
fn score_in(context: &Context<'_>, number: u16) -> u16 {
    if 0 < number && usize::from(number) <= context.len_below() {
        context.field().score(context.seat_below(number))
    } else {
        0
    }
}

/// Puts the differences of the pairs of the next bracket in a matching to their places, as far as there is room.
fn put_below(context: &Context<'_>, matched: &Matched, psd: &mut Numbers) {
    for pair in &matched.next {
        let (first, second) = (score_in(context, pair.0), score_in(context, pair.1));
        if psd.len() < LIMIT {
            put(psd, first.abs_diff(second));
        }
    }
}

/// Puts the differences of those who are in no pair, neither in the bracket nor in the next one, to their places, as
/// far as there is room.
fn put_alone(context: &Context<'_>, matched: &Matched, psd: &mut Numbers) {
    let (field, least) = (context.field(), context.score_below());
    for above in 0..context.len_below() {
        let number = above as u16 + 1;
        let is_met = is_in(&matched.pairs, number) || is_in(&matched.next, number);
        if psd.len() < LIMIT && !is_met {
            put(
                psd,
                difference_down(field, least, context.seat_below(number)),
            );
        }
    }
}

/// The value of the next bracket in a matching (C.7).
fn value_below(context: &Context<'_>, matched: &Matched) -> NextValue {
    let mut psd = Numbers::new();
    put_below(context, matched, &mut psd);
    put_alone(context, matched, &mut psd);
    NextValue {
        pairs: matched.next.len(),
        psd,
    }
}

impl<'a> BothFloors<'a> {
    /// The value of the next bracket in a matching, if the weights tell of it; else the best that it can be.
    fn next_by(&self, context: &Context<'_>, matched: &Matched) -> NextValue {
        match &*self.weights {
            Some(weights) if weights.counts_next() => value_below(context, matched),
            _ => self.counts.best_next_for_first().copied(),
        }
    }

    /// Fills the quality of a matching of a bracket by number. If the scale does not have all of its differences, those
    /// of C.16 to C.19 are left out, and it is made a little worse.
    fn fill_matched(&self, matched: &Matched, room: &mut QualityLists) {
        let context = self.shaped.context;
        seat_matching(context, &matched.pairs, &mut room.seated);
        fill_seated(context.field(), &room.seated, &mut room.quality);
        let next = self.next_by(context, matched);
        room.quality.put_next(next.pairs, &next.psd);
        match &*self.weights {
            Some(weights) if weights.measures(&room.quality) => {}
            _ => room.quality.drop_differences(),
        }
    }

    /// Fills what a pass has as its target: the quality of a matching, if one was found that has as many pairs as the
    /// shape; else what floors by counts tell. A no says that there is none.
    #[inline(never)]
    pub(crate) fn fill_target(
        &self,
        found: &Option<Matched>,
        work: &mut Workroom<WalkNotes>,
    ) -> bool {
        match found {
            Some(matched) if matched.pairs.len() == self.shaped.shape.pairs => {
                self.fill_matched(matched, &mut work.room);
                true
            }
            _ => self
                .counts
                .fill_target(&mut work.notes.floors, &mut work.room),
        }
    }
}

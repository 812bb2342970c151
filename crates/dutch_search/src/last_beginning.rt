// What a walk of a pass notes from one question to the next.
use arrayvec::ArrayVec;
use dutch_arrangements::{LIMIT, Prefix};
use dutch_bracket::seated::Pair;
use dutch_floors::notes::FloorNotes;
use dutch_weight_floors::scope::Scope;

/// The beginning that a walk asked about last.
#[derive(Default, Drop)]
pub(crate) struct LastBeginning {
    /// The arrangements with its S1 and its S1R.
    pub(crate) scope: Scope,
    /// Its pairs by number.
    pub(crate) pairs: ArrayVec<Pair, LIMIT>,
}

/// Adds the pairs of two lists of numbers, place by place. (There is room for all pairs of a bracket.)
fn put_pairs(firsts: &[u16], seconds: &[u16], pairs: &mut ArrayVec<Pair, LIMIT>) {
    for place in 0..firsts.len().min(seconds.len()) {
        if pairs.len() < LIMIT {
            pairs.push((firsts[place], seconds[place]));
        }
    }
}

impl LastBeginning {
    /// Notes a beginning in place of the one before.
    pub(crate) fn note(&mut self, prefix: &Prefix<'_>) {
        self.scope.note(prefix);
        self.pairs.clear();
        put_pairs(prefix.s1(), prefix.s2(), &mut self.pairs);
        put_pairs(prefix.s1r(), prefix.s2r(), &mut self.pairs);
    }
}

/// The beginning that a walk asked about last, and what floors by counts noted of the questions before.
#[derive(Default, Drop)]
pub(crate) struct WalkNotes {
    pub(crate) last: LastBeginning,
    pub(crate) floors: FloorNotes,
}

impl WalkNotes {
    /// Notes nothing of a walk, as at its beginning. (What is known of floors is cleared where a listing begins.)
    pub(crate) fn clear(&mut self) {
        self.last.note(&Prefix::nothing());
    }
}

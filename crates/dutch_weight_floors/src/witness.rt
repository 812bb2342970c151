// The witness: the matching that was found last, and that no candidate is known to be better than. A walk needs no
// question where it goes along with it.
ghost use Rattle.std.specs.Prelude.{◌≤◌};
ghost use Rattle.dutch_sequence.specs.declared.numbers.TheConstants.{LIMIT};

use crate::asking::FloorRequest;
use crate::scope::Scope;
use dutch_bracket::seated::Pair;
use std::alloc::{AllocError, Global};

/// The partner of each number of a bracket in a matching, and a scope of which it is known to be an arrangement.
#[derive(Drop)]
pub(crate) struct Witness {
    // by number, and empty if there is no witness
    partners: Vec<Option<u16>>,
    scope: Scope,
}

impl Witness {
    /// None so far.
    pub(crate) fn none(alloc: Global) -> Witness {
        Witness {
            partners: Vec::new(alloc),
            scope: Scope::all(),
        }
    }

    /// A matching of so many numbers that was found behind some pairs, in the arrangements of a scope.
    pub(crate) fn of(
        alloc: Global,
        count: usize,
        request: &FloorRequest<'_>,
        found: &[Pair],
    ) -> Result<Witness, AllocError>
        requires { count ≤ LIMIT }
    {
        let mut witness = Witness {
            partners: vec![in alloc; None; count + 1]?,
            scope: request.scope.copied(),
        };
        witness.put(request.pairs);
        witness.put(found);
        Ok(witness)
    }

    /// Notes who is the partner of a number.
    fn put_partner(&mut self, number: u16, partner: u16) {
        let place = usize::from(number);
        if place < self.partners.len() {
            self.partners[place] = Some(partner);
        }
    }

    fn put(&mut self, pairs: &[Pair]) {
        for pair in pairs {
            self.put_partner(pair.0, pair.1);
            self.put_partner(pair.1, pair.0);
        }
    }

    fn partner(&self, number: u16) -> Option<u16> {
        match self.partners.get(usize::from(number)) {
            Some(partner) => *partner,
            None => None,
        }
    }

    /// Yes if the number of a place stands in a scope as the matching has it.
    fn fits_at(&self, mdps: usize, scope: &Scope, place: usize) -> bool {
        let Ok(number) = u16::try_from(place) else {
            return false;
        };
        let standing = scope.standing(mdps, number);
        match self.partner(number) {
            Some(other) => standing.is_joined(scope.standing(mdps, other)),
            None => standing.may_stay(),
        }
    }

    /// Yes if the matching is one of the arrangements of a scope.
    fn fits(&self, mdps: usize, scope: &Scope) -> bool {
        for place in 1..self.partners.len() {
            if !self.fits_at(mdps, scope, place) {
                return false;
            }
        }
        true
    }

    /// Yes if it has all of some pairs.
    fn has_pairs(&self, pairs: &[Pair]) -> bool {
        pairs
            .iter()
            .all(|pair| self.partner(pair.0) == Some(pair.1))
    }

    /// Yes if there is a witness, it has all pairs of a beginning, and it is one of the arrangements of its scope.
    pub(crate) fn has(&mut self, mdps: usize, beginning: &FloorRequest<'_>) -> bool {
        if self.partners.is_empty() || !self.has_pairs(beginning.pairs) {
            return false;
        }
        if self.scope.is(beginning.scope) {
            return true;
        }
        let fits = self.fits(mdps, beginning.scope);
        if fits {
            self.scope = beginning.scope.copied();
        }
        fits
    }
}

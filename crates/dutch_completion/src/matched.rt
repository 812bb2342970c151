// A matching tells if seats can be paired out (C.04.3 A.9): by its pairs, or by the groups between which its blockers
// stand.
//
// Whoever finds the matching is not trusted: what it tells is taken only if the check of its pairs, or of its groups,
// confirms it.
ghost use Rattle.std.specs.Prelude.{◌≡◌, ◌≤◌, length, IfOk, IfSome};
ghost use Rattle.dutch_sequence.specs.declared.numbers.TheConstants.{LIMIT};
ghost use Rattle.dutch_arrangements.specs.Prelude.{MatchFound, Spends};
ghost use Rattle.dutch_bracket.specs.Brackets.{completable};

use crate::meetings::Meetings;
use crate::seats::seats;
use dual::{tells_completable, tells_incompletable};
use dutch_arrangements::{Budget, LIMIT, Stopped};
use dutch_bracket::seated::Pair;
use dutch_player::Field;
use matching::{Fault, Found, greatest};
use std::alloc::{AllocError, Global};

/// Pairs of seats, and the seat that has the bye, if one has.
#[derive(Drop)]
struct Pairing {
    pairs: Vec<Pair>,
    bye: Option<u16>,
}

impl Pairing {
    /// Takes in what a matching says of the seat at a place: each pair once, by the one of the two who stands first.
    fn put(&mut self, players: &[u16], place: usize, partner: usize) -> Result<(), AllocError> {
        match (players.get(place), players.get(partner)) {
            (Some(seat), Some(other)) if place < partner => self.pairs.push((*seat, *other))?,
            (Some(seat), None) => self.bye = Some(*seat),
            _ => {}
        }
        Ok(())
    }
}

/// The pairs of a matching of the seats of a list, and the seat that is matched with the bye.
fn made_pairs(
    alloc: Global,
    players: &[u16],
    partners: &[Option<u16>],
) -> Result<Pairing, AllocError> {
    let mut made = Pairing {
        pairs: Vec::new(alloc),
        bye: None,
    };
    for (place, partner) in partners.iter().enumerate() {
        if let Some(partner) = partner {
            made.put(players, place, usize::from(*partner))?;
        }
    }
    Ok(made)
}

/// The labels of the seats of a list, by seat. Who is not in the list has label 0.
pub fn by_seat(
    alloc: Global,
    field: &Field,
    players: &[u16],
    labels: &[u16],
) -> Result<Vec<u16>, AllocError> {
    let mut all = vec![in alloc; 0; field.len()]?;
    for (seat, label) in players.iter().zip(labels.iter()) {
        let seat = usize::from(*seat);
        if seat < all.len() {
            all[seat] = *label;
        }
    }
    Ok(all)
}

/// What a matching and its labels tell of seats. None says that neither was confirmed.
#[tactic(auto, using(crate::proofs::Completions::told_yes, crate::proofs::Completions::told_no))]
fn confirmed_answer(
    alloc: Global,
    field: &Field,
    players: &[u16],
    found: &Found,
) -> Result<Option<bool>, AllocError>
    ensures { IfOk result (λ decided. IfSome decided (λ yes. yes ≡ completable field.now players.now)) }
{
    let rule = seats(field);
    let made = made_pairs(alloc, players, &found.partners)?;
    if tells_completable(&made.pairs, made.bye, &rule, players) {
        return Ok(Some(true));
    }
    let labels = by_seat(alloc, field, players, &found.labels)?;
    if tells_incompletable(&labels, found.most, &rule, players) {
        return Ok(Some(false));
    }
    Ok(None)
}

/// Looks for a greatest matching. None says that it was not confirmed, or that memory was refused.
pub(crate) fn decided_by_matching(
    alloc: Global,
    field: &Field,
    players: &[u16],
    budget: &mut Budget,
) -> Result<Option<bool>, Stopped>
    requires few { length players.now ≤ LIMIT }
    ensures answer { MatchFound result (λ yes. yes ≡ completable field.now players.now) (Unit {0})
        (budget.new.used ≡ budget.new.limit) }
    ensures spends { Spends budget.old budget.new }
{
    let mut left = budget.limit - budget.used;
    let found = greatest(alloc, &Meetings::new(field, players), &mut left);
    budget.used = budget.limit - left;
    match found {
        Ok(found) => Ok(confirmed_answer(alloc, field, players, &found).unwrap_or(None)),
        Err(Fault::Stopped) => Err(Stopped),
        Err(Fault::OutOfMemory) => Ok(None),
    }
}

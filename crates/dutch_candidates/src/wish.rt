// A wish for a candidate of a bracket (C.04.3 B.3): that two of its players meet, or that one of them is left over.
//
// For a choice it is one more condition. It also narrows who may be paired: of a candidate that grants it each pair and
// each player who is left over fits the wish. So what holds for all that fits holds for each candidate that grants it.
ghost use Rattle.std.specs.Prelude.{◌≡◌};
ghost use Rattle.std.specs.List.{list_any, zip};
ghost use Rattle.dutch_arrangements.specs.Prelude.{paired, is_member, pairs_by_number};
ghost use Rattle.dutch_candidates.specs.Wishes.{are_these, fits_as_left, fits_as_pair, grants, has_player, is_wished};
ghost use Rattle.dutch_candidates.specs.Wishes.{parts};

use crate::fixed_lists::FixedLists;
use dutch_arrangements::Candidate;

/// What is wished of a candidate. Players are named by their numbers in the bracket.
#[derive(Clone, Copy)]
pub enum Wish {
    /// These two meet, in whatever order they are named.
    Pair(u16, u16),
    /// This one is in no pair.
    LeftOver(u16),
}

/// The lists of a candidate.
fn lists_of(candidate: &Candidate) -> FixedLists<'_>
    ensures { result ≡ candidate.now.lists }
{
    FixedLists {
        s1: candidate.s1(),
        s2: candidate.s2(),
        s1r: candidate.s1r(),
        s2r: candidate.s2r(),
    }
}

/// The pair may have the two in either order.
fn are_these(p: u16, q: u16, pair: (u16, u16)) -> bool
    ensures { result ≡ are_these p q pair }
{
    pair == (p, q) || pair == (q, p)
}

fn has_player(p: u16, pair: (u16, u16)) -> bool
    ensures { result ≡ has_player p pair }
{
    pair.0 == p || pair.1 == p
}

/// Yes if the pair has one of the two players, with another one.
fn parts(p: u16, q: u16, pair: (u16, u16)) -> bool
    ensures { result ≡ parts p q pair }
{
    !are_these(p, q, pair) && (has_player(p, pair) || has_player(q, pair))
}

fn meet_in(p: u16, q: u16, firsts: &[u16], seconds: &[u16]) -> bool
    ensures { result ≡ list_any (are_these p q) (zip firsts.now seconds.now) }
{
    firsts
        .iter()
        .zip(seconds.iter())
        .any(|(first, second)| are_these(p, q, (*first, *second)))
}

#[tactic(auto, using(crate::proofs::WishLemmas::pairs_found))]
fn meet(p: u16, q: u16, lists: &FixedLists<'_>) -> bool
    ensures { result ≡ list_any (are_these p q) (pairs_by_number lists.now) }
{
    meet_in(p, q, lists.s1, lists.s2) || meet_in(p, q, lists.s1r, lists.s2r)
}

#[tactic(auto, using(crate::proofs::WishLemmas::player_found))]
fn is_paired(p: u16, lists: &FixedLists<'_>) -> bool
    ensures { result ≡ is_member p (paired lists.now) }
{
    lists.s1.contains(&p)
        || lists.s2.contains(&p)
        || lists.s1r.contains(&p)
        || lists.s2r.contains(&p)
}

impl Wish {
    /// Yes if the candidate has the pair that is wished, or leaves over the player of whom that is wished (B.3).
    pub fn is_granted(self, candidate: &Candidate) -> bool
        ensures { result ≡ grants self candidate.now.lists }
    {
        let lists = lists_of(candidate);
        match self {
            Wish::Pair(p, q) => meet(p, q, &lists),
            Wish::LeftOver(p) => !is_paired(p, &lists),
        }
    }
}

/// Yes if the candidate grants the wish; if nothing is wished, every candidate will do.
pub fn is_wished(wish: Option<Wish>, candidate: &Candidate) -> bool
    ensures { result ≡ is_wished wish candidate.now.lists }
{
    match wish {
        Some(wish) => wish.is_granted(candidate),
        None => true,
    }
}

/// Yes if the two may be a pair of a candidate that grants what is wished.
pub fn fits_as_pair(wish: Option<Wish>, a: u16, b: u16) -> bool
    ensures { result ≡ fits_as_pair wish a b }
{
    match wish {
        None => true,
        Some(Wish::Pair(p, q)) => !parts(p, q, (a, b)),
        Some(Wish::LeftOver(p)) => !has_player(p, (a, b)),
    }
}

/// Yes if a candidate that grants what is wished may leave the player over.
pub fn fits_as_left(wish: Option<Wish>, a: u16) -> bool
    ensures { result ≡ fits_as_left wish a }
{
    match wish {
        Some(Wish::Pair(p, q)) => a != p && a != q,
        None | Some(Wish::LeftOver(_)) => true,
    }
}

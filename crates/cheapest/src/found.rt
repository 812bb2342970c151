// What a search begins with, and what is handed out.
ghost use Rattle.std.specs.Prelude.{◌≡◌, ◌≤◌, IfOk, IfErr, vec_len};
ghost use Rattle.matching.specs.Matchings.{IsMatching};
ghost use Rattle.cheapest.specs.Certificates.{HasPlaces};

use crate::fault::Fault;
use crate::forest::Forest;
use crate::graph::Costs;
use crate::pairs::partners;
use dual::{CertificateTable, Wide};
use std::alloc::Global;

/// Where a search begins: with the labels and the pairs of one before, of a graph that has changed since. If the labels
/// of two vertices are less than what they gain now, what is found need not be cheapest, and its certificate is none.
/// That cannot be if only pairs have gone, or cost more. Lists that are too short say nothing of the vertices behind.
#[derive(Drop)]
pub struct Start {
    /// The label of each vertex, if it has one from a search before. Who has none gets the lowest that it can have.
    pub labels: Vec<Option<Wide>>,
    /// The partner of each vertex, if it had one. Pairs that are still joined, and whose labels have just what they gain,
    /// stay.
    pub partners: Vec<Option<u16>>,
    /// What is enough: once the labels show that each matching costs more (costs count twice), the search ends.
    pub enough: Option<Wide>,
}

/// A matching, and a certificate that is meant to show that none is cheaper.
#[derive(Drop)]
pub struct Found {
    /// The partner of each vertex, if it has one.
    pub partners: Vec<Option<u16>>,
    /// A potential for each vertex, what a pair and a vertex left over are given on top of their cost, and priced sets:
    /// all of costs that count twice.
    pub certificate: CertificateTable,
    /// The label of each vertex, with which another search can begin: what it costs to leave it over, and what is given
    /// on top of that, less its potential; and half of the price, rounded up, of each priced set that it is in.
    pub labels: Vec<Wide>,
}

impl<C: Costs> Forest<'_, C> {
    // Searches, from a start or anew. The forest is only lent, so that no way out has all its lists to drop.
    fn search(&mut self, alloc: Global, start: Option<&Start>, left: &mut u64) -> Result<(), Fault>
        ensures falls { left.new ≤ left.old }
        ensures stopped { IfErr result (λ fault. fault ≡ Fault.Stopped → left.new ≡ 0) }
    {
        self.make_places()?;
        self.gains.weigh(left)?;
        match start {
            Some(start) => {
                self.begin_from(start, left)?;
                self.settle_all(left)
            }
            None => {
                self.begin(alloc, left)?;
                self.settle_all(left)?;
                self.pair_anew(left)
            }
        }
    }

    // Hands out what stands when the searches are at their end.
    fn hand_out(&mut self, alloc: Global, costs: &C) -> Result<Found, Fault>
        ensures matching { IfOk result
            (λ found. IsMatching (C.vertices costs.now) (C.joined costs.now) found.partners.items) }
        ensures places { IfOk result (λ found. HasPlaces (C.vertices costs.now) found.certificate) }
        ensures labels { IfOk result (λ found. vec_len found.labels ≡ C.vertices costs.now) }
        ensures going { IfErr result (λ fault. fault ≡ Fault.Stopped → ⊥) }
    {
        let certificate = self.certificate(alloc, costs.size())?;
        let labels = self.labels(alloc, costs.size())?;
        self.unfold_all();
        let partners = partners(alloc, costs, self)?;
        Ok(Found {
            partners,
            certificate,
            labels,
        })
    }
}

/// So many looks from a vertex at another one count as one step: a look takes far less time than a step of a walk.
pub const LOOKS_IN_A_STEP: u64 = 2;

// Finds a matching from a start, or anew.
fn find<C: Costs>(
    alloc: Global,
    costs: &C,
    start: Option<&Start>,
    left: &mut u64,
) -> Result<Found, Fault>
    ensures matching { IfOk result
        (λ found. IsMatching (C.vertices costs.now) (C.joined costs.now) found.partners.items) }
    ensures places { IfOk result (λ found. HasPlaces (C.vertices costs.now) found.certificate) }
    ensures labels { IfOk result (λ found. vec_len found.labels ≡ C.vertices costs.now) }
    ensures falls { left.new ≤ left.old }
    ensures stopped { result ≡ Err Fault.Stopped → left.new ≡ 0 }
{
    let nodes = costs.size().checked_mul(2).ok_or(Fault::TooGreat)?;
    let mut forest = Forest::new(alloc, costs, nodes);
    let mut looks = left.saturating_mul(LOOKS_IN_A_STEP);
    let searched = forest.search(alloc, start, &mut looks);
    *left = (looks / LOOKS_IN_A_STEP).min(*left);
    match searched {
        Ok(()) => forest.hand_out(alloc, costs),
        Err(fault) => Err(fault),
    }
}

/// Finds a matching of a graph with costs, with a certificate. Each `LOOKS_IN_A_STEP` looks from a vertex at another
/// one take one of the steps left; where none is left, the search is stopped.
pub fn cheapest<C: Costs>(alloc: Global, costs: &C, left: &mut u64) -> Result<Found, Fault>
    ensures matching { IfOk result
        (λ found. IsMatching (C.vertices costs.now) (C.joined costs.now) found.partners.items) }
    ensures places { IfOk result (λ found. HasPlaces (C.vertices costs.now) found.certificate) }
    ensures labels { IfOk result (λ found. vec_len found.labels ≡ C.vertices costs.now) }
    ensures falls { left.new ≤ left.old }
    ensures stopped { result ≡ Err Fault.Stopped → left.new ≡ 0 }
{
    find(alloc, costs, None, left)
}

/// Finds a matching as `cheapest` does, beginning with what another search has found: few searches are left where few
/// pairs have changed. It ends early once the labels show that each matching costs more than what is enough. What it
/// then hands out is a matching of few pairs perhaps, with the certificate that shows so much.
pub fn cheapest_from<C: Costs>(
    alloc: Global,
    costs: &C,
    start: &Start,
    left: &mut u64,
) -> Result<Found, Fault>
    ensures matching { IfOk result
        (λ found. IsMatching (C.vertices costs.now) (C.joined costs.now) found.partners.items) }
    ensures places { IfOk result (λ found. HasPlaces (C.vertices costs.now) found.certificate) }
    ensures labels { IfOk result (λ found. vec_len found.labels ≡ C.vertices costs.now) }
    ensures falls { left.new ≤ left.old }
    ensures stopped { result ≡ Err Fault.Stopped → left.new ≡ 0 }
{
    find(alloc, costs, Some(start), left)
}

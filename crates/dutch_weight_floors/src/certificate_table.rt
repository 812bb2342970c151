// Tables for the check, made of the certificate that comes with a cheapest matching (C.04.3 C.6 to C.19).
//
// The certificate is of the players who are in none of some known pairs. In the table stand all players over whom
// matchings can go. Whoever is in a known pair has a potential of 0 there; all others have more than in the
// certificate, and each pair is given more. So nothing is demanded of pairs of a player in a known pair with others,
// and a known pair adds all that it costs. Nobody relies on a table that was not checked.
ghost use Rattle.std.specs.Prelude.{◌<◌};

use crate::unpaired_graph::UnpairedGraph;
use dual::{CertificateTable, MarkedSet, Wide};
use std::alloc::{AllocError, Global};

/// The greatest of some potentials.
fn greatest(potentials: &[Wide]) -> Wide {
    let mut most = Wide::zero();
    for potential in potentials {
        if most.is_less(*potential) {
            most = *potential;
        }
    }
    most
}

/// What each vertex has more in the table than in the certificate: so much that what is given there is the same for all
/// certificates of a bracket, as far as it can be.
fn more_for(graph: &UnpairedGraph<'_, '_>, certificate: &CertificateTable) -> Wide {
    match graph.never().times(4) {
        Some(all) => match all.minus(certificate.given_left) {
            Some(more) => more,
            None => greatest(&certificate.potentials),
        },
        None => greatest(&certificate.potentials),
    }
}

/// A mark for each number up to the last one, by those of the vertices.
fn marks(
    alloc: Global,
    numbers: &[u16],
    last: usize,
    set: &MarkedSet,
) -> Result<Vec<bool>, AllocError>
    requires { last < 65536 }
{
    let mut all = vec![in alloc; false; last + 1]?;
    for (number, mark) in numbers.iter().zip(set.marks.iter()) {
        let number = usize::from(*number);
        if number < all.len() {
            all[number] = *mark;
        }
    }
    Ok(all)
}

/// The priced sets, with a mark for each number up to the last one.
fn sets(
    alloc: Global,
    numbers: &[u16],
    last: usize,
    sets: &[MarkedSet],
) -> Result<Vec<MarkedSet>, AllocError>
    requires { last < 65536 }
{
    let mut all = Vec::new(alloc);
    for set in sets {
        let marks = marks(alloc, numbers, last, set)?;
        let price = set.price;
        all.push(MarkedSet { marks, price })?;
    }
    Ok(all)
}

/// A potential for each number up to the last one: that of the vertex with the greatest potential on top, and 0 for
/// whoever is no vertex.
fn potentials(
    alloc: Global,
    graph: &UnpairedGraph<'_, '_>,
    last: usize,
    certificate: &CertificateTable,
) -> Result<Vec<Wide>, AllocError>
    requires { last < 65536 }
{
    let more = more_for(graph, certificate);
    let mut all = vec![in alloc; Wide::zero(); last + 1]?;
    for (number, potential) in graph.numbers().iter().zip(certificate.potentials.iter()) {
        let number = usize::from(*number);
        if number < all.len() {
            all[number] = potential.plus(more).unwrap_or(*potential);
        }
    }
    Ok(all)
}

/// What a pair is given, where each vertex has so much more; none if it does not fit.
fn given_to_pair(certificate: &CertificateTable, more: Wide) -> Option<Wide> {
    certificate.given.plus(more)?.plus(more)
}

/// What one who is left over is given, where each vertex has so much more, with twice what it costs to be left over on
/// top of half of the weight; none if it does not fit.
fn given_left(certificate: &CertificateTable, more: Wide, alone: Wide) -> Option<Wide> {
    certificate.given_left.plus(more)?.plus(alone)?.plus(alone)
}

/// The table of all players, up to the last number, by the certificate of some of them; none if a sum does not fit.
pub(crate) fn table_of(
    alloc: Global,
    graph: &UnpairedGraph<'_, '_>,
    last: usize,
    certificate: &CertificateTable,
) -> Result<Option<CertificateTable>, AllocError>
    requires { last < 65536 }
{
    let more = more_for(graph, certificate);
    let Some(given) = given_to_pair(certificate, more) else {
        return Ok(None);
    };
    let Some(given_left) = given_left(certificate, more, graph.left_over_cost()) else {
        return Ok(None);
    };
    Ok(Some(CertificateTable {
        potentials: potentials(alloc, graph, last, certificate)?,
        given,
        given_left,
        sets: sets(alloc, graph.numbers(), last, &certificate.sets)?,
    }))
}

// What a matching leaves for the next one: of each number its label and its partner.
//
// A walk asks one question after another, each for nearly the same players. So a matching begins with the labels and
// the pairs of the one before. Labels are high enough as long as no other pairs become possible. Who stands so now that
// others may be met, or was not asked about, begins anew. Nobody relies on any of it.
ghost use Rattle.std.specs.Prelude.{◌<◌};

use crate::scope::Standing;
use crate::unpaired_graph::UnpairedGraph;
use cheapest::{Costs, Found, Start};
use dual::Wide;
use std::alloc::{AllocError, Global};

/// What a matching left of a number: where it stood, twice what it cost to leave it over, its label, and the number of
/// its partner.
#[derive(Clone, Copy)]
struct Trace {
    standing: Standing,
    left: Wide,
    label: Wide,
    partner: Option<u16>,
}

/// What the last matching left, by number.
#[derive(Drop)]
pub(crate) struct Traces {
    by_number: Vec<Option<Trace>>,
}

/// Twice what it costs to leave a vertex over; 0 if that does not fit.
fn left_of(graph: &UnpairedGraph<'_, '_>, v: u16) -> Wide {
    if v >= graph.size() {
        return Wide::zero();
    }
    match graph.left_cost(v) {
        Some(cost) => cost.doubled().unwrap_or(Wide::zero()),
        None => Wide::zero(),
    }
}

impl Trace {
    /// The label where it costs so much to be left over: as much more or less as that does, and 0 at least.
    fn label_beside(&self, left: Wide) -> Option<Wide> {
        let sum = self.label.plus(left)?;
        Some(sum.minus(self.left).unwrap_or(Wide::zero()))
    }
}

impl Traces {
    /// None so far.
    pub(crate) fn none(alloc: Global) -> Traces {
        Traces {
            by_number: Vec::new(alloc),
        }
    }

    fn of(&self, number: u16) -> Option<Trace> {
        match self.by_number.get(usize::from(number)) {
            Some(trace) => *trace,
            None => None,
        }
    }

    /// The label with which a vertex begins.
    fn label(&self, graph: &UnpairedGraph<'_, '_>, v: u16) -> Option<Wide> {
        let number = graph.numbers().get(usize::from(v))?;
        let trace = self.of(*number)?;
        if graph.standing(*number).is_within(trace.standing) {
            graph.without_share(trace.label_beside(left_of(graph, v))?, *number)
        } else {
            None
        }
    }

    fn labels(
        &self,
        alloc: Global,
        graph: &UnpairedGraph<'_, '_>,
    ) -> Result<Vec<Option<Wide>>, AllocError> {
        let mut labels = Vec::with_capacity(alloc, graph.numbers().len())?;
        for v in 0..graph.size() {
            labels.push(self.label(graph, v))?;
        }
        Ok(labels)
    }

    /// The vertex with which a number was paired, if it is one of the graph.
    fn partner(&self, graph: &UnpairedGraph<'_, '_>, number: u16) -> Option<u16> {
        let partner = self.of(number)?.partner?;
        let place = graph.numbers().iter().position(|n| *n == partner)?;
        u16::try_from(place).ok()
    }

    fn partners(
        &self,
        alloc: Global,
        graph: &UnpairedGraph<'_, '_>,
    ) -> Result<Vec<Option<u16>>, AllocError> {
        let mut partners = Vec::with_capacity(alloc, graph.numbers().len())?;
        for number in graph.numbers() {
            partners.push(self.partner(graph, *number))?;
        }
        Ok(partners)
    }

    /// Where the next matching begins, and what is enough for it; none if there was no matching before.
    pub(crate) fn start(
        &self,
        alloc: Global,
        graph: &UnpairedGraph<'_, '_>,
        enough: Option<Wide>,
    ) -> Result<Option<Start>, AllocError> {
        if self.by_number.is_empty() {
            return Ok(None);
        }
        Ok(Some(Start {
            labels: self.labels(alloc, graph)?,
            partners: self.partners(alloc, graph)?,
            enough,
        }))
    }

    /// What a matching leaves of a vertex.
    fn put(&mut self, graph: &UnpairedGraph<'_, '_>, v: u16, found: &Found) {
        let (place, numbers) = (usize::from(v), graph.numbers());
        let partner = match found.partners.get(place) {
            Some(Some(other)) => numbers.get(usize::from(*other)).copied(),
            _ => None,
        };
        if let Some(number) = numbers.get(place)
            && let Some(label) = found.labels.get(place)
            && usize::from(*number) < self.by_number.len()
        {
            self.by_number[usize::from(*number)] = Some(Trace {
                standing: graph.standing(*number),
                left: left_of(graph, v),
                label: *label,
                partner,
            });
        }
    }

    /// What a matching leaves, of all numbers up to a last one.
    pub(crate) fn left_by(
        alloc: Global,
        graph: &UnpairedGraph<'_, '_>,
        last: usize,
        found: &Found,
    ) -> Result<Traces, AllocError>
        requires { last < 65536 }
    {
        let mut traces = Traces {
            by_number: vec![in alloc; None; last + 1]?,
        };
        for v in 0..graph.size() {
            traces.put(graph, v, found);
        }
        Ok(traces)
    }
}

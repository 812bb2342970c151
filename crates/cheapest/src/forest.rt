// Labels, who is paired so far, the blossoms, and the tree of the search that goes on.
//
// Nodes are the vertices, and behind them the blossoms: circles of an odd number of nodes, each with its base, the one
// vertex in it that has no partner in it. A node that is in no blossom is outermost. Of a blossom only its base is kept
// right: who is paired with whom inside it follows from its base, and is worked out when it is unfolded. When you
// change it, keep this: the label of a vertex counts for all its pairs, that of a blossom for the pairs inside it; no
// pair's gain is above the labels that count for it, and pairs of the matching have just as much.
//
// A vertex has a label that is never below 0: what it costs to leave it over, less its potential. A pair gains at most
// its two labels and those of the blossoms that hold both, and just as much if it is in the matching. A search ends
// with a partner for its root, or with a vertex of label 0 that is left over in its place. So in the end whoever is
// left over has a label of 0, and the certificate is worth what the matching costs.
//
// The labels may come from another search. They need not be all even or all odd: gains are even, so the labels of two
// vertices of one tree are both even or both odd, and halves of what two outer ones have beyond the gain are whole.
//
// All labels together are a bound: no matching costs less than to leave all vertices over, less the labels. Blossoms
// count for as many pairs as they can hold. While a search goes on, the bound rises by as much as its root's label comes
// down, since the tree has one outer node more than inner ones. A matching that costs as much as the bound is cheapest.
use crate::gains::Gains;
use crate::graph::Costs;
use crate::places::Places;
use dual::Wide;
use std::alloc::{AllocError, Global};

/// What the search that goes on knows of an outermost node.
#[derive(Clone, Copy, PartialEq, Eq)]
pub(crate) enum Mark {
    /// Not reached.
    Free,
    /// Reached by ways of even length: its base could be left over.
    Outer,
    /// Reached by ways of odd length alone.
    Inner,
}

/// The state of all searches, node by node.
#[derive(Drop)]
pub(crate) struct Forest<'c, C: Costs> {
    pub(crate) size: u16,
    pub(crate) nodes: u16,
    /// Behind the last node that was in use.
    pub(crate) end: u16,
    pub(crate) gains: Gains<'c, C>,
    pub(crate) labels: Places<Wide>,
    pub(crate) partner: Places<Option<u16>>,
    pub(crate) base: Places<Option<u16>>,
    /// The outermost blossom that a vertex is in, if it is in one.
    pub(crate) outer: Places<Option<u16>>,
    /// The blossom that a node lies in, if it is not outermost.
    pub(crate) parent: Places<Option<u16>>,
    /// The pair of vertices that joins a node to the next one of its blossom's circle.
    pub(crate) next: Places<Option<(u16, u16)>>,
    /// The pair of vertices by which an inner node was reached.
    pub(crate) reached: Places<Option<(u16, u16)>>,
    /// The vertex of an outer node that is nearest to a vertex.
    pub(crate) nearest: Places<Option<u16>>,
    /// How far the labels of outer vertices have come down in the search that goes on.
    pub(crate) fallen: Wide,
    /// How far they will have come down when a vertex can be joined to the one nearest to it. For an inner vertex,
    /// which cannot, what the labels of the two have beyond the gain.
    pub(crate) due: Places<Wide>,
    /// The mark of a vertex when it was looked at last.
    pub(crate) noted: Places<Mark>,
    pub(crate) marks: Places<Mark>,
    pub(crate) scanned: Places<bool>,
    /// Vertices whose partner can be paired at once with one that is alone, the first beside the root.
    pub(crate) leads: Places<bool>,
    /// A blossom was folded, so that vertices may be in a common one with those nearest to them.
    pub(crate) is_folded: bool,
    /// Outer vertices of which others know how near they are, while they do not know themselves who is nearest.
    pub(crate) left_to_others: Places<bool>,
    /// How many vertices each outer blossom has, when they were counted last.
    pub(crate) counts: Places<u16>,
    pub(crate) live: Places<bool>,
    /// The nodes on the way from a vertex to the root, for the folding of a blossom.
    pub(crate) on_way: Places<bool>,
    /// By how much the bound that the labels are may still rise before it shows enough; none: however far.
    pub(crate) room: Option<Wide>,
    /// The bound is greater than what is enough.
    pub(crate) is_enough: bool,
}

impl<'c, C: Costs> Forest<'c, C> {
    /// A forest of so many nodes whose lists have no places yet.
    pub(crate) fn new(alloc: Global, costs: &'c C, nodes: u16) -> Forest<'c, C> {
        let size = costs.size();
        Forest {
            size,
            nodes,
            end: size,
            gains: Gains::new(alloc, costs),
            labels: Places::new(alloc, Wide::zero()),
            partner: Places::new(alloc, None),
            base: Places::new(alloc, None),
            outer: Places::new(alloc, None),
            parent: Places::new(alloc, None),
            next: Places::new(alloc, None),
            reached: Places::new(alloc, None),
            nearest: Places::new(alloc, None),
            fallen: Wide::zero(),
            due: Places::new(alloc, Wide::zero()),
            noted: Places::new(alloc, Mark::Free),
            marks: Places::new(alloc, Mark::Free),
            scanned: Places::new(alloc, false),
            leads: Places::new(alloc, false),
            is_folded: false,
            left_to_others: Places::new(alloc, false),
            counts: Places::new(alloc, 0),
            live: Places::new(alloc, false),
            on_way: Places::new(alloc, false),
            room: None,
            is_enough: false,
        }
    }

    /// Makes the places of all nodes: no vertex is paired or reached, and all labels are 0.
    pub(crate) fn make_places(&mut self) -> Result<(), AllocError> {
        let (vertices, nodes) = (usize::from(self.size), usize::from(self.nodes));
        self.outer.grow(vertices)?;
        self.partner.grow(vertices)?;
        self.nearest.grow(vertices)?;
        self.due.grow(vertices)?;
        self.noted.grow(vertices)?;
        self.scanned.grow(vertices)?;
        self.leads.grow(vertices)?;
        self.left_to_others.grow(vertices)?;
        self.labels.grow(nodes)?;
        self.base.grow(nodes)?;
        self.parent.grow(nodes)?;
        self.next.grow(nodes)?;
        self.reached.grow(nodes)?;
        self.marks.grow(nodes)?;
        self.counts.grow(nodes)?;
        self.live.grow(nodes)?;
        self.on_way.grow(nodes)
    }

    /// The outermost node that a vertex is in.
    pub(crate) fn outer_of(&self, v: u16) -> u16 {
        self.outer.at(usize::from(v)).unwrap_or(v)
    }

    /// The base of a node; a vertex is its own.
    pub(crate) fn base_of(&self, node: u16) -> u16 {
        self.base.at(usize::from(node)).unwrap_or(node)
    }

    pub(crate) fn partner_of(&self, v: u16) -> Option<u16> {
        self.partner.at(usize::from(v))
    }

    pub(crate) fn parent_of(&self, node: u16) -> Option<u16> {
        self.parent.at(usize::from(node))
    }

    pub(crate) fn label(&self, node: u16) -> Wide {
        self.labels.at(usize::from(node))
    }

    /// The mark of the outermost node that a vertex is in.
    pub(crate) fn mark_of(&self, v: u16) -> Mark {
        self.marks.at(usize::from(self.outer_of(v)))
    }

    /// Marks an outermost node.
    pub(crate) fn mark(&mut self, node: u16, mark: Mark) {
        self.marks.put(usize::from(node), mark);
    }

    pub(crate) fn is_outermost_blossom(&self, node: u16) -> bool {
        self.live.at(usize::from(node)) && self.parent_of(node).is_none()
    }

    /// In a blossom only the base can be without a partner.
    pub(crate) fn is_alone(&self, v: u16) -> bool {
        self.base_of(self.outer_of(v)) == v && self.partner_of(v).is_none()
    }

    /// Pairs two vertices.
    pub(crate) fn pair(&mut self, a: u16, b: u16) {
        self.partner.put(usize::from(a), Some(b));
        self.partner.put(usize::from(b), Some(a));
    }
}

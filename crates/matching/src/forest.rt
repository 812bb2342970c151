// Who is paired with whom so far, the tree of the search that goes on, and what the failed searches have left.
//
// A search grows a tree from a root that is alone. Its outer vertices are reached from the root by ways of even length:
// the root, the partners of inner vertices, and all vertices of a blossom, a circle of odd length that is folded into
// one vertex, its base. If a search fails, its tree is left as it is: no later search enters it. When you change it,
// keep this: marks, parents and bases of a failed tree stay as they are, since they are its groups and its blockers.
ghost use Rattle.std.specs.Prelude.{◌≡◌, ◌≢◌, ◌<◌, ℕ, length, vec_len, IfOk, IfSome, Some};
ghost use Rattle.std.specs.List.{slice_get};
ghost use Rattle.std.specs.Option.{MatchOption};
ghost use Rattle.matching.specs.Links.{LeadsTo};

use crate::links::Links;
use std::alloc::{AllocError, Global};

/// What the searches know of a vertex.
#[derive(Clone, Copy, PartialEq, Eq)]
pub(crate) enum Mark {
    /// Not reached.
    Unseen,
    /// Outer, and its neighbours are still to be looked at.
    Waiting,
    /// Outer, and its neighbours have been looked at.
    Searched,
    /// Reached by ways of odd length alone.
    Inner,
    /// Outer in a search that failed.
    Grouped,
    /// Inner in a search that failed.
    Blocker,
}

/// The state of all searches, vertex by vertex.
#[derive(Drop)]
pub(crate) struct Forest {
    pub(crate) size: u16,
    pub(crate) partner: Links,
    /// From which outer vertex a vertex was reached by a way of odd length.
    pub(crate) parent: Links,
    /// The base of the blossom that a vertex is in, if it is not the vertex itself.
    pub(crate) base: Links,
    pub(crate) marks: Vec<Mark>,
    // for the folding of a blossom: the bases on the way from one vertex to the root, and those that are folded
    pub(crate) on_way: Vec<bool>,
    pub(crate) folded: Vec<bool>,
    pub ghost partners: { length partner.ends.items ≡ size },
    pub ghost parents: { length parent.ends.items ≡ size },
    pub ghost bases: { length base.ends.items ≡ size },
    pub ghost all_marked: { vec_len marks ≡ size },
    pub ghost ways: { vec_len on_way ≡ size },
    pub ghost folds: { vec_len folded ≡ size },
}

impl Forest {
    /// No vertex is paired or reached.
    pub(crate) fn new(alloc: Global, size: u16) -> Result<Forest, AllocError>
        ensures { IfOk result (λ forest. forest.size ≡ size) }
    {
        let count = usize::from(size);
        Ok(Forest {
            size,
            partner: Links::new(alloc, size)?,
            parent: Links::new(alloc, size)?,
            base: Links::new(alloc, size)?,
            marks: vec![in alloc; Mark::Unseen; count]?,
            on_way: vec![in alloc; false; count]?,
            folded: vec![in alloc; false; count]?,
        })
    }

    /// The base of the blossom that a vertex is in; the vertex itself if it is in none.
    pub(crate) fn base_of(&self, v: u16) -> u16
        requires { v < self.now.size }
        ensures value { LeadsTo self.now.base.ends.items v result }
        ensures inside { result < self.now.size }
    {
        self.base.at(v).unwrap_or(v)
    }

    /// The first vertex with a mark.
    pub(crate) fn first(&self, mark: Mark) -> Option<u16>
        ensures marked { MatchOption result
            ((v : ℕ) → slice_get self.now.marks.items v ≢ Some mark)
            (λ v. slice_get self.now.marks.items v ≡ Some mark) }
        ensures inside { IfSome result (λ v. v < self.now.size) }
    {
        for v in 0..self.size {
            if self.marks[usize::from(v)] == mark {
                return Some(v);
            }
        }
        None
    }
}

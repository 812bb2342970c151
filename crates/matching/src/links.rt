// From each vertex to another one, or to none.
ghost use Rattle.std.specs.Prelude.{◌≡◌, ◌<◌, length, IfOk, IfSome, Some, None, slice_set};
ghost use Rattle.std.specs.List.{slice_get};
ghost use Rattle.std.specs.Option.{ForSome};
ghost use Rattle.matching.specs.Links.{StaysInside};

use std::alloc::{AllocError, Global};

/// A vertex for each vertex, or none.
#[derive(Drop)]
pub(crate) struct Links {
    ends: Vec<Option<u16>>,
    pub ghost inside: { StaysInside ends.items },
}

impl Links {
    /// No vertex leads anywhere.
    pub(crate) fn new(alloc: Global, size: u16) -> Result<Links, AllocError>
        ensures { IfOk result (λ links. length links.ends.items ≡ size) }
    {
        let ends = vec![in alloc; None; usize::from(size)]?;
        Ok(Links { ends })
    }

    /// Where a vertex leads.
    pub(crate) fn at(&self, v: u16) -> Option<u16>
        requires { v < length self.now.ends.items }
        ensures value { slice_get self.now.ends.items v ≡ Some result }
        ensures inside { IfSome result (λ w. w < length self.now.ends.items) }
    {
        self.ends[usize::from(v)]
    }

    /// Leads a vertex to another one, or to none.
    pub(crate) fn put(&mut self, v: u16, end: Option<u16>)
        requires from { v < length self.old.ends.items }
        requires to { ForSome end (λ w. w < length self.old.ends.items) }
        ensures value { self.new.ends.items ≡ slice_set self.old.ends.items v end }
        ensures size { length self.new.ends.items ≡ length self.old.ends.items }
    {
        self.ends[usize::from(v)] = end;
    }
}

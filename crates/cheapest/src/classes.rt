// Classes of vertices that cost about the same with all others, as the graph has them. They are counted from 0.
use crate::graph::Costs;
use crate::places::Places;
use std::alloc::{AllocError, Global};

/// The class of each vertex, and how many vertices each class has.
#[derive(Drop)]
pub(crate) struct Classes {
    count: u16,
    of: Places<u16>,
    sizes: Places<u16>,
}

// Where a name stands; if it stands nowhere, it is kept.
fn index_of<K: Copy + PartialEq + Drop>(names: &mut Vec<K>, name: K) -> Result<usize, AllocError> {
    let count = names.len();
    match names.iter().position(|other| *other == name) {
        Some(index) => Ok(index),
        None => {
            names.push(name)?;
            Ok(count)
        }
    }
}

impl Classes {
    /// Classes of no vertices yet.
    pub(crate) fn new(alloc: Global) -> Classes {
        Classes {
            count: 0,
            of: Places::new(alloc, 0),
            sizes: Places::new(alloc, 0),
        }
    }

    // Puts a vertex into a class.
    fn put(&mut self, v: u16, class: u16) {
        let size = self.size(class).saturating_add(1);
        self.of.put(usize::from(v), class);
        self.sizes.put(usize::from(class), size);
    }

    /// Asks the graph for the classes of all vertices.
    pub(crate) fn read<C: Costs>(&mut self, alloc: Global, costs: &C) -> Result<(), AllocError> {
        let size = usize::from(costs.size());
        self.of.grow(size)?;
        self.sizes.grow(size)?;
        let mut names = Vec::new(alloc);
        for v in 0..costs.size() {
            let class = index_of(&mut names, costs.class(v))?;
            self.put(v, u16::try_from(class).unwrap_or(0));
        }
        self.count = u16::try_from(names.len()).unwrap_or(0);
        Ok(())
    }

    /// How many classes there are.
    pub(crate) fn count(&self) -> u16 {
        self.count
    }

    /// The class of a vertex.
    pub(crate) fn of(&self, v: u16) -> u16 {
        self.of.at(usize::from(v))
    }

    /// How many vertices a class has.
    pub(crate) fn size(&self, class: u16) -> u16 {
        self.sizes.at(usize::from(class))
    }
}

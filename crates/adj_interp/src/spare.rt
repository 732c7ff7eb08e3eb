//! Lists that a call leaves for later ones.

use adj_tree::Memory;
use std::alloc::Global;
use std::cell::Cell;

/// The list of the call that ended last. The next call takes it, and asks the heap for none.
pub struct Spare<T> {
    list: Cell<Vec<T>>,
}

impl<T: Drop> Drop for Spare<T> {
    fn drop(self) {
        let Spare { list: _list } = self;
    }
}

impl<T: Drop> Spare<T> {
    /// No list yet.
    pub fn new(alloc: Global) -> Spare<T> {
        Spare {
            list: Cell::new(Vec::new(alloc)),
        }
    }

    /// The list that was kept, or an empty one.
    pub(crate) fn take(&self, alloc: Global) -> Vec<T> {
        self.list.replace(Vec::new(alloc))
    }

    /// Keeps a list in place of what was kept before.
    pub(crate) fn keep(&self, list: Vec<T>) {
        self.list.set(list);
    }
}

/// One for each of so many units.
pub(crate) fn spares<T: Drop>(alloc: Global, count: usize) -> Result<Vec<Spare<T>>, Memory> {
    let mut made = Vec::with_capacity(alloc, count)?;
    for _i in 0..count {
        made.push(Spare::new(alloc))?;
    }
    Ok(made)
}

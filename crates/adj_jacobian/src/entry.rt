//! Derivatives, by their entries.

use adj_jacobian_groups::{Grouping, Sparsity};
use adj_tree::Items;

/// An entry of a derivative: the numbers of its row and of its column, from 0, and its value.
#[derive(Clone, Copy, Debug, PartialEq, Eq)]
pub struct Entry {
    pub row: u64,
    pub col: u64,
    pub value: i64,
}

/// Entries in order.
pub type Entries = Items<Entry>;

/// A derivative by its entries, by row and then column.
pub struct Jacobian {
    pub entries: Entries,
}

impl Drop for Jacobian {
    fn drop(self) {
        let Jacobian { entries: _entries } = self;
    }
}

/// A derivative with its pattern and the groups of its columns.
pub struct Derivative {
    pub sparsity: Sparsity,
    pub grouping: Grouping,
    pub jacobian: Jacobian,
}

impl Drop for Derivative {
    fn drop(self) {
        let Derivative {
            sparsity: _sparsity,
            grouping: _grouping,
            jacobian: _jacobian,
        } = self;
    }
}

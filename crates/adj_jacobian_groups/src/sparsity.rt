//! Patterns of derivatives, and groups of their columns.

ghost use Rattle.std.specs.Prelude.{◌≡◌, ◌++◌, ◌∷◌, [], OnErr, OnOk};

use adj_tree::{Items, Memory};
use std::alloc::Global;
use std::marker::Model;

/// A cell of a dummy: the number of the dummy and the cell's own in the order of storage, both from 0.
#[derive(Clone, Copy)]
pub struct Cell {
    pub dummy: u32,
    pub cell: u64,
}

/// Cells in order.
pub type Cells = Items<Cell>;

/// Numbers of columns, seen as their list.
#[derive(Drop)]
pub struct Columns {
    numbers: Vec<u64>,
}

impl Model for Columns {
    ghost use Rattle.std.specs.Prelude.{List, ℕ};

    ghost Value = { List ℕ };

    ghost view = { λ s. s.numbers.items };
}

impl Columns {
    /// No columns.
    pub fn new(alloc: Global) -> Columns
        ensures empty { result ≡ [] }
    {
        Columns {
            numbers: Vec::new(alloc),
        }
    }

    /// Adds a column behind the others.
    pub fn push(&mut self, column: u64) -> Result<(), Memory>
        ensures unchanged { OnErr result (self.new ≡ self.old) }
        ensures added { OnOk result (self.new ≡ self.old ++ column ∷ []) }
    {
        self.numbers.push(column)?;
        Ok(())
    }

    /// The numbers in order.
    pub fn as_slice(&self) -> &[u64]
        ensures numbers { result.now ≡ self.now }
    {
        self.numbers.as_slice()
    }
}

/// A row: a cell of a dependent, and the columns on which it can depend, in increasing order.
#[derive(Drop)]
pub struct Row {
    pub at: Cell,
    pub columns: Columns,
}

/// Rows in order.
pub type Rows = Items<Row>;

/// The pattern of a derivative: its columns are the cells of the independents, its rows those of the dependents, both in the order of dummies
/// and of storage, and numbered from 0.
#[derive(Drop)]
pub struct Sparsity {
    pub cols: Cells,
    pub rows: Rows,
}

/// The group of each column, in order.
pub type GroupList = Items<u64>;

/// The groups of the columns of a pattern, and how many there are.
#[derive(Drop)]
pub struct Grouping {
    pub group: GroupList,
    pub count: u64,
}

//! What a variable holds.

ghost use Rattle.std.specs.Prelude.{◌≡◌, ◌<◌, ◌∷◌, [], true, false, length, replicate, set, slice_index_or, IfOk};
ghost use Rattle.def_meaning.specs.Trap.{index, or_trap};
ghost use Rattle.def_meaning.specs.Store.{scalar, within, cell_of};
ghost use Rattle.adj_interp_frame.specs.Framed.{result_of, slot_shape, IsSlot, zero_in};

use adj_number::Number;
use adj_tree::{Memory, Trap};
use std::alloc::Global;
use std::mem;

/// Rows, columns and cells, column by column. A scalar has no rows, no columns and one cell, a list no columns.
pub struct Slot<N: Number> {
    pub rows: usize,
    pub cols: usize,
    pub cells: Vec<N>,
}

impl<N: Number> Drop for Slot<N> {
    fn drop(self) {
        let Slot {
            rows: _,
            cols: _,
            cells: _cells,
        } = self;
    }
}

// A subscript that lies within its extent, counted from 0.
fn within(subscript: i64, extent: usize) -> Option<usize>
    ensures { result ≡ within subscript extent }
{
    match usize::try_from(subscript) {
        Ok(i) if i > 0 && i <= extent => Some(i - 1),
        _ => None,
    }
}

impl<N: Number> Slot<N> {
    /// Its cells.
    pub fn into_cells(self) -> Vec<N>
        ensures { result ≡ self.cells }
    {
        let Slot {
            rows: _,
            cols: _,
            cells,
        } = self;
        cells
    }

    /// The value of a scalar.
    pub fn first(&self) -> N
        requires { IsSlot self.now }
        ensures { result ≡ slice_index_or self.now.cells.items 0 (zero_in N.numbers) }
    {
        self.cells[0]
    }

    /// A slot without cells.
    pub(crate) fn blank(alloc: Global) -> Slot<N> {
        Slot {
            rows: 0,
            cols: 0,
            cells: Vec::new(alloc),
        }
    }

    /// Whether it has one cell.
    pub(crate) fn has_one_cell(&self) -> bool
        ensures { result ≡ true → length self.now.cells.items ≡ 1 }
    {
        self.cells.len() == 1
    }

    /// Makes it a scalar that holds a number.
    pub(crate) fn hold(&mut self, number: N)
        requires { length self.old.cells.items ≡ 1 }
        ensures shape { slot_shape self.new ≡ scalar }
        ensures cells { self.new.cells.items ≡ number ∷ [] }
    {
        self.rows = 0;
        self.cols = 0;
        self.cells[0] = number;
    }

    /// Lets the cells of an array go.
    pub fn release(&mut self, alloc: Global) {
        if self.rows > 0 {
            self.cells = Vec::new(alloc);
        }
    }

    /// Whether it has no cells: it lent them, or they are lent to it.
    pub(crate) fn is_empty(&self) -> bool
        ensures empty { result ≡ true → self.now.cells.items ≡ [] }
        ensures some { result ≡ false → self.now.cells.items ≡ [] → ⊥ }
    {
        self.cells.is_empty()
    }

    /// The cell of one subscript.
    pub fn in_list(&self, row: i64) -> Result<usize, Trap>
        ensures { result_of result ≡ or_trap index (cell_of (slot_shape self.now) (row ∷ [])) }
    {
        within(row, self.rows).ok_or(Trap::Index)
    }

    /// The cell of two subscripts.
    pub fn in_table(&self, row: i64, column: i64) -> Result<usize, Trap>
        requires { IsSlot self.now }
        ensures { result_of result ≡ or_trap index (cell_of (slot_shape self.now) (row ∷ column ∷ [])) }
    {
        let (Some(i), Some(j)) = (within(row, self.rows), within(column, self.cols)) else {
            return Err(Trap::Index);
        };
        Ok(i + j * self.rows)
    }

    /// The same slot once more.
    pub(crate) fn copy(&self, alloc: Global) -> Result<Slot<N>, Memory>
        ensures shape { IfOk result (λ v. slot_shape v ≡ slot_shape self.now) }
        ensures cells { IfOk result (λ v. v.cells.items ≡ self.now.cells.items) }
    {
        let cells = Vec::from_slice(alloc, self.cells.as_slice())?;
        Ok(Slot {
            rows: self.rows,
            cols: self.cols,
            cells,
        })
    }

    /// Takes the cells of another slot, which gets its own.
    pub(crate) fn take(&mut self, other: &mut Slot<N>)
        ensures shape { slot_shape self.new ≡ slot_shape self.old }
        ensures cells { self.new.cells.items ≡ other.old.cells.items }
        ensures other { slot_shape other.new ≡ slot_shape other.old }
        ensures given { other.new.cells.items ≡ self.old.cells.items }
    {
        mem::swap(&mut self.cells, &mut other.cells);
    }

    /// Puts a number into a cell, where the slot has it.
    pub(crate) fn put(&mut self, cell: usize, number: N)
        ensures shape { slot_shape self.new ≡ slot_shape self.old }
        ensures count { length self.new.cells.items ≡ length self.old.cells.items }
        ensures cells { cell < length self.old.cells.items → self.new.cells.items ≡ set self.old.cells.items cell number }
    {
        if cell < self.cells.len() {
            self.cells[cell] = number;
        }
    }

    /// Puts 0 into each cell.
    pub fn clear(&mut self)
        ensures shape { slot_shape self.new ≡ slot_shape self.old }
        ensures cells { self.new.cells.items ≡ replicate (length self.old.cells.items) (zero_in N.numbers) }
    {
        self.cells.fill(N::of_word(0));
    }
}

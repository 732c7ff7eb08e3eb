//! The extents of variables.

ghost use Rattle.std.specs.Prelude.{◌≡◌, IfOk, length, replicate};
ghost use Rattle.def_meaning.specs.Store.{size_of};
ghost use Rattle.adj_word.specs.Word.{at_least_zero};
ghost use Rattle.def_meaning.specs.Units.{shape_of, are_extents, shape_fits};
ghost use Rattle.adj_interp_frame.specs.Framed.{IsSlot, slot_shape, zero_in};
ghost use Rattle.adj_interp_frame.specs.Called.{words_in};

use crate::slot::Slot;
use adj_number::Number;
use adj_tree::Memory;
use std::alloc::Global;

/// An extent that a unit declares: a word, or what a variable holds at the unit's entry.
#[derive(Clone, Copy)]
pub enum Bound {
    Fixed(i64),
    Given(usize),
}

/// The extents that a unit declares for a variable.
#[derive(Clone, Copy)]
pub enum Layout {
    Scalar,
    List(Bound),
    Table(Bound, Bound),
}

/// Extents at the entry of a unit.
#[derive(Clone, Copy)]
pub(crate) enum Area {
    Scalar,
    List(i64),
    Table(i64, i64),
}

// A word as a number of rows or columns.
fn natural(word: i64) -> usize
    ensures { result ≡ at_least_zero word }
{
    usize::try_from(word).unwrap_or(0)
}

impl Area {
    /// Rows and columns.
    pub(crate) fn shape(&self) -> (usize, usize)
        ensures { record { rows = result.0; cols = result.1 } ≡ shape_of (words_in self.now) }
    {
        match self {
            Area::Scalar => (0, 0),
            Area::List(rows) => (natural(*rows), 0),
            Area::Table(rows, cols) => (natural(*rows), natural(*cols)),
        }
    }

    // Whether each extent is at least 1.
    fn is_positive(&self) -> bool
        ensures { result ≡ are_extents (words_in self.now) }
    {
        match self {
            Area::Scalar => true,
            Area::List(rows) => *rows >= 1,
            Area::Table(rows, cols) => *rows >= 1 && *cols >= 1,
        }
    }

    /// Whether a dummy array of these extents fits the slot of its actual.
    pub(crate) fn fits<N: Number>(&self, slot: &Slot<N>) -> bool
        requires { IsSlot slot.now }
        ensures { result ≡ shape_fits (words_in self.now) (slot_shape slot.now) }
    {
        let (rows, cols) = self.shape();
        let few = slot.cells.len() <= 1048576;
        self.is_positive() && few && rows == slot.rows && cols == slot.cols
    }

    /// A slot of these extents whose cells are 0.
    pub(crate) fn zeros<N: Number>(&self, alloc: Global) -> Result<Slot<N>, Memory>
        ensures shape { IfOk result (λ v. slot_shape v ≡ shape_of (words_in self.now)) }
        ensures sized { IfOk result (λ v. IsSlot v) }
        ensures zeros { IfOk result (λ v. v.cells.items ≡ replicate (length v.cells.items) (zero_in N.numbers)) }
    {
        let (rows, cols) = self.shape();
        let count = count_of(rows, cols)?;
        let cells = vec![in alloc; N::of_word(0); count]?;
        Ok(Slot { rows, cols, cells })
    }
}

// How many cells so many rows and columns have. More than a machine can count are more than its memory holds.
fn count_of(rows: usize, cols: usize) -> Result<usize, Memory>
    ensures { IfOk result (λ n. n ≡ size_of (record { rows = rows; cols = cols })) }
{
    if rows == 0 {
        Ok(1)
    } else if cols == 0 {
        Ok(rows)
    } else {
        rows.checked_mul(cols).ok_or(Memory)
    }
}

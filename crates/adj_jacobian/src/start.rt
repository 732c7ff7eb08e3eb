//! Slots with which a run over words with columns starts.

ghost use Rattle.std.specs.Prelude.{◌≡◌, ◌+◌, ◌<◌, ◌^◌, ℕ, ℤ, IfOk, length, map};
ghost use Rattle.def_jacobian.specs.Inputs.{by_columns};
ghost use Rattle.adj_interp.specs.Concludes.{slot_seen};
ghost use Rattle.adj_interp.specs.Inputs.{entry_seen};
ghost use Rattle.adj_jacobian_block.specs.Blocks.{own_in};
ghost use Rattle.adj_jacobian_few.specs.Few.{own_few};
ghost use Rattle.adj_jacobian.specs.Walks.{one_by, cells_by, next_column};

use crate::walk::next_column;
use adj_interp_frame::Slot;
use adj_jacobian_block::Block;
use adj_jacobian_few::Few;
use adj_number::Number;
use adj_reach::flag_at;
use adj_tree::{Memory, Slot as Value};
use std::alloc::Global;

/// How the columns of a run start.
pub(crate) trait Start<N: Number> {
    /// The number of a word that is a column.
    ghost own: { Self → ℤ → ℕ → N };

    fn own(&self, word: i64, column: u64) -> N
        ensures { result ≡ own self.now word column };
}

/// Those of the block of a number, with their bit.
pub(crate) struct InBlock {
    pub(crate) block: u64,
}

impl Drop for InBlock {
    fn drop(self) {
        let InBlock { block: _ } = self;
    }
}

/// Each with itself.
#[derive(Drop)]
pub(crate) struct Alone;

impl Start<Block> for InBlock {
    ghost own = { λ s. own_in s.block };

    fn own(&self, word: i64, column: u64) -> Block {
        if column / 256 == self.block {
            Block::of_column(word, (column % 256) as usize)
        } else {
            Block::of_word(word)
        }
    }
}

impl Start<Few> for Alone {
    ghost own = { λ s. own_few };

    fn own(&self, word: i64, column: u64) -> Few {
        Few::of_column(word, column)
    }
}

// The number of a word, which is a column where it is flagged.
fn number_of<N: Number, S: Start<N>>(start: &S, marked: bool, word: i64, column: u64) -> N
    ensures { result ≡ one_by N.numbers.of_word (S.own start.now) marked word column }
{
    if marked {
        start.own(word, column)
    } else {
        N::of_word(word)
    }
}

// The numbers of words that are columns from a number on, or none.
fn start_cells<N: Number, S: Start<N>>(
    alloc: Global,
    start: &S,
    marked: bool,
    first: u64,
    words: &[i64],
) -> Result<Vec<N>, Memory>
    requires { first + length words.now < 2 ^ 64 }
    ensures { IfOk result (λ cells. cells.items ≡ cells_by N.numbers.of_word (S.own start.now) marked words.now first) }
{
    let mut cells = Vec::new(alloc);
    for j in 0..words.len() {
        cells.push(number_of(start, marked, words[j], first + j as u64))?;
    }
    Ok(cells)
}

// The slot of a dummy, and the number of the column behind it.
fn start_slot<N: Number, S: Start<N>>(
    alloc: Global,
    start: &S,
    marked: bool,
    first: u64,
    value: &Value,
) -> Result<(Slot<N>, u64), Memory>
    ensures slot { IfOk result (λ r. entry_seen r.0 ≡ record { shape = record { rows = value.now.rows; cols = value.now.cols }; cells = cells_by N.numbers.of_word (S.own start.now) marked value.now.cells first }) }
    ensures next { IfOk result (λ r. r.1 ≡ next_column marked first (length value.now.cells)) }
{
    let words = value.cells.as_slice();
    let next = next_column(marked, first, words.len())?;
    let cells = start_cells(alloc, start, marked, first, words)?;
    let slot = Slot {
        rows: value.rows as usize,
        cols: value.cols as usize,
        cells,
    };
    Ok((slot, next))
}

/// The slots of an input, in which the cells of the flagged dummies are columns.
pub(crate) fn start_slots<N: Number, S: Start<N>>(
    alloc: Global,
    start: &S,
    vars: &[bool],
    input: &[Value],
) -> Result<Vec<Slot<N>>, Memory>
    ensures { IfOk result (λ slots. map entry_seen slots.items ≡ by_columns N.numbers.of_word (S.own start.now) vars.now (map slot_seen input.now) 0) }
{
    let mut slots = Vec::new(alloc);
    let mut first = 0;
    for i in 0..input.len() {
        let marked = flag_at(vars, i);
        let (slot, next) = start_slot(alloc, start, marked, first, &input[i])?;
        slots.push(slot)?;
        first = next;
    }
    Ok(slots)
}

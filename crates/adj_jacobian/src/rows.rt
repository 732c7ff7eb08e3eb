//! Rows of a pattern, to which a block adds its columns.

ghost use Rattle.std.specs.Prelude.{◌≡◌, ◌++◌, ◌+◌, ◌*◌, ◌<◌, ◌≤◌, ◌^◌, [], IfOk, OnOk, map, if◌then◌else◌, ◌∷◌};
ghost use Rattle.def_meaning.specs.Units.{nth_cell};
ghost use Rattle.def_jacobian.specs.Patterns.{held};
ghost use Rattle.adj_interp.specs.Inputs.{entry_seen};
ghost use Rattle.adj_jacobian_block.specs.Blocks.{blocks};
ghost use Rattle.adj_jacobian_groups.specs.View.{row_of, rows_of};
ghost use Rattle.adj_jacobian.specs.Parts.{bits_from, columns_from, width_of, with_block};

use adj_interp_frame::Slot;
use adj_jacobian_block::Block;
use adj_jacobian_groups::{Cell, Columns, Row};
use adj_tree::Memory;
use std::alloc::Global;

// Adds a column where its bit is set.
fn add_bit(set: bool, column: u64, columns: &mut Columns) -> Result<(), Memory>
    ensures { OnOk result (columns.new ≡ columns.old ++ (if set then column ∷ [] else [])) }
{
    if set { columns.push(column) } else { Ok(()) }
}

// Adds the columns whose bits are set in a word, from one on.
fn add_word(word: u64, first: u64, count: u64, columns: &mut Columns) -> Result<(), Memory>
    requires within { count ≤ 64 }
    requires room { first + count < 2 ^ 64 }
    ensures { OnOk result (columns.new ≡ columns.old ++ bits_from word first count) }
{
    if word == 0 {
        return Ok(());
    }
    for i in 0..count {
        add_bit((word >> i) & 1 == 1, first + i, columns)?;
    }
    Ok(())
}

// Adds the columns of a mask, of so many in all.
fn add_mask(block: u64, total: u64, mask: [u64; 4], columns: &mut Columns) -> Result<(), Memory>
    requires { 256 * block ≤ total }
    ensures { OnOk result (columns.new ≡ columns.old ++ columns_from block mask (256 * block) (width_of block total)) }
{
    let mut first = 256 * block;
    for w in 0..4 {
        let count = (total - first).min(64);
        add_word(mask[w], first, count, columns)?;
        first += count;
    }
    Ok(())
}

// The columns of a number, none past the end.
fn mask_or_none(numbers: &[Block], place: u64) -> [u64; 4]
    ensures { result ≡ (nth_cell blocks numbers.now place).columns }
{
    match numbers.get(place as usize) {
        Some(number) => number.columns,
        None => [0; 4],
    }
}

// The columns of a cell, as a mask.
fn mask_at(slots: &[Slot<Block>], at: Cell) -> [u64; 4]
    ensures { result ≡ (held blocks (map entry_seen slots.now) at.dummy at.cell).columns }
{
    match slots.get(at.dummy as usize) {
        Some(slot) => mask_or_none(slot.cells.as_slice(), at.cell),
        None => [0; 4],
    }
}

// A row with its columns of a block.
fn row_with(block: u64, total: u64, slots: &[Slot<Block>], row: Row) -> Result<Row, Memory>
    requires { 256 * block ≤ total }
    ensures { IfOk result (λ r. row_of r ≡ with_block block total (map entry_seen slots.now) (row_of row)) }
{
    let Row { at, mut columns } = row;
    add_mask(block, total, mask_at(slots, at), &mut columns)?;
    Ok(Row { at, columns })
}

/// Each row with its columns of a block, of so many columns in all.
pub(crate) fn rows_with(
    alloc: Global,
    block: u64,
    total: u64,
    slots: &[Slot<Block>],
    rows: Vec<Row>,
) -> Result<Vec<Row>, Memory>
    requires { 256 * block ≤ total }
    ensures { IfOk result (λ new. rows_of new.items ≡ map (with_block block total (map entry_seen slots.now)) (rows_of rows.items)) }
{
    let mut new = Vec::new(alloc);
    for row in rows {
        new.push(row_with(block, total, slots, row)?)?;
    }
    Ok(new)
}

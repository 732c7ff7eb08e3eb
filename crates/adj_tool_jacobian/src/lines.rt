//! The lines of a derivative.

ghost use Rattle.std.specs.Prelude.{◌≡◌, ◌++◌, ◌+◌, codes, flat_map, length, map, IfOk, OnOk};
ghost use Rattle.std.specs.Fmt.{signed_decimal};
ghost use Rattle.adj_jacobian_groups.specs.View.{place_of, rows_of};
ghost use Rattle.adj_jacobian.specs.Products.{entry_of};
ghost use Rattle.adj_tool_jacobian.specs.Written.{at_of, derivative_text, entry_line, name_of, pairs_in, pattern_line, place_in, place_text};

use adj_jacobian::Entry;
use adj_jacobian_groups::{Cell, Row, Sparsity};
use adj_tool_answer::push_number;
use adj_tree::{Memory, Name};
use itoa::Buffer;
use std::alloc::Global;

// The name of a dummy, empty where there is no such dummy.
fn name_at(names: &[Name], dummy: u32) -> &[u8]
    ensures { result.now ≡ name_of names.now dummy }
{
    match names.get(dummy as usize) {
        Some(name) => name.bytes(),
        None => b"",
    }
}

// Adds a keyword and the name of a dummy.
fn push_name(out: &mut Vec<u8>, keyword: &[u8], names: &[Name], dummy: u32) -> Result<(), Memory>
    ensures { OnOk result (out.new.items ≡ out.old.items ++ (keyword.now ++ name_of names.now dummy)) }
{
    out.extend_from_slice(keyword)?;
    out.extend_from_slice(name_at(names, dummy))?;
    Ok(())
}

// Adds a keyword and a cell: the name of its dummy, and its number from 1.
fn push_place(out: &mut Vec<u8>, keyword: &[u8], names: &[Name], place: Cell) -> Result<(), Memory>
    ensures { OnOk result (out.new.items ≡ out.old.items ++ (keyword.now ++ place_text names.now (place_of place))) }
{
    push_name(out, keyword, names, place.dummy)?;
    push_number(out, b" ", u128::from(place.cell) + 1)?;
    Ok(())
}

// The cell of a row.
fn row_at(rows: &[Row], number: u64) -> Cell
    ensures { place_of result ≡ place_in (map at_of (rows_of rows.now)) number }
{
    match rows.get(number as usize) {
        Some(row) => row.at,
        None => Cell { dummy: 0, cell: 0 },
    }
}

// The cell of a column.
fn column_at(columns: &[Cell], number: u64) -> Cell
    ensures { place_of result ≡ place_in (map place_of columns.now) number }
{
    match columns.get(number as usize) {
        Some(cell) => *cell,
        None => Cell { dummy: 0, cell: 0 },
    }
}

// Adds a value behind a blank, and ends the line.
fn push_value(out: &mut Vec<u8>, value: i64) -> Result<(), Memory>
    ensures { OnOk result (out.new.items ≡ out.old.items ++ (codes " " ++ (signed_decimal value ++ codes "\n"))) }
{
    let mut buffer = Buffer::new();
    out.push(b' ')?;
    out.extend_from_slice(buffer.format(value).as_bytes())?;
    out.push(b'\n')?;
    Ok(())
}

// Adds the line of an entry.
fn push_entry(
    out: &mut Vec<u8>,
    names: &[Name],
    rows: &[Row],
    columns: &[Cell],
    entry: Entry,
) -> Result<(), Memory>
    ensures { OnOk result (out.new.items ≡ out.old.items ++ entry_line names.now (map at_of (rows_of rows.now)) (map place_of columns.now) (entry_of entry)) }
{
    push_place(out, b"JAC ", names, row_at(rows, entry.row))?;
    push_place(out, b" ", names, column_at(columns, entry.col))?;
    push_value(out, entry.value)?;
    Ok(())
}

// Adds the lines of entries.
pub(crate) fn push_entries(
    out: &mut Vec<u8>,
    names: &[Name],
    sparsity: &Sparsity,
    entries: &[Entry],
) -> Result<(), Memory>
    ensures { OnOk result (out.new.items ≡ out.old.items ++ flat_map (entry_line names.now (map at_of (rows_of sparsity.now.rows)) (map place_of sparsity.now.cols)) (map entry_of entries.now)) }
{
    let rows = sparsity.rows.as_slice();
    let columns = sparsity.cols.as_slice();
    for entry in entries {
        push_entry(out, names, rows, columns, *entry)?;
    }
    Ok(())
}

// The number of pairs of a row and a column. An error means that it is in no reach.
fn pairs(rows: &[Row]) -> Result<u64, Memory>
    ensures { IfOk result (λ n. n ≡ pairs_in (rows_of rows.now)) }
{
    let mut count = 0u64;
    for row in rows {
        let more = row.columns.as_slice().len() as u64;
        count = count.checked_add(more).ok_or(Memory)?;
    }
    Ok(count)
}

// The line of a pattern.
pub(crate) fn push_pattern(out: &mut Vec<u8>, sparsity: &Sparsity) -> Result<(), Memory>
    ensures { OnOk result (out.new.items ≡ out.old.items ++ pattern_line (length sparsity.now.rows) (length sparsity.now.cols) (pairs_in (rows_of sparsity.now.rows))) }
{
    let rows = sparsity.rows.as_slice();
    let count = pairs(rows)?;
    push_number(out, b"PATTERN ", rows.len() as u128)?;
    push_number(out, b" ", sparsity.cols.as_slice().len() as u128)?;
    push_number(out, b" ", u128::from(count))?;
    out.push(b'\n')?;
    Ok(())
}

//! The slots that entries give to dummies.

ghost use Rattle.std.specs.Prelude.{◌≡◌, ◌*ℤ◌, ◌&&◌, pos, int_le, false, true, None, Some, map, option_map, IfErr, IfOk, OnOk, MatchOption};
ghost use Rattle.adj_tree.specs.View.{extent_of};
ghost use Rattle.def_meaning.specs.Units.{are_extents, elements};
ghost use Rattle.adj_data.specs.DataCodes.{data_code_number};
ghost use Rattle.adj_data.specs.Entries.{entry_named};
ghost use Rattle.adj_data.specs.Faults.{extent_given, extents_given, entry_code, given_fault};
ghost use Rattle.adj_data.specs.Given.{IsFirstFault, entry_seen, slot_in, slot_seen};

use crate::data_code::DataCode;
use crate::data_error::DataError;
use crate::entries::{Entries, Entry};
use adj_tree::{Extent, Items, Memory, Slot};
use std::alloc::Global;

/// The most elements of an array.
const MOST_ELEMENTS: u64 = 1_048_576;

// The value of an extent, where the entries give one.
fn value_of(entries: &Entries, extent: &Extent) -> Option<i64>
    ensures { result ≡ extent_given entries.now (extent_of extent.now) }
{
    match extent {
        Extent::Lit(number) => Some(*number),
        Extent::Dummy(name) => {
            let entry = entries.find(name.bytes())?;
            match entry.numbers.as_slice() {
                [number] => Some(*number),
                _ => None,
            }
        }
    }
}

// The values of extents, where the entries give one to each.
fn values_of(
    alloc: Global,
    entries: &Entries,
    extents: &[Extent],
) -> Result<Option<Vec<i64>>, Memory>
    ensures { IfOk result (λ found. option_map (λ v. v.items) found ≡ extents_given entries.now (map extent_of extents.now)) }
{
    let mut values = Vec::new(alloc);
    for extent in extents {
        match value_of(entries, extent) {
            Some(value) => values.push(value)?,
            None => return Ok(None),
        }
    }
    Ok(Some(values))
}

// How many elements an array of these extents has, where there may be one.
fn elements(extents: &[i64]) -> Option<u64>
    ensures { MatchOption result
        (are_extents extents.now && int_le (elements extents.now) (pos 1048576) ≡ false)
        (λ n. (are_extents extents.now && int_le (elements extents.now) (pos 1048576) ≡ true) × (elements extents.now ≡ pos n)) }
{
    let mut count: u64 = 1;
    for extent in extents {
        if *extent < 1 {
            return None;
        }
        count = count.saturating_mul(*extent as u64);
    }
    if count > MOST_ELEMENTS {
        None
    } else {
        Some(count)
    }
}

// What is wrong with an entry of such extents.
fn entry_code(entry: &Entry, extents: &[i64]) -> Option<DataCode>
    ensures { option_map data_code_number result ≡ entry_code (entry_seen entry.now) (Some extents.now) }
{
    match elements(extents) {
        None => Some(DataCode::Extent),
        Some(count) if count == entry.numbers.len() as u64 => None,
        Some(_) => Some(DataCode::Count),
    }
}

// The slot of an entry with these extents.
fn slot_in(alloc: Global, entry: &Entry, extents: &[i64]) -> Result<Slot, Memory>
    requires { entry_code (entry_seen entry.now) (Some extents.now) ≡ None }
    ensures { IfOk result (λ v. slot_seen v ≡ slot_in (Some (entry_seen entry.now)) (Some extents.now)) }
{
    let (rows, cols) = match extents {
        [] => (0, 0),
        [rows] => (*rows as u64, 0),
        [rows, cols, ..] => (*rows as u64, *cols as u64),
    };
    Ok(Slot {
        rows,
        cols,
        cells: Items::new(entry.numbers.as_slice().to_vec(alloc)?),
    })
}

// A scalar without a value, where an extent has none: one of its dummies has a fault of its own.
fn no_slot(alloc: Global) -> Slot
    ensures { slot_seen result ≡ slot_in None None }
{
    Slot {
        rows: 0,
        cols: 0,
        cells: Items::new(Vec::new(alloc)),
    }
}

/// The slot that entries give to a dummy of these extents.
pub(crate) fn slot_given(
    alloc: Global,
    entries: &Entries,
    extents: &[Extent],
    name: &[u8],
) -> Result<Slot, DataError>
    ensures ok { OnOk result (given_fault entries.now (map extent_of extents.now) (entry_named name.now entries.now) ≡ None) }
    ensures slot { IfOk result (λ v. slot_seen v ≡ slot_in (entry_named name.now entries.now) (extents_given entries.now (map extent_of extents.now))) }
    ensures fault { IfErr result (λ e. IsFirstFault e (given_fault entries.now (map extent_of extents.now) (entry_named name.now entries.now))) }
{
    let Some(entry) = entries.find(name) else {
        return Err(DataError::Data(DataCode::MissingEntry, 0));
    };
    let Some(values) = values_of(alloc, entries, extents)? else {
        return Ok(no_slot(alloc));
    };
    if let Some(code) = entry_code(entry, &values) {
        return Err(DataError::Data(code, entry.line));
    }
    let slot = slot_in(alloc, entry, &values)?;
    Ok(slot)
}

//! Entries with a mark: tangents and output adjoints.

ghost use Rattle.std.specs.Prelude.{◌≡◌, ◌++◌, ℕ, ℤ, pos, List, Bool, None, Some, replicate, length, map, IfErr, IfOk, OnOk, if◌then◌else◌};
ghost use Rattle.adj_data.specs.Entries.{entry_named};
ghost use Rattle.def_meaning.specs.Apart.{has_name};
ghost use Rattle.adj_data.specs.Given.{IsFirstFault, slot_seen};
ghost use Rattle.adj_data.specs.Marked.{mark_fault, marks_fault, marked_names, marked_slot, marked_slots, filled, wanted, zeros_like};

use crate::data_code::DataCode;
use crate::data_error::DataError;
use crate::entries::Entries;
use adj_sets::NameSet;
use adj_tree::{Flags, Items, Memory, NameList, Slot, Values};
use std::alloc::Global;

// A name with a mark behind it.
fn with_mark(alloc: Global, name: &[u8], mark: &[u8]) -> Result<Vec<u8>, Memory>
    ensures { IfOk result (λ v. v.items ≡ name.now ++ mark.now) }
{
    let mut marked = name.to_vec(alloc)?;
    marked.extend_from_slice(mark)?;
    Ok(marked)
}

/// Adds the names with a mark of the dummies that are listed.
pub(crate) fn add_marked(
    alloc: Global,
    set: &mut NameSet,
    names: &NameList,
    flags: &Flags,
    mark: &[u8],
) -> Result<(), Memory>
    requires { length flags.now ≡ length names.now }
    ensures added { OnOk result ((x : List ℕ) → has_name x set.new ≡ has_name x (set.old ++ marked_names mark.now names.now flags.now)) }
{
    let names = names.as_slice();
    let flags = flags.as_slice();
    for number in 0..names.len() {
        if flags[number] {
            let marked = with_mark(alloc, names[number].bytes(), mark)?;
            set.add(alloc, &marked)?;
        }
    }
    Ok(())
}

/// A slot of zeros in the shape of another.
pub fn zeros_like(alloc: Global, slot: &Slot) -> Result<Slot, Memory>
    ensures { IfOk result (λ v. slot_seen v ≡ zeros_like (slot_seen slot.now)) }
{
    let mut cells = Vec::new(alloc);
    for _cell in slot.cells.as_slice() {
        cells.push(0)?;
    }
    Ok(Slot {
        rows: slot.rows,
        cols: slot.cols,
        cells: Items::new(cells),
    })
}

// What the entry of a name gives, in the shape of a slot.
fn filled(alloc: Global, entries: &Entries, name: &[u8], slot: &Slot) -> Result<Slot, DataError>
    ensures ok { OnOk result (mark_fault (slot_seen slot.now) (entry_named name.now entries.now) ≡ None) }
    ensures slot { IfOk result (λ v. slot_seen v ≡ filled (slot_seen slot.now) (entry_named name.now entries.now)) }
    ensures fault { IfErr result (λ e. IsFirstFault e (mark_fault (slot_seen slot.now) (entry_named name.now entries.now))) }
{
    let Some(entry) = entries.find(name) else {
        return Err(DataError::Data(DataCode::MissingEntry, 0));
    };
    if entry.numbers.len() != slot.cells.as_slice().len() {
        return Err(DataError::Data(DataCode::Count, entry.line));
    }
    Ok(Slot {
        rows: slot.rows,
        cols: slot.cols,
        cells: Items::new(entry.numbers.as_slice().to_vec(alloc)?),
    })
}

/// Where entries with a mark are looked for.
#[derive(Clone, Copy)]
pub(crate) struct Marking<'a> {
    pub(crate) entries: &'a Entries,
    pub(crate) mark: &'static [u8],
}

// The slot that entries with the mark give to a dummy of a name and a slot, or zeros where none is wanted.
fn marked_slot(
    alloc: Global,
    marking: Marking<'_>,
    name: &[u8],
    flag: bool,
    slot: &Slot,
) -> Result<Slot, DataError>
    ensures ok { OnOk result ((if flag then mark_fault (slot_seen slot.now) (entry_named (name.now ++ marking.entry.mark.now) marking.entry.entries.now) else None) ≡ None) }
    ensures slot { IfOk result (λ v. slot_seen v ≡ marked_slot marking.entry.entries.now marking.entry.mark.now (record { name = name.now; flag = flag; slot = slot_seen slot.now })) }
    ensures fault { IfErr result (λ e. IsFirstFault e (if flag then mark_fault (slot_seen slot.now) (entry_named (name.now ++ marking.entry.mark.now) marking.entry.entries.now) else None)) }
{
    if !flag {
        let zeros = zeros_like(alloc, slot)?;
        return Ok(zeros);
    }
    let title = with_mark(alloc, name, marking.mark)?;
    filled(alloc, marking.entries, &title, slot)
}

/// A slot for each dummy: what its entry with the mark gives where one is wanted, else zeros.
pub(crate) fn marked_slots(
    alloc: Global,
    marking: Marking<'_>,
    names: &NameList,
    flags: &Flags,
    inputs: &Values,
) -> Result<Values, DataError>
    requires flags { length flags.now ≡ length names.now }
    requires inputs { length inputs.now ≡ length names.now }
    ensures ok { OnOk result (marks_fault marking.entry.entries.now marking.entry.mark.now (wanted names.now flags.now (map slot_seen inputs.now)) ≡ None) }
    ensures slots { IfOk result (λ vs. map slot_seen vs ≡ marked_slots marking.entry.entries.now marking.entry.mark.now (wanted names.now flags.now (map slot_seen inputs.now))) }
    ensures fault { IfErr result (λ e. IsFirstFault e (marks_fault marking.entry.entries.now marking.entry.mark.now (wanted names.now flags.now (map slot_seen inputs.now)))) }
{
    let names = names.as_slice();
    let flags = flags.as_slice();
    let inputs = inputs.as_slice();
    let mut slots = Vec::new(alloc);
    for number in 0..names.len() {
        let name = names[number].bytes();
        let slot = marked_slot(alloc, marking, name, flags[number], &inputs[number])?;
        slots.push(slot)?;
    }
    Ok(Items::new(slots))
}

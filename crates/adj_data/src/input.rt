//! The input of a unit, from data.

ghost use Rattle.std.specs.Prelude.{◌≡◌, ℕ, List, None, map, IfErr, IfOk, OnOk};
ghost use Rattle.adj_tree.specs.View.{procedure_of};
ghost use Rattle.def_meaning.specs.Apart.{has_name};
ghost use Rattle.adj_data.specs.Faults.{dummies_fault, data_fault};
ghost use Rattle.adj_data.specs.Given.{IsFirstFault, slot_given, input_given, slot_seen};

use crate::data_error::DataError;
use crate::declared::{extents, first_declarations};
use crate::entries::{Entries, Reading, read};
use crate::items::Titles;
use crate::slots::slot_given;
use adj_sets::NameSet;
use adj_tree::{Items, Memory, NameList, Unit, Values};
use std::alloc::Global;

/// The names as a set.
pub(crate) fn set_of(alloc: Global, names: &NameList) -> Result<NameSet, Memory>
    ensures same { IfOk result (λ set. (x : List ℕ) → has_name x set ≡ has_name x names.now) }
{
    let mut set = NameSet::new(alloc)?;
    for name in names.as_slice() {
        set.add(alloc, name.bytes())?;
    }
    Ok(set)
}

/// A slot for each dummy.
pub(crate) fn slots_given(
    alloc: Global,
    entries: &Entries,
    unit: &Unit,
) -> Result<Values, DataError>
    ensures ok { OnOk result (dummies_fault entries.now (procedure_of unit.now) unit.now.dummies ≡ None) }
    ensures slots { IfOk result (λ vs. map slot_seen vs ≡ map (slot_given entries.now (procedure_of unit.now)) unit.now.dummies) }
    ensures fault { IfErr result (λ e. IsFirstFault e (dummies_fault entries.now (procedure_of unit.now) unit.now.dummies)) }
{
    let declared = first_declarations(alloc, unit)?;
    let mut slots = Vec::new(alloc);
    for name in unit.dummies.as_slice() {
        let slot = slot_given(
            alloc,
            entries,
            extents(&declared, name.bytes()),
            name.bytes(),
        )?;
        slots.push(slot)?;
    }
    Ok(Items::new(slots))
}

/// The input of a unit that data are. They stand behind the line of this number. (docs/DATA.md)
pub fn values(alloc: Global, bytes: &[u8], line: u32, unit: &Unit) -> Result<Values, DataError>
    ensures accepted { OnOk result (data_fault line bytes.now (procedure_of unit.now) ≡ None) }
    ensures input { IfOk result (λ vs. map slot_seen vs ≡ input_given line bytes.now (procedure_of unit.now)) }
    ensures fault { IfErr result (λ e. IsFirstFault e (data_fault line bytes.now (procedure_of unit.now))) }
{
    let dummies = set_of(alloc, &unit.dummies)?;
    let reading = Reading {
        names: dummies,
        titles: Titles::Names,
    };
    let entries = read(alloc, bytes, line, &reading)?;
    slots_given(alloc, &entries, unit)
}

//! The data of `check`: inputs, tangents and output adjoints.

ghost use Rattle.std.specs.Prelude.{◌≡◌, ℕ, List, None, length, map, IfErr, IfOk, OnOk};
ghost use Rattle.adj_tree.specs.View.{procedure_of};
ghost use Rattle.def_meaning.specs.Apart.{has_name};
ghost use Rattle.adj_data.specs.Given.{IsFirstFault, slot_seen};
ghost use Rattle.adj_data.specs.Marked.{adjoints_given, check_fault, inputs_given, tangents_given, titles_of};

use crate::data_error::DataError;
use crate::entries::{Reading, read};
use crate::input::{set_of, slots_given};
use crate::items::Titles;
use crate::marks::{Marking, add_marked, marked_slots};
use adj_sets::NameSet;
use adj_tree::{Head, Memory, Unit, Values};
use std::alloc::Global;

// The names that entries may have: those of dummies, and with a mark those that are listed.
fn titles(alloc: Global, unit: &Unit, head: &Head) -> Result<NameSet, Memory>
    requires vars { length head.now.vars ≡ length unit.now.dummies }
    requires outvars { length head.now.outvars ≡ length unit.now.dummies }
    ensures same { IfOk result (λ set. (x : List ℕ) → has_name x set ≡ has_name x (titles_of (procedure_of unit.now) head.now.vars head.now.outvars)) }
{
    let mut set = set_of(alloc, &unit.dummies)?;
    add_marked(alloc, &mut set, &unit.dummies, &head.vars, b".D")?;
    add_marked(alloc, &mut set, &unit.dummies, &head.outvars, b".B")?;
    Ok(set)
}

/// The inputs of the head, the tangents of its independents and the adjoints of its dependents that data are; zeros stand for
/// those of other dummies. The data stand behind the line of this number. (docs/DATA.md)
pub fn check_values(
    alloc: Global,
    bytes: &[u8],
    line: u32,
    unit: &Unit,
    head: &Head,
) -> Result<(Values, Values, Values), DataError>
    requires vars { length head.now.vars ≡ length unit.now.dummies }
    requires outvars { length head.now.outvars ≡ length unit.now.dummies }
    ensures accepted { OnOk result (check_fault line bytes.now (procedure_of unit.now) head.now.vars head.now.outvars ≡ None) }
    ensures inputs { IfOk result (λ t. map slot_seen t.0 ≡ inputs_given line bytes.now (procedure_of unit.now)) }
    ensures tangents { IfOk result (λ t. map slot_seen t.1 ≡ tangents_given line bytes.now (procedure_of unit.now) head.now.vars) }
    ensures adjoints { IfOk result (λ t. map slot_seen t.2 ≡ adjoints_given line bytes.now (procedure_of unit.now) head.now.outvars) }
    ensures fault { IfErr result (λ e. IsFirstFault e (check_fault line bytes.now (procedure_of unit.now) head.now.vars head.now.outvars)) }
{
    let names = titles(alloc, unit, head)?;
    let reading = Reading {
        names,
        titles: Titles::NamesAndMarks,
    };
    let entries = read(alloc, bytes, line, &reading)?;
    let inputs = slots_given(alloc, &entries, unit)?;
    let tangents = Marking {
        entries: &entries,
        mark: b".D",
    };
    let tangents = marked_slots(alloc, tangents, &unit.dummies, &head.vars, &inputs)?;
    let adjoints = Marking {
        entries: &entries,
        mark: b".B",
    };
    let adjoints = marked_slots(alloc, adjoints, &unit.dummies, &head.outvars, &inputs)?;
    Ok((inputs, tangents, adjoints))
}

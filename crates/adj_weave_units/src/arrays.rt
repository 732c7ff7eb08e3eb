//! Which variables of a unit are arrays.

ghost use Rattle.std.specs.Prelude.{◌≡◌, ℕ, List, IfOk, OnOk};
ghost use Rattle.adj_tree.specs.Code.{plain};
ghost use Rattle.adj_tree.specs.View.{declaration_of, procedure_of};
ghost use Rattle.def_meaning.specs.Apart.{has_name};
ghost use Rattle.def_sweep.specs.Marking.{arrays_of};
ghost use Rattle.adj_weave_units.specs.Parts.{PassedBy};

use adj_sets::NameSet;
use adj_tree::{Decl, Memory, Unit};
use std::alloc::Global;

// Passes a declaration: its variable is known from then on, and is an array where this is its first declaration and has extents.
fn pass(alloc: Global, decl: &Decl, known: &mut NameSet, arrays: &mut NameSet) -> Result<(), Memory>
    ensures passed { OnOk result (PassedBy (declaration_of decl.now) known.old arrays.old known.new arrays.new) }
{
    if known.has(decl.name.bytes()) {
        return Ok(());
    }
    known.add(alloc, decl.name.bytes())?;
    if decl.extents.as_slice().len() > 0 {
        arrays.add(alloc, decl.name.bytes())?;
    }
    Ok(())
}

/// The variables that a unit declares with extents. The first declaration of a variable counts.
pub fn arrays_of(alloc: Global, unit: &Unit) -> Result<NameSet, Memory>
    ensures arrays { IfOk result (λ s. (x : List ℕ) → has_name x s ≡ arrays_of (procedure_of unit.now) (plain x)) }
{
    let mut known = NameSet::new(alloc)?;
    let mut arrays = NameSet::new(alloc)?;
    for decl in unit.decls.as_slice() {
        pass(alloc, decl, &mut known, &mut arrays)?;
    }
    Ok(arrays)
}

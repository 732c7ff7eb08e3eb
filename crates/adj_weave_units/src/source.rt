//! The names of the source, and those that are made of them (docs/EMITTED.md, "Fresh names").

ghost use Rattle.std.specs.Prelude.{◌≡◌, ◌++◌, ◌∷◌, [], ℕ, List, IfOk, OnOk, map, flat_map, length};
ghost use Rattle.adj_tree.specs.View.{procedure_of};
ghost use Rattle.def_sweep.specs.Declared.{unit_name};
ghost use Rattle.def_sweep.specs.Names.{named_list};
ghost use Rattle.adj_symbols.specs.Checked.{AreFacts};
ghost use Rattle.adj_sets.specs.Sets.{all_added};
ghost use Rattle.adj_weave_units.specs.Calls.{flagged};

use adj_naming::joining::joined;
use adj_naming::taken::Taken;
use adj_sets::{NameSet, add_names};
use adj_symbols::Checked;
use adj_tree::{Memory, Name, Unit};
use std::alloc::Global;

/// The units of a checked program.
pub fn units_of(checked: &Checked) -> &[Unit]
    ensures units { result.now ≡ checked.now.program.units }
    ensures facts { AreFacts checked.now }
{
    checked.program().units.as_slice()
}

/// The names of the units.
pub fn unit_names(alloc: Global, units: &[Unit]) -> Result<Vec<Name>, Memory>
    ensures names { IfOk result (λ v. v.items ≡ map unit_name (map procedure_of units.now)) }
{
    let mut made = Vec::new(alloc);
    for unit in units {
        made.push(unit.name.copy(alloc)?)?;
    }
    Ok(made)
}

/// The names of the units of a checked program, and those of the variables of all units.
pub fn source_names(alloc: Global, units: &[Name], checked: &Checked) -> Result<NameSet, Memory>
    ensures names { IfOk result (λ s. s ≡ all_added [] (units.now ++ flat_map (λ (xs : List (List ℕ)). xs) checked.now.variables)) }
{
    let count = units_of(checked).len();
    let mut taken = NameSet::new(alloc)?;
    add_names(alloc, &mut taken, units)?;
    for unit in 0..count {
        add_names(alloc, &mut taken, checked.variables(unit).as_slice())?;
    }
    Ok(taken)
}

/// The name that is made for each unit, in order, with these letters at its end, where the names of the source are taken.
pub fn made_names(
    alloc: Global,
    units: &[Unit],
    ending: &[u8],
    source: &NameSet,
) -> Result<Vec<Name>, Memory>
    ensures names { IfOk result (λ v. v.items ≡ named_list ending.now source.now (map procedure_of units.now)) }
{
    let mut taken = Taken::new(alloc, source, &[])?;
    let mut made = Vec::new(alloc);
    for unit in units {
        let base = joined(alloc, unit.name.bytes(), ending)?;
        let name = taken.give(alloc, base.bytes())?;
        made.push(name)?;
    }
    Ok(made)
}

// Adds the name, if it is flagged.
fn add_flagged(alloc: Global, flag: bool, name: &Name, made: &mut Vec<Name>) -> Result<(), Memory>
    ensures names { OnOk result (made.new.items ≡ made.old.items ++ flagged (flag ∷ []) (name.now ∷ [])) }
{
    if flag {
        made.push(name.copy(alloc)?)?;
    }
    Ok(())
}

/// Adds the names that are flagged.
pub fn add_all_flagged(
    alloc: Global,
    flags: &[bool],
    names: &[Name],
    made: &mut Vec<Name>,
) -> Result<(), Memory>
    requires same { length flags.now ≡ length names.now }
    ensures names { OnOk result (made.new.items ≡ made.old.items ++ flagged flags.now names.now) }
{
    for (k, name) in names.iter().enumerate() {
        add_flagged(alloc, flags[k], name, made)?;
    }
    Ok(())
}

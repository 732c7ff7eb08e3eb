//! The kernel of a program (docs/KERNEL.md, "The steps").

ghost use Rattle.std.specs.Prelude.{◌≡◌, ◌≤◌, ◌++◌, ℕ, List, [], length, map, IfOk, OnOk};
ghost use Rattle.adj_tree.specs.View.{code_of, procedure_of, procedures_of};
ghost use Rattle.def_names.specs.Fault.{run_rules};
ghost use Rattle.def_names.specs.Check.{IsSound};
ghost use Rattle.def_kernel.specs.Kernel.{unit_name, lowered_program};
ghost use Rattle.law_kernel.specs.Sound.{IsAccepted};
ghost use Rattle.def_kernel.specs.Stepped.{marked_in, step_names, stepped_unit, names_of_source, stepped_program, kernel_of};
ghost use Rattle.adj_sets.specs.Sets.{all_added};
ghost use Rattle.adj_norm.specs.Programs.{AreAlike, are_unmarked};
ghost use Rattle.adj_norm.specs.Source.{Knows};

use crate::cutting::cut;
use crate::handing::handed_back;
use crate::marked::marked_in;
use crate::names::{add_unit, unit_names};
use crate::once::Once;
use crate::source::Source;
use crate::steps::add_step_units;
use crate::unit::{copied, copied_names, lower_unit};
use adj_naming::declared::first_declarations;
use adj_naming::joining::{joined, with_number};
use adj_naming::naming::not_free;
use adj_naming::taken::Taken;
use adj_sets::NameSet;
use adj_tree::{Items, Memory, Name, Program, Stmts, Unit};
use std::alloc::Global;

// The names of the first step units of a unit, which are taken from then on.
fn step_names(
    alloc: Global,
    taken: &mut Taken<'_>,
    base: &Name,
    count: usize,
) -> Result<Vec<Name>, Memory>
    ensures names { IfOk result (λ v. v.items ≡ step_names taken.old base.now count) }
    ensures taken { IfOk result (λ v. taken.new ≡ taken.old ++ v.items) }
{
    let front = joined(alloc, base.bytes(), b"_S")?;
    let mut made = Vec::new(alloc);
    for number in 0..count {
        let wanted = with_number(alloc, front.bytes(), number + 1)?;
        let name = taken.give(alloc, wanted.bytes())?;
        made.push(name)?;
    }
    Ok(made)
}

// The unit with another body.
fn with_body(alloc: Global, unit: &Unit, body: Stmts) -> Result<Unit, Memory>
    ensures unit { IfOk result (λ v. procedure_of v ≡ record (procedure_of unit.now) { body = code_of body }) }
{
    let name = unit.name.copy(alloc)?;
    let dummies = copied_names(alloc, unit.dummies.as_slice())?;
    let decls = copied(alloc, unit.decls.as_slice())?;
    Ok(Unit {
        line: unit.line,
        name,
        dummies: Items::new(dummies),
        none: unit.none,
        decls: Items::new(decls),
        body,
    })
}

// Adds the unit whose marked loops hold calls of step units, and these step units.
fn add_stepped(
    alloc: Global,
    taken: &mut Taken<'_>,
    unit: &Unit,
    units: &mut Vec<Unit>,
) -> Result<(), Memory>
    ensures units { OnOk result ((names : List (List ℕ)) → AreAlike taken.old names → map procedure_of units.new.items ≡ map procedure_of units.old.items ++ stepped_unit names (procedure_of unit.now)) }
    ensures taken { OnOk result ((names : List (List ℕ)) → AreAlike taken.old names → AreAlike taken.new (names ++ step_names names unit.now.name (marked_in (code_of unit.now.body)))) }
{
    let variables = unit_names(alloc, unit)?;
    let declared = first_declarations(alloc, unit)?;
    let count = marked_in(&unit.body)?;
    let names = step_names(alloc, taken, &unit.name, count)?;
    let source = Source {
        variables: &variables,
        declared: &declared,
        names: names.as_slice(),
    };
    add_made(alloc, source, unit, units)?;
    Ok(())
}

// Adds them, where all is known that step units are made of.
fn add_made(
    alloc: Global,
    source: Source<'_>,
    unit: &Unit,
    units: &mut Vec<Unit>,
) -> Result<(), Memory>
    requires enough { marked_in (code_of unit.now.body) ≤ length source.names.now }
    ensures units { OnOk result ((taken : List (List ℕ)) → Knows source.entry taken (procedure_of unit.now) → map procedure_of units.new.items ≡ map procedure_of units.old.items ++ stepped_unit taken (procedure_of unit.now)) }
{
    let made = cut(alloc, source, 0, &unit.body)?;
    let whole = with_body(alloc, unit, made.code)?;
    units.push(whole)?;
    add_step_units(alloc, source, 0, &unit.body, units)?;
    Ok(())
}

// Adds the names of some units.
fn add_unit_names(alloc: Global, names: &mut Once, units: &[Unit]) -> Result<(), Memory>
    ensures added { OnOk result (names.new ≡ all_added names.old (map unit_name (map procedure_of units.now))) }
{
    for unit in units {
        names.add(alloc, &unit.name)?;
    }
    Ok(())
}

// The names of the source: those of its units, and those of their variables.
fn names_of_source(alloc: Global, units: &[Unit]) -> Result<Once, Memory>
    ensures names { IfOk result (λ n. n ≡ all_added [] (names_of_source (map procedure_of units.now))) }
{
    let mut names = Once::new(alloc)?;
    add_unit_names(alloc, &mut names, units)?;
    for unit in units {
        add_unit(alloc, &mut names, unit)?;
    }
    Ok(names)
}

/// The program in which marked loops hold calls of step units.
pub fn stepped(alloc: Global, units: &[Unit]) -> Result<Vec<Unit>, Memory>
    ensures stepped { IfOk result (λ v. map procedure_of v.items ≡ stepped_program (map procedure_of units.now)) }
{
    let known = names_of_source(alloc, units)?;
    let nothing = NameSet::new(alloc)?;
    let mut taken = Taken::new(alloc, &nothing, known.as_slice())?;
    let mut made = Vec::new(alloc);
    for unit in units {
        add_stepped(alloc, &mut taken, unit, &mut made)?;
    }
    Ok(made)
}

// The names of some units.
fn names_of_units(alloc: Global, units: &[Unit]) -> Result<Vec<Name>, Memory>
    ensures names { IfOk result (λ v. v.items ≡ map unit_name (map procedure_of units.now)) }
{
    let mut names = Vec::new(alloc);
    for unit in units {
        names.push(unit.name.copy(alloc)?)?;
    }
    Ok(names)
}

/// The program with all units lowered.
pub fn lowered(alloc: Global, units: &[Unit]) -> Result<Vec<Unit>, Memory>
    ensures lowered { IfOk result (λ v. map procedure_of v.items ≡ lowered_program (map procedure_of units.now)) }
{
    let table = handed_back(alloc, units)?;
    let names = names_of_units(alloc, units)?;
    let shared = not_free(alloc, names.as_slice())?;
    let mut made = Vec::new(alloc);
    for unit in units {
        made.push(lower_unit(alloc, &table, &shared, unit)?)?;
    }
    Ok(made)
}

// Whether no loop is marked in any of these units.
fn are_unmarked(units: &[Unit]) -> Result<bool, Memory>
    ensures unmarked { IfOk result (λ b. b ≡ are_unmarked (map procedure_of units.now)) }
{
    for unit in units {
        let count = marked_in(&unit.body)?;
        if count != 0 {
            return Ok(false);
        }
    }
    Ok(true)
}

// The units of the kernel. Where no loop is marked, the units are their own step, and are lowered as they are.
fn kernel_units(alloc: Global, units: &[Unit]) -> Result<Vec<Unit>, Memory>
    ensures kernel { IfOk result (λ v. map procedure_of v.items ≡ kernel_of (map procedure_of units.now)) }
{
    if are_unmarked(units)? {
        let made = lowered(alloc, units)?;
        return Ok(made);
    }
    let units = stepped(alloc, units)?;
    lowered(alloc, units.as_slice())
}

/// The kernel of a program, exactly. Where the program is accepted as a text of a user, the kernel has no fault as a text that is run,
/// so a check never refuses it.
pub fn kernel(alloc: Global, program: &Program) -> Result<Program, Memory>
    ensures kernel { IfOk result (λ p. procedures_of p ≡ kernel_of (procedures_of program.now)) }
    ensures sound { IfOk result (λ p. IsAccepted (procedures_of program.now) → IsSound run_rules (procedures_of p)) }
{
    let made = kernel_units(alloc, program.units.as_slice())?;
    Ok(Program {
        units: Items::new(made),
    })
}

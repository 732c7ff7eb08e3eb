//! The emitted program (docs/EMITTED.md, "The units").

ghost use Rattle.std.specs.Prelude.{◌≡◌, ◌++◌, ◌∷◌, [], ◌<◌, ◌||◌, true, IfOk, OnOk, map, length};
ghost use Rattle.adj_tree.specs.Code.{Procedure};
ghost use Rattle.adj_tree.specs.View.{procedure_of, procedures_of};
ghost use Rattle.def_kernel.specs.Form.{IsKernel};
ghost use Rattle.def_meaning.specs.Apart.{AreApart};
ghost use Rattle.def_sweep.specs.Declared.{unit_name, unit_at};
ghost use Rattle.def_sweep.specs.Program.{has_adjoint, has_pair, forth_unit, back_unit, is_carried_with, emitted_adjoint_with, emitted_units_with, emitted_program_with};
ghost use Rattle.law_emitted.specs.Shadowed.{AllHaveShadows};
ghost use Rattle.law_emitted.specs.Splits.{AllMaySplit};
ghost use Rattle.adj_sweep.specs.HelperSteps.{are_reversed};
ghost use Rattle.adj_weave.specs.Marked.{program_marks, IsOver};
ghost use Rattle.adj_weave.specs.Named.{made_flagged};
ghost use Rattle.adj_weave.specs.Shared.{sources, marks_for, reversed_for, IsShared, IsPart};
ghost use Rattle.adj_weave.specs.Woven.{IsTable, IsReady, head_of, only_if, pair_if, emitted_for};

use crate::called::known_callees;
use crate::found::{Found, found_units};
use crate::made::{MadeNames, all_made};
use crate::making::{Clears, Half, Making};
use crate::marks::Marked;
use crate::unit::{Part, Shared, made_unit};
use adj_naming::naming::not_free;
use adj_sets::{NameSet, add_names};
use adj_sweep::steps::MarkedLoops;
use adj_symbols::Checked;
use adj_tree::{Head, Items, Memory, Name, Program, Unit, Units};
use adj_weave_units::numbers::first_statements;
use adj_weave_units::shadows::{shadowed, unmarked};
use adj_weave_units::source::{unit_names, units_of};
use std::alloc::Global;

/// What is found of the units of a checked program before any is emitted, in their order: the names of what is made of them, the numbers of
/// their first statements, and which are emitted.
pub struct Table {
    pub names: MadeNames,
    pub numbers: Vec<usize>,
    pub found: Found,
}

impl Drop for Table {
    fn drop(self) {
        let Table {
            names: _names,
            numbers: _numbers,
            found: _found,
        } = self;
    }
}

/// The head with its number, and for each of its dummies whether it is independent and whether it is dependent.
#[derive(Clone, Copy)]
pub struct Aim<'a> {
    pub number: usize,
    pub head: &'a Unit,
    pub vars: &'a [bool],
    pub outvars: &'a [bool],
}

/// Whether a unit is emitted as it is, whether its adjoint is, and whether its forward and its backward unit are.
#[derive(Clone, Copy, PartialEq, Eq, Debug)]
pub struct Emits {
    pub carried: bool,
    pub adjointed: bool,
    pub paired: bool,
}

// The units that are emitted for a head, found by the names of units.
fn found_by_names(
    alloc: Global,
    marked: &Marked<'_>,
    units: &[Unit],
    names: &[Name],
    head: usize,
    loops: MarkedLoops,
) -> Result<Found, Memory>
    requires head { head < length units.now }
    requires names { names.now ≡ map unit_name (map procedure_of units.now) }
    requires apart { AreApart names.now }
    ensures adjointed { IfOk result (λ f. (h : Procedure) → unit_at head (map procedure_of units.now) ≡ h ∷ [] → f.adjointed ≡ map (λ u. has_adjoint (program_marks marked.now) (map procedure_of units.now) h u.name) (map procedure_of units.now)) }
    ensures paired { IfOk result (λ f. (h : Procedure) → unit_at head (map procedure_of units.now) ≡ h ∷ [] → f.paired ≡ map (λ u. has_pair (program_marks marked.now) (map procedure_of units.now) h u.name) (map procedure_of units.now)) }
    ensures carried { IfOk result (λ f. (h : Procedure) → unit_at head (map procedure_of units.now) ≡ h ∷ [] → f.carried ≡ map (λ u. is_carried_with (are_reversed loops) (program_marks marked.now) (map procedure_of units.now) h u.name) (map procedure_of units.now)) }
{
    let mut set = NameSet::new(alloc)?;
    add_names(alloc, &mut set, names)?;
    let found = found_units(alloc, marked, units, &set, head, loops)?;
    Ok(found)
}

// What is found of the units of a checked program before any is emitted.
fn tabulated(
    alloc: Global,
    marked: &Marked<'_>,
    checked: &Checked,
    names: &[Name],
    head: usize,
    loops: MarkedLoops,
) -> Result<Table, Memory>
    requires head { head < length checked.now.program.units }
    requires names { names.now ≡ map unit_name (procedures_of checked.now.program) }
    requires apart { AreApart names.now }
    ensures table { IfOk result (λ t. (h : Procedure) → unit_at head (procedures_of checked.now.program) ≡ h ∷ [] → IsTable (are_reversed loops) (program_marks marked.now) (procedures_of checked.now.program) h t) }
{
    let units = units_of(checked);
    let made = all_made(alloc, checked, names)?;
    let numbers = first_statements(alloc, units)?;
    let found = found_by_names(alloc, marked, units, names, head, loops)?;
    Ok(Table {
        names: made,
        numbers,
        found,
    })
}

// The names of the units of the source, and those of the units that are made and emitted.
fn all_names(alloc: Global, own: Vec<Name>, table: &Table) -> Result<Vec<Name>, Memory>
    requires forths { length table.now.names.forths.items ≡ length table.now.names.adjoints.items }
    requires backs { length table.now.names.backs.items ≡ length table.now.names.adjoints.items }
    requires adjointed { length table.now.found.adjointed ≡ length table.now.names.adjoints.items }
    requires paired { length table.now.found.paired ≡ length table.now.names.adjoints.items }
    ensures names { IfOk result (λ v. v.items ≡ own.items ++ made_flagged table.now.found.adjointed table.now.found.paired table.now.names.adjoints.items table.now.names.forths.items table.now.names.backs.items) }
{
    let mut all = own;
    table.names.add_emitted(alloc, &table.found, &mut all)?;
    Ok(all)
}

// The adjoint of a unit as it is emitted: only the head's sets shadows to 0.
fn emitted_adjoint(alloc: Global, shared: &Shared, part: &Part, aim: &Aim) -> Result<Unit, Memory>
    requires ready { IsReady shared.now aim.now }
    requires part { IsPart (marks_for shared.now) (sources shared.now) part.now }
    ensures unit { IfOk result (λ u. procedure_of u ≡ emitted_adjoint_with (reversed_for shared.now) (marks_for shared.now) (sources shared.now) (head_of aim.now) aim.now.vars.now aim.now.outvars.now (procedure_of part.now.unit.now)) }
{
    if !aim.head.name.equals(&part.unit.name) {
        let clears = Clears {
            at_turn: &[],
            at_end: &[],
        };
        return made_unit(alloc, shared, part, &Making::Adjoint(clears));
    }
    let dummies = part.unit.dummies.as_slice();
    let turned = unmarked(alloc, dummies, aim.outvars)?;
    let at_turn = shadowed(alloc, &part.marking, turned.as_slice())?;
    let ended = unmarked(alloc, dummies, aim.vars)?;
    let at_end = shadowed(alloc, &part.marking, ended.as_slice())?;
    let clears = Clears {
        at_turn: at_turn.as_slice(),
        at_end: at_end.as_slice(),
    };
    made_unit(alloc, shared, part, &Making::Adjoint(clears))
}

// The unit as it is, if it is carried, behind the others.
fn add_carried(
    alloc: Global,
    unit: &Unit,
    carried: bool,
    made: &mut Vec<Unit>,
) -> Result<(), Memory>
    ensures units { OnOk result (map procedure_of made.new.items ≡ map procedure_of made.old.items ++ only_if carried (procedure_of unit.now)) }
{
    if carried {
        made.push(unit.copy(alloc)?)?;
    }
    Ok(())
}

// The adjoint of the unit, if it has one, behind the others.
fn add_adjoint(
    alloc: Global,
    shared: &Shared,
    part: &Part,
    aim: &Aim,
    adjointed: bool,
    made: &mut Vec<Unit>,
) -> Result<(), Memory>
    requires ready { IsReady shared.now aim.now }
    requires part { adjointed ≡ true → IsPart (marks_for shared.now) (sources shared.now) part.now }
    ensures units { OnOk result (map procedure_of made.new.items ≡ map procedure_of made.old.items ++ only_if adjointed (emitted_adjoint_with (reversed_for shared.now) (marks_for shared.now) (sources shared.now) (head_of aim.now) aim.now.vars.now aim.now.outvars.now (procedure_of part.now.unit.now))) }
{
    if adjointed {
        made.push(emitted_adjoint(alloc, shared, part, aim)?)?;
    }
    Ok(())
}

// The forward and the backward unit of the unit, if it has them, behind the others.
fn add_pair(
    alloc: Global,
    shared: &Shared,
    part: &Part,
    paired: bool,
    made: &mut Vec<Unit>,
) -> Result<(), Memory>
    requires shared { IsShared shared.now }
    requires part { paired ≡ true → IsPart (marks_for shared.now) (sources shared.now) part.now }
    ensures units { OnOk result (map procedure_of made.new.items ≡ map procedure_of made.old.items ++ pair_if paired (forth_unit (reversed_for shared.now) (marks_for shared.now) (sources shared.now) shared.now.names.now (procedure_of part.now.unit.now)) (back_unit (reversed_for shared.now) (marks_for shared.now) (sources shared.now) shared.now.names.now (procedure_of part.now.unit.now))) }
{
    if paired {
        made.push(made_unit(alloc, shared, part, &Making::Pair(Half::Forth))?)?;
        made.push(made_unit(alloc, shared, part, &Making::Pair(Half::Back))?)?;
    }
    Ok(())
}

// The unit as it is, where it is carried, then its adjoint, and its forward and backward unit, where it has them, behind the others.
fn add_unit(
    alloc: Global,
    shared: &Shared,
    part: &Part,
    aim: &Aim,
    emits: Emits,
    made: &mut Vec<Unit>,
) -> Result<(), Memory>
    requires ready { IsReady shared.now aim.now }
    requires part { (emits.adjointed || emits.paired) ≡ true → IsPart (marks_for shared.now) (sources shared.now) part.now }
    ensures units { OnOk result (map procedure_of made.new.items ≡ map procedure_of made.old.items ++ emitted_for (reversed_for shared.now) (marks_for shared.now) emits (sources shared.now) aim.now (procedure_of part.now.unit.now)) }
{
    add_carried(alloc, part.unit, emits.carried, made)?;
    add_adjoint(alloc, shared, part, aim, emits.adjointed, made)?;
    add_pair(alloc, shared, part, emits.paired, made)?;
    Ok(())
}

// Each unit as it is, where it is carried, then its adjoint, and its forward and backward unit, where it has them.
fn emitted(alloc: Global, shared: &Shared, table: &Table, aim: &Aim) -> Result<Vec<Unit>, Memory>
    requires ready { IsReady shared.now aim.now }
    requires flow { IsOver shared.now.marked (sources shared.now) aim.now.number }
    requires head { unit_at aim.now.number (sources shared.now) ≡ head_of aim.now ∷ [] }
    requires table { IsTable (reversed_for shared.now) (marks_for shared.now) (sources shared.now) (head_of aim.now) table.now }
    ensures units { IfOk result (λ v. map procedure_of v.items ≡ emitted_units_with (reversed_for shared.now) (marks_for shared.now) (sources shared.now) (head_of aim.now) aim.now.vars.now aim.now.outvars.now (sources shared.now)) }
{
    let checked = shared.checked;
    let units = units_of(checked);
    let carried = table.found.carried.as_slice();
    let adjointed = table.found.adjointed.as_slice();
    let paired = table.found.paired.as_slice();
    let adjoints = table.names.adjoints.as_slice();
    let forths = table.names.forths.as_slice();
    let backs = table.names.backs.as_slice();
    let numbers = table.numbers.as_slice();
    let mut made = Vec::new(alloc);
    for (k, unit) in units.iter().enumerate() {
        let part = Part {
            unit,
            marking: shared.marked.of_unit(k),
            pairing: shared.marked.of_pair(k),
            variables: checked.variables(k).as_slice(),
            written: checked.writes(k).as_slice(),
            adjoint: &adjoints[k],
            forth: &forths[k],
            back: &backs[k],
            number: numbers[k],
        };
        let emits = Emits {
            carried: carried[k],
            adjointed: adjointed[k],
            paired: paired[k],
        };
        add_unit(alloc, shared, &part, aim, emits, &mut made)?;
    }
    Ok(made)
}

/// The program that is emitted for a head of a checked program in kernel form, by these marks, whose shadows are there, and which split only
/// adjointed calls other than the step calls of loops that are reversed by schedules: with full marks both are so. Marked loops are gone
/// through as loops as others, or are reversed by schedules.
pub fn adjoint(
    alloc: Global,
    checked: &Checked,
    head: &Head,
    marked: Marked<'_>,
    loops: MarkedLoops,
) -> Result<Program, Memory>
    requires head { head.now.unit < length checked.now.program.units }
    requires kernel { IsKernel (procedures_of checked.now.program) }
    requires flow { IsOver marked (procedures_of checked.now.program) head.now.unit }
    requires shadows { AllHaveShadows (program_marks marked) (procedures_of checked.now.program) (procedures_of checked.now.program) }
    requires splits { AllMaySplit (are_reversed loops) (program_marks marked) (procedures_of checked.now.program) (procedures_of checked.now.program) }
    ensures emitted { IfOk result (λ p. procedures_of p ≡ emitted_program_with (are_reversed loops) (program_marks marked.entry) (procedures_of checked.now.program) head.now.unit head.now.vars head.now.outvars) }
{
    let units = units_of(checked);
    let number = head.unit;
    let own = unit_names(alloc, units)?;
    let names = own.as_slice();
    let table = tabulated(alloc, &marked, checked, names, number, loops)?;
    let callees = known_callees(alloc, &marked, checked, names, &table.names)?;
    let all = all_names(alloc, own, &table)?;
    let listed = all.as_slice();
    let taken = not_free(alloc, listed)?;
    let shared = Shared {
        checked,
        marked,
        loops,
        callees: &callees,
        names: listed,
        taken: &taken,
    };
    let vars = head.vars.as_slice();
    let outvars = head.outvars.as_slice();
    let aim = Aim {
        number,
        head: &units[number],
        vars,
        outvars,
    };
    let made = emitted(alloc, &shared, &table, &aim)?;
    let units: Units = Items::new(made);
    Ok(Program { units })
}

//! The tangent of a program (docs/EMITTED.md, "Tangents").

ghost use Rattle.std.specs.Prelude.{◌≡◌, ◌++◌, ◌∷◌, [], ◌<◌, IfOk, OnOk, map, length};
ghost use Rattle.adj_tree.specs.Code.{Procedure};
ghost use Rattle.adj_tree.specs.View.{procedure_of, procedures_of};
ghost use Rattle.def_kernel.specs.Form.{IsKernel};
ghost use Rattle.def_meaning.specs.Apart.{AreApart};
ghost use Rattle.def_sweep.specs.Declared.{unit_name, unit_at};
ghost use Rattle.def_tangent.specs.Program as program;
ghost use Rattle.def_tangent.specs.Program.{tangent_name, takes, has_tangent, stays, emitted_units, tangent_program};
ghost use Rattle.def_flow.specs.Carried.{carried_by};
ghost use Rattle.adj_flow.specs.Asked.{units_of};
ghost use Rattle.adj_weave_units.specs.Calls.{flagged};
ghost use Rattle.adj_tangent.specs.Flagged.{carried_told};
ghost use Rattle.adj_tangent.specs.Woven.{sources, carried_for, head_of, emitted_tangent, only_if, IsReady, IsPart, IsTable};

use crate::called::{known_callees, taking_units};
use crate::carried::Carried;
use crate::found::{Found, found_units};
use crate::unit::{Part, Shared, tangent_unit};
use adj_naming::naming::not_free;
use adj_sets::{NameSet, add_names};
use adj_symbols::Checked;
use adj_tree::{Head, Items, Memory, Name, Program, Unit, Units};
use adj_weave_units::shadows::{shadowed, unmarked};
use adj_weave_units::source::{add_all_flagged, made_names, source_names, unit_names, units_of};
use std::alloc::Global;

/// The head, and for each of its dummies whether it is independent.
#[derive(Clone, Copy)]
pub struct Aim<'a> {
    pub head: &'a Unit,
    pub vars: &'a [bool],
}

/// What is found of the units before any is emitted, in their order: the names of their tangents, and which are emitted.
#[derive(Clone, Copy)]
pub struct Table<'a> {
    pub tangents: &'a [Name],
    pub found: &'a Found,
}

// The name of the tangent of each unit.
fn tangent_names(alloc: Global, checked: &Checked, names: &[Name]) -> Result<Vec<Name>, Memory>
    requires names { names.now ≡ map unit_name (procedures_of checked.now.program) }
    requires apart { AreApart names.now }
    ensures names { IfOk result (λ v. v.items ≡ map (λ u. tangent_name (procedures_of checked.now.program) u.name) (procedures_of checked.now.program)) }
{
    let units = units_of(checked);
    let source = source_names(alloc, names, checked)?;
    let made = made_names(alloc, units, b"_D", &source)?;
    Ok(made)
}

// The units that are emitted for a head, found by the names of units.
fn found_by_names(
    alloc: Global,
    flags: &[bool],
    units: &[Unit],
    names: &[Name],
    head: usize,
) -> Result<Found, Memory>
    requires head { head < length units.now }
    requires names { names.now ≡ map unit_name (map procedure_of units.now) }
    requires apart { AreApart names.now }
    ensures made { IfOk result (λ f. (c : program.Carried) (h : Procedure) → flags.now ≡ map (λ u. takes c (map procedure_of units.now) u.name) (map procedure_of units.now) → unit_at head (map procedure_of units.now) ≡ h ∷ [] → f.made ≡ map (λ u. has_tangent c (map procedure_of units.now) h.name u.name) (map procedure_of units.now)) }
    ensures stays { IfOk result (λ f. (c : program.Carried) (h : Procedure) → flags.now ≡ map (λ u. takes c (map procedure_of units.now) u.name) (map procedure_of units.now) → unit_at head (map procedure_of units.now) ≡ h ∷ [] → f.stays ≡ map (λ u. stays c (map procedure_of units.now) h.name u.name) (map procedure_of units.now)) }
{
    let mut set = NameSet::new(alloc)?;
    add_names(alloc, &mut set, names)?;
    found_units(alloc, flags, units, &set, head)
}

// The names of the units of the source, and those of the tangents that are emitted.
fn all_names(
    alloc: Global,
    own: Vec<Name>,
    flags: &[bool],
    tangents: &[Name],
) -> Result<Vec<Name>, Memory>
    requires same { length flags.now ≡ length tangents.now }
    ensures names { IfOk result (λ v. v.items ≡ own.items ++ flagged flags.now tangents.now) }
{
    let mut all = own;
    add_all_flagged(alloc, flags, tangents, &mut all)?;
    Ok(all)
}

// The tangent of a unit as it is emitted: the head's first clears the tangents of its dummies that aren't independent.
fn emitted_tangent(
    alloc: Global,
    shared: &Shared<'_>,
    part: &Part<'_>,
    aim: &Aim<'_>,
) -> Result<Unit, Memory>
    requires ready { IsReady shared.now aim.now }
    requires part { IsPart (carried_for shared.now) (sources shared.now) part.now }
    ensures unit { IfOk result (λ u. procedure_of u ≡ emitted_tangent (carried_for shared.now) (sources shared.now) (head_of aim.now) aim.now.vars.now (procedure_of part.now.unit.now)) }
{
    if !aim.head.name.equals(&part.unit.name) {
        let other = tangent_unit(alloc, shared, part, &[])?;
        return Ok(other);
    }
    let dummies = part.unit.dummies.as_slice();
    let others = unmarked(alloc, dummies, aim.vars)?;
    let at_first = shadowed(alloc, &part.marking, others.as_slice())?;
    let made = tangent_unit(alloc, shared, part, at_first.as_slice())?;
    Ok(made)
}

// The unit as it is, if it stays, behind the others.
fn add_staying(alloc: Global, unit: &Unit, stays: bool, made: &mut Vec<Unit>) -> Result<(), Memory>
    ensures units { OnOk result (map procedure_of made.new.items ≡ map procedure_of made.old.items ++ only_if stays (procedure_of unit.now)) }
{
    if stays {
        made.push(unit.copy(alloc)?)?;
    }
    Ok(())
}

// The tangent of the unit, if it has one, behind the others.
fn add_tangent(
    alloc: Global,
    shared: &Shared<'_>,
    part: &Part<'_>,
    aim: &Aim<'_>,
    has: bool,
    made: &mut Vec<Unit>,
) -> Result<(), Memory>
    requires ready { IsReady shared.now aim.now }
    requires part { IsPart (carried_for shared.now) (sources shared.now) part.now }
    ensures units { OnOk result (map procedure_of made.new.items ≡ map procedure_of made.old.items ++ only_if has (emitted_tangent (carried_for shared.now) (sources shared.now) (head_of aim.now) aim.now.vars.now (procedure_of part.now.unit.now))) }
{
    if has {
        made.push(emitted_tangent(alloc, shared, part, aim)?)?;
    }
    Ok(())
}

// Each unit as it is, where it stays, and then its tangent, where it has one.
fn emitted(
    alloc: Global,
    shared: &Shared<'_>,
    table: &Table<'_>,
    aim: &Aim<'_>,
) -> Result<Vec<Unit>, Memory>
    requires ready { IsReady shared.now aim.now }
    requires flow { units_of shared.now.carried.flow.now ≡ sources shared.now }
    requires table { IsTable (carried_for shared.now) (sources shared.now) (head_of aim.now) table.now }
    ensures units { IfOk result (λ v. map procedure_of v.items ≡ emitted_units (carried_for shared.now) (sources shared.now) (head_of aim.now) aim.now.vars.now (sources shared.now)) }
{
    let checked = shared.checked;
    let units = units_of(checked);
    let stays = table.found.stays.as_slice();
    let has = table.found.made.as_slice();
    let tangents = table.tangents;
    let mut made = Vec::new(alloc);
    for (k, unit) in units.iter().enumerate() {
        let part = Part {
            unit,
            marking: shared.carried.of_unit(k),
            variables: checked.variables(k).as_slice(),
            tangent: &tangents[k],
        };
        add_staying(alloc, unit, stays[k], &mut made)?;
        add_tangent(alloc, shared, &part, aim, has[k], &mut made)?;
    }
    Ok(made)
}

/// The tangent of a checked program in kernel form for a head, where flags over the flow of the program tell which variables carry a tangent.
pub fn tangent(
    alloc: Global,
    checked: &Checked,
    head: &Head,
    carried: Carried<'_>,
) -> Result<Program, Memory>
    requires head { head.now.unit < length checked.now.program.units }
    requires kernel { IsKernel (procedures_of checked.now.program) }
    requires flow { units_of carried.flow.now ≡ procedures_of checked.now.program }
    ensures emitted { IfOk result (λ p. procedures_of p ≡ tangent_program (carried_by (procedures_of checked.now.program) (carried_told carried.entry)) (procedures_of checked.now.program) head.now.unit head.now.vars) }
{
    let units = units_of(checked);
    let number = head.unit;
    let own = unit_names(alloc, units)?;
    let names = own.as_slice();
    let made = tangent_names(alloc, checked, names)?;
    let tangents = made.as_slice();
    let callees = known_callees(alloc, &carried, checked, names, tangents)?;
    let takes = taking_units(alloc, &callees)?;
    let taking = takes.as_slice();
    let found = found_by_names(alloc, taking, units, names, number)?;
    let flags = found.made.as_slice();
    let all = all_names(alloc, own, flags, tangents)?;
    let listed = all.as_slice();
    let taken = not_free(alloc, listed)?;
    let shared = Shared {
        checked,
        carried,
        callees: &callees,
        names: listed,
        taken: &taken,
    };
    let table = Table {
        tangents,
        found: &found,
    };
    let vars = head.vars.as_slice();
    let aim = Aim {
        head: &units[number],
        vars,
    };
    let all_made = emitted(alloc, &shared, &table, &aim)?;
    let units: Units = Items::new(all_made);
    Ok(Program { units })
}

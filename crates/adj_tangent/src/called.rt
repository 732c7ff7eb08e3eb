//! What calls know of the units of a program.

ghost use Rattle.std.specs.Prelude.{◌≡◌, ◌<◌, IfOk, map, length};
ghost use Rattle.adj_tree.specs.View.{procedure_of, procedures_of};
ghost use Rattle.def_meaning.specs.Apart.{AreApart};
ghost use Rattle.def_sweep.specs.Declared.{unit_name};
ghost use Rattle.def_sweep.specs.MarkedAdjoint.{shadow_flags};
ghost use Rattle.def_tangent.specs.Program.{callee_in, tangent_name, takes};
ghost use Rattle.def_flow.specs.Carried.{carried_by};
ghost use Rattle.adj_flow.specs.Asked.{units_of};
ghost use Rattle.adj_tangent.specs.Flagged.{carried_told};
ghost use Rattle.adj_tangent.specs.Known.{said, said_of};
ghost use Rattle.adj_tangent.specs.Plans.{has_some, KnowsAll};

use crate::carried::Carried;
use crate::plan::{Callee, Callees, has_some};
use adj_sets::{NameSet, add_names};
use adj_symbols::Checked;
use adj_tree::{Items, Memory, Name, Unit};
use adj_weave_units::shadows::shadow_flags;
use adj_weave_units::source::units_of;
use std::alloc::Global;

// What is known of a unit, by the name of its tangent.
fn known_unit(
    alloc: Global,
    carried: &Carried<'_>,
    place: usize,
    unit: &Unit,
    tangent: &Name,
) -> Result<Callee, Memory>
    requires unit { place < length carried.now.flow.now.parts.items }
    ensures known { IfOk result (λ k. said k ≡ (tangent.now, shadow_flags (carried_told carried.now place) (procedure_of unit.now).dummies)) }
{
    let marking = carried.of_unit(place);
    let flags = shadow_flags(alloc, &marking, unit.dummies.as_slice())?;
    Ok(Callee {
        tangent: tangent.copy(alloc)?,
        carried: Items::new(flags),
    })
}

// What is known of each unit of a checked program, by the names of their tangents.
fn known_units(
    alloc: Global,
    carried: &Carried<'_>,
    checked: &Checked,
    tangents: &[Name],
) -> Result<Vec<Callee>, Memory>
    requires units { length carried.now.flow.now.parts.items ≡ length checked.now.program.units }
    requires named { length tangents.now ≡ length checked.now.program.units }
    ensures known { IfOk result (λ v. map said v.items ≡ said_of (carried_told carried.now) 0 (procedures_of checked.now.program) tangents.now) }
{
    let units = units_of(checked);
    let mut made = Vec::new(alloc);
    for (k, unit) in units.iter().enumerate() {
        let known = known_unit(alloc, carried, k, unit, &tangents[k])?;
        made.push(known)?;
    }
    Ok(made)
}

/// What calls know of the units of a checked program, by the names of the units and of their tangents.
pub fn known_callees(
    alloc: Global,
    carried: &Carried<'_>,
    checked: &Checked,
    names: &[Name],
    tangents: &[Name],
) -> Result<Callees, Memory>
    requires units { units_of carried.now.flow.now ≡ procedures_of checked.now.program }
    requires names { names.now ≡ map unit_name (procedures_of checked.now.program) }
    requires apart { AreApart names.now }
    requires tangents { tangents.now ≡ map (λ u. tangent_name (procedures_of checked.now.program) u.name) (procedures_of checked.now.program) }
    ensures known { IfOk result (λ c. KnowsAll c (callee_in (carried_by (procedures_of checked.now.program) (carried_told carried.now)) (procedures_of checked.now.program))) }
    ensures takes { IfOk result (λ c. map (λ k. has_some k.carried) c.known.items ≡ map (λ u. takes (carried_by (procedures_of checked.now.program) (carried_told carried.now)) (procedures_of checked.now.program) u.name) (procedures_of checked.now.program)) }
{
    let mut set = NameSet::new(alloc)?;
    add_names(alloc, &mut set, names)?;
    let known = known_units(alloc, carried, checked, tangents)?;
    Ok(Callees { names: set, known })
}

/// Which units have a dummy that carries a tangent.
pub fn taking_units(alloc: Global, callees: &Callees) -> Result<Vec<bool>, Memory>
    ensures takes { IfOk result (λ v. v.items ≡ map (λ k. has_some k.carried) callees.now.known.items) }
{
    let mut made = Vec::new(alloc);
    for callee in callees.known.as_slice() {
        made.push(has_some(callee.carried.as_slice()))?;
    }
    Ok(made)
}

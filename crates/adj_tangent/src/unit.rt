//! The tangent of a unit.

ghost use Rattle.std.specs.Prelude.{◌≡◌, IfOk};
ghost use Rattle.adj_tree.specs.View.{procedure_of};
ghost use Rattle.def_tangent.specs.Program.{tangent_unit};
ghost use Rattle.adj_tangent.specs.Woven.{sources, carried_for, IsShared, IsPart};

use crate::carried::Carried;
use crate::plan::{Callees, Plan};
use crate::uses::helpers_used;
use adj_naming::derived::Derived;
use adj_naming::naming::names;
use adj_sets::NameSet;
use adj_sweep_assignment::Marking;
use adj_symbols::Checked;
use adj_tree::{Items, Memory, Name, Unit};
use adj_weave_units::arrays::arrays_of;
use adj_weave_units::declarations::declarations;
use adj_weave_units::shadows::{shadowed, with_shadows};
use std::alloc::Global;

/// What the tangents of all units share: the checked program, what carries a tangent, what is known of called units, the names of the units and
/// of the tangents that are emitted, and the names that no new variable may have.
#[derive(Clone, Copy)]
pub struct Shared<'a> {
    pub checked: &'a Checked,
    pub carried: Carried<'a>,
    pub callees: &'a Callees,
    pub names: &'a [Name],
    pub taken: &'a NameSet,
}

/// A unit, its variables that carry a tangent, all its variables, and the name of its tangent.
#[derive(Clone, Copy)]
pub struct Part<'a> {
    pub unit: &'a Unit,
    pub marking: Marking<'a>,
    pub variables: &'a [Name],
    pub tangent: &'a Name,
}

/// The tangent of a unit, which first clears the tangents of some variables.
pub fn tangent_unit(
    alloc: Global,
    shared: &Shared<'_>,
    part: &Part<'_>,
    at_first: &[Name],
) -> Result<Unit, Memory>
    requires shared { IsShared shared.now }
    requires part { IsPart (carried_for shared.now) (sources shared.now) part.now }
    ensures unit { IfOk result (λ u. procedure_of u ≡ tangent_unit (carried_for shared.now) (sources shared.now) shared.now.names.now (procedure_of part.now.unit.now) at_first.now) }
{
    let unit = part.unit;
    let marking = &part.marking;
    let used = helpers_used(alloc, marking, &unit.body)?;
    let helpers = used.as_slice();
    let own = shadowed(alloc, marking, part.variables)?;
    let all = names(
        alloc,
        Derived::Tangent,
        shared.taken,
        part.variables,
        own.as_slice(),
        helpers,
    )?;
    let arrays = arrays_of(alloc, unit)?;
    let plan = Plan {
        names: &all,
        marking,
        callees: shared.callees,
    };
    let dummies = with_shadows(alloc, &all, marking, unit.dummies.as_slice())?;
    let decls = declarations(alloc, &all, marking, unit, part.variables, helpers)?;
    let body = plan.body(alloc, &arrays, unit.line, at_first, &unit.body)?;
    Ok(Unit {
        line: unit.line,
        name: part.tangent.copy(alloc)?,
        dummies: Items::new(dummies),
        none: false,
        decls: Items::new(decls),
        body,
    })
}

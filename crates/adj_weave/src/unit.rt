//! The units that are made of a unit (docs/EMITTED.md, "The units").

ghost use Rattle.std.specs.Prelude.{◌≡◌, IfOk};
ghost use Rattle.adj_tree.specs.View.{procedure_of};
ghost use Rattle.adj_weave.specs.Making.{ClearsShadows, made_of};
ghost use Rattle.adj_weave.specs.Shared.{sources, marks_for, reversed_for, IsShared, IsPart};

use crate::making::Making;
use crate::marks::Marked;
use adj_naming::derived::Derived;
use adj_naming::naming::names;
use adj_sets::NameSet;
use adj_sweep::callees::Callees;
use adj_sweep::plan::Plan;
use adj_sweep::steps::MarkedLoops;
use adj_sweep::uses::Known;
use adj_sweep_assignment::Marking;
use adj_symbols::Checked;
use adj_tree::{Memory, Name, Unit};
use adj_weave_units::arrays::arrays_of;
use adj_weave_units::shadows::shadowed;
use adj_weave_units::unit::unit_under;
use std::alloc::Global;

/// What the units that are made share: the checked program, its marks, whether marked loops are reversed, what is known of called units, the
/// names of the units and of those that are made and emitted, and the names that no new variable may have.
#[derive(Clone, Copy)]
pub struct Shared<'a> {
    pub checked: &'a Checked,
    pub marked: Marked<'a>,
    pub loops: MarkedLoops,
    pub callees: &'a Callees,
    pub names: &'a [Name],
    pub taken: &'a NameSet,
}

/// A unit, its marks and those by which its forward and its backward unit are written, its variables, which of its dummies it writes, the
/// names of what is made of it, and the number of its first statement.
#[derive(Clone, Copy)]
pub struct Part<'a> {
    pub unit: &'a Unit,
    pub marking: Marking<'a>,
    pub pairing: Marking<'a>,
    pub variables: &'a [Name],
    pub written: &'a [bool],
    pub adjoint: &'a Name,
    pub forth: &'a Name,
    pub back: &'a Name,
    pub number: usize,
}

/// What is made of a unit.
pub fn made_unit(
    alloc: Global,
    shared: &Shared,
    part: &Part,
    making: &Making<'_>,
) -> Result<Unit, Memory>
    requires shared { IsShared shared.now }
    requires part { IsPart (marks_for shared.now) (sources shared.now) part.now }
    requires clears { ClearsShadows (marks_for shared.now) (procedure_of part.now.unit.now) making.now }
    ensures unit { IfOk result (λ u. procedure_of u ≡ made_of (reversed_for shared.now) (marks_for shared.now) (sources shared.now) shared.now.names.now (procedure_of part.now.unit.now) making.now) }
{
    let (unit, variables) = (part.unit, part.variables);
    let marks = part.marks(making);
    let known = Known {
        marks: &marks,
        loops: shared.loops,
        callees: shared.callees,
    };
    let used = part.helpers(alloc, &known, making)?;
    let helpers = used.as_slice();
    let shadows = part.shadows(making);
    let own = shadowed(alloc, &shadows, variables)?;
    let all = names(
        alloc,
        Derived::Adjoint,
        shared.taken,
        variables,
        own.as_slice(),
        helpers,
    )?;
    let arrays = arrays_of(alloc, unit)?;
    let plan = Plan {
        names: &all,
        marks: &marks,
        loops: shared.loops,
        arrays: &arrays,
        callees: shared.callees,
    };
    let body = part.body(alloc, &plan, making)?;
    let name = part.name(making);
    unit_under(alloc, unit, variables, &shadows, &all, helpers, name, body)
}

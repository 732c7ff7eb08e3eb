//! A unit that is made of another, put together.

ghost use Rattle.std.specs.Prelude.{◌≡◌, IfOk, map};
ghost use Rattle.adj_tree.specs.View.{code_of, procedure_of};
ghost use Rattle.adj_naming.specs.Roles.{variable_of};
ghost use Rattle.adj_naming.specs.Table.{table_of};
ghost use Rattle.adj_sweep_assignment.specs.View.{marks_of};
ghost use Rattle.adj_weave_units.specs.Made.{unit_under};

use crate::declarations::declarations;
use crate::shadows::with_shadows;
use adj_naming::names::Names;
use adj_naming::role::Helper;
use adj_sweep_assignment::Marking;
use adj_tree::{Items, Memory, Name, Stmts, Unit};
use std::alloc::Global;

/// A unit that is made of another, with this name, the helpers that its code uses, and this code, under these names. The shadows are those of
/// a marking.
pub fn unit_under(
    alloc: Global,
    unit: &Unit,
    variables: &[Name],
    shadows: &Marking<'_>,
    all: &Names,
    helpers: &[Helper],
    name: &Name,
    body: Stmts,
) -> Result<Unit, Memory>
    ensures unit { IfOk result (λ u. procedure_of u ≡ unit_under (table_of all.now) name.now (marks_of shadows.now).shadowed (procedure_of unit.now) variables.now (map variable_of helpers.now) (code_of body)) }
{
    let dummies = with_shadows(alloc, all, shadows, unit.dummies.as_slice())?;
    let decls = declarations(alloc, all, shadows, unit, variables, helpers)?;
    Ok(Unit {
        line: unit.line,
        name: name.copy(alloc)?,
        dummies: Items::new(dummies),
        none: false,
        decls: Items::new(decls),
        body,
    })
}

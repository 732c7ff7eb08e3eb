//! The faults of what statements may write.

ghost use Rattle.std.specs.Prelude.{◌≡◌, ◌&&◌, map, flat_map, IfOk, OnOk};
ghost use Rattle.adj_tree.specs.View.{declaration_of, procedure_of};
ghost use Rattle.def_meaning.specs.LeastSet.{row_of, least_rows};
ghost use Rattle.def_meaning.specs.Written.{write_rule};
ghost use Rattle.def_meaning.specs.Read.{is_extent};
ghost use Rattle.def_names.specs.Fault.{fault, faults_if, first_of, sooner};
ghost use Rattle.def_meaning.specs.Apart.{has_name};
ghost use Rattle.def_names.specs.Variables.{Name, is_dummy};
ghost use Rattle.def_names.specs.WriteFaults.{written_extents, faults_of_writes, write_faults};
ghost use Rattle.adj_symbols_writes.specs.View.{seen};
ghost use Rattle.adj_symbols.specs.Writes.{writes_one};

use crate::extents::add_extent_places;
use crate::first::First;
use crate::loop_writes::add_written_variables;
use crate::outline::Outline;
use crate::scope::Scope;
use crate::sharing::{add_shared_variables, add_written_values};
use crate::written::{Written, writes_one};
use adj_sets::BorrowedNames;
use adj_tree::{Code, Memory, Stmt};
use std::alloc::Global;

// The dummies that are extents.
fn extent_dummies<'a>(alloc: Global, outline: &Outline<'a>) -> Result<BorrowedNames<'a>, Memory>
    ensures { IfOk result (λ s. (x : Name) → has_name x s ≡ (is_extent x (map declaration_of outline.now.decls) && is_dummy (procedure_of outline.now) x)) }
{
    let mut places = Vec::new(alloc);
    add_extent_places(outline.unit().decls.as_slice(), &mut places)?;
    let mut dummies = BorrowedNames::new(alloc)?;
    for place in places.as_slice() {
        if outline.is_dummy(place.name) {
            dummies.insert(place.name)?;
        }
    }
    Ok(dummies)
}

// Adds a fault at each statement that may write one of some extents.
fn add_writes_of(
    alloc: Global,
    scope: &Scope<'_>,
    written: &Written,
    stmts: &[&Stmt],
    extents: &BorrowedNames<'_>,
    first: &mut First,
) -> Result<(), Memory>
    ensures { OnOk result (first.new ≡ sooner first.old (first_of (flat_map (λ s. faults_if (writes_one (row_of (map procedure_of scope.now) written.now) extents.now s.1) (fault 13 s.0)) (seen stmts.now)))) }
{
    for stmt in stmts {
        let is_hit = writes_one(alloc, scope, written, &stmt.act, extents)?;
        first.add_if(is_hit, Code::WrittenExtent, stmt.line);
    }
    Ok(())
}

// Adds a fault at each statement that may write a dummy which is an extent.
fn add_written_extents(
    alloc: Global,
    scope: &Scope<'_>,
    written: &Written,
    outline: &Outline<'_>,
    first: &mut First,
) -> Result<(), Memory>
    ensures { OnOk result (first.new ≡ sooner first.old (first_of (written_extents (row_of (map procedure_of scope.now) written.now) (procedure_of outline.now)))) }
{
    let extents = extent_dummies(alloc, outline)?;
    let stmts = outline.statements();
    add_writes_of(alloc, scope, written, stmts, &extents, first)?;
    Ok(())
}

// Adds the faults of what the statements of a unit may write.
fn add_unit_writes(
    alloc: Global,
    scope: &Scope<'_>,
    written: &Written,
    outline: &Outline<'_>,
    first: &mut First,
) -> Result<(), Memory>
    ensures { OnOk result (first.new ≡ sooner first.old (first_of (faults_of_writes (row_of (map procedure_of scope.now) written.now) (procedure_of outline.now)))) }
{
    add_written_variables(alloc, scope, written, outline, first)?;
    add_written_extents(alloc, scope, written, outline, first)?;
    add_shared_variables(alloc, scope, written, outline, first)?;
    add_written_values(scope, written, outline, first);
    Ok(())
}

/// Adds the faults of what statements may write, where it is known which of their dummies units write.
pub(crate) fn add_writes(
    alloc: Global,
    scope: &Scope<'_>,
    written: &Written,
    first: &mut First,
) -> Result<(), Memory>
    requires { written.now ≡ least_rows write_rule (map procedure_of scope.now) }
    ensures { OnOk result (first.new ≡ sooner first.old (first_of (write_faults (map procedure_of scope.now)))) }
{
    for outline in scope.outlines() {
        add_unit_writes(alloc, scope, written, outline, first)?;
    }
    Ok(())
}

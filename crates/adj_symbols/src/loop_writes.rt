//! Statements in the bodies of DOs that may write their variables.

ghost use Rattle.std.specs.Prelude.{◌≡◌, [], map, flat_map, IfOk, OnOk};
ghost use Rattle.adj_tree.specs.View.{act_of, code_of, procedure_of};
ghost use Rattle.def_meaning.specs.LeastSet.{row_of};
ghost use Rattle.def_names.specs.Fault.{first_of, sooner};
ghost use Rattle.def_names.specs.WriteFaults.{written_variables};
ghost use Rattle.adj_symbols.specs.Opening.{open_inner, open_faults};
ghost use Rattle.adj_symbols.specs.Writes.{writes_one};

use crate::first::First;
use crate::outline::Outline;
use crate::scope::Scope;
use crate::written::{Written, writes_one};
use adj_sets::BorrowedNames;
use adj_tree::{Act, Code, Memory, Stmts};
use std::alloc::Global;

// Adds a fault at each statement in a statement that may write a variable of an open DO.
#[cycle(open)]
fn add_inner<'a>(
    alloc: Global,
    scope: &Scope<'_>,
    written: &Written,
    act: &'a Act,
    opened: &mut BorrowedNames<'a>,
    first: &mut First,
) -> Result<(), Memory>
    ensures opened { OnOk result (opened.new ≡ opened.old) }
    ensures faults { OnOk result (first.new ≡ sooner first.old (first_of (open_inner (row_of (map procedure_of scope.now) written.now) (writes_one (row_of (map procedure_of scope.now) written.now) opened.old) (act_of act.now)))) }
{
    match act {
        Act::If(_, then, other) => {
            add_list(alloc, scope, written, then, opened, first)?;
            add_list(alloc, scope, written, other, opened, first)?;
            Ok(())
        }
        Act::Loop(name, _, _, _, body, _) => {
            let added = opened.insert(name)?;
            add_list(alloc, scope, written, body, opened, first)?;
            opened.take_back(added);
            Ok(())
        }
        Act::While(_, body) => add_list(alloc, scope, written, body, opened, first),
        Act::Assign(_, _) | Act::Call(_, _) | Act::Run(_) => Ok(()),
    }
}

// The same for a list of statements.
#[cycle(open)]
fn add_list<'a>(
    alloc: Global,
    scope: &Scope<'_>,
    written: &Written,
    list: &'a Stmts,
    opened: &mut BorrowedNames<'a>,
    first: &mut First,
) -> Result<(), Memory>
    ensures opened { OnOk result (opened.new ≡ opened.old) }
    ensures faults { OnOk result (first.new ≡ sooner first.old (first_of (open_faults (row_of (map procedure_of scope.now) written.now) (writes_one (row_of (map procedure_of scope.now) written.now) opened.old) (code_of list.now)))) }
{
    let mut rest = list;
    while let Stmts::More(row) = rest {
        let is_hit = writes_one(alloc, scope, written, &row.first.act, opened)?;
        first.add_if(is_hit, Code::LoopVariable, row.first.line);
        add_inner(alloc, scope, written, &row.first.act, opened, first)?;
        rest = &row.rest;
    }
    Ok(())
}

/// Adds a fault at each statement in the body of a DO that may write its variable. Each body is walked once.
pub(crate) fn add_written_variables(
    alloc: Global,
    scope: &Scope<'_>,
    written: &Written,
    outline: &Outline<'_>,
    first: &mut First,
) -> Result<(), Memory>
    ensures { OnOk result (first.new ≡ sooner first.old (first_of (written_variables (row_of (map procedure_of scope.now) written.now) (procedure_of outline.now)))) }
{
    let mut opened = BorrowedNames::new(alloc)?;
    add_list(
        alloc,
        scope,
        written,
        &outline.unit().body,
        &mut opened,
        first,
    )?;
    Ok(())
}

//! The statements of a unit at any depth, in one list.

ghost use Rattle.std.specs.Prelude.{◌≡◌, ◌++◌, List, ℕ, map, IfOk, OnOk};
ghost use Rattle.std.specs.Borrow.{Bor};
ghost use Rattle.adj_tree.specs.Code.{Act};
ghost use Rattle.adj_tree.specs.View.{act_of, code_of};
ghost use Rattle.def_names.specs.Statements.{inner, statements};
ghost use Rattle.adj_symbols_writes.specs.View.{seen};

use adj_tree::{Act, Memory, Stmt, Stmts};
use std::alloc::Global;

// Adds the statements in a statement.
#[cycle(statements)]
fn add_inner<'a>(act: &'a Act, out: &mut Vec<&'a Stmt>) -> Result<(), Memory>
    ensures { OnOk result (seen out.new.items ≡ seen out.old.items ++ inner (act_of act.now)) }
{
    match act {
        Act::If(_, then, other) => {
            add_statements(then, out)?;
            add_statements(other, out)
        }
        Act::Loop(_, _, _, _, body, _) | Act::While(_, body) => add_statements(body, out),
        Act::Assign(_, _) | Act::Call(_, _) | Act::Run(_) => Ok(()),
    }
}

// Adds the statements of a list, each before those in it.
#[cycle(statements)]
fn add_statements<'a>(list: &'a Stmts, out: &mut Vec<&'a Stmt>) -> Result<(), Memory>
    ensures { OnOk result (seen out.new.items ≡ seen out.old.items ++ statements (code_of list.now)) }
{
    let mut rest = list;
    while let Stmts::More(row) = rest {
        out.push(&row.first)?;
        add_inner(&row.first.act, out)?;
        rest = &row.rest;
    }
    Ok(())
}

/// The statements of a list at any depth in text order, an outer one before those in it.
pub fn statements<'a>(alloc: Global, list: &'a Stmts) -> Result<Vec<&'a Stmt>, Memory>
    ensures { IfOk result (λ v. seen v.items ≡ statements (code_of list.now)) }
{
    let mut out = Vec::new(alloc);
    add_statements(list, &mut out)?;
    Ok(out)
}

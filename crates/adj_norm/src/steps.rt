//! The step units of a unit (docs/KERNEL.md, "The steps").

ghost use Rattle.std.specs.Prelude.{◌≡◌, ◌≤◌, ◌+◌, ◌++◌, suc, ℕ, List, length, map, IfOk, OnOk};
ghost use Rattle.adj_tree.specs.Code.{Procedure, plain};
ghost use Rattle.adj_tree.specs.View.{act_of, code_of, mark_of, procedure_of};
ghost use Rattle.def_kernel.specs.Stepped.{marked_in_act, marked_in, step_unit, step_units_in_act, step_units_in};
ghost use Rattle.adj_norm.specs.Source.{Knows, marked_body, units_of_loop};

use crate::cutting::cut;
use crate::source::{Source, step_declarations, step_dummies};
use adj_tree::{Act, Items, Mark, Memory, Name, Stmt, Stmts, Unit};
use std::alloc::Global;

// The step unit of the marked loop of this number, at a line.
fn step_unit(
    alloc: Global,
    source: Source<'_>,
    number: usize,
    line: u32,
    x: &Name,
    body: &Stmts,
) -> Result<Unit, Memory>
    requires enough { number + suc (marked_in (code_of body.now)) ≤ length source.names.now }
    ensures unit { IfOk result (λ v. (taken : List (List ℕ)) (u : Procedure) → Knows source.entry taken u → procedure_of v ≡ step_unit taken u number line (plain x.now) (code_of body.now)) }
{
    let dummies = step_dummies(alloc, source, x, body)?;
    let decls = step_declarations(alloc, line, source.declared, dummies.as_slice())?;
    let made = cut(alloc, source, number + 1, body)?;
    let names = source.names;
    let name = names[number].copy(alloc)?;
    Ok(Unit {
        line,
        name,
        dummies: Items::new(dummies),
        none: false,
        decls: Items::new(decls),
        body: made.code,
    })
}

// Adds the step units of the marked loops in a statement, where marked loops stand before it, outer ones first.
#[cycle(steps)]
fn add_of_statement(
    alloc: Global,
    source: Source<'_>,
    first: usize,
    stmt: &Stmt,
    units: &mut Vec<Unit>,
) -> Result<usize, Memory>
    requires enough { first + marked_in_act (act_of stmt.now.act) ≤ length source.names.now }
    ensures next { IfOk result (λ n. n ≡ first + marked_in_act (act_of stmt.now.act)) }
    ensures units { OnOk result ((taken : List (List ℕ)) (u : Procedure) → Knows source.entry taken u → map procedure_of units.new.items ≡ map procedure_of units.old.items ++ step_units_in_act taken u first stmt.now.line (act_of stmt.now.act)) }
{
    let line = stmt.line;
    match &stmt.act {
        Act::Assign(_, _) => Ok(first),
        Act::Call(_, _) => Ok(first),
        Act::Run(_) => Ok(first),
        Act::If(_, a, b) => {
            let next = add_step_units(alloc, source, first, a, units)?;
            add_step_units(alloc, source, next, b, units)
        }
        Act::While(_, body) => { add_step_units(alloc, source, first, body, units) }
        Act::Loop(x, _, _, _, body, mark) => {
            add_of_loop(alloc, source, first, line, x, body, mark, units)
        }
    }
}

// The same of a loop.
#[cycle(steps)]
fn add_of_loop(
    alloc: Global,
    source: Source<'_>,
    first: usize,
    line: u32,
    x: &Name,
    body: &Stmts,
    mark: &Mark,
    units: &mut Vec<Unit>,
) -> Result<usize, Memory>
    requires enough { first + marked_body (code_of body.now) (mark_of mark.now) ≤ length source.names.now }
    ensures next { IfOk result (λ n. n ≡ first + marked_body (code_of body.now) (mark_of mark.now)) }
    ensures units { OnOk result ((taken : List (List ℕ)) (u : Procedure) → Knows source.entry taken u → map procedure_of units.new.items ≡ map procedure_of units.old.items ++ units_of_loop taken u first line (plain x.now) (code_of body.now) (mark_of mark.now)) }
{
    match mark {
        Mark::Plain => { add_step_units(alloc, source, first, body, units) }
        Mark::Count(_) | Mark::From(_) => {
            let unit = step_unit(alloc, source, first, line, x, body)?;
            units.push(unit)?;
            add_step_units(alloc, source, first + 1, body, units)
        }
    }
}

/// Adds the step units of the marked loops in a list, where marked loops stand before it, outer ones first.
#[cycle(steps)]
pub fn add_step_units(
    alloc: Global,
    source: Source<'_>,
    first: usize,
    code: &Stmts,
    units: &mut Vec<Unit>,
) -> Result<usize, Memory>
    requires enough { first + marked_in (code_of code.now) ≤ length source.names.now }
    ensures next { IfOk result (λ n. n ≡ first + marked_in (code_of code.now)) }
    ensures units { OnOk result ((taken : List (List ℕ)) (u : Procedure) → Knows source.entry taken u → map procedure_of units.new.items ≡ map procedure_of units.old.items ++ step_units_in taken u first (code_of code.now)) }
{
    let mut next = first;
    let mut current = code;
    while let Stmts::More(row) = current {
        next = add_of_statement(alloc, source, next, &row.first, units)?;
        current = &row.rest;
    }
    Ok(next)
}

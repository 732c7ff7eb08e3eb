//! Statements and lists of them, lowered (docs/KERNEL.md, "The steps"). Lists are gone through by loops.

ghost use Rattle.std.specs.Prelude.{◌≡◌, max, IfOk, OnOk};
ghost use Rattle.adj_tree.specs.Code.{plain, choose, loop, during, runtime};
ghost use Rattle.adj_tree.specs.View.{term_of, test_of, act_of, code_of, mark_of, runtime_of};
ghost use Rattle.def_meaning.specs.Append.{one};
ghost use Rattle.def_kernel.specs.Lowered.{lowered_act, lowered, locals_of_act, locals_of};
ghost use Rattle.adj_norm_statement.specs.Handed.{handed_by};
ghost use Rattle.adj_norm_statement.specs.Locals.{local_by};
ghost use Rattle.adj_norm_statement.specs.Steps.{Writes};

use crate::call::lower_call;
use crate::handed::Handed;
use crate::locals::Locals;
use crate::step::write;
use crate::target::lower_assignment;
use adj_tree::{Act, Cond, Expr, Mark, Memory, Name, RunCall, Stmt, Stmts};
use std::alloc::Global;

/// A list of statements that was lowered, and the most locals that one of them takes.
#[derive(Drop)]
pub struct Lowered {
    pub code: Stmts,
    pub most: usize,
}

/// Writes what becomes of a statement, and gives the most locals that one statement in it takes.
#[cycle(lowers)]
fn lower_statement(
    alloc: Global,
    locals: &mut Locals<'_>,
    handed: &Handed,
    stmt: &Stmt,
    steps: &mut Vec<Stmt>,
) -> Result<usize, Memory>
    ensures most { IfOk result (λ n. n ≡ locals_of_act (local_by locals.old) (handed_by handed.now) (act_of stmt.now.act)) }
    ensures steps { OnOk result (Writes steps.old.items steps.new.items (lowered_act (local_by locals.old) (handed_by handed.now) stmt.now.line (act_of stmt.now.act))) }
    ensures locals { OnOk result (local_by locals.new ≡ local_by locals.old) }
{
    let line = stmt.line;
    match &stmt.act {
        Act::Assign(place, e) => lower_assignment(alloc, locals, line, place, e, steps),
        Act::If(c, a, b) => {
            let first = lower(alloc, locals, handed, a)?;
            let second = lower(alloc, locals, handed, b)?;
            let most = write_if(alloc, line, c, first, second, steps)?;
            Ok(most)
        }
        Act::Loop(x, first, last, by, body, mark) => {
            let inner = lower(alloc, locals, handed, body)?;
            write_loop(alloc, line, x, first, last, by, inner, mark, steps)
        }
        Act::While(c, body) => {
            let inner = lower(alloc, locals, handed, body)?;
            write_while(alloc, line, c, inner, steps)
        }
        Act::Call(unit, actuals) => {
            let written = handed.written(unit);
            lower_call(alloc, locals, line, written, unit, actuals, steps)
        }
        Act::Run(call) => {
            write_run(alloc, line, call, steps)?;
            Ok(0)
        }
    }
}

// Writes an IF, and gives the most locals that one statement in it takes.
fn write_if(
    alloc: Global,
    line: u32,
    condition: &Cond,
    first: Lowered,
    second: Lowered,
    steps: &mut Vec<Stmt>,
) -> Result<usize, Memory>
    ensures most { IfOk result (λ n. n ≡ max first.most second.most) }
    ensures written { OnOk result (Writes steps.old.items steps.new.items (one line (choose (test_of condition.now) (code_of first.code) (code_of second.code)))) }
{
    let most = first.most.max(second.most);
    let same = condition.copy(alloc)?;
    write(line, Act::If(same, first.code, second.code), steps)?;
    Ok(most)
}

// Writes a DO, and gives the same.
fn write_loop(
    alloc: Global,
    line: u32,
    x: &Name,
    first: &Box<Expr>,
    last: &Box<Expr>,
    by: &Box<Expr>,
    body: Lowered,
    mark: &Mark,
    steps: &mut Vec<Stmt>,
) -> Result<usize, Memory>
    ensures most { IfOk result (λ n. n ≡ body.most) }
    ensures written { OnOk result (Writes steps.old.items steps.new.items (one line (loop (plain x.now) (term_of first.now.value) (term_of last.now.value) (term_of by.now.value) (code_of body.code) (mark_of mark.now)))) }
{
    let name = x.copy(alloc)?;
    let from = first.copy_boxed(alloc)?;
    let limit = last.copy_boxed(alloc)?;
    let stride = by.copy_boxed(alloc)?;
    let snapshots = mark.copy_boxed(alloc)?;
    let Lowered { code, most } = body;
    write(
        line,
        Act::Loop(name, from, limit, stride, code, snapshots),
        steps,
    )?;
    Ok(most)
}

// Writes a DO WHILE, and gives the same.
fn write_while(
    alloc: Global,
    line: u32,
    condition: &Cond,
    body: Lowered,
    steps: &mut Vec<Stmt>,
) -> Result<usize, Memory>
    ensures most { IfOk result (λ n. n ≡ body.most) }
    ensures written { OnOk result (Writes steps.old.items steps.new.items (one line (during (test_of condition.now) (code_of body.code)))) }
{
    let same = condition.copy(alloc)?;
    let Lowered { code, most } = body;
    write(line, Act::While(same, code), steps)?;
    Ok(most)
}

// Writes a call of the runtime.
fn write_run(alloc: Global, line: u32, call: &RunCall, steps: &mut Vec<Stmt>) -> Result<(), Memory>
    ensures written { OnOk result (Writes steps.old.items steps.new.items (one line (runtime (runtime_of call.now)))) }
{
    let same = call.copy(alloc)?;
    write(line, Act::Run(same), steps)
}

/// A list of statements lowered.
#[cycle(lowers)]
pub fn lower(
    alloc: Global,
    locals: &mut Locals<'_>,
    handed: &Handed,
    code: &Stmts,
) -> Result<Lowered, Memory>
    ensures code { IfOk result (λ l. code_of l.code ≡ lowered (local_by locals.old) (handed_by handed.now) (code_of code.now)) }
    ensures most { IfOk result (λ l. l.most ≡ locals_of (local_by locals.old) (handed_by handed.now) (code_of code.now)) }
    ensures locals { OnOk result (local_by locals.new ≡ local_by locals.old) }
{
    let mut steps = Vec::new(alloc);
    let most = lower_onto(alloc, locals, handed, code, &mut steps)?;
    let code = Stmts::from_vec(alloc, steps)?;
    Ok(Lowered { code, most })
}

// Writes what becomes of the statements of a list.
#[cycle(lowers)]
fn lower_onto(
    alloc: Global,
    locals: &mut Locals<'_>,
    handed: &Handed,
    code: &Stmts,
    steps: &mut Vec<Stmt>,
) -> Result<usize, Memory>
    ensures most { IfOk result (λ n. n ≡ locals_of (local_by locals.old) (handed_by handed.now) (code_of code.now)) }
    ensures steps { OnOk result (Writes steps.old.items steps.new.items (lowered (local_by locals.old) (handed_by handed.now) (code_of code.now))) }
    ensures locals { OnOk result (local_by locals.new ≡ local_by locals.old) }
{
    let mut most: usize = 0;
    let mut current = code;
    while let Stmts::More(row) = current {
        let taken = lower_statement(alloc, locals, handed, &row.first, steps)?;
        most = most.max(taken);
        current = &row.rest;
    }
    Ok(most)
}

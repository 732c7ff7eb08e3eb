//! Lists whose marked loops hold the calls of their step units (docs/KERNEL.md, "The steps").

ghost use Rattle.std.specs.Prelude.{◌≡◌, ◌≤◌, ◌+◌, suc, ℕ, List, length, IfOk, OnOk};
ghost use Rattle.adj_tree.specs.Code.{Procedure, plain};
ghost use Rattle.adj_tree.specs.View.{act_of, code_of, mark_of};
ghost use Rattle.def_meaning.specs.Append.{one};
ghost use Rattle.def_kernel.specs.Stepped.{marked_in_act, marked_in, cut_act, cut, step_call};
ghost use Rattle.adj_norm_statement.specs.Steps.{Writes};
ghost use Rattle.adj_norm.specs.Source.{Knows, cut_body, marked_body};

use crate::marked::marked_in;
use crate::source::{Source, as_actuals, step_dummies};
use adj_norm_statement::step::{plus, write};
use adj_tree::{Act, Mark, Memory, Name, Stmt, Stmts};
use std::alloc::Global;

/// A list that was cut, and how many marked loops stand before what comes next.
#[derive(Drop)]
pub struct CutCode {
    pub code: Stmts,
    pub next: usize,
}

// The call of the step unit of a marked loop with this variable and body.
fn step_call(
    alloc: Global,
    source: Source<'_>,
    first: usize,
    x: &Name,
    body: &Stmts,
) -> Result<Act, Memory>
    requires enough { first + 1 ≤ length source.names.now }
    ensures call { IfOk result (λ a. (taken : List (List ℕ)) (u : Procedure) → Knows source.entry taken u → act_of a ≡ step_call taken u first (plain x.now) (code_of body.now)) }
{
    let dummies = step_dummies(alloc, source, x, body)?;
    let actuals = as_actuals(alloc, dummies.as_slice())?;
    let names = source.names;
    let name = names[first].copy(alloc)?;
    Ok(Act::Call(name, actuals))
}

// A list of one statement.
fn only(alloc: Global, line: u32, act: Act) -> Result<Stmts, Memory>
    ensures one { IfOk result (λ c. code_of c ≡ one line (act_of act)) }
{
    let stmt = Stmt { line, act };
    Stmts::Empty.behind(alloc, stmt)
}

// The body of a loop.
#[cycle(cuts)]
fn cut_body(
    alloc: Global,
    source: Source<'_>,
    first: usize,
    line: u32,
    x: &Name,
    body: &Stmts,
    mark: &Mark,
) -> Result<CutCode, Memory>
    requires enough { first + marked_body (code_of body.now) (mark_of mark.now) ≤ length source.names.now }
    ensures next { IfOk result (λ c. c.next ≡ first + marked_body (code_of body.now) (mark_of mark.now)) }
    ensures code { IfOk result (λ c. (taken : List (List ℕ)) (u : Procedure) → Knows source.entry taken u → code_of c.code ≡ cut_body taken u first line (plain x.now) (code_of body.now) (mark_of mark.now)) }
{
    match mark {
        Mark::Plain => { cut(alloc, source, first, body) }
        Mark::Count(_) | Mark::From(_) => { cut_marked(alloc, source, first, line, x, body) }
    }
}

// The body of a marked loop.
fn cut_marked(
    alloc: Global,
    source: Source<'_>,
    first: usize,
    line: u32,
    x: &Name,
    body: &Stmts,
) -> Result<CutCode, Memory>
    requires enough { first + suc (marked_in (code_of body.now)) ≤ length source.names.now }
    ensures next { IfOk result (λ c. c.next ≡ first + suc (marked_in (code_of body.now))) }
    ensures code { IfOk result (λ c. (taken : List (List ℕ)) (u : Procedure) → Knows source.entry taken u → code_of c.code ≡ one line (step_call taken u first (plain x.now) (code_of body.now))) }
{
    let inner = marked_in(body)?;
    let call = step_call(alloc, source, first, x, body)?;
    let code = only(alloc, line, call)?;
    let next = plus(first + 1, inner)?;
    Ok(CutCode { code, next })
}

// Writes an equal statement.
fn keep(alloc: Global, stmt: &Stmt, out: &mut Vec<Stmt>) -> Result<(), Memory>
    ensures written { OnOk result (Writes out.old.items out.new.items (one stmt.now.line (act_of stmt.now.act))) }
{
    let same = stmt.copy(alloc)?;
    write(stmt.line, same.into_act(), out)
}

// Writes a statement whose marked loops hold the calls of their step units, where marked loops stand before it.
#[cycle(cuts)]
fn cut_statement(
    alloc: Global,
    source: Source<'_>,
    first: usize,
    stmt: &Stmt,
    out: &mut Vec<Stmt>,
) -> Result<usize, Memory>
    requires enough { first + marked_in_act (act_of stmt.now.act) ≤ length source.names.now }
    ensures next { IfOk result (λ n. n ≡ first + marked_in_act (act_of stmt.now.act)) }
    ensures written { OnOk result ((taken : List (List ℕ)) (u : Procedure) → Knows source.entry taken u → Writes out.old.items out.new.items (one stmt.now.line (cut_act taken u first stmt.now.line (act_of stmt.now.act)))) }
{
    let line = stmt.line;
    match &stmt.act {
        Act::If(c, a, b) => {
            let then = cut(alloc, source, first, a)?;
            let other = cut(alloc, source, then.next, b)?;
            let condition = c.copy(alloc)?;
            write(line, Act::If(condition, then.code, other.code), out)?;
            Ok(other.next)
        }
        Act::Loop(x, from, limit, by, body, mark) => {
            let inner = cut_body(alloc, source, first, line, x, body, mark)?;
            let name = x.copy(alloc)?;
            let start = from.copy_boxed(alloc)?;
            let last = limit.copy_boxed(alloc)?;
            let stride = by.copy_boxed(alloc)?;
            let snapshots = mark.copy_boxed(alloc)?;
            write(
                line,
                Act::Loop(name, start, last, stride, inner.code, snapshots),
                out,
            )?;
            Ok(inner.next)
        }
        Act::While(c, body) => {
            let inner = cut(alloc, source, first, body)?;
            let condition = c.copy(alloc)?;
            write(line, Act::While(condition, inner.code), out)?;
            Ok(inner.next)
        }
        Act::Assign(_, _) => {
            keep(alloc, stmt, out)?;
            Ok(first)
        }
        Act::Call(_, _) => {
            keep(alloc, stmt, out)?;
            Ok(first)
        }
        Act::Run(_) => {
            keep(alloc, stmt, out)?;
            Ok(first)
        }
    }
}

/// A list whose marked loops hold the calls of their step units.
#[cycle(cuts)]
pub fn cut(alloc: Global, source: Source<'_>, first: usize, code: &Stmts) -> Result<CutCode, Memory>
    requires enough { first + marked_in (code_of code.now) ≤ length source.names.now }
    ensures next { IfOk result (λ c. c.next ≡ first + marked_in (code_of code.now)) }
    ensures code { IfOk result (λ c. (taken : List (List ℕ)) (u : Procedure) → Knows source.entry taken u → code_of c.code ≡ cut taken u first (code_of code.now)) }
{
    let mut out = Vec::new(alloc);
    let next = cut_onto(alloc, source, first, code, &mut out)?;
    let code = Stmts::from_vec(alloc, out)?;
    Ok(CutCode { code, next })
}

// Writes such a list.
#[cycle(cuts)]
fn cut_onto(
    alloc: Global,
    source: Source<'_>,
    first: usize,
    code: &Stmts,
    out: &mut Vec<Stmt>,
) -> Result<usize, Memory>
    requires enough { first + marked_in (code_of code.now) ≤ length source.names.now }
    ensures next { IfOk result (λ n. n ≡ first + marked_in (code_of code.now)) }
    ensures written { OnOk result ((taken : List (List ℕ)) (u : Procedure) → Knows source.entry taken u → Writes out.old.items out.new.items (cut taken u first (code_of code.now))) }
{
    let mut next = first;
    let mut current = code;
    while let Stmts::More(row) = current {
        next = cut_statement(alloc, source, next, &row.first, out)?;
        current = &row.rest;
    }
    Ok(next)
}

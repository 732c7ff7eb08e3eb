//! Statements.

ghost use Rattle.std.specs.Prelude.{◌≡◌, ◌++◌, ◌∷◌, codes, OnOk};
ghost use Rattle.adj_tree.specs.Code.{plain};
ghost use Rattle.adj_tree.specs.View.{term_of, terms_of, test_of, runtime_of, mark_of, act_of, code_of};
ghost use Rattle.def_text.specs.Text.{statement, term_text, term_texts, test_text, place_text, call_text, runtime_name, runtime_actuals, directive, is_one, step_text, act_text, code_text, else_text, var_text};

use crate::condition::push_cond;
use crate::expression::{push_expr, push_exprs, push_place};
use crate::layout::push_statement;
use crate::list::{push_count, push_name};
use crate::runtime::{push_runtime_actuals, push_runtime_name};
use adj_tree::{Act, Cond, Expr, Exprs, Mark, Memory, Name, Place, RunCall, Stmt, Stmts};
use std::alloc::Global;
use std::mem;

fn push_assignment(
    chars: &mut Vec<u8>,
    out: &mut Vec<u8>,
    place: &Place,
    value: &Expr,
) -> Result<(), Memory>
    ensures lines { OnOk result (out.new.items ≡ out.old.items ++ statement (place_text (plain place.now.name) (terms_of place.now.subs) ++ 61 ∷ term_text (term_of value.now))) }
{
    chars.clear();
    push_place(chars, place)?;
    chars.push(b'=')?;
    push_expr(chars, value)?;
    push_statement(out, chars.as_slice())
}

fn push_if(chars: &mut Vec<u8>, out: &mut Vec<u8>, cond: &Cond) -> Result<(), Memory>
    ensures lines { OnOk result (out.new.items ≡ out.old.items ++ statement (codes "IF (" ++ test_text (test_of cond.now) ++ codes ") THEN")) }
{
    chars.clear();
    chars.extend_from_slice(b"IF (")?;
    push_cond(chars, cond)?;
    chars.extend_from_slice(b") THEN")?;
    push_statement(out, chars.as_slice())
}

fn push_while(chars: &mut Vec<u8>, out: &mut Vec<u8>, cond: &Cond) -> Result<(), Memory>
    ensures lines { OnOk result (out.new.items ≡ out.old.items ++ statement (codes "DO WHILE (" ++ test_text (test_of cond.now) ++ codes ")")) }
{
    chars.clear();
    chars.extend_from_slice(b"DO WHILE (")?;
    push_cond(chars, cond)?;
    chars.push(b')')?;
    push_statement(out, chars.as_slice())
}

fn push_directive(out: &mut Vec<u8>, mark: &Mark) -> Result<(), Memory>
    ensures line { OnOk result (out.new.items ≡ out.old.items ++ directive (mark_of mark.now)) }
{
    match mark {
        Mark::Plain => return Ok(()),
        Mark::Count(snapshots) => {
            out.extend_from_slice(b"C$AD BINOMIAL-CKP ")?;
            push_count(out, *snapshots)?;
        }
        Mark::From(name) => {
            out.extend_from_slice(b"C$AD BINOMIAL-CKP ")?;
            push_name(out, name)?;
        }
    }
    out.push(b'\n')?;
    Ok(())
}

fn is_one(step: &Expr) -> bool
    ensures one { result ≡ is_one (term_of step.now) }
{
    match step {
        Expr::Lit(number) => *number == 1,
        _ => false,
    }
}

fn push_step(out: &mut Vec<u8>, step: &Expr) -> Result<(), Memory>
    ensures characters { OnOk result (out.new.items ≡ out.old.items ++ step_text (term_of step.now)) }
{
    if !is_one(step) {
        out.push(b',')?;
        push_expr(out, step)?;
    }
    Ok(())
}

fn push_do(
    chars: &mut Vec<u8>,
    out: &mut Vec<u8>,
    var: &Name,
    first: &Expr,
    limit: &Expr,
    step: &Expr,
) -> Result<(), Memory>
    ensures lines { OnOk result (out.new.items ≡ out.old.items ++ statement (codes "DO " ++ var.now ++ 61 ∷ term_text (term_of first.now) ++ 44 ∷ term_text (term_of limit.now) ++ step_text (term_of step.now))) }
{
    chars.clear();
    chars.extend_from_slice(b"DO ")?;
    push_name(chars, var)?;
    chars.push(b'=')?;
    push_expr(chars, first)?;
    chars.push(b',')?;
    push_expr(chars, limit)?;
    push_step(chars, step)?;
    push_statement(out, chars.as_slice())
}

fn push_call(
    chars: &mut Vec<u8>,
    out: &mut Vec<u8>,
    name: &Name,
    actuals: &Exprs,
) -> Result<(), Memory>
    ensures lines { OnOk result (out.new.items ≡ out.old.items ++ call_text name.now (term_texts (terms_of actuals.now))) }
{
    chars.clear();
    chars.extend_from_slice(b"CALL ")?;
    push_name(chars, name)?;
    push_exprs(chars, actuals)?;
    push_statement(out, chars.as_slice())
}

fn push_runtime(chars: &mut Vec<u8>, out: &mut Vec<u8>, call: &RunCall) -> Result<(), Memory>
    ensures lines { OnOk result (out.new.items ≡ out.old.items ++ call_text (runtime_name (runtime_of call.now)) (runtime_actuals (runtime_of call.now))) }
{
    chars.clear();
    chars.extend_from_slice(b"CALL ")?;
    push_runtime_name(chars, call)?;
    push_runtime_actuals(chars, call)?;
    push_statement(out, chars.as_slice())
}

#[cycle(push)]
fn push_stmt(chars: &mut Vec<u8>, out: &mut Vec<u8>, stmt: &Stmt) -> Result<(), Memory>
    ensures lines { OnOk result (out.new.items ≡ out.old.items ++ act_text (act_of stmt.now.act)) }
{
    match &stmt.act {
        Act::Assign(place, value) => push_assignment(chars, out, place, value),
        Act::If(cond, then, other) => {
            push_if(chars, out, cond)?;
            push_stmts(chars, out, then)?;
            push_else(chars, out, other)?;
            push_statement(out, b"END IF")
        }
        Act::Loop(var, first, limit, step, body, mark) => {
            push_directive(out, mark)?;
            push_do(chars, out, var, first, limit, step)?;
            push_stmts(chars, out, body)?;
            push_statement(out, b"END DO")
        }
        Act::While(cond, body) => {
            push_while(chars, out, cond)?;
            push_stmts(chars, out, body)?;
            push_statement(out, b"END DO")
        }
        Act::Call(name, actuals) => push_call(chars, out, name, actuals),
        Act::Run(call) => push_runtime(chars, out, call),
    }
}

#[cycle(push)]
fn push_else(chars: &mut Vec<u8>, out: &mut Vec<u8>, other: &Stmts) -> Result<(), Memory>
    ensures lines { OnOk result (out.new.items ≡ out.old.items ++ else_text (code_of other.now)) }
{
    if let Stmts::More(row) = other {
        push_statement(out, b"ELSE")?;
        push_stmt(chars, out, &row.first)?;
        push_stmts(chars, out, &row.rest)?;
    }
    Ok(())
}

/// Adds the lines of statements in order.
#[cycle(push)]
pub fn push_stmts(chars: &mut Vec<u8>, out: &mut Vec<u8>, list: &Stmts) -> Result<(), Memory>
    ensures lines { OnOk result (out.new.items ≡ out.old.items ++ code_text (code_of list.now)) }
{
    let mut current = list;
    while let Stmts::More(row) = current {
        push_stmt(chars, out, &row.first)?;
        current = &row.rest;
    }
    Ok(())
}

/// How many statements are let go until the buffer is taken anew.
const TURN: usize = 256;

/// The size of the buffer that is taken then.
const BLOCK: usize = 1 << 16;

/// Adds the lines of statements in order, each of which is let go when its lines are there. Now and then the buffer is taken anew:
/// allocators join the small blocks that are free, and give memory back to the system, when a large block is taken and let go.
pub fn push_each(
    alloc: Global,
    chars: &mut Vec<u8>,
    out: &mut Vec<u8>,
    list: Stmts,
) -> Result<(), Memory>
    ensures lines { OnOk result (out.new.items ≡ out.old.items ++ code_text (code_of list)) }
{
    let mut current = list;
    let mut passed = 0usize;
    loop {
        let rest = match &mut current {
            Stmts::Empty => return Ok(()),
            Stmts::More(row) => {
                push_stmt(chars, out, &row.first)?;
                mem::replace(&mut row.rest, Stmts::Empty)
            }
        };
        current = rest;
        passed = passed.wrapping_add(1);
        if passed % TURN == 0 {
            *chars = Vec::with_capacity(alloc, BLOCK)?;
        }
    }
}

//! Expressions and places. Parentheses stand exactly where an operand's level is below that of its place.

ghost use Rattle.std.specs.Prelude.{◌≡◌, ◌++◌, OnOk, nat_lt};
ghost use Rattle.adj_tree.specs.Code.{plain};
ghost use Rattle.adj_tree.specs.View.{op_of, term_of, terms_of};
ghost use Rattle.def_text.specs.Text.{op_level, left_place, right_place, opening, between, closing, term_level, enclosed, term_text, term_texts, behind_commas, bracketed, place_text};

use crate::list::{push_count, push_name, push_number};
use adj_tree::{Expr, Exprs, Memory, Op, Place};

fn op_level(op: Op) -> u8
    ensures level { result ≡ op_level (op_of op) }
{
    match op {
        Op::Add | Op::Sub => 0,
        Op::Mul | Op::Quot => 1,
        Op::Mod | Op::Max | Op::Min => 3,
    }
}

fn left_place(op: Op) -> u8
    ensures level { result ≡ left_place (op_of op) }
{
    match op {
        Op::Mul | Op::Quot => 1,
        Op::Add | Op::Sub | Op::Mod | Op::Max | Op::Min => 0,
    }
}

fn right_place(op: Op) -> u8
    ensures level { result ≡ right_place (op_of op) }
{
    match op {
        Op::Add | Op::Sub => 1,
        Op::Mul | Op::Quot => 2,
        Op::Mod | Op::Max | Op::Min => 0,
    }
}

fn between(op: Op) -> u8
    ensures character { result ≡ between (op_of op) }
{
    match op {
        Op::Add => b'+',
        Op::Sub => b'-',
        Op::Mul => b'*',
        Op::Quot => b'/',
        Op::Mod | Op::Max | Op::Min => b',',
    }
}

fn opening(op: Op) -> &'static [u8]
    ensures text { result.now ≡ opening (op_of op) }
{
    match op {
        Op::Mod => b"MOD(",
        Op::Max => b"MAX(",
        Op::Min => b"MIN(",
        Op::Add | Op::Sub | Op::Mul | Op::Quot => b"",
    }
}

fn closing(op: Op) -> &'static [u8]
    ensures text { result.now ≡ closing (op_of op) }
{
    match op {
        Op::Mod | Op::Max | Op::Min => b")",
        Op::Add | Op::Sub | Op::Mul | Op::Quot => b"",
    }
}

fn term_level(expr: &Expr) -> u8
    ensures level { result ≡ term_level (term_of expr.now) }
{
    match expr {
        Expr::Lit(_) | Expr::Var(_) | Expr::Elem(_, _) | Expr::Abs(_) => 3,
        Expr::Neg(_) => 0,
        Expr::Bin(op, _, _) => op_level(*op),
        Expr::Pow(_, _) | Expr::Power(_, _) => 2,
    }
}

/// Adds the characters of an expression.
#[cycle(push)]
pub fn push_expr(out: &mut Vec<u8>, expr: &Expr) -> Result<(), Memory>
    ensures characters { OnOk result (out.new.items ≡ out.old.items ++ term_text (term_of expr.now)) }
{
    match expr {
        Expr::Lit(number) => push_number(out, *number),
        Expr::Var(name) => push_name(out, name),
        Expr::Elem(name, subs) => {
            push_name(out, name)?;
            push_exprs(out, subs)
        }
        Expr::Neg(inner) => {
            out.push(b'-')?;
            push_operand(out, inner, 1)
        }
        Expr::Bin(op, left, right) => {
            out.extend_from_slice(opening(*op))?;
            push_operand(out, left, left_place(*op))?;
            out.push(between(*op))?;
            push_operand(out, right, right_place(*op))?;
            out.extend_from_slice(closing(*op))?;
            Ok(())
        }
        Expr::Pow(base, exponent) => {
            push_operand(out, base, 3)?;
            out.extend_from_slice(b"**")?;
            push_count(out, *exponent)
        }
        Expr::Power(base, exponent) => {
            push_operand(out, base, 3)?;
            out.extend_from_slice(b"**")?;
            push_operand(out, exponent, 2)
        }
        Expr::Abs(inner) => {
            out.extend_from_slice(b"ABS(")?;
            push_expr(out, inner)?;
            out.push(b')')?;
            Ok(())
        }
    }
}

#[cycle(push)]
fn push_operand(out: &mut Vec<u8>, expr: &Expr, place: u8) -> Result<(), Memory>
    ensures characters { OnOk result (out.new.items ≡ out.old.items ++ enclosed (nat_lt (term_level (term_of expr.now)) place) (term_text (term_of expr.now))) }
{
    if term_level(expr) < place {
        out.push(b'(')?;
        push_expr(out, expr)?;
        out.push(b')')?;
        Ok(())
    } else {
        push_expr(out, expr)
    }
}

/// Adds expressions in parentheses, or nothing where there are none.
#[cycle(push)]
pub fn push_exprs(out: &mut Vec<u8>, list: &Exprs) -> Result<(), Memory>
    ensures characters { OnOk result (out.new.items ≡ out.old.items ++ bracketed (term_texts (terms_of list.now))) }
{
    if let Exprs::More(first, rest) = list {
        out.push(b'(')?;
        push_expr(out, first)?;
        push_others(out, rest)?;
    }
    Ok(())
}

#[cycle(push)]
fn push_others(out: &mut Vec<u8>, list: &Exprs) -> Result<(), Memory>
    ensures characters { OnOk result (out.new.items ≡ out.old.items ++ behind_commas (term_texts (terms_of list.now))) }
{
    let mut current = list;
    while let Exprs::More(first, rest) = current {
        out.push(b',')?;
        push_expr(out, first)?;
        current = rest;
    }
    out.push(b')')?;
    Ok(())
}

/// Adds a scalar, or an element with its subscripts.
pub fn push_place(out: &mut Vec<u8>, place: &Place) -> Result<(), Memory>
    ensures characters { OnOk result (out.new.items ≡ out.old.items ++ place_text (plain place.now.name) (terms_of place.now.subs)) }
{
    push_name(out, &place.name)?;
    push_exprs(out, &place.subs)
}

//! Names with arguments: elements and intrinsics.

ghost use Rattle.std.specs.Prelude.{◌≡◌, IfOk};
ghost use Rattle.adj_tree.specs.Code.{more};
ghost use Rattle.adj_tree.specs.View.{term_of, terms_of};
ghost use Rattle.def_text.specs.Grammar.{operation_of, two_arguments};
ghost use Rattle.adj_parse_expression.specs.Partial.{one_argument};

use crate::intrinsic::{is_absolute, operation_of};
use adj_tree::{Expr, Exprs, Memory, Name, boxed};
use std::alloc::Global;

// The list with this front.
fn list_of(alloc: Global, first: Box<Expr>, rest: Exprs) -> Result<Exprs, Memory>
    ensures { IfOk result (λ all. terms_of all ≡ more (term_of first.value) (terms_of rest)) }
{
    let rest = boxed(alloc, rest)?;
    Ok(Exprs::More(first, rest))
}

/// An element with one subscript, or an absolute value.
pub(crate) fn one_argument(name: Name, alloc: Global, argument: Box<Expr>) -> Result<Expr, Memory>
    ensures { IfOk result (λ e. term_of e ≡ one_argument name (term_of argument.value)) }
{
    if is_absolute(name.bytes()) {
        return Ok(Expr::Abs(argument));
    }
    let all = list_of(alloc, argument, Exprs::Empty)?;
    let subs = boxed(alloc, all)?;
    Ok(Expr::Elem(name, subs))
}

/// An element with two subscripts, or an intrinsic with its arguments.
pub(crate) fn two_arguments(
    name: Name,
    alloc: Global,
    first: Box<Expr>,
    second: Box<Expr>,
) -> Result<Expr, Memory>
    ensures { IfOk result (λ e. term_of e ≡ two_arguments name (operation_of name) (term_of first.value) (term_of second.value)) }
{
    if let Some(op) = operation_of(name.bytes()) {
        return Ok(Expr::Bin(op, first, second));
    }
    let rest = list_of(alloc, second, Exprs::Empty)?;
    let all = list_of(alloc, first, rest)?;
    let subs = boxed(alloc, all)?;
    Ok(Expr::Elem(name, subs))
}

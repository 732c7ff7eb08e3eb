//! Dummies and actuals of calls.

ghost use Rattle.std.specs.Prelude.{◌≡◌, ◌++◌, [], IfOk, OnOk, map};
ghost use Rattle.adj_tree.specs.View.{term_of, terms_of};
ghost use Rattle.def_flow.specs.Problem.{name_of};
ghost use Rattle.adj_tbr.specs.Bound.{passed_of, with_place, bound_from};

use adj_tree::{Expr, Exprs, Memory, Name};
use std::alloc::Global;

/// A dummy with its place among the dummies of its unit, and its actual.
#[derive(Clone, Copy)]
pub(crate) struct Bound<'a> {
    pub place: usize,
    pub dummy: &'a Name,
    pub actual: &'a Name,
}

// Adds a dummy at a place with its actual, if that is a variable.
fn add_bound<'a>(
    bounds: &mut Vec<Bound<'a>>,
    place: usize,
    dummy: &'a Name,
    actual: &'a Expr,
) -> Result<(), Memory>
    ensures added { OnOk result (map passed_of bounds.new.items ≡ map passed_of bounds.old.items ++ with_place place dummy.now (name_of (term_of actual.now)) []) }
{
    match actual {
        Expr::Var(actual) => {
            bounds.push(Bound {
                place,
                dummy,
                actual,
            })?;
            Ok(())
        }
        Expr::Lit(_)
        | Expr::Elem(_, _)
        | Expr::Neg(_)
        | Expr::Bin(_, _, _)
        | Expr::Pow(_, _)
        | Expr::Power(_, _)
        | Expr::Abs(_) => Ok(()),
    }
}

/// The dummies with their actuals that are variables.
pub(crate) fn bounds<'a>(
    alloc: Global,
    dummies: &'a [Name],
    actuals: &'a Exprs,
) -> Result<Vec<Bound<'a>>, Memory>
    ensures bounds { IfOk result (λ v. map passed_of v.items ≡ bound_from 0 dummies.now (terms_of actuals.now)) }
{
    let mut bounds = Vec::new(alloc);
    let mut rest = actuals;
    for (place, dummy) in dummies.iter().enumerate() {
        match rest {
            Exprs::Empty => return Ok(bounds),
            Exprs::More(first, next) => {
                add_bound(&mut bounds, place, dummy, first)?;
                rest = next;
            }
        }
    }
    Ok(bounds)
}

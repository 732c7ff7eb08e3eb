//! The variables in expressions that are wanted, and actuals of flagged dummies, in one list.

ghost use Rattle.std.specs.Prelude.{◌≡◌, ◌++◌, OnOk};
ghost use Rattle.adj_tree.specs.View.{term_of, terms_of};
ghost use Rattle.def_flow.specs.Problem.{name_of};
ghost use Rattle.def_flow.specs.Rules.{list_of};
ghost use Rattle.def_names.specs.VariableLists.{list_if, vars_in_terms};
ghost use Rattle.adj_symbols_writes.specs.View.{vars_seen};
ghost use Rattle.adj_flow.specs.Passed.{passed_in};

use adj_symbols_writes::variables::{add_if, add_terms};
use adj_tree::{Expr, Exprs, Memory, Name};

/// Adds what stands in some expressions, if it is wanted.
pub fn add_terms_if<'a>(
    terms: &'a Exprs,
    is_wanted: bool,
    out: &mut Vec<&'a Name>,
) -> Result<(), Memory>
    ensures added { OnOk result (vars_seen out.new.items ≡ vars_seen out.old.items ++ list_if is_wanted (vars_in_terms (terms_of terms.now))) }
{
    if is_wanted {
        add_terms(terms, out)?;
    }
    Ok(())
}

// Adds the variable that an actual is, if its dummy is flagged.
fn add_name<'a>(actual: &'a Expr, is_flagged: bool, out: &mut Vec<&'a Name>) -> Result<(), Memory>
    ensures added { OnOk result (vars_seen out.new.items ≡ vars_seen out.old.items ++ list_if is_flagged (list_of (name_of (term_of actual.now)))) }
{
    match actual {
        Expr::Var(name) => add_if(name, is_flagged, out),
        Expr::Lit(_)
        | Expr::Elem(_, _)
        | Expr::Neg(_)
        | Expr::Bin(_, _, _)
        | Expr::Pow(_, _)
        | Expr::Power(_, _)
        | Expr::Abs(_) => Ok(()),
    }
}

/// Adds the actuals of flagged dummies that are variables.
pub fn add_passed<'a>(
    flags: &[bool],
    actuals: &'a Exprs,
    out: &mut Vec<&'a Name>,
) -> Result<(), Memory>
    ensures added { OnOk result (vars_seen out.new.items ≡ vars_seen out.old.items ++ passed_in flags.now (terms_of actuals.now)) }
{
    let mut rest = actuals;
    for is_flagged in flags {
        match rest {
            Exprs::Empty => return Ok(()),
            Exprs::More(first, next) => {
                add_name(first, *is_flagged, out)?;
                rest = next;
            }
        }
    }
    Ok(())
}

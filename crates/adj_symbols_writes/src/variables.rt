//! The variables that stand in expressions, and those of actuals by flags of the dummies, in one list.

ghost use Rattle.std.specs.Prelude.{◌≡◌, ◌++◌, ◌∷◌, [], false, OnOk};
ghost use Rattle.adj_tree.specs.Code.{plain};
ghost use Rattle.adj_tree.specs.View.{term_of, terms_of, test_of, mark_of};
ghost use Rattle.def_names.specs.VariableLists.{list_if, vars_in, vars_in_terms, vars_in_test, vars_in_mark, read_in_actual, read_in_actuals, place_of_actual, handed_in_actuals};
ghost use Rattle.adj_symbols_writes.specs.View.{vars_seen};

use adj_tree::{Cond, Expr, Exprs, Mark, Memory, Name};

/// Adds what stands in an expression.
#[cycle(term)]
pub fn add_term<'a>(term: &'a Expr, out: &mut Vec<&'a Name>) -> Result<(), Memory>
    ensures added { OnOk result (vars_seen out.new.items ≡ vars_seen out.old.items ++ vars_in (term_of term.now)) }
{
    match term {
        Expr::Lit(_) => Ok(()),
        Expr::Var(name) => {
            out.push(name)?;
            Ok(())
        }
        Expr::Elem(name, subs) => {
            out.push(name)?;
            add_terms(subs, out)
        }
        Expr::Neg(a) | Expr::Pow(a, _) | Expr::Abs(a) => add_term(a, out),
        Expr::Bin(_, a, b) | Expr::Power(a, b) => {
            add_term(a, out)?;
            add_term(b, out)
        }
    }
}

/// The same of some expressions.
#[cycle(term)]
pub fn add_terms<'a>(terms: &'a Exprs, out: &mut Vec<&'a Name>) -> Result<(), Memory>
    ensures added { OnOk result (vars_seen out.new.items ≡ vars_seen out.old.items ++ vars_in_terms (terms_of terms.now)) }
{
    let mut rest = terms;
    while let Exprs::More(first, next) = rest {
        add_term(first, out)?;
        rest = next;
    }
    Ok(())
}

/// Adds what stands in a condition.
pub fn add_test<'a>(test: &'a Cond, out: &mut Vec<&'a Name>) -> Result<(), Memory>
    ensures added { OnOk result (vars_seen out.new.items ≡ vars_seen out.old.items ++ vars_in_test (test_of test.now)) }
{
    match test {
        Cond::Cmp(_, a, b) => {
            add_term(a, out)?;
            add_term(b, out)
        }
        Cond::Not(c) => add_test(c, out),
        Cond::And(c, d) | Cond::Or(c, d) => {
            add_test(c, out)?;
            add_test(d, out)
        }
    }
}

/// Adds the variable that says how many snapshots a marked DO has.
pub fn add_mark<'a>(mark: &'a Mark, out: &mut Vec<&'a Name>) -> Result<(), Memory>
    ensures added { OnOk result (vars_seen out.new.items ≡ vars_seen out.old.items ++ vars_in_mark (mark_of mark.now)) }
{
    match mark {
        Mark::Plain | Mark::Count(_) => {}
        Mark::From(name) => out.push(name)?,
    }
    Ok(())
}

/// Adds a name, if it is wanted.
pub fn add_if<'a>(name: &'a Name, is_wanted: bool, out: &mut Vec<&'a Name>) -> Result<(), Memory>
    ensures added { OnOk result (vars_seen out.new.items ≡ vars_seen out.old.items ++ list_if is_wanted (plain name.now ∷ [])) }
{
    if is_wanted {
        out.push(name)?;
    }
    Ok(())
}

// Adds what is read of an actual, by whether its dummy is read.
fn add_read_actual<'a>(
    actual: &'a Expr,
    is_read: bool,
    out: &mut Vec<&'a Name>,
) -> Result<(), Memory>
    ensures added { OnOk result (vars_seen out.new.items ≡ vars_seen out.old.items ++ read_in_actual is_read (term_of actual.now)) }
{
    match actual {
        Expr::Var(name) => add_if(name, is_read, out),
        Expr::Elem(name, subscripts) => {
            add_if(name, is_read, out)?;
            add_terms(subscripts, out)
        }
        Expr::Lit(_)
        | Expr::Neg(_)
        | Expr::Bin(_, _, _)
        | Expr::Pow(_, _)
        | Expr::Power(_, _)
        | Expr::Abs(_) => add_term(actual, out),
    }
}

/// Adds what is read of actuals that have no dummies.
pub(crate) fn add_others<'a>(actuals: &'a Exprs, out: &mut Vec<&'a Name>) -> Result<(), Memory>
    ensures added { OnOk result (vars_seen out.new.items ≡ vars_seen out.old.items ++ read_in_actuals [] (terms_of actuals.now)) }
{
    let mut rest = actuals;
    while let Exprs::More(first, next) = rest {
        add_read_actual(first, false, out)?;
        rest = next;
    }
    Ok(())
}

/// Adds what is read of actuals, by which dummies are read.
pub fn add_read<'a>(
    read: &[bool],
    actuals: &'a Exprs,
    out: &mut Vec<&'a Name>,
) -> Result<(), Memory>
    ensures added { OnOk result (vars_seen out.new.items ≡ vars_seen out.old.items ++ read_in_actuals read.now (terms_of actuals.now)) }
{
    let mut rest = actuals;
    for is_read in read {
        match rest {
            Exprs::Empty => return Ok(()),
            Exprs::More(first, next) => {
                add_read_actual(first, *is_read, out)?;
                rest = next;
            }
        }
    }
    add_others(rest, out)
}

// Adds the variable that an actual is or has as its element, if its dummy is written.
fn add_place<'a>(actual: &'a Expr, is_written: bool, out: &mut Vec<&'a Name>) -> Result<(), Memory>
    ensures added { OnOk result (vars_seen out.new.items ≡ vars_seen out.old.items ++ list_if is_written (place_of_actual (term_of actual.now))) }
{
    match actual {
        Expr::Var(name) | Expr::Elem(name, _) => add_if(name, is_written, out),
        Expr::Lit(_)
        | Expr::Neg(_)
        | Expr::Bin(_, _, _)
        | Expr::Pow(_, _)
        | Expr::Power(_, _)
        | Expr::Abs(_) => Ok(()),
    }
}

/// Adds the actuals of the dummies that are written.
pub fn add_handed<'a>(
    written: &[bool],
    actuals: &'a Exprs,
    out: &mut Vec<&'a Name>,
) -> Result<(), Memory>
    ensures added { OnOk result (vars_seen out.new.items ≡ vars_seen out.old.items ++ handed_in_actuals written.now (terms_of actuals.now)) }
{
    let mut rest = actuals;
    for is_written in written {
        match rest {
            Exprs::Empty => return Ok(()),
            Exprs::More(first, next) => {
                add_place(first, *is_written, out)?;
                rest = next;
            }
        }
    }
    Ok(())
}

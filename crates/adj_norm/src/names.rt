//! The names of the variables that stand in statements and units (docs/KERNEL.md, "The steps").

ghost use Rattle.std.specs.Prelude.{◌≡◌, ◌++◌, IfOk, OnOk, map, [], ◌∷◌};
ghost use Rattle.adj_tree.specs.View.{declaration_of, term_of, terms_of, test_of, runtime_of, mark_of, act_of, code_of, procedure_of};
ghost use Rattle.def_kernel.specs.Kernel.{names_in, names_in_all, names_in_test, names_in_runtime, names_in_mark, names_in_act, names_in_code, declared_names, names_of};
ghost use Rattle.adj_sets.specs.Sets.{all_added};

use crate::once::Once;
use adj_tree::{
    Act, Cond, Decl, Expr, Exprs, Mark, Memory, Name, Place, RunCall, Stmt, Stmts, Unit,
};
use std::alloc::Global;

/// Adds the names in an expression.
#[cycle(terms)]
#[tactic(auto, using(crate::proofs::Adding::added_both))]
pub fn add_term(alloc: Global, names: &mut Once, e: &Expr) -> Result<(), Memory>
    ensures added { OnOk result (names.new ≡ all_added names.old (names_in (term_of e.now))) }
{
    match e {
        Expr::Lit(_) => Ok(()),
        Expr::Var(x) => names.add(alloc, x),
        Expr::Elem(x, subs) => {
            names.add(alloc, x)?;
            add_terms(alloc, names, subs)
        }
        Expr::Neg(a) | Expr::Pow(a, _) | Expr::Abs(a) => add_term(alloc, names, a),
        Expr::Bin(_, a, b) | Expr::Power(a, b) => {
            add_term(alloc, names, a)?;
            add_term(alloc, names, b)
        }
    }
}

/// Adds those in some expressions.
#[cycle(terms)]
pub fn add_terms(alloc: Global, names: &mut Once, es: &Exprs) -> Result<(), Memory>
    ensures added { OnOk result (names.new ≡ all_added names.old (names_in_all (terms_of es.now))) }
{
    let mut current = es;
    while let Exprs::More(first, rest) = current {
        add_term(alloc, names, first)?;
        current = rest;
    }
    Ok(())
}

// Adds those in a condition.
#[tactic(auto, using(crate::proofs::Adding::added_both))]
fn add_test(alloc: Global, names: &mut Once, c: &Cond) -> Result<(), Memory>
    ensures added { OnOk result (names.new ≡ all_added names.old (names_in_test (test_of c.now))) }
{
    match c {
        Cond::Cmp(_, a, b) => {
            add_term(alloc, names, a)?;
            add_term(alloc, names, b)
        }
        Cond::Not(c) => add_test(alloc, names, c),
        Cond::And(c, d) | Cond::Or(c, d) => {
            add_test(alloc, names, c)?;
            add_test(alloc, names, d)
        }
    }
}

// Adds those of a target.
#[tactic(auto, using(crate::proofs::Adding::added_both))]
fn add_place(alloc: Global, names: &mut Once, place: &Place) -> Result<(), Memory>
    ensures added { OnOk result (names.new ≡ all_added names.old (place.now.name ∷ names_in_all (terms_of place.now.subs))) }
{
    names.add(alloc, &place.name)?;
    add_terms(alloc, names, &place.subs)
}

// Adds two names and then a third.
fn add_three(alloc: Global, names: &mut Once, a: &Name, b: &Name, c: &Name) -> Result<(), Memory>
    ensures added { OnOk result (names.new ≡ all_added names.old (a.now ∷ b.now ∷ c.now ∷ [])) }
{
    names.add(alloc, a)?;
    names.add(alloc, b)?;
    names.add(alloc, c)
}

// Adds those in two expressions.
#[tactic(auto, using(crate::proofs::Adding::added_both))]
fn add_both(alloc: Global, names: &mut Once, a: &Expr, b: &Expr) -> Result<(), Memory>
    ensures added { OnOk result (names.new ≡ all_added names.old (names_in (term_of a.now) ++ names_in (term_of b.now))) }
{
    add_term(alloc, names, a)?;
    add_term(alloc, names, b)
}

// Adds those in a runtime call.
#[tactic(auto, using(crate::proofs::Adding::added_both))]
fn add_runtime(alloc: Global, names: &mut Once, call: &RunCall) -> Result<(), Memory>
    ensures added { OnOk result (names.new ≡ all_added names.old (names_in_runtime (runtime_of call.now))) }
{
    match call {
        RunCall::PushWord(place) | RunCall::PopWord(place) => add_place(alloc, names, place),
        RunCall::PushArray(x) | RunCall::PopArray(x) | RunCall::PopControl(x) | RunCall::Zero(x) =>
            { names.add(alloc, x) }
        RunCall::PushControl(e) => add_term(alloc, names, e),
        RunCall::Begin(l, s) => add_both(alloc, names, l, s),
        RunCall::Actions(l, s, n) => {
            add_both(alloc, names, l, s)?;
            names.add(alloc, n)
        }
        RunCall::Action(l, s, k, a, f, t) => {
            add_both(alloc, names, l, s)?;
            add_term(alloc, names, k)?;
            add_three(alloc, names, a, f, t)
        }
        RunCall::End => Ok(()),
    }
}

// Adds the name that says how many snapshots a marked DO has.
fn add_mark(alloc: Global, names: &mut Once, mark: &Mark) -> Result<(), Memory>
    ensures added { OnOk result (names.new ≡ all_added names.old (names_in_mark (mark_of mark.now))) }
{
    match mark {
        Mark::Plain | Mark::Count(_) => Ok(()),
        Mark::From(x) => names.add(alloc, x),
    }
}

// Adds those in the bounds of a DO.
#[tactic(auto, using(crate::proofs::Adding::added_both))]
fn add_bounds(
    alloc: Global,
    names: &mut Once,
    first: &Expr,
    last: &Expr,
    by: &Expr,
) -> Result<(), Memory>
    ensures added { OnOk result (names.new ≡ all_added names.old (names_in (term_of first.now) ++ (names_in (term_of last.now) ++ names_in (term_of by.now)))) }
{
    add_term(alloc, names, first)?;
    add_term(alloc, names, last)?;
    add_term(alloc, names, by)
}

// Adds those in a statement.
#[cycle(statements)]
#[tactic(auto, using(crate::proofs::Adding::added_both))]
fn add_statement(alloc: Global, names: &mut Once, stmt: &Stmt) -> Result<(), Memory>
    ensures added { OnOk result (names.new ≡ all_added names.old (names_in_act (act_of stmt.now.act))) }
{
    match &stmt.act {
        Act::Assign(place, e) => {
            add_place(alloc, names, place)?;
            add_term(alloc, names, e)
        }
        Act::If(c, a, b) => {
            add_test(alloc, names, c)?;
            add_code(alloc, names, a)?;
            add_code(alloc, names, b)
        }
        Act::Loop(x, first, last, by, body, mark) => {
            add_mark(alloc, names, mark)?;
            names.add(alloc, x)?;
            add_bounds(alloc, names, first, last, by)?;
            add_code(alloc, names, body)
        }
        Act::While(c, body) => {
            add_test(alloc, names, c)?;
            add_code(alloc, names, body)
        }
        Act::Call(_, actuals) => add_terms(alloc, names, actuals),
        Act::Run(call) => add_runtime(alloc, names, call),
    }
}

/// Adds those in a list of statements.
#[cycle(statements)]
pub fn add_code(alloc: Global, names: &mut Once, code: &Stmts) -> Result<(), Memory>
    ensures added { OnOk result (names.new ≡ all_added names.old (names_in_code (code_of code.now))) }
{
    let mut current = code;
    while let Stmts::More(row) = current {
        add_statement(alloc, names, &row.first)?;
        current = &row.rest;
    }
    Ok(())
}

// Adds some names.
fn add_listed(alloc: Global, names: &mut Once, listed: &[Name]) -> Result<(), Memory>
    ensures added { OnOk result (names.new ≡ all_added names.old listed.now) }
{
    for name in listed {
        names.add(alloc, name)?;
    }
    Ok(())
}

// Adds those that are declared.
fn add_declared(alloc: Global, names: &mut Once, decls: &[Decl]) -> Result<(), Memory>
    ensures added { OnOk result (names.new ≡ all_added names.old (declared_names (map declaration_of decls.now))) }
{
    for decl in decls {
        names.add(alloc, &decl.name)?;
    }
    Ok(())
}

/// Adds those of the variables of a unit: dummies, declared ones, and all others by where they first appear.
#[tactic(auto, using(crate::proofs::Adding::added_both))]
pub fn add_unit(alloc: Global, names: &mut Once, unit: &Unit) -> Result<(), Memory>
    ensures added { OnOk result (names.new ≡ all_added names.old (names_of (procedure_of unit.now))) }
{
    add_listed(alloc, names, unit.dummies.as_slice())?;
    add_declared(alloc, names, unit.decls.as_slice())?;
    add_code(alloc, names, &unit.body)
}

/// The variables of a unit, in order.
pub fn unit_names(alloc: Global, unit: &Unit) -> Result<Once, Memory>
    ensures names { IfOk result (λ n. n ≡ all_added [] (names_of (procedure_of unit.now))) }
{
    let mut names = Once::new(alloc)?;
    add_unit(alloc, &mut names, unit)?;
    Ok(names)
}

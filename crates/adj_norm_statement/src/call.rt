//! Calls, whose actuals become distinct names (docs/KERNEL.md, "The steps").

ghost use Rattle.std.specs.Prelude.{◌≡◌, ◌+◌, ◌∷◌, [], List, Bool, IfOk, OnOk};
ghost use Rattle.adj_tree.specs.Code.{Var, Code, plain, var, none, more, call};
ghost use Rattle.adj_tree.specs.Listed.{terms_turned};
ghost use Rattle.adj_tree.specs.View.{term_of, terms_of};
ghost use Rattle.def_meaning.specs.Append.{◌+++◌, one};
ghost use Rattle.def_kernel.specs.Lowered.{locals_in, reduced, before, first_flag, other_flags, passing, passed, locals_passing, before_passing, after_passing, locals_in_all, reduced_all, before_all, all_passed, before_passing_all, after_passing_all, locals_passing_all, lowered_call};
ghost use Rattle.adj_norm_statement.specs.Locals.{local_by};
ghost use Rattle.adj_norm_statement.specs.Passings.{HasNamesOf};
ghost use Rattle.adj_norm_statement.specs.Steps.{Writes};

use crate::expression::reduce;
use crate::locals::Locals;
use crate::passing::{Passed, pass, passed_as};
use crate::step::write;
use crate::target::{put_before, put_name};
use adj_sets::NameSet;
use adj_tree::{Act, Expr, Exprs, Memory, Name, Stmt};
use std::alloc::Global;

/// Actuals with locals in place of `MAX`, `MIN` and `ABS`, or with names in place of all.
#[derive(Drop)]
struct Values {
    /// The actuals, the last first.
    turned: Exprs,
    /// The number of the next local.
    next: usize,
}

// One more actual.
fn reduce_next(
    alloc: Global,
    locals: &mut Locals<'_>,
    line: u32,
    e: &Expr,
    values: Values,
    steps: &mut Vec<Stmt>,
) -> Result<Values, Memory>
    ensures next { IfOk result (λ v. v.next ≡ values.next + locals_in (term_of e.now)) }
    ensures value { IfOk result (λ v. terms_of v.turned ≡ more (reduced (local_by locals.old) values.next (term_of e.now)) (terms_of values.turned)) }
    ensures steps { OnOk result (Writes steps.old.items steps.new.items (before (local_by locals.old) line values.next (term_of e.now))) }
    ensures locals { OnOk result (local_by locals.new ≡ local_by locals.old) }
{
    let Values { turned, next } = values;
    let value = reduce(alloc, locals, line, e, next, steps)?;
    let next = value.next;
    let turned = put_before(alloc, value.term, turned)?;
    Ok(Values { turned, next })
}

// Writes the statements that set these locals.
fn reduce_all(
    alloc: Global,
    locals: &mut Locals<'_>,
    line: u32,
    actuals: &Exprs,
    steps: &mut Vec<Stmt>,
) -> Result<Values, Memory>
    ensures next { IfOk result (λ v. v.next ≡ locals_in_all (terms_of actuals.now)) }
    ensures values { IfOk result (λ v. terms_turned (terms_of v.turned) none ≡ reduced_all (local_by locals.old) 0 (terms_of actuals.now)) }
    ensures steps { OnOk result (Writes steps.old.items steps.new.items (before_all (local_by locals.old) line 0 (terms_of actuals.now))) }
    ensures locals { OnOk result (local_by locals.new ≡ local_by locals.old) }
{
    let mut values = Values {
        turned: Exprs::Empty,
        next: 0,
    };
    let mut current = actuals;
    while let Exprs::More(e, rest) = current {
        values = reduce_next(alloc, locals, line, e, values, steps)?;
        current = rest;
    }
    Ok(values)
}

// Whether the first dummy is written.
fn first_flag(written: &[bool]) -> bool
    ensures first { result ≡ first_flag written.now }
{
    match written.first() {
        Some(first) => *first,
        None => false,
    }
}

// Whether the others are.
fn other_flags<'a>(written: &'a [bool]) -> &'a [bool]
    ensures others { result.now ≡ other_flags written.now }
{
    match written.split_first() {
        Some((_, rest)) => rest,
        None => written,
    }
}

// One more actual becomes a name.
fn pass_one(
    alloc: Global,
    locals: &mut Locals<'_>,
    line: u32,
    written: bool,
    e: &Expr,
    values: Values,
    earlier: &mut NameSet,
    steps: &mut Vec<Stmt>,
    after: &mut Vec<Stmt>,
) -> Result<Values, Memory>
    ensures next { IfOk result (λ n. (names : List Var) → HasNamesOf earlier.old names → n.next ≡ values.next + locals_passing (passing written names (term_of e.now))) }
    ensures name { IfOk result (λ n. (names : List Var) → HasNamesOf earlier.old names → terms_of n.turned ≡ more (var (passed (local_by locals.old) values.next (passing written names (term_of e.now)))) (terms_of values.turned)) }
    ensures earlier { OnOk result ((names : List Var) → HasNamesOf earlier.old names → HasNamesOf earlier.new (passed (local_by locals.old) values.next (passing written names (term_of e.now)) ∷ names)) }
    ensures steps { OnOk result ((names : List Var) → HasNamesOf earlier.old names → Writes steps.old.items steps.new.items (before_passing (local_by locals.old) line values.next (passing written names (term_of e.now)))) }
    ensures after { OnOk result ((names : List Var) → HasNamesOf earlier.old names → Writes after.old.items after.new.items (after_passing (local_by locals.old) line values.next (passing written names (term_of e.now)))) }
    ensures locals { OnOk result (local_by locals.new ≡ local_by locals.old) }
{
    let Values { turned, next } = values;
    let actual = passed_as(alloc, written, earlier, e)?;
    let passed = pass(alloc, locals, line, actual, next, steps, after)?;
    let Passed { name, next } = passed;
    earlier.add(alloc, name.bytes())?;
    let turned = put_name(alloc, name, turned)?;
    Ok(Values { turned, next })
}

// The names that the actuals become.
fn pass_all(
    alloc: Global,
    locals: &mut Locals<'_>,
    line: u32,
    written: &[bool],
    actuals: &Exprs,
    first: usize,
    steps: &mut Vec<Stmt>,
    after: &mut Vec<Stmt>,
) -> Result<Values, Memory>
    ensures next { IfOk result (λ n. n.next ≡ first + locals_passing_all (local_by locals.old) first written.now [] (terms_of actuals.now)) }
    ensures names { IfOk result (λ n. terms_turned (terms_of n.turned) none ≡ all_passed (local_by locals.old) first written.now [] (terms_of actuals.now)) }
    ensures steps { OnOk result (Writes steps.old.items steps.new.items (before_passing_all (local_by locals.old) line first written.now [] (terms_of actuals.now))) }
    ensures after { OnOk result (Writes after.old.items after.new.items (after_passing_all (local_by locals.old) line first written.now [] (terms_of actuals.now))) }
    ensures locals { OnOk result (local_by locals.new ≡ local_by locals.old) }
{
    let mut earlier = NameSet::new(alloc)?;
    let mut values = Values {
        turned: Exprs::Empty,
        next: first,
    };
    let mut flags = written;
    let mut current = actuals;
    while let Exprs::More(e, rest) = current {
        let flag = first_flag(flags);
        values = pass_one(
            alloc,
            locals,
            line,
            flag,
            e,
            values,
            &mut earlier,
            steps,
            after,
        )?;
        flags = other_flags(flags);
        current = rest;
    }
    Ok(values)
}

/// Writes what becomes of a CALL, where it is known which dummies are written, and gives the number of locals that it takes.
pub fn lower_call(
    alloc: Global,
    locals: &mut Locals<'_>,
    line: u32,
    written: &[bool],
    unit: &Name,
    actuals: &Exprs,
    steps: &mut Vec<Stmt>,
) -> Result<usize, Memory>
    ensures count { IfOk result (λ n. n ≡ locals_in_all (terms_of actuals.now) + locals_passing_all (local_by locals.old) (locals_in_all (terms_of actuals.now)) written.now [] (reduced_all (local_by locals.old) 0 (terms_of actuals.now))) }
    ensures steps { OnOk result (Writes steps.old.items steps.new.items (lowered_call (local_by locals.old) line written.now unit.now (terms_of actuals.now))) }
    ensures locals { OnOk result (local_by locals.new ≡ local_by locals.old) }
{
    let mut after = Vec::new(alloc);
    let named = name_all(alloc, locals, line, written, actuals, steps, &mut after)?;
    let Values { turned, next } = named;
    write_call(alloc, line, unit, turned, steps, &mut after)?;
    Ok(next)
}

// Writes the statements that set the locals of the actuals, and gives the names that these become.
fn name_all(
    alloc: Global,
    locals: &mut Locals<'_>,
    line: u32,
    written: &[bool],
    actuals: &Exprs,
    steps: &mut Vec<Stmt>,
    after: &mut Vec<Stmt>,
) -> Result<Values, Memory>
    ensures next { IfOk result (λ n. n.next ≡ locals_in_all (terms_of actuals.now) + locals_passing_all (local_by locals.old) (locals_in_all (terms_of actuals.now)) written.now [] (reduced_all (local_by locals.old) 0 (terms_of actuals.now))) }
    ensures names { IfOk result (λ n. terms_turned (terms_of n.turned) none ≡ all_passed (local_by locals.old) (locals_in_all (terms_of actuals.now)) written.now [] (reduced_all (local_by locals.old) 0 (terms_of actuals.now))) }
    ensures steps { OnOk result (Writes steps.old.items steps.new.items (before_all (local_by locals.old) line 0 (terms_of actuals.now) +++ before_passing_all (local_by locals.old) line (locals_in_all (terms_of actuals.now)) written.now [] (reduced_all (local_by locals.old) 0 (terms_of actuals.now)))) }
    ensures after { OnOk result (Writes after.old.items after.new.items (after_passing_all (local_by locals.old) line (locals_in_all (terms_of actuals.now)) written.now [] (reduced_all (local_by locals.old) 0 (terms_of actuals.now)))) }
    ensures locals { OnOk result (local_by locals.new ≡ local_by locals.old) }
{
    let values = reduce_all(alloc, locals, line, actuals, steps)?;
    let Values { turned, next } = values;
    let reduced = turned.turned();
    let named = pass_all(alloc, locals, line, written, &reduced, next, steps, after)?;
    Ok(named)
}

// Writes the call of actuals that are names, the last first, and then what comes after it.
fn write_call(
    alloc: Global,
    line: u32,
    unit: &Name,
    turned: Exprs,
    steps: &mut Vec<Stmt>,
    after: &mut Vec<Stmt>,
) -> Result<(), Memory>
    ensures steps { OnOk result ((rest : Code) → Writes [] after.old.items rest → Writes steps.old.items steps.new.items (one line (call unit.now (terms_turned (terms_of turned) none)) +++ rest)) }
{
    let name = unit.copy(alloc)?;
    write(line, Act::Call(name, turned.turned()), steps)?;
    steps.append(after)?;
    Ok(())
}

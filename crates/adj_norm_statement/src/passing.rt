//! How an actual of a CALL becomes a name (docs/KERNEL.md, "The steps").

ghost use Rattle.std.specs.Prelude.{◌≡◌, ◌+◌, List, ℕ, IfOk, OnOk};
ghost use Rattle.adj_tree.specs.Code.{Var, plain, var, elem, none, more, assign};
ghost use Rattle.adj_tree.specs.Listed.{terms_turned};
ghost use Rattle.adj_tree.specs.View.{term_of, terms_of};
ghost use Rattle.def_meaning.specs.Append.{one};
ghost use Rattle.def_kernel.specs.Lowered.{length_of, locals_in, locals_in_all, set_local, by_value, passing, locals_passing, held, before_held, passed, before_passing, after_passing};
ghost use Rattle.adj_norm_statement.specs.Locals.{local_by};
ghost use Rattle.adj_norm_statement.specs.Passings.{passing_of, HasNamesOf};
ghost use Rattle.adj_norm_statement.specs.Steps.{Writes};

use crate::locals::Locals;
use crate::step::{assign, plus, set, set_named, variable};
use crate::target::{hold, put_name};
use adj_sets::NameSet;
use adj_tree::{Expr, Exprs, Memory, Name, Stmt, boxed};
use std::alloc::Global;

/// How an actual becomes a name.
#[derive(Drop)]
pub enum Passing {
    /// A name that doesn't stand earlier in the call.
    Stays(Name),
    /// An element for a dummy that is written.
    PutBack(Name, Exprs),
    /// All else.
    ByValue(Box<Expr>),
}

/// How an actual becomes a name, where it is known whether its dummy is written, and which names stand earlier.
pub fn passed_as(
    alloc: Global,
    written: bool,
    earlier: &NameSet,
    e: &Expr,
) -> Result<Passing, Memory>
    ensures passing { IfOk result (λ p. (names : List Var) → HasNamesOf earlier.now names → passing_of p ≡ passing written names (term_of e.now)) }
{
    match e {
        Expr::Var(x) => {
            if earlier.has(x.bytes()) {
                by_copy(alloc, e)
            } else {
                Ok(Passing::Stays(x.copy(alloc)?))
            }
        }
        Expr::Elem(x, subs) => {
            if written {
                let array = x.copy(alloc)?;
                let subscripts = subs.copy(alloc)?;
                Ok(Passing::PutBack(array, subscripts))
            } else {
                by_copy(alloc, e)
            }
        }
        Expr::Lit(_)
        | Expr::Neg(_)
        | Expr::Bin(_, _, _)
        | Expr::Pow(_, _)
        | Expr::Power(_, _)
        | Expr::Abs(_) => by_copy(alloc, e),
    }
}

// By the value of a copy.
fn by_copy(alloc: Global, e: &Expr) -> Result<Passing, Memory>
    ensures passing { IfOk result (λ p. passing_of p ≡ by_value (term_of e.now)) }
{
    let same = e.copy_boxed(alloc)?;
    Ok(Passing::ByValue(same))
}

/// Subscripts that locals hold.
#[derive(Drop)]
struct Held {
    /// The locals, the last first.
    turned: Exprs,
    /// The number of the next local.
    next: usize,
}

// One more subscript.
fn hold_next(
    alloc: Global,
    locals: &mut Locals<'_>,
    line: u32,
    e: &Expr,
    held: Held,
    steps: &mut Vec<Stmt>,
) -> Result<Held, Memory>
    ensures next { IfOk result (λ h. h.next ≡ held.next + 1 + locals_in (term_of e.now)) }
    ensures subs { IfOk result (λ h. terms_of h.turned ≡ more (var (local_by locals.old held.next)) (terms_of held.turned)) }
    ensures steps { OnOk result (Writes steps.old.items steps.new.items (set_local (local_by locals.old) line held.next (held.next + 1) (term_of e.now))) }
    ensures locals { OnOk result (local_by locals.new ≡ local_by locals.old) }
{
    let Held { turned, next: own } = held;
    let first = plus(own, 1)?;
    let next = hold(alloc, locals, line, own, e, first, steps)?;
    let local = locals.name(alloc, own)?;
    let turned = put_name(alloc, local, turned)?;
    Ok(Held { turned, next })
}

// Writes the statements that set the locals of subscripts.
fn hold_all(
    alloc: Global,
    locals: &mut Locals<'_>,
    line: u32,
    subs: &Exprs,
    first: usize,
    steps: &mut Vec<Stmt>,
) -> Result<Held, Memory>
    ensures next { IfOk result (λ h. h.next ≡ first + (length_of (terms_of subs.now) + locals_in_all (terms_of subs.now))) }
    ensures subs { IfOk result (λ h. terms_turned (terms_of h.turned) none ≡ held (local_by locals.old) first (terms_of subs.now)) }
    ensures steps { OnOk result (Writes steps.old.items steps.new.items (before_held (local_by locals.old) line first (terms_of subs.now))) }
    ensures locals { OnOk result (local_by locals.new ≡ local_by locals.old) }
{
    let mut held = Held {
        turned: Exprs::Empty,
        next: first,
    };
    let mut current = subs;
    while let Exprs::More(e, rest) = current {
        held = hold_next(alloc, locals, line, e, held, steps)?;
        current = rest;
    }
    Ok(held)
}

/// The name that an actual became, and the number of the next local.
#[derive(Drop)]
pub struct Passed {
    pub name: Name,
    pub next: usize,
}

/// Writes what sets the name of an actual before the call, and apart from that what puts it back after the call.
pub fn pass(
    alloc: Global,
    locals: &mut Locals<'_>,
    line: u32,
    actual: Passing,
    first: usize,
    steps: &mut Vec<Stmt>,
    after: &mut Vec<Stmt>,
) -> Result<Passed, Memory>
    ensures name { IfOk result (λ p. plain p.name ≡ passed (local_by locals.old) first (passing_of actual)) }
    ensures next { IfOk result (λ p. p.next ≡ first + locals_passing (passing_of actual)) }
    ensures steps { OnOk result (Writes steps.old.items steps.new.items (before_passing (local_by locals.old) line first (passing_of actual))) }
    ensures after { OnOk result (Writes after.old.items after.new.items (after_passing (local_by locals.old) line first (passing_of actual))) }
    ensures locals { OnOk result (local_by locals.new ≡ local_by locals.old) }
{
    match actual {
        Passing::Stays(name) => Ok(Passed { name, next: first }),
        Passing::PutBack(array, subs) => {
            let held = hold_all(alloc, locals, line, &subs, first, steps)?;
            let made = put_back(alloc, locals, line, array, held, steps, after)?;
            Ok(made)
        }
        Passing::ByValue(e) => by_value(alloc, locals, line, e, first, steps),
    }
}

// A local gets the value before the call.
fn by_value(
    alloc: Global,
    locals: &mut Locals<'_>,
    line: u32,
    e: Box<Expr>,
    first: usize,
    steps: &mut Vec<Stmt>,
) -> Result<Passed, Memory>
    ensures name { IfOk result (λ p. plain p.name ≡ local_by locals.old first) }
    ensures next { IfOk result (λ p. p.next ≡ first + 1) }
    ensures steps { OnOk result (Writes steps.old.items steps.new.items (one line (assign (local_by locals.old first) none (term_of e.value)))) }
    ensures locals { OnOk result (local_by locals.new ≡ local_by locals.old) }
{
    let name = locals.name(alloc, first)?;
    set_named(alloc, line, &name, e, steps)?;
    let next = plus(first, 1)?;
    Ok(Passed { name, next })
}

// The element of an array at held subscripts gets a local before the call, and the local's value after it.
fn put_back(
    alloc: Global,
    locals: &mut Locals<'_>,
    line: u32,
    array: Name,
    held: Held,
    steps: &mut Vec<Stmt>,
    after: &mut Vec<Stmt>,
) -> Result<Passed, Memory>
    ensures name { IfOk result (λ p. plain p.name ≡ local_by locals.old held.next) }
    ensures next { IfOk result (λ p. p.next ≡ held.next + 1) }
    ensures steps { OnOk result (Writes steps.old.items steps.new.items (one line (assign (local_by locals.old held.next) none (elem (plain array) (terms_turned (terms_of held.turned) none))))) }
    ensures after { OnOk result (Writes after.old.items after.new.items (one line (assign (plain array) (terms_turned (terms_of held.turned) none) (var (local_by locals.old held.next))))) }
    ensures locals { OnOk result (local_by locals.new ≡ local_by locals.old) }
{
    let Held {
        turned,
        next: number,
    } = held;
    let next = plus(number, 1)?;
    let subs = turned.turned();
    let name = locals.name(alloc, number)?;
    fetch(alloc, line, &name, &array, &subs, steps)?;
    let value = variable(alloc, &name)?;
    assign(line, array, subs, value, after)?;
    Ok(Passed { name, next })
}

// Writes an assignment of an element to a scalar.
fn fetch(
    alloc: Global,
    line: u32,
    name: &Name,
    array: &Name,
    subs: &Exprs,
    steps: &mut Vec<Stmt>,
) -> Result<(), Memory>
    ensures written { OnOk result (Writes steps.old.items steps.new.items (one line (assign (plain name.now) none (elem (plain array.now) (terms_of subs.now))))) }
{
    let target = name.copy(alloc)?;
    let source = array.copy(alloc)?;
    let same = subs.copy_boxed(alloc)?;
    let element = boxed(alloc, Expr::Elem(source, same))?;
    set(line, target, element, steps)
}

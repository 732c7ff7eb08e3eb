//! Assignments, whose targets are set apart from their arrays (docs/KERNEL.md, "The steps").

ghost use Rattle.std.specs.Prelude.{◌≡◌, ◌+◌, IfOk, OnOk};
ghost use Rattle.adj_tree.specs.Code.{plain, var, more};
ghost use Rattle.adj_tree.specs.View.{term_of, terms_of};
ghost use Rattle.def_meaning.specs.Read.{reads_term};
ghost use Rattle.def_kernel.specs.Lowered.{count_of, mentions, locals_in, locals_in_target, set_local, apart_from, before_target, lowered_assign};
ghost use Rattle.adj_norm_statement.specs.Locals.{local_by};
ghost use Rattle.adj_norm_statement.specs.Steps.{Writes};
ghost use Rattle.adj_norm_statement.specs.Targets.{kept_apart, before_kept, locals_kept};

use crate::expression::reduce;
use crate::form::stands_in;
use crate::locals::Locals;
use crate::step::{assign, plus, set};
use adj_tree::{Expr, Exprs, Memory, Name, Place, Stmt, boxed};
use std::alloc::Global;

/// Writes the statements by which the local of a number gets the value of an expression, and gives the number of the next local.
pub fn hold(
    alloc: Global,
    locals: &mut Locals<'_>,
    line: u32,
    number: usize,
    e: &Expr,
    first: usize,
    steps: &mut Vec<Stmt>,
) -> Result<usize, Memory>
    ensures next { IfOk result (λ n. n ≡ first + locals_in (term_of e.now)) }
    ensures steps { OnOk result (Writes steps.old.items steps.new.items (set_local (local_by locals.old) line number first (term_of e.now))) }
    ensures locals { OnOk result (local_by locals.new ≡ local_by locals.old) }
{
    let value = reduce(alloc, locals, line, e, first, steps)?;
    let name = locals.name(alloc, number)?;
    set(line, name, value.term, steps)?;
    Ok(value.next)
}

/// How many subscripts mention the array of a target.
fn mentions(name: &Name, subs: &Exprs) -> Result<usize, Memory>
    ensures count { IfOk result (λ m. m ≡ mentions (plain name.now) (terms_of subs.now)) }
{
    let mut count = 0;
    let mut current = subs;
    while let Exprs::More(first, rest) = current {
        if stands_in(name, first) {
            count = plus(count, 1)?;
        }
        current = rest;
    }
    Ok(count)
}

/// Subscripts of a target that were passed.
#[derive(Drop)]
struct Apart {
    /// With locals for those that mention the array, the last first.
    turned: Exprs,
    /// How many locals these are.
    own: usize,
    /// The number of the next local.
    next: usize,
}

// One more subscript.
fn set_apart(
    alloc: Global,
    locals: &mut Locals<'_>,
    line: u32,
    name: &Name,
    e: &Expr,
    passed: Apart,
    steps: &mut Vec<Stmt>,
) -> Result<Apart, Memory>
    ensures own { IfOk result (λ p. p.own ≡ passed.own + count_of (reads_term (plain name.now) (term_of e.now))) }
    ensures next { IfOk result (λ p. p.next ≡ passed.next + locals_kept (reads_term (plain name.now) (term_of e.now)) (term_of e.now)) }
    ensures subs { IfOk result (λ p. terms_of p.turned ≡ more (kept_apart (reads_term (plain name.now) (term_of e.now)) (local_by locals.old passed.own) (term_of e.now)) (terms_of passed.turned)) }
    ensures steps { OnOk result (Writes steps.old.items steps.new.items (before_kept (local_by locals.old) (reads_term (plain name.now) (term_of e.now)) line passed.own passed.next (term_of e.now))) }
    ensures locals { OnOk result (local_by locals.new ≡ local_by locals.old) }
{
    let Apart { turned, own, next } = passed;
    if !stands_in(name, e) {
        let same = e.copy_boxed(alloc)?;
        let longer = put_before(alloc, same, turned)?;
        return Ok(Apart {
            turned: longer,
            own,
            next,
        });
    }
    let next = hold(alloc, locals, line, own, e, next, steps)?;
    let local = locals.name(alloc, own)?;
    let turned = put_name(alloc, local, turned)?;
    let own = plus(own, 1)?;
    Ok(Apart { turned, own, next })
}

/// An expression, and then others.
pub fn put_before(alloc: Global, e: Box<Expr>, rest: Exprs) -> Result<Exprs, Memory>
    ensures terms { IfOk result (λ es. terms_of es ≡ more (term_of e.value) (terms_of rest)) }
{
    let others = boxed(alloc, rest)?;
    Ok(Exprs::More(e, others))
}

/// A variable, and then others.
pub fn put_name(alloc: Global, name: Name, rest: Exprs) -> Result<Exprs, Memory>
    ensures terms { IfOk result (λ es. terms_of es ≡ more (var (plain name)) (terms_of rest)) }
{
    let first = boxed(alloc, Expr::Var(name))?;
    put_before(alloc, first, rest)
}

/// The subscripts of a target, set apart from its array.
#[derive(Drop)]
struct Target {
    subs: Exprs,
    next: usize,
}

// The subscripts of the target with locals for those that mention its array, where other locals are taken from a number on.
fn separate(
    alloc: Global,
    locals: &mut Locals<'_>,
    line: u32,
    place: &Place,
    first: usize,
    steps: &mut Vec<Stmt>,
) -> Result<Target, Memory>
    ensures next { IfOk result (λ t. t.next ≡ first + locals_in_target (plain place.now.name) (terms_of place.now.subs)) }
    ensures subs { IfOk result (λ t. terms_of t.subs ≡ apart_from (local_by locals.old) (plain place.now.name) 0 (terms_of place.now.subs)) }
    ensures steps { OnOk result (Writes steps.old.items steps.new.items (before_target (local_by locals.old) line (plain place.now.name) 0 first (terms_of place.now.subs))) }
    ensures locals { OnOk result (local_by locals.new ≡ local_by locals.old) }
{
    let mut passed = Apart {
        turned: Exprs::Empty,
        own: 0,
        next: first,
    };
    let mut current = &place.subs;
    while let Exprs::More(e, rest) = current {
        passed = set_apart(alloc, locals, line, &place.name, e, passed, steps)?;
        current = rest;
    }
    let Apart {
        turned,
        next,
        own: _,
    } = passed;
    let subs = turned.turned();
    Ok(Target { subs, next })
}

/// Writes what becomes of an assignment, and gives the number of locals that it takes.
pub fn lower_assignment(
    alloc: Global,
    locals: &mut Locals<'_>,
    line: u32,
    place: &Place,
    e: &Expr,
    steps: &mut Vec<Stmt>,
) -> Result<usize, Memory>
    ensures count { IfOk result (λ n. n ≡ mentions (plain place.now.name) (terms_of place.now.subs) + locals_in_target (plain place.now.name) (terms_of place.now.subs) + locals_in (term_of e.now)) }
    ensures steps { OnOk result (Writes steps.old.items steps.new.items (lowered_assign (local_by locals.old) line (plain place.now.name) (terms_of place.now.subs) (term_of e.now))) }
    ensures locals { OnOk result (local_by locals.new ≡ local_by locals.old) }
{
    let first = mentions(&place.name, &place.subs)?;
    let target = separate(alloc, locals, line, place, first, steps)?;
    let value = reduce(alloc, locals, line, e, target.next, steps)?;
    let name = place.name.copy(alloc)?;
    assign(line, name, target.subs, value.term, steps)?;
    Ok(value.next)
}

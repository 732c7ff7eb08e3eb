//! `MAX`, `MIN` and `ABS` at differentiable occurrences (docs/KERNEL.md, "The steps").

ghost use Rattle.std.specs.Prelude.{◌≡◌, ◌+◌, suc, pos, IfOk, OnOk};
ghost use Rattle.adj_tree.specs.Code.{plain, var, lit, neg, bin, pow, power_of, none, assign, choose, compare, is_less, stop, step};
ghost use Rattle.adj_tree.specs.View.{op_of, term_of, test_of};
ghost use Rattle.def_meaning.specs.Append.{◌+++◌, one};
ghost use Rattle.def_kernel.specs.Lowered.{locals_in, reduced, before, picked, turned_up};
ghost use Rattle.adj_norm_statement.specs.Locals.{local_by};
ghost use Rattle.adj_norm_statement.specs.Operations.{locals_by, combined, before_combined, test_between};
ghost use Rattle.adj_norm_statement.specs.Steps.{Writes};

use crate::locals::Locals;
use crate::step::{plus, set_named, set_where, variable};
use adj_tree::{Cond, Expr, Memory, Name, Op, Rel, Stmt, boxed};
use std::alloc::Global;

/// An expression with locals in place of `MAX`, `MIN` and `ABS`, and the number of the next local.
#[derive(Drop)]
pub struct Reduced {
    pub term: Box<Expr>,
    pub next: usize,
}

/// Two operands.
#[derive(Drop)]
struct Operands {
    left: Reduced,
    right: Reduced,
}

// An expression that stays.
fn whole(alloc: Global, e: &Expr, first: usize) -> Result<Reduced, Memory>
    ensures next { IfOk result (λ s. s.next ≡ first) }
    ensures term { IfOk result (λ s. term_of s.term.value ≡ term_of e.now) }
{
    let term = e.copy_boxed(alloc)?;
    Ok(Reduced { term, next: first })
}

// A negation.
fn opposite(alloc: Global, inner: Reduced) -> Result<Reduced, Memory>
    ensures next { IfOk result (λ s. s.next ≡ inner.next) }
    ensures term { IfOk result (λ s. term_of s.term.value ≡ neg (term_of inner.term.value)) }
{
    let Reduced { term, next } = inner;
    let term = boxed(alloc, Expr::Neg(term))?;
    Ok(Reduced { term, next })
}

// A sum, a difference or a product.
fn joined(alloc: Global, op: Op, operands: Operands) -> Result<Reduced, Memory>
    ensures next { IfOk result (λ s. s.next ≡ operands.right.next) }
    ensures term { IfOk result (λ s. term_of s.term.value ≡ bin (op_of op) (term_of operands.left.term.value) (term_of operands.right.term.value)) }
{
    let Operands { left, right } = operands;
    let Reduced { term: second, next } = right;
    let term = boxed(alloc, Expr::Bin(op, left.term, second))?;
    Ok(Reduced { term, next })
}

// A constant power.
fn raised(alloc: Global, base: Reduced, power: u32) -> Result<Reduced, Memory>
    ensures next { IfOk result (λ s. s.next ≡ base.next) }
    ensures term { IfOk result (λ s. term_of s.term.value ≡ pow (term_of base.term.value) power) }
{
    let Reduced { term, next } = base;
    let term = boxed(alloc, Expr::Pow(term, power))?;
    Ok(Reduced { term, next })
}

// A power whose exponent is an expression.
fn raised_by(alloc: Global, base: Reduced, exponent: &Expr) -> Result<Reduced, Memory>
    ensures next { IfOk result (λ s. s.next ≡ base.next) }
    ensures term { IfOk result (λ s. term_of s.term.value ≡ power_of (term_of base.term.value) (term_of exponent.now)) }
{
    let Reduced { term, next } = base;
    let power = exponent.copy_boxed(alloc)?;
    let term = boxed(alloc, Expr::Power(term, power))?;
    Ok(Reduced { term, next })
}

// Whether a scalar is less than a value.
fn less(alloc: Global, name: &Name, other: Box<Expr>) -> Result<Box<Cond>, Memory>
    ensures test { IfOk result (λ c. test_of c.value ≡ compare is_less (var (plain name.now)) (term_of other.value)) }
{
    let left = variable(alloc, name)?;
    boxed(alloc, Cond::Cmp(Rel::Lt, left, other))
}

// Whether the first of two scalars is less than the second, or for the smaller the second than the first.
fn compared(alloc: Global, largest: bool, names: &Pair) -> Result<Box<Cond>, Memory>
    ensures test { IfOk result (λ c. test_of c.value ≡ test_between largest (plain names.now.first) (plain names.now.second)) }
{
    let left = if largest { &names.first } else { &names.second };
    let right = if largest { &names.second } else { &names.first };
    let other = variable(alloc, right)?;
    less(alloc, left, other)
}

// Writes the larger or the smaller of two values, by two scalars, in the first of these.
fn pick(
    alloc: Global,
    line: u32,
    largest: bool,
    names: &Pair,
    values: Operands,
    steps: &mut Vec<Stmt>,
) -> Result<(), Memory>
    ensures written { OnOk result (Writes steps.old.items steps.new.items (step line (assign (plain names.now.first) none (term_of values.left.term.value)) (step line (assign (plain names.now.second) none (term_of values.right.term.value)) (one line (choose (test_between largest (plain names.now.first) (plain names.now.second)) (one line (assign (plain names.now.first) none (var (plain names.now.second)))) stop))))) }
{
    let Operands { left, right } = values;
    set_named(alloc, line, &names.first, left.term, steps)?;
    set_named(alloc, line, &names.second, right.term, steps)?;
    let condition = compared(alloc, largest, names)?;
    let other = variable(alloc, &names.second)?;
    let name = names.first.copy(alloc)?;
    set_where(alloc, line, condition, name, other, steps)
}

/// The names of two locals.
#[derive(Drop)]
struct Pair {
    first: Name,
    second: Name,
}

// The locals of a number and of the next.
fn next_two(alloc: Global, locals: &mut Locals<'_>, number: usize) -> Result<Pair, Memory>
    ensures first { IfOk result (λ p. plain p.first ≡ local_by locals.old number) }
    ensures second { IfOk result (λ p. plain p.second ≡ local_by locals.old (suc number)) }
    ensures locals { OnOk result (local_by locals.new ≡ local_by locals.old) }
{
    let next = plus(number, 1)?;
    let first = locals.name(alloc, number)?;
    let second = locals.name(alloc, next)?;
    Ok(Pair { first, second })
}

// The local of a name in place of an expression, where some locals are taken from a number on.
fn stands_for(alloc: Global, name: Name, number: usize, taken: usize) -> Result<Reduced, Memory>
    ensures next { IfOk result (λ s. s.next ≡ number + taken) }
    ensures term { IfOk result (λ s. term_of s.term.value ≡ var (plain name)) }
{
    let next = plus(number, taken)?;
    let term = boxed(alloc, Expr::Var(name))?;
    Ok(Reduced { term, next })
}

// `MAX` of two operands, or `MIN`.
fn outermost(
    alloc: Global,
    locals: &mut Locals<'_>,
    line: u32,
    largest: bool,
    operands: Operands,
    steps: &mut Vec<Stmt>,
) -> Result<Reduced, Memory>
    ensures next { IfOk result (λ s. s.next ≡ operands.right.next + 2) }
    ensures term { IfOk result (λ s. term_of s.term.value ≡ var (local_by locals.old operands.right.next)) }
    ensures steps { OnOk result (Writes steps.old.items steps.new.items (picked (local_by locals.old) line (test_between largest (local_by locals.old operands.right.next) (local_by locals.old (suc operands.right.next))) operands.right.next (term_of operands.left.term.value) (term_of operands.right.term.value))) }
    ensures locals { OnOk result (local_by locals.new ≡ local_by locals.old) }
{
    let number = operands.right.next;
    let names = next_two(alloc, locals, number)?;
    pick(alloc, line, largest, &names, operands, steps)?;
    let made = stands_for(alloc, names.first, number, 2)?;
    Ok(made)
}

// Writes a value, with its sign turned where it is below 0, in a scalar.
fn turn_up(
    alloc: Global,
    line: u32,
    name: &Name,
    e: Box<Expr>,
    steps: &mut Vec<Stmt>,
) -> Result<(), Memory>
    ensures written { OnOk result (Writes steps.old.items steps.new.items (step line (assign (plain name.now) none (term_of e.value)) (one line (choose (compare is_less (var (plain name.now)) (lit (pos 0))) (one line (assign (plain name.now) none (neg (var (plain name.now))))) stop)))) }
{
    set_named(alloc, line, name, e, steps)?;
    let least = boxed(alloc, Expr::Lit(0))?;
    let condition = less(alloc, name, least)?;
    let inner = variable(alloc, name)?;
    let turned = boxed(alloc, Expr::Neg(inner))?;
    let same = name.copy(alloc)?;
    set_where(alloc, line, condition, same, turned, steps)
}

// `ABS` of an operand.
fn absolute(
    alloc: Global,
    locals: &mut Locals<'_>,
    line: u32,
    operand: Reduced,
    steps: &mut Vec<Stmt>,
) -> Result<Reduced, Memory>
    ensures next { IfOk result (λ s. s.next ≡ operand.next + 1) }
    ensures term { IfOk result (λ s. term_of s.term.value ≡ var (local_by locals.old operand.next)) }
    ensures steps { OnOk result (Writes steps.old.items steps.new.items (turned_up (local_by locals.old) line operand.next (term_of operand.term.value))) }
    ensures locals { OnOk result (local_by locals.new ≡ local_by locals.old) }
{
    let Reduced { term, next: number } = operand;
    let name = locals.name(alloc, number)?;
    turn_up(alloc, line, &name, term, steps)?;
    stands_for(alloc, name, number, 1)
}

// An operation on two operands, where `MAX` and `MIN` become a local.
fn combine(
    alloc: Global,
    locals: &mut Locals<'_>,
    line: u32,
    op: Op,
    operands: Operands,
    steps: &mut Vec<Stmt>,
) -> Result<Reduced, Memory>
    ensures next { IfOk result (λ s. s.next ≡ operands.right.next + locals_by (op_of op)) }
    ensures term { IfOk result (λ s. term_of s.term.value ≡ combined (local_by locals.old) (op_of op) operands.right.next (term_of operands.left.term.value) (term_of operands.right.term.value)) }
    ensures steps { OnOk result (Writes steps.old.items steps.new.items (before_combined (local_by locals.old) line (op_of op) operands.right.next (term_of operands.left.term.value) (term_of operands.right.term.value))) }
    ensures locals { OnOk result (local_by locals.new ≡ local_by locals.old) }
{
    match op {
        Op::Max => outermost(alloc, locals, line, true, operands, steps),
        Op::Min => outermost(alloc, locals, line, false, operands, steps),
        Op::Add | Op::Sub | Op::Mul | Op::Quot | Op::Mod => joined(alloc, op, operands),
    }
}

/// Writes the statements that set the locals of an expression, of which the first has this number, and gives the expression in
/// which they stand.
#[cycle(reduces)]
pub fn reduce(
    alloc: Global,
    locals: &mut Locals<'_>,
    line: u32,
    e: &Expr,
    first: usize,
    steps: &mut Vec<Stmt>,
) -> Result<Reduced, Memory>
    ensures next { IfOk result (λ s. s.next ≡ first + locals_in (term_of e.now)) }
    ensures term { IfOk result (λ s. term_of s.term.value ≡ reduced (local_by locals.old) first (term_of e.now)) }
    ensures steps { OnOk result (Writes steps.old.items steps.new.items (before (local_by locals.old) line first (term_of e.now))) }
    ensures locals { OnOk result (local_by locals.new ≡ local_by locals.old) }
{
    match e {
        Expr::Lit(_) | Expr::Var(_) | Expr::Elem(_, _) | Expr::Pow(_, 0) => whole(alloc, e, first),
        Expr::Neg(a) => {
            let inner = reduce(alloc, locals, line, a, first, steps)?;
            let made = opposite(alloc, inner)?;
            Ok(made)
        }
        Expr::Bin(op, a, b) => match op {
            Op::Quot | Op::Mod => whole(alloc, e, first),
            Op::Add | Op::Sub | Op::Mul | Op::Max | Op::Min => {
                let made = reduce_both(alloc, locals, line, *op, a, b, first, steps)?;
                Ok(made)
            }
        },
        Expr::Pow(a, power) => {
            let base = reduce(alloc, locals, line, a, first, steps)?;
            raised(alloc, base, *power)
        }
        Expr::Power(a, b) => {
            let base = reduce(alloc, locals, line, a, first, steps)?;
            raised_by(alloc, base, b)
        }
        Expr::Abs(a) => {
            let operand = reduce(alloc, locals, line, a, first, steps)?;
            let made = absolute(alloc, locals, line, operand, steps)?;
            Ok(made)
        }
    }
}

// The operation on two operands that are reduced first.
#[cycle(reduces)]
fn reduce_both(
    alloc: Global,
    locals: &mut Locals<'_>,
    line: u32,
    op: Op,
    a: &Expr,
    b: &Expr,
    first: usize,
    steps: &mut Vec<Stmt>,
) -> Result<Reduced, Memory>
    ensures next { IfOk result (λ s. s.next ≡ first + locals_in (term_of a.now) + locals_in (term_of b.now) + locals_by (op_of op)) }
    ensures term { IfOk result (λ s. term_of s.term.value ≡ combined (local_by locals.old) (op_of op) (first + locals_in (term_of a.now) + locals_in (term_of b.now)) (reduced (local_by locals.old) first (term_of a.now)) (reduced (local_by locals.old) (first + locals_in (term_of a.now)) (term_of b.now))) }
    ensures steps { OnOk result (Writes steps.old.items steps.new.items ((before (local_by locals.old) line first (term_of a.now) +++ before (local_by locals.old) line (first + locals_in (term_of a.now)) (term_of b.now)) +++ before_combined (local_by locals.old) line (op_of op) (first + locals_in (term_of a.now) + locals_in (term_of b.now)) (reduced (local_by locals.old) first (term_of a.now)) (reduced (local_by locals.old) (first + locals_in (term_of a.now)) (term_of b.now)))) }
    ensures locals { OnOk result (local_by locals.new ≡ local_by locals.old) }
{
    let left = reduce(alloc, locals, line, a, first, steps)?;
    let right = reduce(alloc, locals, line, b, left.next, steps)?;
    let made = combine(alloc, locals, line, op, Operands { left, right }, steps)?;
    Ok(made)
}

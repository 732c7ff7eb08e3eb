//! Statements of a kernel.

ghost use Rattle.std.specs.Prelude.{◌≡◌, ◌+◌, IfOk, OnOk};
ghost use Rattle.adj_tree.specs.Code.{plain, var, none, assign, choose, stop};
ghost use Rattle.adj_tree.specs.View.{term_of, terms_of, test_of, act_of, code_of};
ghost use Rattle.def_meaning.specs.Append.{one};
ghost use Rattle.adj_norm_statement.specs.Steps.{Writes};

use adj_tree::{Act, Cond, Expr, Exprs, Memory, Name, Place, Stmt, Stmts, boxed};
use std::alloc::Global;

/// The sum of two counts. Trees whose counts don't fit a word would not fit the memory.
pub fn plus(a: usize, b: usize) -> Result<usize, Memory>
    ensures sum { IfOk result (λ c. c ≡ a + b) }
{
    match a.checked_add(b) {
        Some(sum) => Ok(sum),
        None => Err(Memory),
    }
}

/// The variable of a name, as an expression.
pub fn variable(alloc: Global, name: &Name) -> Result<Box<Expr>, Memory>
    ensures variable { IfOk result (λ e. term_of e.value ≡ var (plain name.now)) }
{
    let same = name.copy(alloc)?;
    boxed(alloc, Expr::Var(same))
}

/// Writes a statement.
pub fn write(line: u32, act: Act, steps: &mut Vec<Stmt>) -> Result<(), Memory>
    ensures written { OnOk result (Writes steps.old.items steps.new.items (one line (act_of act))) }
{
    steps.push(Stmt { line, act })?;
    Ok(())
}

/// Writes an assignment to a place.
pub fn assign(
    line: u32,
    name: Name,
    subs: Exprs,
    e: Box<Expr>,
    steps: &mut Vec<Stmt>,
) -> Result<(), Memory>
    ensures written { OnOk result (Writes steps.old.items steps.new.items (one line (assign (plain name) (terms_of subs) (term_of e.value)))) }
{
    write(
        line,
        Act::Assign(Place { name, subs }, Box::into_inner(e)),
        steps,
    )
}

/// Writes an assignment to a scalar.
pub fn set(line: u32, name: Name, e: Box<Expr>, steps: &mut Vec<Stmt>) -> Result<(), Memory>
    ensures written { OnOk result (Writes steps.old.items steps.new.items (one line (assign (plain name) none (term_of e.value)))) }
{
    assign(line, name, Exprs::Empty, e, steps)
}

/// Writes an assignment to the scalar of a name.
pub fn set_named(
    alloc: Global,
    line: u32,
    name: &Name,
    e: Box<Expr>,
    steps: &mut Vec<Stmt>,
) -> Result<(), Memory>
    ensures written { OnOk result (Writes steps.old.items steps.new.items (one line (assign (plain name.now) none (term_of e.value)))) }
{
    let same = name.copy(alloc)?;
    set(line, same, e, steps)
}

/// Writes an IF that sets a scalar, and has no other part.
pub fn set_where(
    alloc: Global,
    line: u32,
    condition: Box<Cond>,
    name: Name,
    e: Box<Expr>,
    steps: &mut Vec<Stmt>,
) -> Result<(), Memory>
    ensures written { OnOk result (Writes steps.old.items steps.new.items (one line (choose (test_of condition.value) (one line (assign (plain name) none (term_of e.value))) stop))) }
{
    let part = only(alloc, line, name, e)?;
    write(
        line,
        Act::If(Box::into_inner(condition), part, Stmts::Empty),
        steps,
    )
}

// A list of one assignment to a scalar.
fn only(alloc: Global, line: u32, name: Name, e: Box<Expr>) -> Result<Stmts, Memory>
    ensures one { IfOk result (λ c. code_of c ≡ one line (assign (plain name) none (term_of e.value))) }
{
    let place = Place {
        name,
        subs: Exprs::Empty,
    };
    let stmt = Stmt {
        line,
        act: Act::Assign(place, Box::into_inner(e)),
    };
    Stmts::Empty.behind(alloc, stmt)
}

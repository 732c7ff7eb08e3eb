//! Numbers of statements.

ghost use Rattle.std.specs.Prelude.{◌≡◌, ◌+◌, IfOk, map};
ghost use Rattle.adj_tree.specs.View.{act_of, code_of, procedure_of};
ghost use Rattle.def_names.specs.Numbers.{next, behind};
ghost use Rattle.adj_weave_units.specs.Calls.{numbers_from};

use adj_tree::{Act, Memory, Stmts, Unit};
use std::alloc::Global;

// The number that comes after another. Statements whose count doesn't fit a word would not fit the memory.
pub(crate) fn after(number: usize) -> Result<usize, Memory>
    ensures after { IfOk result (λ n. n ≡ number + 1) }
{
    match number.checked_add(1) {
        Some(sum) => Ok(sum),
        None => Err(Memory),
    }
}

// The number that comes after those of a statement with this number.
#[cycle(numbers)]
fn next(number: usize, act: &Act) -> Result<usize, Memory>
    ensures next { IfOk result (λ n. n ≡ next number (act_of act.now)) }
{
    let inside = after(number)?;
    match act {
        Act::If(_, a, b) => {
            let second = behind(inside, a)?;
            behind(second, b)
        }
        Act::Loop(_, _, _, _, body, _) | Act::While(_, body) => { behind(inside, body) }
        Act::Assign(_, _) | Act::Call(_, _) | Act::Run(_) => Ok(inside),
    }
}

// The same of a list whose first statement has this number.
#[cycle(numbers)]
fn behind(first: usize, list: &Stmts) -> Result<usize, Memory>
    ensures behind { IfOk result (λ n. n ≡ behind first (code_of list.now)) }
{
    let mut number = first;
    let mut current = list;
    while let Stmts::More(row) = current {
        number = next(number, &row.first.act)?;
        current = &row.rest;
    }
    Ok(number)
}

/// The number of the first statement of each unit, where statements are numbered through all units.
pub fn first_statements(alloc: Global, units: &[Unit]) -> Result<Vec<usize>, Memory>
    ensures numbers { IfOk result (λ v. v.items ≡ numbers_from 0 (map procedure_of units.now)) }
{
    let mut made = Vec::new(alloc);
    let mut number = 0;
    for unit in units {
        made.push(number)?;
        number = behind(number, &unit.body)?;
    }
    Ok(made)
}

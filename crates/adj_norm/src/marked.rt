//! How many marked loops there are (docs/KERNEL.md, "The steps").

ghost use Rattle.std.specs.Prelude.{◌≡◌, IfOk};
ghost use Rattle.adj_tree.specs.View.{act_of, code_of};
ghost use Rattle.def_kernel.specs.Stepped.{marked_in_act, marked_in};

use adj_norm_statement::step::plus;
use adj_tree::{Act, Mark, Memory, Stmt, Stmts};

// How many marked loops are in a statement.
#[cycle(marks)]
fn marked_in_statement(stmt: &Stmt) -> Result<usize, Memory>
    ensures count { IfOk result (λ n. n ≡ marked_in_act (act_of stmt.now.act)) }
{
    match &stmt.act {
        Act::Assign(_, _) | Act::Call(_, _) | Act::Run(_) => Ok(0),
        Act::If(_, a, b) => {
            let first = marked_in(a)?;
            let second = marked_in(b)?;
            plus(first, second)
        }
        Act::Loop(_, _, _, _, body, mark) => match &**mark {
            Mark::Plain => { marked_in(body) }
            Mark::Count(_) | Mark::From(_) => {
                let inner = marked_in(body)?;
                plus(inner, 1)
            }
        },
        Act::While(_, body) => { marked_in(body) }
    }
}

/// How many are in a list.
#[cycle(marks)]
pub fn marked_in(code: &Stmts) -> Result<usize, Memory>
    ensures count { IfOk result (λ n. n ≡ marked_in (code_of code.now)) }
{
    let mut count = 0;
    let mut current = code;
    while let Stmts::More(row) = current {
        let inner = marked_in_statement(&row.first)?;
        count = plus(count, inner)?;
        current = &row.rest;
    }
    Ok(count)
}

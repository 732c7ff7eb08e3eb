//! Statements of the emitted program, and lists of them.

ghost use Rattle.std.specs.Prelude.{◌≡◌, IfOk};
ghost use Rattle.adj_tree.specs.Code.{plain, assign, none, step, runtime, push_word, pop_word};
ghost use Rattle.adj_tree.specs.View.{term_of, terms_of, act_of, code_of};
ghost use Rattle.adj_tree.specs.Listed.{steps_onto};

use adj_tree::{Act, Expr, Exprs, Memory, Name, Place, RunCall, Stmt, Stmts, boxed};
use std::alloc::Global;

/// An assignment to a place.
pub fn assignment(line: u32, name: Name, subs: Exprs, e: Expr) -> Stmt
    ensures line { result.line ≡ line }
    ensures act { act_of result.act ≡ assign (plain name) (terms_of subs) (term_of e) }
{
    Stmt {
        line,
        act: Act::Assign(Place { name, subs }, e),
    }
}

/// An assignment to a scalar.
pub fn scalar_assignment(line: u32, name: Name, e: Expr) -> Stmt
    ensures line { result.line ≡ line }
    ensures act { act_of result.act ≡ assign (plain name) none (term_of e) }
{
    assignment(line, name, Exprs::Empty, e)
}

/// The push of a place.
pub fn push(line: u32, place: Place) -> Stmt
    ensures line { result.line ≡ line }
    ensures act { act_of result.act ≡ runtime (push_word (plain place.name) (terms_of place.subs)) }
{
    Stmt {
        line,
        act: Act::Run(RunCall::PushWord(place)),
    }
}

/// The pop of a place.
pub fn pop(line: u32, place: Place) -> Stmt
    ensures line { result.line ≡ line }
    ensures act { act_of result.act ≡ runtime (pop_word (plain place.name) (terms_of place.subs)) }
{
    Stmt {
        line,
        act: Act::Run(RunCall::PopWord(place)),
    }
}

/// A statement, and then the rest.
pub fn before(alloc: Global, stmt: Stmt, rest: Stmts) -> Result<Stmts, Memory>
    ensures step { IfOk result (λ c. code_of c ≡ step stmt.line (act_of stmt.act) (code_of rest)) }
{
    rest.behind(alloc, stmt)
}

/// A place that becomes a value, and then the rest.
pub fn set_before(
    alloc: Global,
    line: u32,
    target: Place,
    e: Box<Expr>,
    rest: Stmts,
) -> Result<Stmts, Memory>
    ensures step { IfOk result (λ c. code_of c ≡ step line (assign (plain target.name) (terms_of target.subs) (term_of e.value)) (code_of rest)) }
{
    let stmt = Stmt {
        line,
        act: Act::Assign(target, Box::into_inner(e)),
    };
    before(alloc, stmt, rest)
}

/// Statements in order, and then the rest.
#[tactic(auto, using(adj_tree::proofs::Onto::code_onto_push))]
pub fn all_before(alloc: Global, stmts: Vec<Stmt>, rest: Stmts) -> Result<Stmts, Memory>
    ensures steps { IfOk result (λ c. code_of c ≡ steps_onto stmts.items (code_of rest)) }
{
    let mut stmts = stmts;
    let mut all = rest;
    while let Some(last) = stmts.pop() {
        all = before(alloc, last, all)?;
    }
    Ok(all)
}

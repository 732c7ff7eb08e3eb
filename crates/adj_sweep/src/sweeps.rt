//! Both sweeps of a list (docs/EMITTED.md, "Sweeps"). Lists are gone through by loops.

ghost use Rattle.std.specs.Prelude.{◌≡◌, ℕ, List, IfOk, suc};
ghost use Rattle.adj_tree.specs.View.{act_of, code_of};
ghost use Rattle.def_names.specs.Numbers.{Vars};
ghost use Rattle.def_sweep.specs.Plan.{Callee};
ghost use Rattle.def_sweep.specs.Rows.{is_empty};
ghost use Rattle.adj_sweep.specs.Callees.{KnowsAll};
ghost use Rattle.adj_sweep.specs.Plans.{naming_in, plan_of, schedules_of};
ghost use Rattle.adj_sweep.specs.Swept.{SweepsAct, SweepsList};

use crate::loops::Bounds;
use crate::plan::Plan;
use crate::steps::step_call;
use adj_sweep_assignment::sizes::plus;
use adj_tree::{Act, Memory, Stmt, Stmts};
use std::alloc::Global;

/// Both sweeps of some statements: the forward sweep from its last statement to its first, and the number of the next statement.
#[derive(Drop)]
pub struct Sweeps {
    pub forward: Stmts,
    pub backward: Stmts,
    pub number: usize,
}

impl Sweeps {
    /// Whether there is no backward sweep.
    pub fn is_idle(&self) -> bool
        ensures idle { result ≡ is_empty (code_of self.now.backward) }
    {
        matches!(self.backward, Stmts::Empty)
    }
}

/// The number that comes after another.
pub fn next(number: usize) -> Result<usize, Memory>
    ensures next { IfOk result (λ k. k ≡ suc number) }
{
    plus(number, 1)
}

impl<'a> Plan<'a> {
    /// The sweeps of a statement, behind the forward and before the backward sweep of those before it. `depth` counts the loops around it.
    #[cycle(sweeps)]
    pub fn statement(
        &self,
        alloc: Global,
        depth: usize,
        stmt: &Stmt,
        sweeps: Sweeps,
    ) -> Result<Sweeps, Memory>
        ensures sweeps { IfOk result (λ s. (callees : List ℕ → Callee) (reads : List ℕ → Vars) → KnowsAll self.now.callees.now callees reads → SweepsAct (schedules_of self.now reads) (naming_in self.now) (plan_of self.now callees) depth stmt.now.line (act_of stmt.now.act) sweeps s) }
    {
        let line = stmt.line;
        let number = next(sweeps.number)?;
        match &stmt.act {
            Act::Assign(place, e) => {
                let made = self.assignment(alloc, line, place, e, sweeps)?;
                Ok(made)
            }
            Act::If(c, a, b) => {
                let first = self.list(alloc, depth, a, number, Stmts::Empty)?;
                let second = self.list(alloc, depth, b, first.number, Stmts::Empty)?;
                let made = self.branch(alloc, line, c, first, second, sweeps)?;
                Ok(made)
            }
            Act::Loop(x, a, b, c, body, mark) => {
                let inside = next(depth)?;
                let bounds = Bounds {
                    variable: x,
                    first: a,
                    limit: b,
                    step: c,
                };
                match step_call(self.loops, self.marks, number, body, mark) {
                    Some(call) => {
                        let made = self.reversed_loop(alloc, inside, line, &bounds, &call, sweeps)?;
                        Ok(made)
                    }
                    None => {
                        let inner = self.list(alloc, inside, body, number, Stmts::Empty)?;
                        let made = self.do_loop(alloc, inside, line, &bounds, inner, sweeps)?;
                        Ok(made)
                    }
                }
            }
            Act::While(c, body) => {
                let inside = next(depth)?;
                let inner = self.list(alloc, inside, body, number, Stmts::Empty)?;
                let made = self.while_loop(alloc, inside, line, c, inner, sweeps)?;
                Ok(made)
            }
            Act::Call(name, actuals) => {
                let made = self.call(alloc, line, name, actuals, sweeps)?;
                Ok(made)
            }
            Act::Run(_) => Ok(Sweeps {
                forward: sweeps.forward,
                backward: sweeps.backward,
                number,
            }),
        }
    }

    /// The sweeps of a list whose first statement has this number, and then the rest behind the backward sweep.
    #[cycle(sweeps)]
    pub fn list(
        &self,
        alloc: Global,
        depth: usize,
        body: &Stmts,
        number: usize,
        rest: Stmts,
    ) -> Result<Sweeps, Memory>
        ensures sweeps { IfOk result (λ s. (callees : List ℕ → Callee) (reads : List ℕ → Vars) → KnowsAll self.now.callees.now callees reads → SweepsList (schedules_of self.now reads) (naming_in self.now) (plan_of self.now callees) depth number (code_of body.now) (code_of rest) s) }
    {
        let mut made = Sweeps {
            forward: Stmts::Empty,
            backward: rest,
            number,
        };
        let mut current = body;
        while let Stmts::More(row) = current {
            made = self.statement(alloc, depth, &row.first, made)?;
            current = &row.rest;
        }
        Ok(made)
    }
}

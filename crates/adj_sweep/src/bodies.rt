//! The bodies of adjoint units, and of the forward and the backward units of split calls (docs/EMITTED.md, "The units").

ghost use Rattle.std.specs.Prelude.{◌≡◌, ℕ, List, IfOk, ◌∷◌, []};
ghost use Rattle.adj_tree.specs.View.{act_of, code_of};
ghost use Rattle.def_meaning.specs.Append.{◌+++◌, one};
ghost use Rattle.def_meaning.specs.Rename.{rename};
ghost use Rattle.def_names.specs.Numbers.{Vars};
ghost use Rattle.def_sweep.specs.Plan.{Callee};
ghost use Rattle.def_sweep.specs.Rows.{push, pop, pushes, pops};
ghost use Rattle.def_sweep.specs.Emission.{cleared, adjoint_body_with};
ghost use Rattle.def_sweep.specs.SplitRows.{forth_body, back_body};
ghost use Rattle.adj_sweep.specs.Callees.{KnowsAll};
ghost use Rattle.adj_sweep.specs.Plans.{naming_in, plan_of, schedules_of};
ghost use Rattle.adj_sweep.specs.Swept.{in_order};

use crate::plan::Plan;
use adj_sweep_assignment::step::{before, scalar_assignment};
use adj_tree::{Act, Expr, Memory, Name, RunCall, Stmt, Stmts};
use std::alloc::Global;

/// The body of a unit, the number of its first statement and the unit's line, and the variables whose shadows are cleared between
/// the sweeps and at the end.
#[derive(Clone, Copy)]
pub struct Body<'b> {
    pub statements: &'b Stmts,
    pub number: usize,
    pub line: u32,
    pub at_turn: &'b [Name],
    pub at_end: &'b [Name],
}

/// The body of a unit, the number of its first statement and the unit's line, and the variables whose values the forward unit leaves on the
/// tape at its end.
#[derive(Clone, Copy)]
pub struct PairBody<'b> {
    pub statements: &'b Stmts,
    pub number: usize,
    pub line: u32,
    pub left: &'b [Name],
}

impl<'a> Plan<'a> {
    // The shadow of a variable is set to 0.
    fn clear(&self, alloc: Global, line: u32, x: &Name) -> Result<Stmt, Memory>
        ensures clears { IfOk result (λ s. (callees : List ℕ → Callee) → one s.line (act_of s.act) ≡ rename (naming_in self.now) (cleared (plan_of self.now callees) line (x.now ∷ []))) }
    {
        let name = self.names.shadow(alloc, x)?;
        if self.arrays.has(x.bytes()) {
            let act = Act::Run(RunCall::Zero(name));
            return Ok(Stmt { line, act });
        }
        Ok(scalar_assignment(line, name, Expr::Lit(0)))
    }

    // The shadows of variables are set to 0 in order, behind what is turned round.
    fn clear_all(
        &self,
        alloc: Global,
        line: u32,
        names: &[Name],
        turned: Stmts,
    ) -> Result<Stmts, Memory>
        ensures clears { IfOk result (λ c. (callees : List ℕ → Callee) → in_order (code_of c) ≡ in_order (code_of turned) +++ rename (naming_in self.now) (cleared (plan_of self.now callees) line names.now)) }
    {
        let mut code = turned;
        for x in names {
            let cleared = self.clear(alloc, line, x)?;
            code = before(alloc, cleared, code)?;
        }
        Ok(code)
    }

    /// The body of the adjoint of a unit: the forward sweep, the shadows that are cleared between the sweeps, the backward sweep,
    /// and the shadows that are cleared at the end.
    pub fn adjoint_body(&self, alloc: Global, body: &Body) -> Result<Stmts, Memory>
        ensures body { IfOk result (λ c. (callees : List ℕ → Callee) (reads : List ℕ → Vars) → KnowsAll self.now.callees.now callees reads → code_of c ≡ rename (naming_in self.now) (adjoint_body_with (schedules_of self.now reads) (plan_of self.now callees) body.now.number body.now.line (code_of body.now.statements.now) body.now.at_turn.now body.now.at_end.now)) }
    {
        let ended = self.clear_all(alloc, body.line, body.at_end, Stmts::Empty)?;
        let last = ended.turned();
        let sweeps = self.list(alloc, 0, body.statements, body.number, last)?;
        let at_turn = self.clear_all(alloc, body.line, body.at_turn, sweeps.forward)?;
        let code = at_turn.turned_onto(sweeps.backward);
        Ok(code)
    }

    // The push of a variable, behind what is turned round.
    fn push_left(&self, alloc: Global, line: u32, x: &Name, turned: Stmts) -> Result<Stmts, Memory>
        ensures pushed { IfOk result (λ c. (callees : List ℕ → Callee) → in_order (code_of c) ≡ in_order (code_of turned) +++ push (plan_of self.now callees) line x.now) }
    {
        let name = x.copy(alloc)?;
        let act = Act::Run(self.push_of(name));
        let code = before(alloc, Stmt { line, act }, turned)?;
        Ok(code)
    }

    // The pushes of variables in order, behind what is turned round.
    fn push_all(
        &self,
        alloc: Global,
        line: u32,
        names: &[Name],
        turned: Stmts,
    ) -> Result<Stmts, Memory>
        ensures pushed { IfOk result (λ c. (callees : List ℕ → Callee) → in_order (code_of c) ≡ in_order (code_of turned) +++ pushes (plan_of self.now callees) line names.now) }
    {
        let mut code = turned;
        for x in names {
            code = self.push_left(alloc, line, x, code)?;
        }
        Ok(code)
    }

    // The pop of a variable, and then the rest.
    fn pop_left(&self, alloc: Global, line: u32, x: &Name, rest: Stmts) -> Result<Stmts, Memory>
        ensures popped { IfOk result (λ c. (callees : List ℕ → Callee) → code_of c ≡ pop (plan_of self.now callees) line x.now +++ code_of rest) }
    {
        let name = x.copy(alloc)?;
        let act = Act::Run(self.pop_of(name));
        let code = before(alloc, Stmt { line, act }, rest)?;
        Ok(code)
    }

    // The pops of variables in the opposite order, and then the rest.
    fn pop_all(
        &self,
        alloc: Global,
        line: u32,
        names: &[Name],
        rest: Stmts,
    ) -> Result<Stmts, Memory>
        ensures popped { IfOk result (λ c. (callees : List ℕ → Callee) → code_of c ≡ pops (plan_of self.now callees) line names.now +++ code_of rest) }
    {
        let mut code = rest;
        for x in names {
            code = self.pop_left(alloc, line, x, code)?;
        }
        Ok(code)
    }

    /// The body of the forward unit of split calls: the forward sweep, and the pushes of what it leaves on the tape.
    pub fn forth_body(&self, alloc: Global, body: &PairBody) -> Result<Stmts, Memory>
        ensures body { IfOk result (λ c. (callees : List ℕ → Callee) (reads : List ℕ → Vars) → KnowsAll self.now.callees.now callees reads → code_of c ≡ rename (naming_in self.now) (forth_body (schedules_of self.now reads) (plan_of self.now callees) body.now.number body.now.line body.now.left.now (code_of body.now.statements.now))) }
    {
        let sweeps = self.list(alloc, 0, body.statements, body.number, Stmts::Empty)?;
        let pushed = self.push_all(alloc, body.line, body.left, sweeps.forward)?;
        let code = pushed.turned();
        Ok(code)
    }

    /// The body of the backward unit: the pops of these, and the backward sweep.
    pub fn back_body(&self, alloc: Global, body: &PairBody) -> Result<Stmts, Memory>
        ensures body { IfOk result (λ c. (callees : List ℕ → Callee) (reads : List ℕ → Vars) → KnowsAll self.now.callees.now callees reads → code_of c ≡ rename (naming_in self.now) (back_body (schedules_of self.now reads) (plan_of self.now callees) body.now.number body.now.line body.now.left.now (code_of body.now.statements.now))) }
    {
        let sweeps = self.list(alloc, 0, body.statements, body.number, Stmts::Empty)?;
        let code = self.pop_all(alloc, body.line, body.left, sweeps.backward)?;
        Ok(code)
    }
}

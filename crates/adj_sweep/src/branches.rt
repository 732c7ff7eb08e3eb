//! Both sweeps of an IF (docs/EMITTED.md, "Sweeps").

ghost use Rattle.std.specs.Prelude.{◌≡◌, ◌&&◌, ℕ, List, IfOk, suc};
ghost use Rattle.adj_tree.specs.Code.{Code, var, compare, is_same, choose, stop, step};
ghost use Rattle.adj_tree.specs.View.{test_of, code_of};
ghost use Rattle.def_meaning.specs.Append.{◌+++◌, one};
ghost use Rattle.def_meaning.specs.Rename.{rename};
ghost use Rattle.def_sweep.specs.Plan.{Callee, Schedules};
ghost use Rattle.def_sweep.specs.Rows.{is_empty, literal, told_forward, told_backward};
ghost use Rattle.adj_naming.specs.Roles.{variable_of};
ghost use Rattle.adj_sweep.specs.Plans.{naming_in, plan_of};
ghost use Rattle.adj_sweep.specs.Swept.{in_order, SweepsAct, SweepsList};

use crate::plan::Plan;
use crate::slots::literal;
use crate::sweeps::Sweeps;
use adj_naming::role::{Helper, Role};
use adj_sweep_assignment::step::before;
use adj_tree::{Act, Cond, Expr, Memory, Rel, RunCall, Stmt, Stmts, boxed};
use std::alloc::Global;

// The forward sweep of a part, which is turned round; where a part has a backward sweep, it tells that it ran.
fn told(alloc: Global, idle: bool, line: u32, part: Stmts, word: u32) -> Result<Stmts, Memory>
    ensures told { IfOk result (λ c. code_of c ≡ told_forward idle line (in_order (code_of part)) word) }
{
    if idle {
        let only = part.turned();
        return Ok(only);
    }
    let act = Act::Run(RunCall::PushControl(Expr::Lit(i64::from(word))));
    let telling = before(alloc, Stmt { line, act }, part)?;
    let all = telling.turned();
    Ok(all)
}

// The forward sweep of an IF behind what is turned round.
fn branch_forward(
    alloc: Global,
    line: u32,
    c: &Cond,
    idle: bool,
    first: Stmts,
    second: Stmts,
    turned: Stmts,
) -> Result<Stmts, Memory>
    ensures forward { IfOk result (λ s. in_order (code_of s) ≡ in_order (code_of turned) +++ one line (choose (test_of c.now) (told_forward idle line (in_order (code_of first)) 1) (told_forward idle line (in_order (code_of second)) 0))) }
{
    let first = told(alloc, idle, line, first, 1)?;
    let second = told(alloc, idle, line, second, 0)?;
    let act = Act::If(c.copy(alloc)?, first, second);
    let code = before(alloc, Stmt { line, act }, turned)?;
    Ok(code)
}

// Whether neither part has a backward sweep.
fn are_idle(first: &Sweeps, second: &Sweeps) -> bool
    ensures idle { result ≡ (is_empty (code_of first.now.backward) && is_empty (code_of second.now.backward)) }
{
    first.is_idle() && second.is_idle()
}

impl<'a> Plan<'a> {
    /// An IF whose first part runs where a helper holds a number, and then the rest.
    pub fn if_own(
        &self,
        alloc: Global,
        line: u32,
        own: Helper,
        n: u32,
        first: Stmts,
        second: Stmts,
        rest: Stmts,
    ) -> Result<Stmts, Memory>
        ensures step { IfOk result (λ c. code_of c ≡ step line (choose (compare is_same (var (naming_in self.now (variable_of own))) (literal n)) (code_of first) (code_of second)) (code_of rest)) }
    {
        let left = self.own(alloc, own)?;
        let right = boxed(alloc, literal(n))?;
        let act = Act::If(Cond::Cmp(Rel::Eq, left, right), first, second);
        let code = before(alloc, Stmt { line, act }, rest)?;
        Ok(code)
    }

    // The backward sweep of an IF, and then the rest.
    fn branch_backward(
        &self,
        alloc: Global,
        line: u32,
        idle: bool,
        first: Stmts,
        second: Stmts,
        rest: Stmts,
    ) -> Result<Stmts, Memory>
        ensures backward { IfOk result (λ s. (a b : Code) → code_of first ≡ rename (naming_in self.now) a → code_of second ≡ rename (naming_in self.now) b → code_of s ≡ rename (naming_in self.now) (told_backward idle line a b) +++ code_of rest) }
    {
        if idle {
            return Ok(rest);
        }
        let own = Helper {
            role: Role::Control,
            number: 0,
        };
        let parts = self.if_own(alloc, line, own, 1, first, second, rest)?;
        let word = self.names.helper(alloc, Role::Control, 0)?;
        let act = Act::Run(RunCall::PopControl(word));
        let code = before(alloc, Stmt { line, act }, parts)?;
        Ok(code)
    }

    /// Both sweeps of an IF, from those of its parts.
    pub fn branch(
        &self,
        alloc: Global,
        line: u32,
        c: &Cond,
        first: Sweeps,
        second: Sweeps,
        sweeps: Sweeps,
    ) -> Result<Sweeps, Memory>
        ensures sweeps { IfOk result (λ s. (sc : Schedules) (callees : List ℕ → Callee) (d : ℕ) (a b : Code) → SweepsList sc (naming_in self.now) (plan_of self.now callees) d (suc sweeps.number) a stop first → SweepsList sc (naming_in self.now) (plan_of self.now callees) d first.number b stop second → SweepsAct sc (naming_in self.now) (plan_of self.now callees) d line (choose (test_of c.now) a b) sweeps s) }
    {
        let idle = are_idle(&first, &second);
        let number = second.number;
        if !self.marks.emitted(sweeps.number) {
            return Ok(Sweeps {
                forward: sweeps.forward,
                backward: sweeps.backward,
                number,
            });
        }
        let forward = branch_forward(
            alloc,
            line,
            c,
            idle,
            first.forward,
            second.forward,
            sweeps.forward,
        )?;
        let backward = self.branch_backward(
            alloc,
            line,
            idle,
            first.backward,
            second.backward,
            sweeps.backward,
        )?;
        Ok(Sweeps {
            forward,
            backward,
            number,
        })
    }
}

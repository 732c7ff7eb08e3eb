//! Both sweeps of a DO and of a DO WHILE, from those of their bodies (docs/EMITTED.md, "Sweeps").

ghost use Rattle.std.specs.Prelude.{◌≡◌, ℕ, List, None, IfOk, suc};
ghost use Rattle.adj_tree.specs.Code.{Code, Mark, plain, none, during, runtime, push_word, pop_word, stop, step};
ghost use Rattle.adj_tree.specs.View.{term_of, test_of, code_of};
ghost use Rattle.def_meaning.specs.Append.{◌+++◌, one};
ghost use Rattle.def_meaning.specs.Rename.{rename};
ghost use Rattle.def_sweep.specs.Marked.{code_if};
ghost use Rattle.def_sweep.specs.Plan.{Callee, Schedules, reversed_by};
ghost use Rattle.def_sweep.specs.Rows.{loop_forward, loop_backward, while_forward, while_backward, reset};
ghost use Rattle.adj_sweep_assignment.specs.View.{marks_of};
ghost use Rattle.adj_sweep.specs.Plans.{naming_in, plan_of};
ghost use Rattle.adj_sweep.specs.Rows.{text_turns};
ghost use Rattle.adj_sweep.specs.Swept.{in_order, SweepsAct, SweepsList};

use crate::loops::{Bounds, of_depth, plain_turns};
use crate::plan::{At, Plan};
use crate::sweeps::Sweeps;
use adj_naming::role::Role;
use adj_sweep_assignment::step::before;
use adj_tree::{Act, Cond, Exprs, Memory, Name, Place, Stmt, Stmts};
use std::alloc::Global;

// A DO WHILE, and then the rest.
fn while_before(
    alloc: Global,
    line: u32,
    c: &Cond,
    body: Stmts,
    rest: Stmts,
) -> Result<Stmts, Memory>
    ensures step { IfOk result (λ s. code_of s ≡ step line (during (test_of c.now) (code_of body)) (code_of rest)) }
{
    let act = Act::While(c.copy(alloc)?, body);
    let code = before(alloc, Stmt { line, act }, rest)?;
    Ok(code)
}

impl<'a> Plan<'a> {
    /// The variable of a DO is pushed, where it is saved, behind what is turned round.
    pub fn push_variable(
        &self,
        alloc: Global,
        at: At,
        x: &Name,
        turned: Stmts,
    ) -> Result<Stmts, Memory>
        ensures pushed { IfOk result (λ c. in_order (code_of c) ≡ in_order (code_of turned) +++ code_if ((marks_of self.now.marks.now).saved at.number (plain x.now)) (one at.line (runtime (push_word (plain x.now) none)))) }
    {
        let name = x.copy(alloc)?;
        let subs = Exprs::Empty;
        let place = Place { name, subs };
        let code = self.push_saved(alloc, at.number, at.line, &place, turned)?;
        Ok(code)
    }

    /// The variable of a DO is popped, where it is saved, then its shadow is reset, and then the rest.
    pub fn pop_variable(
        &self,
        alloc: Global,
        at: At,
        x: &Name,
        rest: Stmts,
    ) -> Result<Stmts, Memory>
        ensures popped { IfOk result (λ c. code_of c ≡ code_if ((marks_of self.now.marks.now).saved at.number (plain x.now)) (one at.line (runtime (pop_word (plain x.now) none))) +++ (rename (naming_in self.now) (reset (marks_of self.now.marks.now) at.number at.line x.now) +++ code_of rest)) }
    {
        let cleared = self.reset(alloc, at.number, at.line, x, rest)?;
        let name = x.copy(alloc)?;
        let subs = Exprs::Empty;
        let place = Place { name, subs };
        let code = self.pop_saved(alloc, at.number, at.line, &place, cleared)?;
        Ok(code)
    }

    // The forward sweep of a DO with its variable, behind what is turned round.
    fn do_forward(
        &self,
        alloc: Global,
        at: At,
        bounds: &Bounds,
        idle: bool,
        body: Stmts,
        turned: Stmts,
    ) -> Result<Stmts, Memory>
        ensures forward { IfOk result (λ c. (inner : Code) → in_order (code_of body) ≡ rename (naming_in self.now) inner → in_order (code_of c) ≡ in_order (code_of turned) +++ (code_if ((marks_of self.now.marks.now).saved at.number (plain bounds.now.variable.now)) (one at.line (runtime (push_word (plain bounds.now.variable.now) none))) +++ rename (naming_in self.now) (loop_forward idle at.depth at.line (plain bounds.now.variable.now) (term_of bounds.now.first.now) (term_of bounds.now.limit.now) (term_of bounds.now.step.now) inner))) }
    {
        let pushed = self.push_variable(alloc, at, bounds.variable, turned)?;
        if idle {
            let plain = plain_turns(alloc, at.line, bounds, body, pushed)?;
            return Ok(plain);
        }
        let code = self.told_turns(alloc, at, bounds, body, pushed)?;
        Ok(code)
    }

    // The backward sweep of a DO with its variable, and then the rest.
    fn do_backward(
        &self,
        alloc: Global,
        at: At,
        variable: &Name,
        idle: bool,
        body: Stmts,
        rest: Stmts,
    ) -> Result<Stmts, Memory>
        ensures backward { IfOk result (λ c. (inner : Code) → code_of body ≡ rename (naming_in self.now) inner → code_of c ≡ rename (naming_in self.now) (loop_backward idle at.depth at.line (plain variable.now) inner) +++ (code_if ((marks_of self.now.marks.now).saved at.number (plain variable.now)) (one at.line (runtime (pop_word (plain variable.now) none))) +++ (rename (naming_in self.now) (reset (marks_of self.now.marks.now) at.number at.line variable.now) +++ code_of rest))) }
    {
        let popped = self.pop_variable(alloc, at, variable, rest)?;
        if idle {
            return Ok(popped);
        }
        let turned = self.set_at(alloc, at, variable, Role::Turn, body)?;
        let gone = self.turns_back(alloc, at, turned, popped)?;
        let begun = self.pop_own(alloc, at.line, of_depth(Role::First, at.depth), gone)?;
        let stepped = self.pop_own(alloc, at.line, of_depth(Role::Stride, at.depth), begun)?;
        let code = self.pop_own(alloc, at.line, of_depth(Role::Count, at.depth), stepped)?;
        Ok(code)
    }

    /// Both sweeps of a DO of this depth that isn't reversed by a schedule, from those of its body.
    pub fn do_loop(
        &self,
        alloc: Global,
        depth: usize,
        line: u32,
        bounds: &Bounds,
        inner: Sweeps,
        sweeps: Sweeps,
    ) -> Result<Sweeps, Memory>
        ensures sweeps { IfOk result (λ s. (sc : Schedules) (callees : List ℕ → Callee) (d : ℕ) (body : Code) (m : Mark) → reversed_by sc (marks_of self.now.marks.now).adjointed sweeps.number body m ≡ None → depth ≡ suc d → SweepsList sc (naming_in self.now) (plan_of self.now callees) (suc d) (suc sweeps.number) body stop inner → SweepsAct sc (naming_in self.now) (plan_of self.now callees) d line (text_turns (plain bounds.now.variable.now) (term_of bounds.now.first.now) (term_of bounds.now.limit.now) (term_of bounds.now.step.now) body m) sweeps s) }
    {
        let idle = inner.is_idle();
        let number = inner.number;
        if !self.marks.emitted(sweeps.number) {
            return Ok(Sweeps {
                forward: sweeps.forward,
                backward: sweeps.backward,
                number,
            });
        }
        let at = At {
            number: sweeps.number,
            depth,
            line,
        };
        let forward = self.do_forward(alloc, at, bounds, idle, inner.forward, sweeps.forward)?;
        let backward = self.do_backward(
            alloc,
            at,
            bounds.variable,
            idle,
            inner.backward,
            sweeps.backward,
        )?;
        Ok(Sweeps {
            forward,
            backward,
            number,
        })
    }

    // The forward sweep of a DO WHILE, behind what is turned round.
    fn while_forward(
        &self,
        alloc: Global,
        at: At,
        c: &Cond,
        idle: bool,
        body: Stmts,
        turned: Stmts,
    ) -> Result<Stmts, Memory>
        ensures forward { IfOk result (λ s. (inner : Code) → in_order (code_of body) ≡ rename (naming_in self.now) inner → in_order (code_of s) ≡ in_order (code_of turned) +++ rename (naming_in self.now) (while_forward idle at.depth at.line (test_of c.now) inner)) }
    {
        if idle {
            let plain = while_before(alloc, at.line, c, body.turned(), turned)?;
            return Ok(plain);
        }
        let count = of_depth(Role::Count, at.depth);
        let opened = self.set_count(alloc, at, turned)?;
        let counted = self.counted(alloc, at, body)?;
        let gone = while_before(alloc, at.line, c, counted, opened)?;
        let code = self.push_own(alloc, at.line, count, gone)?;
        Ok(code)
    }

    // The backward sweep of a DO WHILE, and then the rest.
    fn while_backward(
        &self,
        alloc: Global,
        at: At,
        idle: bool,
        body: Stmts,
        rest: Stmts,
    ) -> Result<Stmts, Memory>
        ensures backward { IfOk result (λ c. (inner : Code) → code_of body ≡ rename (naming_in self.now) inner → code_of c ≡ rename (naming_in self.now) (while_backward idle at.depth at.line inner) +++ code_of rest) }
    {
        if idle {
            return Ok(rest);
        }
        let gone = self.turns_back(alloc, at, body, rest)?;
        let code = self.pop_own(alloc, at.line, of_depth(Role::Count, at.depth), gone)?;
        Ok(code)
    }

    /// Both sweeps of a DO WHILE of this depth, from those of its body.
    pub fn while_loop(
        &self,
        alloc: Global,
        depth: usize,
        line: u32,
        c: &Cond,
        inner: Sweeps,
        sweeps: Sweeps,
    ) -> Result<Sweeps, Memory>
        ensures sweeps { IfOk result (λ s. (sc : Schedules) (callees : List ℕ → Callee) (d : ℕ) (body : Code) → depth ≡ suc d → SweepsList sc (naming_in self.now) (plan_of self.now callees) (suc d) (suc sweeps.number) body stop inner → SweepsAct sc (naming_in self.now) (plan_of self.now callees) d line (during (test_of c.now) body) sweeps s) }
    {
        let idle = inner.is_idle();
        let number = inner.number;
        if !self.marks.emitted(sweeps.number) {
            return Ok(Sweeps {
                forward: sweeps.forward,
                backward: sweeps.backward,
                number,
            });
        }
        let at = At {
            number: sweeps.number,
            depth,
            line,
        };
        let forward = self.while_forward(alloc, at, c, idle, inner.forward, sweeps.forward)?;
        let backward = self.while_backward(alloc, at, idle, inner.backward, sweeps.backward)?;
        Ok(Sweeps {
            forward,
            backward,
            number,
        })
    }
}

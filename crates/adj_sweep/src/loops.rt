//! The turns of loops, forward and backward (docs/EMITTED.md, "Sweeps").

ghost use Rattle.std.specs.Prelude.{◌≡◌, IfOk, pos, false};
ghost use Rattle.adj_tree.specs.Code.{Code, plain, helper, first, stride, count, turn, plus, minus, times, var, lit, neg, bin, none, assign, runtime, push_word, step};
ghost use Rattle.adj_tree.specs.Listed.{code_turned};
ghost use Rattle.adj_tree.specs.View.{term_of, act_of, code_of};
ghost use Rattle.def_meaning.specs.Append.{◌+++◌, one};
ghost use Rattle.def_meaning.specs.Rename.{rename};
ghost use Rattle.def_sweep.specs.Rows.{loop_forward, resets, reset};
ghost use Rattle.adj_sweep_assignment.specs.View.{marks_of};
ghost use Rattle.adj_naming.specs.Roles.{role_of};
ghost use Rattle.adj_sweep.specs.Plans.{naming_in};
ghost use Rattle.adj_sweep.specs.Rows.{turns};
ghost use Rattle.adj_sweep.specs.Swept.{in_order};

use crate::plan::{At, Plan};
use crate::slots::with_number;
use adj_naming::role::{Helper, Role};
use adj_sweep_assignment::step::{before, scalar_assignment, set_before};
use adj_sweep_assignment::terms::sum;
use adj_tree::{Act, Expr, Exprs, Mark, Memory, Name, Op, Place, Stmt, Stmts, boxed};
use std::alloc::Global;

/// The variable of a DO, its first value, its limit and its step.
#[derive(Clone, Copy)]
pub struct Bounds<'b> {
    pub variable: &'b Name,
    pub first: &'b Expr,
    pub limit: &'b Expr,
    pub step: &'b Expr,
}

/// The helper of a role for loops of a depth.
pub fn of_depth(role: Role, depth: usize) -> Helper
    ensures role { result.role ≡ role }
    ensures number { result.number ≡ depth }
{
    Helper {
        role,
        number: depth,
    }
}

/// A DO that isn't marked.
pub fn turns_of(
    alloc: Global,
    line: u32,
    variable: Name,
    first: Box<Expr>,
    limit: Box<Expr>,
    step: Box<Expr>,
    body: Stmts,
) -> Result<Stmt, Memory>
    ensures line { IfOk result (λ s. s.line ≡ line) }
    ensures act { IfOk result (λ s. act_of s.act ≡ turns (plain variable) (term_of first.value) (term_of limit.value) (term_of step.value) (code_of body)) }
{
    let mark = boxed(alloc, Mark::Plain)?;
    let act = Act::Loop(variable, first, limit, step, body, mark);
    Ok(Stmt { line, act })
}

/// A DO as it is, with its forward sweep, behind what is turned round.
pub fn plain_turns(
    alloc: Global,
    line: u32,
    bounds: &Bounds,
    body: Stmts,
    turned: Stmts,
) -> Result<Stmts, Memory>
    ensures forward { IfOk result (λ c. in_order (code_of c) ≡ in_order (code_of turned) +++ one line (turns (plain bounds.now.variable.now) (term_of bounds.now.first.now) (term_of bounds.now.limit.now) (term_of bounds.now.step.now) (in_order (code_of body)))) }
{
    let first = bounds.first.copy_boxed(alloc)?;
    let limit = bounds.limit.copy_boxed(alloc)?;
    let step = bounds.step.copy_boxed(alloc)?;
    let variable = bounds.variable.copy(alloc)?;
    let turns = turns_of(alloc, line, variable, first, limit, step, body.turned())?;
    let code = before(alloc, turns, turned)?;
    Ok(code)
}

impl<'a> Plan<'a> {
    /// The first value and the step are set, behind what is turned round.
    pub fn set_bounds(
        &self,
        alloc: Global,
        at: At,
        bounds: &Bounds,
        turned: Stmts,
    ) -> Result<Stmts, Memory>
        ensures set { IfOk result (λ c. code_of c ≡ step at.line (assign (naming_in self.now (helper stride at.depth)) none (term_of bounds.now.step.now)) (step at.line (assign (naming_in self.now (helper first at.depth)) none (term_of bounds.now.first.now)) (code_of turned))) }
    {
        let first = of_depth(Role::First, at.depth);
        let stride = of_depth(Role::Stride, at.depth);
        let from = bounds.first.copy_boxed(alloc)?;
        let begun = self.set_own(alloc, at.line, first, from, turned)?;
        let by = bounds.step.copy_boxed(alloc)?;
        self.set_own(alloc, at.line, stride, by, begun)
    }

    /// No turn is counted yet, behind what is turned round.
    pub fn set_count(&self, alloc: Global, at: At, turned: Stmts) -> Result<Stmts, Memory>
        ensures set { IfOk result (λ c. code_of c ≡ step at.line (assign (naming_in self.now (helper count at.depth)) none (lit (pos 0))) (code_of turned)) }
    {
        let count = of_depth(Role::Count, at.depth);
        let none = boxed(alloc, Expr::Lit(0))?;
        self.set_own(alloc, at.line, count, none, turned)
    }

    /// The body of a loop, which is turned round, and at its end a turn is counted.
    pub fn counted(&self, alloc: Global, at: At, body: Stmts) -> Result<Stmts, Memory>
        ensures counted { IfOk result (λ c. code_of c ≡ code_turned (code_of body) (one at.line (assign (naming_in self.now (helper count at.depth)) none (bin plus (var (naming_in self.now (helper count at.depth))) (lit (pos 1)))))) }
    {
        let count = of_depth(Role::Count, at.depth);
        let old = self.own(alloc, count)?;
        let more = with_number(alloc, Op::Add, old, 1)?;
        let code = self.set_own(alloc, at.line, count, more, body)?;
        Ok(code.turned())
    }

    /// The DO over what was set, and then the rest.
    pub fn counted_turns(
        &self,
        alloc: Global,
        at: At,
        bounds: &Bounds,
        body: Stmts,
        rest: Stmts,
    ) -> Result<Stmts, Memory>
        ensures step { IfOk result (λ c. code_of c ≡ step at.line (turns (plain bounds.now.variable.now) (var (naming_in self.now (helper first at.depth))) (term_of bounds.now.limit.now) (var (naming_in self.now (helper stride at.depth))) (code_turned (code_of body) (one at.line (assign (naming_in self.now (helper count at.depth)) none (bin plus (var (naming_in self.now (helper count at.depth))) (lit (pos 1))))))) (code_of rest)) }
    {
        let counted = self.counted(alloc, at, body)?;
        let first = self.own(alloc, of_depth(Role::First, at.depth))?;
        let limit = bounds.limit.copy_boxed(alloc)?;
        let stride = self.own(alloc, of_depth(Role::Stride, at.depth))?;
        let variable = bounds.variable.copy(alloc)?;
        let turns = turns_of(alloc, at.line, variable, first, limit, stride, counted)?;
        let code = before(alloc, turns, rest)?;
        Ok(code)
    }

    /// The first value and the step are pushed, behind what is turned round.
    pub fn push_bounds(&self, alloc: Global, at: At, turned: Stmts) -> Result<Stmts, Memory>
        ensures pushed { IfOk result (λ c. code_of c ≡ step at.line (runtime (push_word (naming_in self.now (helper stride at.depth)) none)) (step at.line (runtime (push_word (naming_in self.now (helper first at.depth)) none)) (code_of turned))) }
    {
        let first = of_depth(Role::First, at.depth);
        let stride = of_depth(Role::Stride, at.depth);
        let begun = self.push_own(alloc, at.line, first, turned)?;
        self.push_own(alloc, at.line, stride, begun)
    }

    /// The number of turns is pushed, behind what is turned round.
    pub fn push_count(&self, alloc: Global, at: At, turned: Stmts) -> Result<Stmts, Memory>
        ensures pushed { IfOk result (λ c. code_of c ≡ step at.line (runtime (push_word (naming_in self.now (helper count at.depth)) none)) (code_of turned)) }
    {
        let count = of_depth(Role::Count, at.depth);
        self.push_own(alloc, at.line, count, turned)
    }

    /// The forward sweep of a DO whose turns are gone through backward, behind what is turned round.
    pub fn told_turns(
        &self,
        alloc: Global,
        at: At,
        bounds: &Bounds,
        body: Stmts,
        turned: Stmts,
    ) -> Result<Stmts, Memory>
        ensures told { IfOk result (λ c. (inner : Code) → in_order (code_of body) ≡ rename (naming_in self.now) inner → in_order (code_of c) ≡ in_order (code_of turned) +++ rename (naming_in self.now) (loop_forward false at.depth at.line (plain bounds.now.variable.now) (term_of bounds.now.first.now) (term_of bounds.now.limit.now) (term_of bounds.now.step.now) inner)) }
    {
        let bound = self.set_bounds(alloc, at, bounds, turned)?;
        let opened = self.set_count(alloc, at, bound)?;
        let gone = self.counted_turns(alloc, at, bounds, body, opened)?;
        let pushed = self.push_bounds(alloc, at, gone)?;
        let code = self.push_count(alloc, at, pushed)?;
        Ok(code)
    }

    /// The loop over the turns from the last to the first, and then the rest.
    pub fn turns_back(
        &self,
        alloc: Global,
        at: At,
        body: Stmts,
        rest: Stmts,
    ) -> Result<Stmts, Memory>
        ensures step { IfOk result (λ c. code_of c ≡ step at.line (turns (naming_in self.now (helper turn at.depth)) (bin minus (var (naming_in self.now (helper count at.depth))) (lit (pos 1))) (lit (pos 0)) (neg (lit (pos 1))) (code_of body)) (code_of rest)) }
    {
        let count = self.own(alloc, of_depth(Role::Count, at.depth))?;
        let from = with_number(alloc, Op::Sub, count, 1)?;
        let limit = boxed(alloc, Expr::Lit(0))?;
        let back = boxed(alloc, Expr::Lit(1))?;
        let stride = boxed(alloc, Expr::Neg(back))?;
        let turn = self.names.helper(alloc, Role::Turn, at.depth)?;
        let turns = turns_of(alloc, at.line, turn, from, limit, stride, body)?;
        let code = before(alloc, turns, rest)?;
        Ok(code)
    }

    /// The value that the variable of a DO has in the turn whose number the helper of a role holds.
    pub fn value_at(&self, alloc: Global, at: At, role: Role) -> Result<Box<Expr>, Memory>
        ensures value { IfOk result (λ e. term_of e.value ≡ bin plus (var (naming_in self.now (helper first at.depth))) (bin times (var (naming_in self.now (helper (role_of role) at.depth))) (var (naming_in self.now (helper stride at.depth))))) }
    {
        let first = self.own(alloc, of_depth(Role::First, at.depth))?;
        let turn = self.own(alloc, of_depth(role, at.depth))?;
        let stride = self.own(alloc, of_depth(Role::Stride, at.depth))?;
        let steps = boxed(alloc, Expr::Bin(Op::Mul, turn, stride))?;
        sum(alloc, first, steps)
    }

    /// The variable of a DO gets its value in the turn whose number the helper of a role holds, and then the rest.
    pub fn set_at(
        &self,
        alloc: Global,
        at: At,
        variable: &Name,
        role: Role,
        rest: Stmts,
    ) -> Result<Stmts, Memory>
        ensures step { IfOk result (λ c. code_of c ≡ step at.line (assign (plain variable.now) none (bin plus (var (naming_in self.now (helper first at.depth))) (bin times (var (naming_in self.now (helper (role_of role) at.depth))) (var (naming_in self.now (helper stride at.depth)))))) (code_of rest)) }
    {
        let value = self.value_at(alloc, at, role)?;
        let place = Place {
            name: variable.copy(alloc)?,
            subs: Exprs::Empty,
        };
        let code = set_before(alloc, at.line, place, value, rest)?;
        Ok(code)
    }

    // Whether a DO sets the shadow of its variable to 0.
    fn resets(&self, number: usize, x: &Name) -> bool
        ensures resets { result ≡ resets (marks_of self.now.marks.now) number x.now }
    {
        self.marks.shadowed(x) && self.marks.varied(number, x)
    }

    /// The shadow of the variable of a DO becomes 0 where it has one and is varied before the DO, and then the rest.
    pub fn reset(
        &self,
        alloc: Global,
        number: usize,
        line: u32,
        x: &Name,
        rest: Stmts,
    ) -> Result<Stmts, Memory>
        ensures reset { IfOk result (λ c. code_of c ≡ rename (naming_in self.now) (reset (marks_of self.now.marks.now) number line x.now) +++ code_of rest) }
    {
        if !self.resets(number, x) {
            return Ok(rest);
        }
        let name = self.names.shadow(alloc, x)?;
        let code = before(alloc, scalar_assignment(line, name, Expr::Lit(0)), rest)?;
        Ok(code)
    }
}

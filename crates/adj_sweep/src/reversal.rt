//! The steps of a marked loop, reversed by the actions of a schedule (docs/EMITTED.md, "Reversal of a marked loop").

ghost use Rattle.std.specs.Prelude.{◌≡◌, ℕ, List, IfOk, pos};
ghost use Rattle.adj_tree.specs.Code.{Code, plain, helper, turn, count, entry, entries, kind, lower, upper, minus, var, lit, bin, runtime, begin_reversal, count_actions, give_action, step};
ghost use Rattle.adj_tree.specs.View.{terms_of, mark_of, code_of};
ghost use Rattle.def_meaning.specs.Append.{◌+++◌, one};
ghost use Rattle.def_meaning.specs.Rename.{rename_term, rename};
ghost use Rattle.def_sweep.specs.Plan.{Callee, actuals_named};
ghost use Rattle.def_sweep.specs.Rows.{is_empty};
ghost use Rattle.def_sweep.specs.ReversalCode.{advance, arm, arms, slots_of, one_action, reversal};
ghost use Rattle.adj_sweep.specs.Plans.{naming_in, plan_of};
ghost use Rattle.adj_sweep.specs.Rows.{turns};
ghost use Rattle.adj_sweep.specs.Steps.{keep_of, back_of, plain_of, adjoint_of};

use crate::actuals::{Actual, Group, call_before};
use crate::loops::{of_depth, turns_of};
use crate::plan::{At, Plan};
use crate::slots::with_number;
use adj_naming::role::Role;
use adj_sweep_assignment::step::before;
use adj_tree::{Act, Expr, Exprs, Mark, Memory, Name, Op, RunCall, Stmt, Stmts, boxed};
use std::alloc::Global;

/// A step call as the rows of its loop write it: its unit, the names that are given, the actuals with their dummies, the adjoint of the
/// unit, and the mark of the loop, which tells how many snapshots there are.
#[derive(Clone, Copy)]
pub struct Step<'c, 's> {
    pub name: &'c Name,
    pub given: &'s [Name],
    pub actuals: &'s [Actual],
    pub adjoint: &'s Name,
    pub mark: &'c Mark,
}

// Names as actuals.
fn named(alloc: Global, given: &[Name]) -> Result<Exprs, Memory>
    ensures named { IfOk result (λ es. terms_of es ≡ actuals_named given.now) }
{
    let mut made = Vec::new(alloc);
    for name in given {
        made.push(Expr::Var(name.copy(alloc)?))?;
    }
    let all = Exprs::from_vec(alloc, made)?;
    Ok(all)
}

/// The call of the step unit.
pub fn plain_step(alloc: Global, line: u32, step: &Step) -> Result<Stmts, Memory>
    ensures call { IfOk result (λ c. code_of c ≡ plain_of line step.now) }
{
    let given = named(alloc, step.given)?;
    let code = call_before(alloc, line, step.name, given, Stmts::Empty)?;
    Ok(code)
}

// Whether there is no statement.
fn is_empty(code: &Stmts) -> bool
    ensures empty { result ≡ is_empty (code_of code.now) }
{
    matches!(code, Stmts::Empty)
}

impl<'a> Plan<'a> {
    // The snapshot of a step is pushed.
    fn keep(&self, alloc: Global, at: At, step: &Step) -> Result<Stmts, Memory>
        ensures keep { IfOk result (λ c. (callees : List ℕ → Callee) → code_of c ≡ rename (naming_in self.now) (keep_of (plan_of self.now callees) at.number at.line step.now)) }
    {
        let group = Group::Step;
        let pushed = self.pushes(alloc, at.number, at.line, group, step.actuals, Stmts::Empty)?;
        Ok(pushed.turned())
    }

    // The call of the step unit's adjoint.
    fn adjoint_step(&self, alloc: Global, line: u32, step: &Step) -> Result<Stmts, Memory>
        ensures call { IfOk result (λ c. code_of c ≡ rename (naming_in self.now) (adjoint_of line step.now)) }
    {
        let given = self.with_shadows(alloc, step.actuals)?;
        let code = call_before(alloc, line, step.adjoint, given, Stmts::Empty)?;
        Ok(code)
    }

    // The turns of an advance, with this body.
    fn steps(&self, alloc: Global, at: At, body: Stmts) -> Result<Stmts, Memory>
        ensures steps { IfOk result (λ c. code_of c ≡ one at.line (turns (naming_in self.now (helper turn at.depth)) (var (naming_in self.now (helper lower at.depth))) (bin minus (var (naming_in self.now (helper upper at.depth))) (lit (pos 1))) (lit (pos 1)) (code_of body))) }
    {
        let first = self.own(alloc, of_depth(Role::Lower, at.depth))?;
        let left = self.own(alloc, of_depth(Role::Upper, at.depth))?;
        let limit = with_number(alloc, Op::Sub, left, 1)?;
        let step = boxed(alloc, Expr::Lit(1))?;
        let turn = self.names.helper(alloc, Role::Turn, at.depth)?;
        let turns = turns_of(alloc, at.line, turn, first, limit, step, body)?;
        let code = before(alloc, turns, Stmts::Empty)?;
        Ok(code)
    }

    // An advance: each of its turns calls the step unit.
    fn advance(&self, alloc: Global, at: At, variable: &Name, step: &Step) -> Result<Stmts, Memory>
        ensures advance { IfOk result (λ c. code_of c ≡ rename (naming_in self.now) (advance at.line at.depth (plain variable.now) (plain_of at.line step.now))) }
    {
        let call = plain_step(alloc, at.line, step)?;
        let body = self.set_at(alloc, at, variable, Role::Turn, call)?;
        let code = self.steps(alloc, at, body)?;
        Ok(code)
    }

    // What is done for the actions of a kind, and then the rest. An empty arm is left out.
    fn arm(
        &self,
        alloc: Global,
        at: At,
        code: u32,
        inner: Stmts,
        rest: Stmts,
    ) -> Result<Stmts, Memory>
        ensures arm { IfOk result (λ c. (done : Code) → code_of inner ≡ rename (naming_in self.now) done → code_of c ≡ rename (naming_in self.now) (arm at.line at.depth code done) +++ code_of rest) }
    {
        if is_empty(&inner) {
            return Ok(rest);
        }
        let own = of_depth(Role::Kind, at.depth);
        let made = self.if_own(alloc, at.line, own, code, inner, Stmts::Empty, rest)?;
        Ok(made)
    }

    // What is done for an action, by its kind: a store, an advance, a turn, a keep or a drop.
    fn arms(&self, alloc: Global, at: At, variable: &Name, step: &Step) -> Result<Stmts, Memory>
        ensures arms { IfOk result (λ c. (callees : List ℕ → Callee) → code_of c ≡ rename (naming_in self.now) (arms at.line at.depth (plain variable.now) (keep_of (plan_of self.now callees) at.number at.line step.now) (back_of (plan_of self.now callees) at.number at.line step.now) (plain_of at.line step.now) (adjoint_of at.line step.now))) }
    {
        let group = Group::Step;
        let given = step.actuals;
        let dropped = self.pops(alloc, at.number, at.line, group, given, Stmts::Empty)?;
        let drops = self.arm(alloc, at, 5, dropped, Stmts::Empty)?;
        let pushed = self.keep(alloc, at, step)?;
        let again = self.pops(alloc, at.number, at.line, group, given, pushed)?;
        let keeps = self.arm(alloc, at, 4, again, drops)?;
        let adjoint = self.adjoint_step(alloc, at.line, step)?;
        let turned = self.set_at(alloc, at, variable, Role::Lower, adjoint)?;
        let turns = self.arm(alloc, at, 3, turned, keeps)?;
        let advanced = self.advance(alloc, at, variable, step)?;
        let advances = self.arm(alloc, at, 2, advanced, turns)?;
        let stored = self.keep(alloc, at, step)?;
        let code = self.arm(alloc, at, 1, stored, advances)?;
        Ok(code)
    }

    // The call that gives an action of the schedule, and then the rest.
    fn give(&self, alloc: Global, at: At, mark: &Mark, rest: Stmts) -> Result<Stmts, Memory>
        ensures call { IfOk result (λ c. code_of c ≡ step at.line (runtime (give_action (var (naming_in self.now (helper count at.depth))) (rename_term (naming_in self.now) (slots_of at.depth (mark_of mark.now))) (var (naming_in self.now (helper entry at.depth))) (naming_in self.now (helper kind at.depth)) (naming_in self.now (helper lower at.depth)) (naming_in self.now (helper upper at.depth)))) (code_of rest)) }
    {
        let steps = self.own(alloc, of_depth(Role::Count, at.depth))?;
        let stored = self.slots_of(alloc, at.depth, mark)?;
        let number = self.own(alloc, of_depth(Role::Entry, at.depth))?;
        let kind = self.names.helper(alloc, Role::Kind, at.depth)?;
        let lower = self.names.helper(alloc, Role::Lower, at.depth)?;
        let upper = self.names.helper(alloc, Role::Upper, at.depth)?;
        let act = Act::Run(RunCall::Action(steps, stored, number, kind, lower, upper));
        let line = at.line;
        let code = before(alloc, Stmt { line, act }, rest)?;
        Ok(code)
    }

    // The loop over the actions of the schedule, and then the rest.
    fn actions(
        &self,
        alloc: Global,
        at: At,
        variable: &Name,
        step: &Step,
        rest: Stmts,
    ) -> Result<Stmts, Memory>
        ensures actions { IfOk result (λ c. (callees : List ℕ → Callee) → code_of c ≡ one at.line (turns (naming_in self.now (helper entry at.depth)) (lit (pos 1)) (var (naming_in self.now (helper entries at.depth))) (lit (pos 1)) (rename (naming_in self.now) (one_action at.line at.depth (plain variable.now) (slots_of at.depth (mark_of step.now.mark.now)) (keep_of (plan_of self.now callees) at.number at.line step.now) (back_of (plan_of self.now callees) at.number at.line step.now) (plain_of at.line step.now) (adjoint_of at.line step.now)))) +++ code_of rest) }
    {
        let arms = self.arms(alloc, at, variable, step)?;
        let body = self.give(alloc, at, step.mark, arms)?;
        let last = self.own(alloc, of_depth(Role::Entries, at.depth))?;
        let first = boxed(alloc, Expr::Lit(1))?;
        let by = boxed(alloc, Expr::Lit(1))?;
        let number = self.names.helper(alloc, Role::Entry, at.depth)?;
        let turns = turns_of(alloc, at.line, number, first, last, by, body)?;
        let code = before(alloc, turns, rest)?;
        Ok(code)
    }

    // The call that begins the reversal, and then the rest.
    fn begin(&self, alloc: Global, at: At, mark: &Mark, rest: Stmts) -> Result<Stmts, Memory>
        ensures call { IfOk result (λ c. code_of c ≡ step at.line (runtime (begin_reversal (var (naming_in self.now (helper count at.depth))) (rename_term (naming_in self.now) (slots_of at.depth (mark_of mark.now))))) (code_of rest)) }
    {
        let steps = self.own(alloc, of_depth(Role::Count, at.depth))?;
        let stored = self.slots_of(alloc, at.depth, mark)?;
        let act = Act::Run(RunCall::Begin(steps, stored));
        let line = at.line;
        let code = before(alloc, Stmt { line, act }, rest)?;
        Ok(code)
    }

    // The call that counts the actions of the schedule, and then the rest.
    fn count(&self, alloc: Global, at: At, mark: &Mark, rest: Stmts) -> Result<Stmts, Memory>
        ensures call { IfOk result (λ c. code_of c ≡ step at.line (runtime (count_actions (var (naming_in self.now (helper count at.depth))) (rename_term (naming_in self.now) (slots_of at.depth (mark_of mark.now))) (naming_in self.now (helper entries at.depth)))) (code_of rest)) }
    {
        let steps = self.own(alloc, of_depth(Role::Count, at.depth))?;
        let stored = self.slots_of(alloc, at.depth, mark)?;
        let made = self.names.helper(alloc, Role::Entries, at.depth)?;
        let act = Act::Run(RunCall::Actions(steps, stored, made));
        let line = at.line;
        let code = before(alloc, Stmt { line, act }, rest)?;
        Ok(code)
    }

    /// The reversal of a marked loop, and then the rest.
    pub fn reversal(
        &self,
        alloc: Global,
        at: At,
        variable: &Name,
        step: &Step,
        rest: Stmts,
    ) -> Result<Stmts, Memory>
        ensures reversal { IfOk result (λ c. (callees : List ℕ → Callee) → code_of c ≡ rename (naming_in self.now) (reversal at.line at.depth (plain variable.now) (slots_of at.depth (mark_of step.now.mark.now)) (keep_of (plan_of self.now callees) at.number at.line step.now) (back_of (plan_of self.now callees) at.number at.line step.now) (plain_of at.line step.now) (adjoint_of at.line step.now)) +++ code_of rest) }
    {
        let line = at.line;
        let act = Act::Run(RunCall::End);
        let ended = before(alloc, Stmt { line, act }, rest)?;
        let gone = self.actions(alloc, at, variable, step, ended)?;
        let counted = self.count(alloc, at, step.mark, gone)?;
        let code = self.begin(alloc, at, step.mark, counted)?;
        Ok(code)
    }
}

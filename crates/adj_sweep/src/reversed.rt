//! Both sweeps of a marked loop that is reversed by a schedule (docs/EMITTED.md, "Reversal of a marked loop").

ghost use Rattle.std.specs.Prelude.{◌≡◌, ℕ, List, Some, IfOk, suc};
ghost use Rattle.adj_tree.specs.Code.{Code, Mark, plain, none, runtime, push_word, pop_word};
ghost use Rattle.adj_tree.specs.View.{term_of, mark_of, code_of};
ghost use Rattle.def_meaning.specs.Append.{◌+++◌, one};
ghost use Rattle.def_meaning.specs.Rename.{rename};
ghost use Rattle.def_names.specs.Numbers.{Vars};
ghost use Rattle.def_sweep.specs.Marked.{code_if};
ghost use Rattle.def_sweep.specs.Plan.{Callee, reversed_by};
ghost use Rattle.def_sweep.specs.Rows.{reset};
ghost use Rattle.def_sweep.specs.ReversalCode.{reversed_forward, reversed_backward};
ghost use Rattle.adj_sweep_assignment.specs.View.{marks_of};
ghost use Rattle.adj_sweep.specs.Callees.{KnowsAll};
ghost use Rattle.adj_sweep.specs.HelperSteps.{step_of};
ghost use Rattle.adj_sweep.specs.Plans.{naming_in, plan_of, schedules_of};
ghost use Rattle.adj_sweep.specs.Rows.{text_turns};
ghost use Rattle.adj_sweep.specs.Steps.{save_of, unsave_of, keep_of, back_of, plain_of, adjoint_of};
ghost use Rattle.adj_sweep.specs.Swept.{in_order, SweepsAct};

use crate::actuals::{Actual, Group, names_of, paired};
use crate::loops::{Bounds, of_depth};
use crate::plan::{At, Plan};
use crate::reversal::{Step, plain_step};
use crate::steps::StepCall;
use crate::sweeps::{Sweeps, next};
use adj_naming::role::Role;
use adj_tree::{Memory, Name, Stmts};
use std::alloc::Global;

// A step call with the adjoint of its unit, the names that are given and the actuals.
fn step_with<'c, 's>(
    call: &StepCall<'c>,
    adjoint: &'s Name,
    given: &'s [Name],
    actuals: &'s [Actual],
) -> Step<'c, 's>
    ensures name { result.name.now ≡ call.now.name.now }
    ensures given { result.given.now ≡ given.now }
    ensures actuals { result.actuals.now ≡ actuals.now }
    ensures adjoint { result.adjoint.now ≡ adjoint.now }
    ensures mark { mark_of result.mark.now ≡ mark_of call.now.mark.now }
{
    Step {
        name: call.name,
        given,
        actuals,
        adjoint,
        mark: call.mark,
    }
}

impl<'a> Plan<'a> {
    // The call of the step unit, where it is kept.
    fn step_kept(&self, alloc: Global, at: At, step: &Step) -> Result<Stmts, Memory>
        ensures kept { IfOk result (λ c. code_of c ≡ code_if ((marks_of self.now.marks.now).kept (suc at.number)) (plain_of at.line step.now)) }
    {
        let call = next(at.number)?;
        if !self.marks.kept(call) {
            return Ok(Stmts::Empty);
        }
        let code = plain_step(alloc, at.line, step)?;
        Ok(code)
    }

    // The forward sweep with the loop's variable, behind what is turned round.
    fn reversed_forward(
        &self,
        alloc: Global,
        at: At,
        bounds: &Bounds,
        step: &Step,
        turned: Stmts,
    ) -> Result<Stmts, Memory>
        ensures forward { IfOk result (λ c. (callees : List ℕ → Callee) → in_order (code_of c) ≡ in_order (code_of turned) +++ (code_if ((marks_of self.now.marks.now).saved at.number (plain bounds.now.variable.now)) (one at.line (runtime (push_word (plain bounds.now.variable.now) none))) +++ rename (naming_in self.now) (reversed_forward at.depth at.line (plain bounds.now.variable.now) (term_of bounds.now.first.now) (term_of bounds.now.limit.now) (term_of bounds.now.step.now) (mark_of step.now.mark.now) (save_of (plan_of self.now callees) at.number at.line step.now) (keep_of (plan_of self.now callees) at.number at.line step.now) (code_if ((marks_of self.now.marks.now).kept (suc at.number)) (plain_of at.line step.now))))) }
    {
        let given = step.actuals;
        let begun = self.push_variable(alloc, at, bounds.variable, turned)?;
        let bound = self.set_bounds(alloc, at, bounds, begun)?;
        let told = self.set_slots(alloc, at, step.mark, bound)?;
        let opened = self.set_count(alloc, at, told)?;
        let saved = self.pushes(alloc, at.number, at.line, Group::Save, given, opened)?;
        let kept = self.pushes(alloc, at.number, at.line, Group::Step, given, saved)?;
        let call = self.step_kept(alloc, at, step)?;
        let gone = self.counted_turns(alloc, at, bounds, call, kept)?;
        let pushed = self.push_bounds(alloc, at, gone)?;
        let stored = self.push_slots(alloc, at, step.mark, pushed)?;
        let code = self.push_count(alloc, at, stored)?;
        Ok(code)
    }

    // The backward sweep with the loop's variable, and then the rest.
    fn reversed_backward(
        &self,
        alloc: Global,
        at: At,
        variable: &Name,
        step: &Step,
        rest: Stmts,
    ) -> Result<Stmts, Memory>
        ensures backward { IfOk result (λ c. (callees : List ℕ → Callee) → code_of c ≡ rename (naming_in self.now) (reversed_backward at.depth at.line (plain variable.now) (mark_of step.now.mark.now) (keep_of (plan_of self.now callees) at.number at.line step.now) (back_of (plan_of self.now callees) at.number at.line step.now) (unsave_of (plan_of self.now callees) at.number at.line step.now) (plain_of at.line step.now) (adjoint_of at.line step.now)) +++ (code_if ((marks_of self.now.marks.now).saved at.number (plain variable.now)) (one at.line (runtime (pop_word (plain variable.now) none))) +++ (rename (naming_in self.now) (reset (marks_of self.now.marks.now) at.number at.line variable.now) +++ code_of rest))) }
    {
        let given = step.actuals;
        let popped = self.pop_variable(alloc, at, variable, rest)?;
        let unsaved = self.pops(alloc, at.number, at.line, Group::Save, given, popped)?;
        let reversed = self.reversal(alloc, at, variable, step, unsaved)?;
        let back = self.pops(alloc, at.number, at.line, Group::Step, given, reversed)?;
        let begun = self.pop_own(alloc, at.line, of_depth(Role::First, at.depth), back)?;
        let stepped = self.pop_own(alloc, at.line, of_depth(Role::Stride, at.depth), begun)?;
        let stored = self.pop_slots(alloc, at, step.mark, stepped)?;
        let code = self.pop_own(alloc, at.line, of_depth(Role::Count, at.depth), stored)?;
        Ok(code)
    }

    /// Both sweeps of a DO of this depth that is reversed by a schedule, by its step call.
    pub fn reversed_loop(
        &self,
        alloc: Global,
        depth: usize,
        line: u32,
        bounds: &Bounds,
        call: &StepCall<'_>,
        sweeps: Sweeps,
    ) -> Result<Sweeps, Memory>
        ensures sweeps { IfOk result (λ s. (callees : List ℕ → Callee) (reads : List ℕ → Vars) (d : ℕ) (body : Code) (m : Mark) → KnowsAll self.now.callees.now callees reads → step_of reads (Some call.now) ≡ reversed_by (schedules_of self.now reads) (marks_of self.now.marks.now).adjointed sweeps.number body m → depth ≡ suc d → SweepsAct (schedules_of self.now reads) (naming_in self.now) (plan_of self.now callees) d line (text_turns (plain bounds.now.variable.now) (term_of bounds.now.first.now) (term_of bounds.now.limit.now) (term_of bounds.now.step.now) body m) sweeps s) }
    {
        let called = next(sweeps.number)?;
        let number = next(called)?;
        if !self.marks.emitted(sweeps.number) {
            return Ok(Sweeps {
                forward: sweeps.forward,
                backward: sweeps.backward,
                number,
            });
        }
        let at = At {
            number: sweeps.number,
            depth,
            line,
        };
        let callee = self.callees.find(call.name);
        let names = names_of(alloc, call.actuals)?;
        let given = names.as_slice();
        let dummies = callee.dummies.as_slice();
        let made = paired(alloc, dummies, given)?;
        let actuals = made.as_slice();
        let step = step_with(call, &callee.adjoint, given, actuals);
        let forward = self.reversed_forward(alloc, at, bounds, &step, sweeps.forward)?;
        let backward = self.reversed_backward(alloc, at, bounds.variable, &step, sweeps.backward)?;
        Ok(Sweeps {
            forward,
            backward,
            number,
        })
    }
}

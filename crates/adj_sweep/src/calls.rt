//! Both sweeps of a call (docs/EMITTED.md, "Sweeps").

ghost use Rattle.std.specs.Prelude.{◌≡◌, ℕ, List, true, false, IfOk};
ghost use Rattle.adj_tree.specs.Code.{call};
ghost use Rattle.adj_tree.specs.View.{terms_of, code_of};
ghost use Rattle.def_meaning.specs.Append.{◌+++◌, one};
ghost use Rattle.def_meaning.specs.Rename.{rename};
ghost use Rattle.def_names.specs.Numbers.{Vars};
ghost use Rattle.def_sweep.specs.Marked.{code_if};
ghost use Rattle.def_sweep.specs.Plan as sweeping;
ghost use Rattle.def_sweep.specs.Plan.{Schedules, is_emitted};
ghost use Rattle.def_sweep.specs.Rows.{pushes, pops};
ghost use Rattle.adj_sweep_assignment.specs.View.{marks_of};
ghost use Rattle.adj_sweep.specs.Actuals.{is_in, chosen, all_with_shadows};
ghost use Rattle.adj_sweep.specs.declared.actuals.Group.TheVariants as groups;
ghost use Rattle.adj_sweep.specs.Callees.{Knows, KnowsAll};
ghost use Rattle.adj_sweep.specs.Plans.{naming_in, plan_of};
ghost use Rattle.adj_sweep.specs.Swept.{in_order, SweepsAct};

use crate::actuals::{Actual, Group, actuals_of, call_before};
use crate::callees::Callee;
use crate::plan::Plan;
use crate::sweeps::{Sweeps, next};
use adj_tree::{Exprs, Memory, Name, Stmts};
use std::alloc::Global;

impl<'a> Plan<'a> {
    // The snapshot before an adjointed call, behind what is turned round.
    fn push_snapshot(
        &self,
        alloc: Global,
        number: usize,
        line: u32,
        actuals: &[Actual],
        turned: Stmts,
    ) -> Result<Stmts, Memory>
        ensures pushed { IfOk result (λ c. (callees : List ℕ → sweeping.Callee) → in_order (code_of c) ≡ in_order (code_of turned) +++ code_if ((marks_of self.now.marks.now).adjointed number) (pushes (plan_of self.now callees) line (chosen (is_in ((marks_of self.now.marks.now).saved number) groups.Snapshot) actuals.now))) }
    {
        if !self.marks.adjointed(number) {
            return Ok(turned);
        }
        let code = self.pushes(alloc, number, line, Group::Snapshot, actuals, turned)?;
        Ok(code)
    }

    // A call that is kept, behind what is turned round.
    fn call_kept(
        &self,
        alloc: Global,
        number: usize,
        line: u32,
        name: &Name,
        actuals: &Exprs,
        turned: Stmts,
    ) -> Result<Stmts, Memory>
        ensures kept { IfOk result (λ c. in_order (code_of c) ≡ in_order (code_of turned) +++ code_if ((marks_of self.now.marks.now).kept number) (one line (call name.now (terms_of actuals.now)))) }
    {
        if !self.marks.kept(number) {
            return Ok(turned);
        }
        let given = actuals.copy(alloc)?;
        let code = call_before(alloc, line, name, given, turned)?;
        Ok(code)
    }

    // The snapshot is popped and the unit's adjoint called, where the call is adjointed, and then the rest.
    fn call_adjoint(
        &self,
        alloc: Global,
        number: usize,
        line: u32,
        adjoint: &Name,
        actuals: &[Actual],
        rest: Stmts,
    ) -> Result<Stmts, Memory>
        ensures called { IfOk result (λ c. (callees : List ℕ → sweeping.Callee) → code_of c ≡ code_if ((marks_of self.now.marks.now).adjointed number) (pops (plan_of self.now callees) line (chosen (is_in ((marks_of self.now.marks.now).saved number) groups.Snapshot) actuals.now) +++ rename (naming_in self.now) (one line (call adjoint.now (all_with_shadows actuals.now)))) +++ code_of rest) }
    {
        if !self.marks.adjointed(number) {
            return Ok(rest);
        }
        let given = self.with_shadows(alloc, actuals)?;
        let called = call_before(alloc, line, adjoint, given, rest)?;
        let code = self.pops(alloc, number, line, Group::Snapshot, actuals, called)?;
        Ok(code)
    }

    // Both sweeps of a split call: the forward unit is called, and then the backward unit.
    fn split_call(
        &self,
        alloc: Global,
        line: u32,
        actuals: &Exprs,
        callee: &Callee,
        sweeps: Sweeps,
    ) -> Result<Sweeps, Memory>
        ensures sweeps { IfOk result (λ s. (sc : Schedules) (callees : List ℕ → sweeping.Callee) (name : List ℕ) (read : Vars) (d : ℕ) → is_emitted (marks_of self.now.marks.now) sweeps.number ≡ true → (marks_of self.now.marks.now).split sweeps.number ≡ true → Knows callee.now (callees name) read → SweepsAct sc (naming_in self.now) (plan_of self.now callees) d line (call name (terms_of actuals.now)) sweeps s) }
    {
        let Sweeps {
            forward,
            backward,
            number,
        } = sweeps;
        let after = next(number)?;
        let made = actuals_of(alloc, callee.dummies.as_slice(), actuals)?;
        let given = actuals.copy(alloc)?;
        let forward = call_before(alloc, line, &callee.forth, given, forward)?;
        let shadowed = self.with_shadows(alloc, made.as_slice())?;
        let backward = call_before(alloc, line, &callee.back, shadowed, backward)?;
        Ok(Sweeps {
            forward,
            backward,
            number: after,
        })
    }

    // Both sweeps of a call that isn't split.
    fn whole_call(
        &self,
        alloc: Global,
        line: u32,
        name: &Name,
        actuals: &Exprs,
        callee: &Callee,
        sweeps: Sweeps,
    ) -> Result<Sweeps, Memory>
        ensures sweeps { IfOk result (λ s. (sc : Schedules) (callees : List ℕ → sweeping.Callee) (read : Vars) (d : ℕ) → is_emitted (marks_of self.now.marks.now) sweeps.number ≡ true → (marks_of self.now.marks.now).split sweeps.number ≡ false → Knows callee.now (callees name.now) read → SweepsAct sc (naming_in self.now) (plan_of self.now callees) d line (call name.now (terms_of actuals.now)) sweeps s) }
    {
        let Sweeps {
            forward,
            backward,
            number,
        } = sweeps;
        let after = next(number)?;
        let made = actuals_of(alloc, callee.dummies.as_slice(), actuals)?;
        let given = made.as_slice();
        let saved = self.pushes(alloc, number, line, Group::Save, given, forward)?;
        let pushed = self.push_snapshot(alloc, number, line, given, saved)?;
        let forward = self.call_kept(alloc, number, line, name, actuals, pushed)?;
        let popped = self.pops(alloc, number, line, Group::Save, given, backward)?;
        let backward = self.call_adjoint(alloc, number, line, &callee.adjoint, given, popped)?;
        Ok(Sweeps {
            forward,
            backward,
            number: after,
        })
    }

    /// Both sweeps of a call.
    pub fn call(
        &self,
        alloc: Global,
        line: u32,
        name: &Name,
        actuals: &Exprs,
        sweeps: Sweeps,
    ) -> Result<Sweeps, Memory>
        ensures sweeps { IfOk result (λ s. (sc : Schedules) (callees : List ℕ → sweeping.Callee) (reads : List ℕ → Vars) (d : ℕ) → KnowsAll self.now.callees.now callees reads → SweepsAct sc (naming_in self.now) (plan_of self.now callees) d line (call name.now (terms_of actuals.now)) sweeps s) }
    {
        let number = sweeps.number;
        if !self.marks.emitted(number) {
            return Ok(Sweeps {
                forward: sweeps.forward,
                backward: sweeps.backward,
                number: next(number)?,
            });
        }
        let callee = self.callees.find(name);
        if self.marks.split(number) {
            self.split_call(alloc, line, actuals, callee, sweeps)
        } else {
            self.whole_call(alloc, line, name, actuals, callee, sweeps)
        }
    }
}

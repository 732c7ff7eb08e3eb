//! Both sweeps of an assignment, and values that are saved (docs/EMITTED.md, "Sweeps").

ghost use Rattle.std.specs.Prelude.{◌≡◌, ℕ, List, IfOk, ◌&&◌};
ghost use Rattle.adj_tree.specs.Code.{plain, assign, runtime, push_word, pop_word};
ghost use Rattle.adj_tree.specs.View.{term_of, terms_of, code_of};
ghost use Rattle.def_meaning.specs.Append.{◌+++◌, one};
ghost use Rattle.def_meaning.specs.Rename.{rename};
ghost use Rattle.def_sweep.specs.Marks.{active_at};
ghost use Rattle.def_sweep.specs.Marked.{code_if};
ghost use Rattle.def_sweep.specs.AdjointOf.{adjoint_where};
ghost use Rattle.def_sweep.specs.Plan.{Callee, Schedules};
ghost use Rattle.adj_sweep_assignment.specs.View.{marks_of};
ghost use Rattle.adj_sweep.specs.Plans.{naming_in, plan_of};
ghost use Rattle.adj_sweep.specs.Swept.{in_order, SweepsAct};

use crate::plan::Plan;
use crate::sweeps::{Sweeps, next};
use adj_sweep_assignment::site::Site;
use adj_sweep_assignment::step::{before, pop, push, set_before};
use adj_tree::{Expr, Memory, Place, Stmts};
use std::alloc::Global;

impl<'a> Plan<'a> {
    /// The push of a place behind what is turned round, where its variable is saved.
    pub fn push_saved(
        &self,
        alloc: Global,
        number: usize,
        line: u32,
        place: &Place,
        turned: Stmts,
    ) -> Result<Stmts, Memory>
        ensures pushed { IfOk result (λ c. in_order (code_of c) ≡ in_order (code_of turned) +++ code_if ((marks_of self.now.marks.now).saved number (plain place.now.name)) (one line (runtime (push_word (plain place.now.name) (terms_of place.now.subs))))) }
    {
        if !self.marks.saved(number, &place.name) {
            return Ok(turned);
        }
        let code = before(alloc, push(line, place.copy(alloc)?), turned)?;
        Ok(code)
    }

    /// The pop of a place, where its variable is saved, and then the rest.
    pub fn pop_saved(
        &self,
        alloc: Global,
        number: usize,
        line: u32,
        place: &Place,
        rest: Stmts,
    ) -> Result<Stmts, Memory>
        ensures popped { IfOk result (λ c. code_of c ≡ code_if ((marks_of self.now.marks.now).saved number (plain place.now.name)) (one line (runtime (pop_word (plain place.now.name) (terms_of place.now.subs)))) +++ code_of rest) }
    {
        if !self.marks.saved(number, &place.name) {
            return Ok(rest);
        }
        let code = before(alloc, pop(line, place.copy(alloc)?), rest)?;
        Ok(code)
    }

    // The forward sweep of an assignment, behind what is turned round.
    fn assignment_forward(
        &self,
        alloc: Global,
        number: usize,
        line: u32,
        place: &Place,
        e: &Expr,
        turned: Stmts,
    ) -> Result<Stmts, Memory>
        ensures forward { IfOk result (λ c. in_order (code_of c) ≡ in_order (code_of turned) +++ code_if ((marks_of self.now.marks.now).kept number) (code_if ((marks_of self.now.marks.now).saved number (plain place.now.name)) (one line (runtime (push_word (plain place.now.name) (terms_of place.now.subs)))) +++ one line (assign (plain place.now.name) (terms_of place.now.subs) (term_of e.now)))) }
    {
        if !self.marks.kept(number) {
            return Ok(turned);
        }
        let pushed = self.push_saved(alloc, number, line, place, turned)?;
        let value = e.copy_boxed(alloc)?;
        let target = place.copy(alloc)?;
        let code = set_before(alloc, line, target, value, pushed)?;
        Ok(code)
    }

    // The adjoint of an assignment, where it is adjointed, and then the rest.
    fn adjoint_of(
        &self,
        alloc: Global,
        number: usize,
        line: u32,
        place: &Place,
        e: &Expr,
        rest: Stmts,
    ) -> Result<Stmts, Memory>
        ensures adjoint { IfOk result (λ c. code_of c ≡ rename (naming_in self.now) (code_if ((marks_of self.now.marks.now).adjointed number) (adjoint_where (active_at (marks_of self.now.marks.now) number) place.now.name (terms_of place.now.subs) (term_of e.now) line)) +++ code_of rest) }
    {
        if !self.marks.adjointed(number) {
            return Ok(rest);
        }
        let site = Site {
            names: self.names,
            marks: self.marks,
            number,
            line,
        };
        let code = site.adjoint(alloc, place, e, rest)?;
        Ok(code)
    }

    // The backward sweep of an assignment, and then the rest.
    fn assignment_backward(
        &self,
        alloc: Global,
        number: usize,
        line: u32,
        place: &Place,
        e: &Expr,
        rest: Stmts,
    ) -> Result<Stmts, Memory>
        ensures backward { IfOk result (λ c. code_of c ≡ code_if ((marks_of self.now.marks.now).kept number && (marks_of self.now.marks.now).saved number (plain place.now.name)) (one line (runtime (pop_word (plain place.now.name) (terms_of place.now.subs)))) +++ (rename (naming_in self.now) (code_if ((marks_of self.now.marks.now).adjointed number) (adjoint_where (active_at (marks_of self.now.marks.now) number) place.now.name (terms_of place.now.subs) (term_of e.now) line)) +++ code_of rest)) }
    {
        let adjoint = self.adjoint_of(alloc, number, line, place, e, rest)?;
        if !self.marks.kept(number) {
            return Ok(adjoint);
        }
        let code = self.pop_saved(alloc, number, line, place, adjoint)?;
        Ok(code)
    }

    /// Both sweeps of an assignment.
    pub fn assignment(
        &self,
        alloc: Global,
        line: u32,
        place: &Place,
        e: &Expr,
        sweeps: Sweeps,
    ) -> Result<Sweeps, Memory>
        ensures sweeps { IfOk result (λ s. (sc : Schedules) (callees : List ℕ → Callee) (d : ℕ) → SweepsAct sc (naming_in self.now) (plan_of self.now callees) d line (assign (plain place.now.name) (terms_of place.now.subs) (term_of e.now)) sweeps s) }
    {
        let Sweeps {
            forward,
            backward,
            number,
        } = sweeps;
        let after = next(number)?;
        let forward = self.assignment_forward(alloc, number, line, place, e, forward)?;
        let backward = self.assignment_backward(alloc, number, line, place, e, backward)?;
        Ok(Sweeps {
            forward,
            backward,
            number: after,
        })
    }
}

//! The adjoint of an assignment (docs/EMITTED.md, "The adjoint of an assignment").

ghost use Rattle.std.specs.Prelude.{◌≡◌, pos, IfOk};
ghost use Rattle.adj_tree.specs.Code.{shadow, helper, work, lit, none, assign, step};
ghost use Rattle.adj_tree.specs.View.{term_of, terms_of, code_of};
ghost use Rattle.def_meaning.specs.Append.{◌+++◌};
ghost use Rattle.def_meaning.specs.Rename.{rename, rename_term};
ghost use Rattle.def_sweep.specs.Marked.{place};
ghost use Rattle.def_sweep.specs.AdjointOf.{adjoint_where};
ghost use Rattle.adj_sweep_assignment.specs.Sites.{naming_of, active_in};

use crate::site::Site;
use crate::step::{all_before, set_before};
use adj_naming::role::Role;
use adj_tree::{Expr, Exprs, Memory, Place, Stmts, boxed};
use std::alloc::Global;

impl<'a> Site<'a> {
    // The shadow at a place becomes 0, and then the rest.
    fn clear(&self, alloc: Global, target: &Place, rest: Stmts) -> Result<Stmts, Memory>
        ensures step { IfOk result (λ c. code_of c ≡ step self.now.line (assign (naming_of self.now (shadow target.now.name)) (terms_of target.now.subs) (lit (pos 0))) (code_of rest)) }
    {
        let place = Place {
            name: self.names.shadow(alloc, &target.name)?,
            subs: target.subs.copy(alloc)?,
        };
        let zero = boxed(alloc, Expr::Lit(0))?;
        set_before(alloc, self.line, place, zero, rest)
    }

    // The first work variable gets the shadow at a place, and then the rest.
    fn take(&self, alloc: Global, target: &Place, rest: Stmts) -> Result<Stmts, Memory>
        ensures step { IfOk result (λ c. code_of c ≡ step self.now.line (assign (naming_of self.now (helper work 1)) none (rename_term (naming_of self.now) (place (shadow target.now.name) (terms_of target.now.subs)))) (code_of rest)) }
    {
        let adjoint = self.shadow_at(alloc, target)?;
        let place = Place {
            name: self.names.helper(alloc, Role::Work, 1)?,
            subs: Exprs::Empty,
        };
        set_before(alloc, self.line, place, adjoint, rest)
    }

    /// The adjoint of an assignment, and then the rest: the shadow of the target goes through the right side, and becomes 0.
    pub fn adjoint(
        &self,
        alloc: Global,
        target: &Place,
        e: &Expr,
        rest: Stmts,
    ) -> Result<Stmts, Memory>
        ensures steps { IfOk result (λ c. code_of c ≡ rename (naming_of self.now) (adjoint_where (active_in self.now) target.now.name (terms_of target.now.subs) (term_of e.now) self.now.line) +++ code_of rest) }
    {
        let mut steps = Vec::new(alloc);
        let parts = self.apart(alloc, e, 1, &mut steps)?;
        if !parts.active {
            let only = self.clear(alloc, target, rest)?;
            return Ok(only);
        }
        let grown = self.write_share(alloc, &parts.share, 1, rest)?;
        let cleared = self.clear(alloc, target, grown)?;
        let taken = self.take(alloc, target, cleared)?;
        let code = all_before(alloc, steps, taken)?;
        Ok(code)
    }
}

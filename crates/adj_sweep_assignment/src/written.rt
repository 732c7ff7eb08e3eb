//! What becomes of an adjoint, written (docs/EMITTED.md, "The adjoint of an assignment").

ghost use Rattle.std.specs.Prelude.{◌≡◌, IfOk};
ghost use Rattle.adj_tree.specs.Code.{plain, helper, work, var, elem, bin, plus, none, assign};
ghost use Rattle.adj_tree.specs.View.{term_of, terms_of, code_of};
ghost use Rattle.def_meaning.specs.Append.{◌+++◌, one};
ghost use Rattle.adj_sweep_assignment.specs.Shares.{scaled_by, share_code};
ghost use Rattle.adj_sweep_assignment.specs.Sites.{naming_of};

use crate::share::{Factor, Share};
use crate::site::Site;
use crate::sizes::plus;
use crate::step::set_before;
use crate::terms::{element, sum};
use adj_naming::role::Role;
use adj_tree::{Expr, Exprs, Memory, Name, Place, Stmts, boxed};
use std::alloc::Global;

impl<'a> Site<'a> {
    // The work variable is added to a place that has this value.
    fn grow(
        &self,
        alloc: Global,
        target: Place,
        old: Box<Expr>,
        number: usize,
        rest: Stmts,
    ) -> Result<Stmts, Memory>
        ensures step { IfOk result (λ c. code_of c ≡ one self.now.line (assign (plain target.name) (terms_of target.subs) (bin plus (term_of old.value) (var (naming_of self.now (helper work number))))) +++ code_of rest) }
    {
        let work = self.work_var(alloc, number)?;
        let more = sum(alloc, old, work)?;
        set_before(alloc, self.line, target, more, rest)
    }

    // The work variable is added to a shadow of a scalar.
    fn grow_scalar(
        &self,
        alloc: Global,
        shadow: &Name,
        number: usize,
        rest: Stmts,
    ) -> Result<Stmts, Memory>
        ensures step { IfOk result (λ c. code_of c ≡ one self.now.line (assign (plain shadow.now) none (bin plus (var (plain shadow.now)) (var (naming_of self.now (helper work number))))) +++ code_of rest) }
    {
        let name = shadow.copy(alloc)?;
        let old = boxed(alloc, Expr::Var(name))?;
        let target = Place {
            name: shadow.copy(alloc)?,
            subs: Exprs::Empty,
        };
        self.grow(alloc, target, old, number, rest)
    }

    // The work variable is added to an element of a shadow.
    fn grow_element(
        &self,
        alloc: Global,
        shadow: &Name,
        subs: &Exprs,
        number: usize,
        rest: Stmts,
    ) -> Result<Stmts, Memory>
        ensures step { IfOk result (λ c. code_of c ≡ one self.now.line (assign (plain shadow.now) (terms_of subs.now) (bin plus (elem (plain shadow.now) (terms_of subs.now)) (var (naming_of self.now (helper work number))))) +++ code_of rest) }
    {
        let old = element(alloc, shadow, subs)?;
        let target = Place {
            name: shadow.copy(alloc)?,
            subs: subs.copy(alloc)?,
        };
        self.grow(alloc, target, old, number, rest)
    }

    // The next work variable becomes the product of the work variable with a factor.
    fn scale(
        &self,
        alloc: Global,
        factor: &Factor,
        number: usize,
        next: usize,
        rest: Stmts,
    ) -> Result<Stmts, Memory>
        ensures step { IfOk result (λ c. code_of c ≡ one self.now.line (assign (naming_of self.now (helper work next)) none (scaled_by factor.now (var (naming_of self.now (helper work number))))) +++ code_of rest) }
    {
        let target = Place {
            name: self.names.helper(alloc, Role::Work, next)?,
            subs: Exprs::Empty,
        };
        let work = self.work_var(alloc, number)?;
        let value = factor.times(alloc, work)?;
        set_before(alloc, self.line, target, value, rest)
    }

    /// What becomes of the adjoint in the work variable of this number, and then the rest.
    pub(crate) fn write_share(
        &self,
        alloc: Global,
        share: &Share,
        number: usize,
        rest: Stmts,
    ) -> Result<Stmts, Memory>
        ensures steps { IfOk result (λ c. code_of c ≡ share_code (naming_of self.now) self.now.line share.now number +++ code_of rest) }
    {
        match share {
            Share::Nothing => Ok(rest),
            Share::Scalar(x) => self.grow_scalar(alloc, x, number, rest),
            Share::Element(x, subs) => self.grow_element(alloc, x, subs, number, rest),
            Share::Both(a, b) => {
                let second = self.write_share(alloc, b, number, rest)?;
                let code = self.write_share(alloc, a, number, second)?;
                Ok(code)
            }
            Share::Scaled(factor, inner) => {
                let next = plus(number, 1)?;
                let tail = self.write_share(alloc, inner, next, rest)?;
                self.scale(alloc, factor, number, next, tail)
            }
        }
    }
}

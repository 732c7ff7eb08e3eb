//! Where the sweeps of a statement are written.

ghost use Rattle.std.specs.Prelude.{◌≡◌, IfOk};
ghost use Rattle.adj_tree.specs.Code.{plain, shadow, helper, work, temp, var};
ghost use Rattle.adj_tree.specs.View.{term_of, terms_of};
ghost use Rattle.def_meaning.specs.Rename.{rename_term};
ghost use Rattle.def_sweep.specs.Marked.{place};
ghost use Rattle.def_sweep.specs.Occurrences.{is_active_where};
ghost use Rattle.adj_sweep_assignment.specs.Sites.{naming_of, active_in};

use crate::marking::Marking;
use adj_naming::names::Names;
use adj_naming::role::Role;
use adj_tree::{Expr, Exprs, Memory, Name, Op, Place, boxed};
use std::alloc::Global;

/// The names of the unit and its marks, the number of the statement, and its line.
#[derive(Clone, Copy)]
pub struct Site<'a> {
    pub names: &'a Names,
    pub marks: &'a Marking<'a>,
    pub number: usize,
    pub line: u32,
}

impl<'a> Site<'a> {
    /// Whether occurrences of the variable are active.
    pub fn is_active_name(&self, x: &Name) -> bool
        ensures active { result ≡ active_in self.now (plain x.now) }
    {
        self.marks.active(self.number, x)
    }

    /// Whether the term has an active occurrence.
    pub fn is_active(&self, e: &Expr) -> bool
        ensures active { result ≡ is_active_where (active_in self.now) (term_of e.now) }
    {
        match e {
            Expr::Lit(_) | Expr::Abs(_) => false,
            Expr::Var(x) | Expr::Elem(x, _) => self.is_active_name(x),
            Expr::Neg(a) | Expr::Power(a, _) => self.is_active(a),
            Expr::Bin(op, a, b) => match op {
                Op::Add | Op::Sub | Op::Mul => self.is_active(a) || self.is_active(b),
                Op::Quot | Op::Mod | Op::Max | Op::Min => false,
            },
            Expr::Pow(a, power) => *power != 0 && self.is_active(a),
        }
    }

    /// The work variable of a number.
    pub fn work_var(&self, alloc: Global, number: usize) -> Result<Box<Expr>, Memory>
        ensures variable { IfOk result (λ e. term_of e.value ≡ var (naming_of self.now (helper work number))) }
    {
        let name = self.names.helper(alloc, Role::Work, number)?;
        boxed(alloc, Expr::Var(name))
    }

    /// The temporary of a number.
    pub fn temp_var(&self, alloc: Global, number: usize) -> Result<Box<Expr>, Memory>
        ensures variable { IfOk result (λ e. term_of e.value ≡ var (naming_of self.now (helper temp number))) }
    {
        let name = self.names.helper(alloc, Role::Temp, number)?;
        boxed(alloc, Expr::Var(name))
    }

    /// The shadow at a place.
    pub(crate) fn shadow_at(&self, alloc: Global, target: &Place) -> Result<Box<Expr>, Memory>
        ensures value { IfOk result (λ e. term_of e.value ≡ rename_term (naming_of self.now) (place (shadow target.now.name) (terms_of target.now.subs))) }
    {
        let name = self.names.shadow(alloc, &target.name)?;
        match &target.subs {
            Exprs::Empty => {
                let made = boxed(alloc, Expr::Var(name))?;
                Ok(made)
            }
            Exprs::More(_, _) => {
                let subs = target.subs.copy_boxed(alloc)?;
                let made = boxed(alloc, Expr::Elem(name, subs))?;
                Ok(made)
            }
        }
    }
}

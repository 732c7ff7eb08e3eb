//! Calls of units whose tangents are called (docs/EMITTED.md, "The tangent text").

ghost use Rattle.std.specs.Prelude.{◌≡◌, ◌++◌, map, IfOk, OnOk};
ghost use Rattle.adj_tree.specs.Code.{Terms, none, more};
ghost use Rattle.adj_tree.specs.Listed.{terms_onto};
ghost use Rattle.adj_tree.specs.View.{term_of, terms_of};
ghost use Rattle.def_meaning.specs.Rename.{rename_terms};
ghost use Rattle.def_sweep.specs.Plan.{names_of};
ghost use Rattle.adj_tangent.specs.Plans.{naming_in, with_tangent, all_with_tangents};

use crate::plan::Plan;
use adj_tree::{Expr, Exprs, Memory, Name};
use std::alloc::Global;

// Adds an actual that is a name.
fn push_name(alloc: Global, e: &Expr, made: &mut Vec<Name>) -> Result<(), Memory>
    ensures pushed { OnOk result (made.new.items ≡ made.old.items ++ names_of (more (term_of e.now) none)) }
{
    if let Expr::Var(name) = e {
        made.push(name.copy(alloc)?)?;
    }
    Ok(())
}

// The names among some actuals.
fn names_of(alloc: Global, actuals: &Exprs) -> Result<Vec<Name>, Memory>
    ensures names { IfOk result (λ v. v.items ≡ names_of (terms_of actuals.now)) }
{
    let mut made = Vec::new(alloc);
    let mut current = actuals;
    while let Exprs::More(first, rest) = current {
        push_name(alloc, first, &mut made)?;
        current = rest;
    }
    Ok(made)
}

impl<'a> Plan<'a> {
    // Adds an actual, followed by its tangent if its dummy carries one.
    fn push_actual(
        &self,
        alloc: Global,
        carried: bool,
        name: &Name,
        made: &mut Vec<Expr>,
    ) -> Result<(), Memory>
        ensures pushed { OnOk result ((others : Terms) → terms_onto (map term_of made.new.items) (rename_terms (naming_in self.now) others) ≡ terms_onto (map term_of made.old.items) (rename_terms (naming_in self.now) (with_tangent carried name.now others))) }
    {
        made.push(Expr::Var(name.copy(alloc)?))?;
        if carried {
            let shadow = self.names.shadow(alloc, name)?;
            made.push(Expr::Var(shadow))?;
        }
        Ok(())
    }

    /// The actuals of a call of a tangent, of which the flags tell for which dummies one is handed on.
    pub fn with_tangents(
        &self,
        alloc: Global,
        carried: &[bool],
        actuals: &Exprs,
    ) -> Result<Exprs, Memory>
        ensures actuals { IfOk result (λ es. terms_of es ≡ rename_terms (naming_in self.now) (all_with_tangents carried.now (names_of (terms_of actuals.now)))) }
    {
        let names = names_of(alloc, actuals)?;
        let given = names.as_slice();
        let mut made = Vec::new(alloc);
        for (k, name) in given.iter().enumerate() {
            if k < carried.len() {
                self.push_actual(alloc, carried[k], name, &mut made)?;
            }
        }
        let all = Exprs::from_vec(alloc, made)?;
        Ok(all)
    }
}

//! What stands before an assignment (docs/EMITTED.md, "Tangents").

ghost use Rattle.std.specs.Prelude.{◌≡◌, IfOk, OnOk};
ghost use Rattle.adj_tree.specs.Code.{Term, shadow, assign};
ghost use Rattle.adj_tree.specs.View.{term_of, terms_of};
ghost use Rattle.def_meaning.specs.Append.{◌+++◌, one};
ghost use Rattle.def_meaning.specs.Rename.{rename, rename_term};
ghost use Rattle.def_sweep.specs.Occurrences.{is_active_where};
ghost use Rattle.def_sweep.specs.AdjointOf.{temps_where};
ghost use Rattle.def_tangent.specs.TangentOf.{tangent_term, parts_where, before_assignment};
ghost use Rattle.adj_sweep_assignment.specs.Sites.{naming_of, active_in};
ghost use Rattle.adj_sweep_assignment.specs.Behind.{AreBehind};
ghost use Rattle.adj_tangent.specs.Terms.{IsValue};

use crate::terms::term_tangent;
use adj_sweep_assignment::site::Site;
use adj_sweep_assignment::step::assignment;
use adj_tree::{Expr, Memory, Place, Stmt, boxed};
use std::alloc::Global;

// The tangent of a place gets a value.
fn set_tangent(
    site: &Site<'_>,
    alloc: Global,
    target: &Place,
    value: Box<Expr>,
    steps: &mut Vec<Stmt>,
) -> Result<(), Memory>
    ensures steps { OnOk result ((t : Term) → term_of value.value ≡ rename_term (naming_of site.now) t → AreBehind (rename (naming_of site.now) (one site.now.line (assign (shadow target.now.name) (terms_of target.now.subs) t))) steps.old.items steps.new.items) }
{
    let name = site.names.shadow(alloc, &target.name)?;
    let subs = target.subs.copy(alloc)?;
    steps.push(assignment(site.line, name, subs, Box::into_inner(value)))?;
    Ok(())
}

// The values that are used, in their temporaries, and the tangents of the parts; and the tangent of the term.
fn active_tangent(
    site: &Site<'_>,
    alloc: Global,
    e: &Expr,
    steps: &mut Vec<Stmt>,
) -> Result<Option<Box<Expr>>, Memory>
    ensures value { IfOk result (λ o. IsValue (naming_of site.now) (is_active_where (active_in site.now) (term_of e.now)) (tangent_term (active_in site.now) (term_of e.now) 1) o) }
    ensures steps { OnOk result (AreBehind (rename (naming_of site.now) (temps_where (active_in site.now) (term_of e.now) 1 site.now.line +++ parts_where (active_in site.now) (term_of e.now) 1 1 site.now.line)) steps.old.items steps.new.items) }
{
    site.apart(alloc, e, 1, steps)?;
    let made = term_tangent(site, alloc, e, 1, 1, steps)?;
    Ok(made.value)
}

/// What stands before an assignment to a variable that carries a tangent: the values that are used, the tangents of the parts, and the
/// tangent of the target.
pub fn before_assignment(
    site: &Site<'_>,
    alloc: Global,
    target: &Place,
    e: &Expr,
    steps: &mut Vec<Stmt>,
) -> Result<(), Memory>
    ensures steps { OnOk result (AreBehind (rename (naming_of site.now) (before_assignment (active_in site.now) target.now.name (terms_of target.now.subs) (term_of e.now) site.now.line)) steps.old.items steps.new.items) }
{
    let value = active_tangent(site, alloc, e, steps)?;
    match value {
        Some(value) => {
            let made = set_tangent(site, alloc, target, value, steps)?;
            Ok(made)
        }
        None => {
            let zero = boxed(alloc, Expr::Lit(0))?;
            let made = set_tangent(site, alloc, target, zero, steps)?;
            Ok(made)
        }
    }
}

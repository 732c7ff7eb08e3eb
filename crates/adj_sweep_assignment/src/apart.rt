//! A term taken apart, where a statement's sweeps are written (docs/EMITTED.md, "The adjoint of an assignment").

ghost use Rattle.std.specs.Prelude.{◌≡◌, ◌+◌, IfOk, OnOk};
ghost use Rattle.adj_tree.specs.Code.{Term, plain, var, elem, bin, pow, power_of, plus, minus, times};
ghost use Rattle.adj_tree.specs.View.{term_of, terms_of};
ghost use Rattle.def_meaning.specs.Rename.{rename, rename_term};
ghost use Rattle.def_sweep.specs.Marked.{own_or, own_code, count_of};
ghost use Rattle.def_sweep.specs.AdjointOf.{has_own_where, temps_where};
ghost use Rattle.adj_sweep_assignment.specs.Apart.{IsApart};
ghost use Rattle.adj_sweep_assignment.specs.Sites.{naming_of, active_in};
ghost use Rattle.adj_sweep_assignment.specs.Behind.{AreBehind};

use crate::parts::{
    Parts, constant, constant_power, difference_of, opposite, product_of, same, sum_of,
    variable_power, whole,
};
use crate::share::Share;
use crate::site::Site;
use crate::sizes::{has_own_beside, is_compound, plus};
use crate::step::scalar_assignment;
use adj_naming::role::Role;
use adj_tree::{Expr, Exprs, Memory, Name, Op, Stmt, boxed};
use std::alloc::Global;

impl<'a> Site<'a> {
    // A name.
    fn name_apart(&self, alloc: Global, x: &Name, first: usize) -> Result<Parts, Memory>
        ensures parts { IfOk result (λ p. IsApart (naming_of self.now) (active_in self.now) self.now.line (var (plain x.now)) first p) }
    {
        let active = self.is_active_name(x);
        let share = if active {
            let shadow = self.names.shadow(alloc, x)?;
            boxed(alloc, Share::Scalar(shadow))?
        } else {
            boxed(alloc, Share::Nothing)?
        };
        let name = x.copy(alloc)?;
        let term = boxed(alloc, Expr::Var(name))?;
        Ok(Parts {
            term,
            next: first,
            active,
            share,
        })
    }

    // An element.
    fn element_apart(
        &self,
        alloc: Global,
        x: &Name,
        subs: &Exprs,
        first: usize,
    ) -> Result<Parts, Memory>
        ensures parts { IfOk result (λ p. IsApart (naming_of self.now) (active_in self.now) self.now.line (elem (plain x.now) (terms_of subs.now)) first p) }
    {
        let name = x.copy(alloc)?;
        let subscripts = subs.copy_boxed(alloc)?;
        let term = boxed(alloc, Expr::Elem(name, subscripts))?;
        if !self.is_active_name(x) {
            let nothing = boxed(alloc, Share::Nothing)?;
            return Ok(Parts {
                term,
                next: first,
                active: false,
                share: nothing,
            });
        }
        let shadow = self.names.shadow(alloc, x)?;
        let places = subs.copy(alloc)?;
        let share = boxed(alloc, Share::Element(shadow, places))?;
        Ok(Parts {
            term,
            next: first,
            active: true,
            share,
        })
    }

    /// Whether the factor a of a product with b has a temporary of its own. It searches b up to its first active occurrence.
    pub fn has_own(&self, a: &Expr, b: &Expr) -> bool
        ensures own { result ≡ has_own_where (active_in self.now) (term_of a.now) (term_of b.now) }
    {
        is_compound(a) && self.is_active(b)
    }

    // An operand: where it has a temporary of its own, that is assigned and stands for it.
    fn operand(
        &self,
        alloc: Global,
        own: bool,
        a: Parts,
        steps: &mut Vec<Stmt>,
    ) -> Result<Parts, Memory>
        ensures next { IfOk result (λ p. p.next ≡ a.next + count_of own) }
        ensures active { IfOk result (λ p. p.active ≡ a.active) }
        ensures share { IfOk result (λ p. p.share ≡ a.share) }
        ensures term { IfOk result (λ p. (t : Term) → term_of a.term.value ≡ rename_term (naming_of self.now) t → term_of p.term.value ≡ rename_term (naming_of self.now) (own_or own a.next t)) }
        ensures steps { OnOk result ((t : Term) → term_of a.term.value ≡ rename_term (naming_of self.now) t → AreBehind (rename (naming_of self.now) (own_code own self.now.line a.next t)) steps.old.items steps.new.items) }
    {
        if !own {
            return Ok(a);
        }
        let name = self.names.helper(alloc, Role::Temp, a.next)?;
        let value = Box::into_inner(a.term);
        steps.push(scalar_assignment(self.line, name, value))?;
        let term = self.temp_var(alloc, a.next)?;
        let next = plus(a.next, 1)?;
        Ok(Parts {
            term,
            next,
            active: a.active,
            share: a.share,
        })
    }

    /// A term taken apart, where its first temporary has this number. The assignments of the temporaries come behind other statements.
    #[cycle(apart)]
    pub fn apart(
        &self,
        alloc: Global,
        e: &Expr,
        first: usize,
        steps: &mut Vec<Stmt>,
    ) -> Result<Parts, Memory>
        ensures parts { IfOk result (λ p. IsApart (naming_of self.now) (active_in self.now) self.now.line (term_of e.now) first p) }
        ensures steps { OnOk result (AreBehind (rename (naming_of self.now) (temps_where (active_in self.now) (term_of e.now) first self.now.line)) steps.old.items steps.new.items) }
    {
        match e {
            Expr::Lit(_) | Expr::Abs(_) => {
                let made = whole(alloc, e, first)?;
                Ok(made)
            }
            Expr::Var(x) => self.name_apart(alloc, x, first),
            Expr::Elem(x, subs) => self.element_apart(alloc, x, subs, first),
            Expr::Neg(a) => {
                let inner = self.apart(alloc, a, first, steps)?;
                let made = opposite(alloc, inner)?;
                Ok(made)
            }
            Expr::Bin(op, a, b) => match op {
                Op::Add => {
                    let made = self.sum_apart(alloc, a, b, first, steps)?;
                    Ok(made)
                }
                Op::Sub => {
                    let made = self.difference_apart(alloc, a, b, first, steps)?;
                    Ok(made)
                }
                Op::Mul => {
                    let made = self.product_apart(alloc, a, b, first, steps)?;
                    Ok(made)
                }
                Op::Quot | Op::Mod | Op::Max | Op::Min => {
                    let made = whole(alloc, e, first)?;
                    Ok(made)
                }
            },
            Expr::Pow(a, power) => {
                let made = self.power_apart(alloc, a, *power, first, steps)?;
                Ok(made)
            }
            Expr::Power(a, b) => {
                let made = self.power_by_apart(alloc, a, b, first, steps)?;
                Ok(made)
            }
        }
    }

    #[cycle(apart)]
    fn sum_apart(
        &self,
        alloc: Global,
        a: &Expr,
        b: &Expr,
        first: usize,
        steps: &mut Vec<Stmt>,
    ) -> Result<Parts, Memory>
        ensures parts { IfOk result (λ p. IsApart (naming_of self.now) (active_in self.now) self.now.line (bin plus (term_of a.now) (term_of b.now)) first p) }
        ensures steps { OnOk result (AreBehind (rename (naming_of self.now) (temps_where (active_in self.now) (bin plus (term_of a.now) (term_of b.now)) first self.now.line)) steps.old.items steps.new.items) }
    {
        let left = self.apart(alloc, a, first, steps)?;
        let right = self.apart(alloc, b, left.next, steps)?;
        let made = sum_of(alloc, left, right)?;
        Ok(made)
    }

    #[cycle(apart)]
    fn difference_apart(
        &self,
        alloc: Global,
        a: &Expr,
        b: &Expr,
        first: usize,
        steps: &mut Vec<Stmt>,
    ) -> Result<Parts, Memory>
        ensures parts { IfOk result (λ p. IsApart (naming_of self.now) (active_in self.now) self.now.line (bin minus (term_of a.now) (term_of b.now)) first p) }
        ensures steps { OnOk result (AreBehind (rename (naming_of self.now) (temps_where (active_in self.now) (bin minus (term_of a.now) (term_of b.now)) first self.now.line)) steps.old.items steps.new.items) }
    {
        let left = self.apart(alloc, a, first, steps)?;
        let right = self.apart(alloc, b, left.next, steps)?;
        let made = difference_of(alloc, left, right)?;
        Ok(made)
    }

    #[cycle(apart)]
    fn product_apart(
        &self,
        alloc: Global,
        a: &Expr,
        b: &Expr,
        first: usize,
        steps: &mut Vec<Stmt>,
    ) -> Result<Parts, Memory>
        ensures parts { IfOk result (λ p. IsApart (naming_of self.now) (active_in self.now) self.now.line (bin times (term_of a.now) (term_of b.now)) first p) }
        ensures steps { OnOk result (AreBehind (rename (naming_of self.now) (temps_where (active_in self.now) (bin times (term_of a.now) (term_of b.now)) first self.now.line)) steps.old.items steps.new.items) }
    {
        let own_left = self.has_own(a, b);
        let left = self.apart(alloc, a, first, steps)?;
        let own_right = has_own_beside(b, left.active);
        let left_value = self.operand(alloc, own_left, left, steps)?;
        let right = self.apart(alloc, b, left_value.next, steps)?;
        let right_value = self.operand(alloc, own_right, right, steps)?;
        let made = product_of(alloc, left_value, right_value)?;
        Ok(made)
    }

    #[cycle(apart)]
    fn power_apart(
        &self,
        alloc: Global,
        a: &Expr,
        power: u32,
        first: usize,
        steps: &mut Vec<Stmt>,
    ) -> Result<Parts, Memory>
        ensures parts { IfOk result (λ p. IsApart (naming_of self.now) (active_in self.now) self.now.line (pow (term_of a.now) power) first p) }
        ensures steps { OnOk result (AreBehind (rename (naming_of self.now) (temps_where (active_in self.now) (pow (term_of a.now) power) first self.now.line)) steps.old.items steps.new.items) }
    {
        match power {
            0 => {
                let made = constant(alloc, a, first)?;
                Ok(made)
            }
            1 => {
                let base = self.apart(alloc, a, first, steps)?;
                let made = same(alloc, base)?;
                Ok(made)
            }
            _ => {
                let base = self.apart(alloc, a, first, steps)?;
                let own = has_own_beside(a, base.active);
                let value = self.operand(alloc, own, base, steps)?;
                let made = constant_power(alloc, value, power)?;
                Ok(made)
            }
        }
    }

    #[cycle(apart)]
    fn power_by_apart(
        &self,
        alloc: Global,
        a: &Expr,
        b: &Expr,
        first: usize,
        steps: &mut Vec<Stmt>,
    ) -> Result<Parts, Memory>
        ensures parts { IfOk result (λ p. IsApart (naming_of self.now) (active_in self.now) self.now.line (power_of (term_of a.now) (term_of b.now)) first p) }
        ensures steps { OnOk result (AreBehind (rename (naming_of self.now) (temps_where (active_in self.now) (power_of (term_of a.now) (term_of b.now)) first self.now.line)) steps.old.items steps.new.items) }
    {
        let base = self.apart(alloc, a, first, steps)?;
        let own_base = has_own_beside(a, base.active);
        let own_exponent = has_own_beside(b, base.active);
        let value = self.operand(alloc, own_base, base, steps)?;
        let exponent = whole(alloc, b, value.next)?;
        let exponent_value = self.operand(alloc, own_exponent, exponent, steps)?;
        let made = variable_power(alloc, value, exponent_value)?;
        Ok(made)
    }
}

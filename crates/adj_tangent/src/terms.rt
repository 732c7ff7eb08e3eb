//! The tangent of a term (docs/EMITTED.md, "Tangents").

ghost use Rattle.std.specs.Prelude.{◌≡◌, ◌||◌, ◌-◌, ◌+◌, Bool, pos, None, true, IfOk, OnOk};
ghost use Rattle.adj_tree.specs.Code.{Var, Term, plain, lit, var, elem, neg, bin, pow, power_of, plus, minus, times};
ghost use Rattle.adj_tree.specs.View.{term_of, terms_of};
ghost use Rattle.def_meaning.specs.Rename.{rename, rename_term};
ghost use Rattle.def_sweep.specs.Marked.{own_or, count_of};
ghost use Rattle.def_tangent.specs.TangentOf.{sum_of, difference_of, power_factor, own_part, parts_where};
ghost use Rattle.adj_sweep_assignment.specs.Sites.{naming_of, active_in};
ghost use Rattle.adj_sweep_assignment.specs.Behind.{AreBehind};
ghost use Rattle.adj_tangent.specs.Terms.{IsValue, IsPart, IsTangent};

use adj_naming::role::Role;
use adj_sweep_assignment::share::guarded;
use adj_sweep_assignment::site::Site;
use adj_sweep_assignment::sizes::{has_own_beside, plus};
use adj_sweep_assignment::step::scalar_assignment;
use adj_sweep_assignment::terms::{element, sum};
use adj_tree::{Expr, Exprs, Memory, Name, Op, Stmt, boxed};
use std::alloc::Global;

/// The tangent of a term, if it is active, and the numbers of the next part and of the next temporary.
#[derive(Drop)]
pub struct Tangent {
    pub value: Option<Box<Expr>>,
    pub part: usize,
    pub temp: usize,
}

/// An operand of the term: it has a temporary of this number, or stands itself.
#[derive(Clone, Copy)]
pub struct Operand<'e> {
    pub term: &'e Expr,
    pub own: bool,
    pub temp: usize,
}

// A term that isn't active.
fn passive(part: usize, temp: usize) -> Tangent
    ensures part { result.part ≡ part }
    ensures temp { result.temp ≡ temp }
    ensures value { result.value ≡ None }
{
    Tangent {
        value: None,
        part,
        temp,
    }
}

// The number that comes after another, if something has that.
fn after(number: usize, own: bool) -> Result<usize, Memory>
    ensures next { IfOk result (λ n. n ≡ number + count_of own) }
{
    if own { plus(number, 1) } else { Ok(number) }
}

// The tangent of a negation, from that of its operand.
fn negated(alloc: Global, value: Option<Box<Expr>>) -> Result<Option<Box<Expr>>, Memory>
    ensures value { IfOk result (λ o. (r : Var → Var) (b : Bool) (x : Term) → IsValue r b x value → IsValue r b (neg x) o) }
{
    let Some(x) = value else { return Ok(None) };
    let made = boxed(alloc, Expr::Neg(x))?;
    Ok(Some(made))
}

// The sum of the tangents of two terms, if one of them is active.
fn sum_of(
    alloc: Global,
    left: Option<Box<Expr>>,
    right: Option<Box<Expr>>,
) -> Result<Option<Box<Expr>>, Memory>
    ensures value { IfOk result (λ o. (r : Var → Var) (b c : Bool) (x y : Term) → IsValue r b x left → IsValue r c y right → IsValue r (b || c) (sum_of b c x y) o) }
{
    let Some(x) = left else { return Ok(right) };
    let Some(y) = right else { return Ok(Some(x)) };
    let made = sum(alloc, x, y)?;
    Ok(Some(made))
}

// The difference of two terms.
fn difference(alloc: Global, a: Box<Expr>, b: Box<Expr>) -> Result<Box<Expr>, Memory>
    ensures difference { IfOk result (λ x. term_of x.value ≡ bin minus (term_of a.value) (term_of b.value)) }
{
    boxed(alloc, Expr::Bin(Op::Sub, a, b))
}

// A tangent less that of another term, if that is active.
fn less(alloc: Global, x: Box<Expr>, right: Option<Box<Expr>>) -> Result<Option<Box<Expr>>, Memory>
    ensures value { IfOk result (λ o. (r : Var → Var) (c : Bool) (t y : Term) → term_of x.value ≡ rename_term r t → IsValue r c y right → IsValue r true (difference_of true c t y) o) }
{
    let Some(y) = right else { return Ok(Some(x)) };
    let made = difference(alloc, x, y)?;
    Ok(Some(made))
}

// The difference of the tangents of two terms, if one of them is active.
fn difference_of(
    alloc: Global,
    left: Option<Box<Expr>>,
    right: Option<Box<Expr>>,
) -> Result<Option<Box<Expr>>, Memory>
    ensures value { IfOk result (λ o. (r : Var → Var) (b c : Bool) (x y : Term) → IsValue r b x left → IsValue r c y right → IsValue r (b || c) (difference_of b c x y) o) }
{
    match left {
        None => {
            let made = negated(alloc, right)?;
            Ok(made)
        }
        Some(x) => {
            let made = less(alloc, x, right)?;
            Ok(made)
        }
    }
}

impl<'e> Operand<'e> {
    // The operand's value: its temporary, or itself.
    fn value(self, site: &Site<'_>, alloc: Global) -> Result<Box<Expr>, Memory>
        ensures value { IfOk result (λ e. term_of e.value ≡ rename_term (naming_of site.now) (own_or self.entry.own self.entry.temp (term_of self.entry.term.now))) }
    {
        if self.own {
            return site.temp_var(alloc, self.temp);
        }
        let made = self.term.copy_boxed(alloc)?;
        Ok(made)
    }
}

// A tangent times an operand.
fn by_right(
    site: &Site<'_>,
    alloc: Global,
    value: Option<Box<Expr>>,
    operand: Operand<'_>,
) -> Result<Option<Box<Expr>>, Memory>
    ensures value { IfOk result (λ o. (b : Bool) (x : Term) → IsValue (naming_of site.now) b x value → IsValue (naming_of site.now) b (bin times x (own_or operand.entry.own operand.entry.temp (term_of operand.entry.term.now))) o) }
{
    let Some(x) = value else { return Ok(None) };
    let factor = operand.value(site, alloc)?;
    let made = boxed(alloc, Expr::Bin(Op::Mul, x, factor))?;
    Ok(Some(made))
}

// An operand times a tangent.
fn by_left(
    site: &Site<'_>,
    alloc: Global,
    operand: Operand<'_>,
    value: Option<Box<Expr>>,
) -> Result<Option<Box<Expr>>, Memory>
    ensures value { IfOk result (λ o. (b : Bool) (x : Term) → IsValue (naming_of site.now) b x value → IsValue (naming_of site.now) b (bin times (own_or operand.entry.own operand.entry.temp (term_of operand.entry.term.now)) x) o) }
{
    let Some(x) = value else { return Ok(None) };
    let factor = operand.value(site, alloc)?;
    let made = boxed(alloc, Expr::Bin(Op::Mul, factor, x))?;
    Ok(Some(made))
}

// The derivative of a constant power of at least 2 by its base.
fn power_share(
    site: &Site<'_>,
    alloc: Global,
    base: Operand<'_>,
    power: u32,
) -> Result<Box<Expr>, Memory>
    ensures value { IfOk result (λ e. term_of e.value ≡ rename_term (naming_of site.now) (bin times (lit (pos power)) (pow (own_or base.entry.own base.entry.temp (term_of base.entry.term.now)) (power - 1)))) }
{
    let value = base.value(site, alloc)?;
    let less = boxed(alloc, Expr::Pow(value, power.saturating_sub(1)))?;
    let exponent = boxed(alloc, Expr::Lit(i64::from(power)))?;
    boxed(alloc, Expr::Bin(Op::Mul, exponent, less))
}

// The tangent of a constant power, from that of its base.
fn by_power(
    site: &Site<'_>,
    alloc: Global,
    base: Operand<'_>,
    power: u32,
    value: Option<Box<Expr>>,
) -> Result<Option<Box<Expr>>, Memory>
    ensures value { IfOk result (λ o. (b : Bool) (x : Term) → IsValue (naming_of site.now) b x value → IsValue (naming_of site.now) b (bin times (bin times (lit (pos power)) (pow (own_or base.entry.own base.entry.temp (term_of base.entry.term.now)) (power - 1))) x) o) }
{
    let Some(x) = value else { return Ok(None) };
    let factor = power_share(site, alloc, base, power)?;
    let made = boxed(alloc, Expr::Bin(Op::Mul, factor, x))?;
    Ok(Some(made))
}

// The derivative of a power whose exponent is an expression by its base.
fn exponent_share(
    site: &Site<'_>,
    alloc: Global,
    base: Operand<'_>,
    exponent: Operand<'_>,
) -> Result<Box<Expr>, Memory>
    ensures value { IfOk result (λ e. term_of e.value ≡ rename_term (naming_of site.now) (power_factor (own_or base.entry.own base.entry.temp (term_of base.entry.term.now)) (own_or exponent.entry.own exponent.entry.temp (term_of exponent.entry.term.now)))) }
{
    let below = base.value(site, alloc)?;
    let above = exponent.value(site, alloc)?;
    let less = guarded(alloc, &below, &above)?;
    boxed(alloc, Expr::Bin(Op::Mul, above, less))
}

// The tangent of a power whose exponent is an expression, from that of its base.
fn by_exponent(
    site: &Site<'_>,
    alloc: Global,
    base: Operand<'_>,
    exponent: Operand<'_>,
    value: Option<Box<Expr>>,
) -> Result<Option<Box<Expr>>, Memory>
    ensures value { IfOk result (λ o. (b : Bool) (x : Term) → IsValue (naming_of site.now) b x value → IsValue (naming_of site.now) b (bin times (power_factor (own_or base.entry.own base.entry.temp (term_of base.entry.term.now)) (own_or exponent.entry.own exponent.entry.temp (term_of exponent.entry.term.now))) x) o) }
{
    let Some(x) = value else { return Ok(None) };
    let factor = exponent_share(site, alloc, base, exponent)?;
    let made = boxed(alloc, Expr::Bin(Op::Mul, factor, x))?;
    Ok(Some(made))
}

// The helper of this number gets a tangent, and stands for it.
fn set_helper(
    site: &Site<'_>,
    alloc: Global,
    x: Box<Expr>,
    part: usize,
    temp: usize,
    steps: &mut Vec<Stmt>,
) -> Result<Tangent, Memory>
    ensures tangent { IfOk result (λ p. IsPart (naming_of site.now) true part temp p) }
    ensures steps { OnOk result ((t : Term) → term_of x.value ≡ rename_term (naming_of site.now) t → AreBehind (rename (naming_of site.now) (own_part true site.now.line part t)) steps.old.items steps.new.items) }
{
    let name = site.names.helper(alloc, Role::Work, part)?;
    let value = Box::into_inner(x);
    steps.push(scalar_assignment(site.line, name, value))?;
    let own = site.work_var(alloc, part)?;
    let next = plus(part, 1)?;
    Ok(Tangent {
        value: Some(own),
        part: next,
        temp,
    })
}

// The helper of this number gets a tangent, if there is one, and stands for it.
fn set_part(
    site: &Site<'_>,
    alloc: Global,
    value: Option<Box<Expr>>,
    part: usize,
    temp: usize,
    steps: &mut Vec<Stmt>,
) -> Result<Tangent, Memory>
    ensures tangent { IfOk result (λ p. (b : Bool) (x : Term) → IsValue (naming_of site.now) b x value → IsPart (naming_of site.now) b part temp p) }
    ensures steps { OnOk result ((b : Bool) (x : Term) → IsValue (naming_of site.now) b x value → AreBehind (rename (naming_of site.now) (own_part b site.now.line part x)) steps.old.items steps.new.items) }
{
    match value {
        None => Ok(passive(part, temp)),
        Some(x) => {
            let made = set_helper(site, alloc, x, part, temp, steps)?;
            Ok(made)
        }
    }
}

// The tangent of a name.
fn name_tangent(
    site: &Site<'_>,
    alloc: Global,
    x: &Name,
    part: usize,
    temp: usize,
) -> Result<Tangent, Memory>
    ensures tangent { IfOk result (λ p. IsTangent (naming_of site.now) (active_in site.now) (var (plain x.now)) part temp p) }
{
    if !site.is_active_name(x) {
        return Ok(passive(part, temp));
    }
    let name = site.names.shadow(alloc, x)?;
    let value = boxed(alloc, Expr::Var(name))?;
    Ok(Tangent {
        value: Some(value),
        part,
        temp,
    })
}

// The tangent of an element.
fn element_tangent(
    site: &Site<'_>,
    alloc: Global,
    x: &Name,
    subs: &Exprs,
    part: usize,
    temp: usize,
) -> Result<Tangent, Memory>
    ensures tangent { IfOk result (λ p. IsTangent (naming_of site.now) (active_in site.now) (elem (plain x.now) (terms_of subs.now)) part temp p) }
{
    if !site.is_active_name(x) {
        return Ok(passive(part, temp));
    }
    let name = site.names.shadow(alloc, x)?;
    let value = element(alloc, &name, subs)?;
    Ok(Tangent {
        value: Some(value),
        part,
        temp,
    })
}

/// The tangent of a term, where its first part and its first temporary have these numbers. The assignments of the parts come behind other
/// statements.
#[cycle(tangent)]
pub fn term_tangent(
    site: &Site<'_>,
    alloc: Global,
    e: &Expr,
    part: usize,
    temp: usize,
    steps: &mut Vec<Stmt>,
) -> Result<Tangent, Memory>
    ensures tangent { IfOk result (λ p. IsTangent (naming_of site.now) (active_in site.now) (term_of e.now) part temp p) }
    ensures steps { OnOk result (AreBehind (rename (naming_of site.now) (parts_where (active_in site.now) (term_of e.now) part temp site.now.line)) steps.old.items steps.new.items) }
{
    match e {
        Expr::Lit(_) | Expr::Abs(_) => Ok(passive(part, temp)),
        Expr::Var(x) => name_tangent(site, alloc, x, part, temp),
        Expr::Elem(x, subs) => element_tangent(site, alloc, x, subs, part, temp),
        Expr::Neg(a) => {
            let made = negation_tangent(site, alloc, a, part, temp, steps)?;
            Ok(made)
        }
        Expr::Bin(op, a, b) => match op {
            Op::Add => {
                let made = sum_tangent(site, alloc, a, b, part, temp, steps)?;
                Ok(made)
            }
            Op::Sub => {
                let made = difference_tangent(site, alloc, a, b, part, temp, steps)?;
                Ok(made)
            }
            Op::Mul => {
                let made = product_tangent(site, alloc, a, b, part, temp, steps)?;
                Ok(made)
            }
            Op::Quot | Op::Mod | Op::Max | Op::Min => Ok(passive(part, temp)),
        },
        Expr::Pow(a, power) => {
            let made = power_tangent(site, alloc, a, *power, part, temp, steps)?;
            Ok(made)
        }
        Expr::Power(a, b) => {
            let made = exponent_tangent(site, alloc, a, b, part, temp, steps)?;
            Ok(made)
        }
    }
}

#[cycle(tangent)]
fn negation_tangent(
    site: &Site<'_>,
    alloc: Global,
    a: &Expr,
    part: usize,
    temp: usize,
    steps: &mut Vec<Stmt>,
) -> Result<Tangent, Memory>
    ensures tangent { IfOk result (λ p. IsTangent (naming_of site.now) (active_in site.now) (neg (term_of a.now)) part temp p) }
    ensures steps { OnOk result (AreBehind (rename (naming_of site.now) (parts_where (active_in site.now) (neg (term_of a.now)) part temp site.now.line)) steps.old.items steps.new.items) }
{
    let inner = term_tangent(site, alloc, a, part, temp, steps)?;
    let value = negated(alloc, inner.value)?;
    let made = set_part(site, alloc, value, inner.part, inner.temp, steps)?;
    Ok(made)
}

#[cycle(tangent)]
fn sum_tangent(
    site: &Site<'_>,
    alloc: Global,
    a: &Expr,
    b: &Expr,
    part: usize,
    temp: usize,
    steps: &mut Vec<Stmt>,
) -> Result<Tangent, Memory>
    ensures tangent { IfOk result (λ p. IsTangent (naming_of site.now) (active_in site.now) (bin plus (term_of a.now) (term_of b.now)) part temp p) }
    ensures steps { OnOk result (AreBehind (rename (naming_of site.now) (parts_where (active_in site.now) (bin plus (term_of a.now) (term_of b.now)) part temp site.now.line)) steps.old.items steps.new.items) }
{
    let left = term_tangent(site, alloc, a, part, temp, steps)?;
    let right = term_tangent(site, alloc, b, left.part, left.temp, steps)?;
    let value = sum_of(alloc, left.value, right.value)?;
    let made = set_part(site, alloc, value, right.part, right.temp, steps)?;
    Ok(made)
}

#[cycle(tangent)]
fn difference_tangent(
    site: &Site<'_>,
    alloc: Global,
    a: &Expr,
    b: &Expr,
    part: usize,
    temp: usize,
    steps: &mut Vec<Stmt>,
) -> Result<Tangent, Memory>
    ensures tangent { IfOk result (λ p. IsTangent (naming_of site.now) (active_in site.now) (bin minus (term_of a.now) (term_of b.now)) part temp p) }
    ensures steps { OnOk result (AreBehind (rename (naming_of site.now) (parts_where (active_in site.now) (bin minus (term_of a.now) (term_of b.now)) part temp site.now.line)) steps.old.items steps.new.items) }
{
    let left = term_tangent(site, alloc, a, part, temp, steps)?;
    let right = term_tangent(site, alloc, b, left.part, left.temp, steps)?;
    let value = difference_of(alloc, left.value, right.value)?;
    let made = set_part(site, alloc, value, right.part, right.temp, steps)?;
    Ok(made)
}

#[cycle(tangent)]
fn product_tangent(
    site: &Site<'_>,
    alloc: Global,
    a: &Expr,
    b: &Expr,
    part: usize,
    temp: usize,
    steps: &mut Vec<Stmt>,
) -> Result<Tangent, Memory>
    ensures tangent { IfOk result (λ p. IsTangent (naming_of site.now) (active_in site.now) (bin times (term_of a.now) (term_of b.now)) part temp p) }
    ensures steps { OnOk result (AreBehind (rename (naming_of site.now) (parts_where (active_in site.now) (bin times (term_of a.now) (term_of b.now)) part temp site.now.line)) steps.old.items steps.new.items) }
{
    let own_left = site.has_own(a, b);
    let left = term_tangent(site, alloc, a, part, temp, steps)?;
    let first = Operand {
        term: a,
        own: own_left,
        temp: left.temp,
    };
    let active = left.value.is_some();
    let own_right = has_own_beside(b, active);
    let begun = after(left.temp, own_left)?;
    let right = term_tangent(site, alloc, b, left.part, begun, steps)?;
    let second = Operand {
        term: b,
        own: own_right,
        temp: right.temp,
    };
    let next = after(right.temp, own_right)?;
    let value = product_value(site, alloc, first, left.value, second, right.value)?;
    let made = set_part(site, alloc, value, right.part, next, steps)?;
    Ok(made)
}

// The tangent of a product, from those of its factors.
fn product_value(
    site: &Site<'_>,
    alloc: Global,
    first: Operand<'_>,
    left: Option<Box<Expr>>,
    second: Operand<'_>,
    right: Option<Box<Expr>>,
) -> Result<Option<Box<Expr>>, Memory>
    ensures value { IfOk result (λ o. (b c : Bool) (x y : Term) → IsValue (naming_of site.now) b x left → IsValue (naming_of site.now) c y right → IsValue (naming_of site.now) (b || c) (sum_of b c (bin times x (own_or second.entry.own second.entry.temp (term_of second.entry.term.now))) (bin times (own_or first.entry.own first.entry.temp (term_of first.entry.term.now)) y)) o) }
{
    let from_left = by_right(site, alloc, left, second)?;
    let from_right = by_left(site, alloc, first, right)?;
    let made = sum_of(alloc, from_left, from_right)?;
    Ok(made)
}

#[cycle(tangent)]
fn power_tangent(
    site: &Site<'_>,
    alloc: Global,
    a: &Expr,
    power: u32,
    part: usize,
    temp: usize,
    steps: &mut Vec<Stmt>,
) -> Result<Tangent, Memory>
    ensures tangent { IfOk result (λ p. IsTangent (naming_of site.now) (active_in site.now) (pow (term_of a.now) power) part temp p) }
    ensures steps { OnOk result (AreBehind (rename (naming_of site.now) (parts_where (active_in site.now) (pow (term_of a.now) power) part temp site.now.line)) steps.old.items steps.new.items) }
{
    match power {
        0 => Ok(passive(part, temp)),
        1 => {
            let inner = term_tangent(site, alloc, a, part, temp, steps)?;
            let made = set_part(site, alloc, inner.value, inner.part, inner.temp, steps)?;
            Ok(made)
        }
        _ => {
            let inner = term_tangent(site, alloc, a, part, temp, steps)?;
            let active = inner.value.is_some();
            let own = has_own_beside(a, active);
            let base = Operand {
                term: a,
                own,
                temp: inner.temp,
            };
            let next = after(inner.temp, own)?;
            let value = by_power(site, alloc, base, power, inner.value)?;
            let made = set_part(site, alloc, value, inner.part, next, steps)?;
            Ok(made)
        }
    }
}

#[cycle(tangent)]
fn exponent_tangent(
    site: &Site<'_>,
    alloc: Global,
    a: &Expr,
    b: &Expr,
    part: usize,
    temp: usize,
    steps: &mut Vec<Stmt>,
) -> Result<Tangent, Memory>
    ensures tangent { IfOk result (λ p. IsTangent (naming_of site.now) (active_in site.now) (power_of (term_of a.now) (term_of b.now)) part temp p) }
    ensures steps { OnOk result (AreBehind (rename (naming_of site.now) (parts_where (active_in site.now) (power_of (term_of a.now) (term_of b.now)) part temp site.now.line)) steps.old.items steps.new.items) }
{
    let inner = term_tangent(site, alloc, a, part, temp, steps)?;
    let active = inner.value.is_some();
    let own_base = has_own_beside(a, active);
    let own_exponent = has_own_beside(b, active);
    let base = Operand {
        term: a,
        own: own_base,
        temp: inner.temp,
    };
    let between = after(inner.temp, own_base)?;
    let exponent = Operand {
        term: b,
        own: own_exponent,
        temp: between,
    };
    let next = after(between, own_exponent)?;
    let value = by_exponent(site, alloc, base, exponent, inner.value)?;
    let made = set_part(site, alloc, value, inner.part, next, steps)?;
    Ok(made)
}

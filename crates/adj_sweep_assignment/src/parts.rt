//! A term taken apart into temporaries for its operands and the share of its adjoint (docs/EMITTED.md, "The adjoint of an assignment").

ghost use Rattle.std.specs.Prelude.{◌≡◌, ◌-◌, ◌||◌, false, pos, ℕ, IfOk};
ghost use Rattle.adj_tree.specs.Code.{Var, helper, work, lit, var, neg, bin, pow, power_of, plus, minus, times};
ghost use Rattle.adj_tree.specs.View.{term_of};
ghost use Rattle.def_meaning.specs.Append.{◌+++◌};
ghost use Rattle.adj_sweep_assignment.specs.Shares.{share_code, scaled_code, guarded_power};
ghost use Rattle.adj_sweep_assignment.specs.declared.share.Share.TheVariants as made;

use crate::share::{Factor, Share, both, by_exponent, by_power, by_value, scaled};
use adj_tree::{Expr, Memory, Op, boxed};
use std::alloc::Global;

/// A term that was taken apart.
#[derive(Drop)]
pub struct Parts {
    /// It with temporaries for its operands.
    pub term: Box<Expr>,
    /// The number of the next temporary.
    pub next: usize,
    pub active: bool,
    /// What becomes of its adjoint.
    pub share: Box<Share>,
}

/// A term that has no derivative.
pub fn whole(alloc: Global, e: &Expr, first: usize) -> Result<Parts, Memory>
    ensures next { IfOk result (λ p. p.next ≡ first) }
    ensures passive { IfOk result (λ p. p.active ≡ false) }
    ensures term { IfOk result (λ p. term_of p.term.value ≡ term_of e.now) }
    ensures share { IfOk result (λ p. p.share.value ≡ made.Nothing) }
{
    let term = e.copy_boxed(alloc)?;
    let share = boxed(alloc, Share::Nothing)?;
    Ok(Parts {
        term,
        next: first,
        active: false,
        share,
    })
}

/// A power with the exponent 0.
pub fn constant(alloc: Global, e: &Expr, first: usize) -> Result<Parts, Memory>
    ensures next { IfOk result (λ p. p.next ≡ first) }
    ensures passive { IfOk result (λ p. p.active ≡ false) }
    ensures term { IfOk result (λ p. term_of p.term.value ≡ pow (term_of e.now) 0) }
    ensures share { IfOk result (λ p. p.share.value ≡ made.Nothing) }
{
    let base = e.copy_boxed(alloc)?;
    let term = boxed(alloc, Expr::Pow(base, 0))?;
    let share = boxed(alloc, Share::Nothing)?;
    Ok(Parts {
        term,
        next: first,
        active: false,
        share,
    })
}

/// A negation.
pub fn opposite(alloc: Global, a: Parts) -> Result<Parts, Memory>
    ensures next { IfOk result (λ p. p.next ≡ a.next) }
    ensures active { IfOk result (λ p. p.active ≡ a.active) }
    ensures term { IfOk result (λ p. term_of p.term.value ≡ neg (term_of a.term.value)) }
    ensures share { IfOk result (λ p. (r : Var → Var) (line k : ℕ) → share_code r line p.share.value k ≡ scaled_code r line a.active (neg (var (r (helper work k)))) a.share.value k) }
{
    let share = scaled(alloc, a.active, Factor::Opposite, a.share)?;
    let term = boxed(alloc, Expr::Neg(a.term))?;
    Ok(Parts {
        term,
        next: a.next,
        active: a.active,
        share,
    })
}

/// A sum.
pub fn sum_of(alloc: Global, a: Parts, b: Parts) -> Result<Parts, Memory>
    ensures next { IfOk result (λ p. p.next ≡ b.next) }
    ensures active { IfOk result (λ p. p.active ≡ (a.active || b.active)) }
    ensures term { IfOk result (λ p. term_of p.term.value ≡ bin plus (term_of a.term.value) (term_of b.term.value)) }
    ensures share { IfOk result (λ p. (r : Var → Var) (line k : ℕ) → share_code r line p.share.value k ≡ share_code r line a.share.value k +++ share_code r line b.share.value k) }
{
    let share = both(alloc, a.share, b.share)?;
    let term = boxed(alloc, Expr::Bin(Op::Add, a.term, b.term))?;
    Ok(Parts {
        term,
        next: b.next,
        active: a.active || b.active,
        share,
    })
}

/// A difference.
pub fn difference_of(alloc: Global, a: Parts, b: Parts) -> Result<Parts, Memory>
    ensures next { IfOk result (λ p. p.next ≡ b.next) }
    ensures active { IfOk result (λ p. p.active ≡ (a.active || b.active)) }
    ensures term { IfOk result (λ p. term_of p.term.value ≡ bin minus (term_of a.term.value) (term_of b.term.value)) }
    ensures share { IfOk result (λ p. (r : Var → Var) (line k : ℕ) → share_code r line p.share.value k ≡ share_code r line a.share.value k +++ scaled_code r line b.active (neg (var (r (helper work k)))) b.share.value k) }
{
    let second = scaled(alloc, b.active, Factor::Opposite, b.share)?;
    let share = both(alloc, a.share, second)?;
    let term = boxed(alloc, Expr::Bin(Op::Sub, a.term, b.term))?;
    Ok(Parts {
        term,
        next: b.next,
        active: a.active || b.active,
        share,
    })
}

/// A product.
pub fn product_of(alloc: Global, a: Parts, b: Parts) -> Result<Parts, Memory>
    ensures next { IfOk result (λ p. p.next ≡ b.next) }
    ensures active { IfOk result (λ p. p.active ≡ (a.active || b.active)) }
    ensures term { IfOk result (λ p. term_of p.term.value ≡ bin times (term_of a.term.value) (term_of b.term.value)) }
    ensures share { IfOk result (λ p. (r : Var → Var) (line k : ℕ) → share_code r line p.share.value k ≡ scaled_code r line a.active (bin times (var (r (helper work k))) (term_of b.term.value)) a.share.value k +++ scaled_code r line b.active (bin times (var (r (helper work k))) (term_of a.term.value)) b.share.value k) }
{
    let first = by_value(alloc, a.active, &b.term, a.share)?;
    let second = by_value(alloc, b.active, &a.term, b.share)?;
    let share = both(alloc, first, second)?;
    let term = boxed(alloc, Expr::Bin(Op::Mul, a.term, b.term))?;
    Ok(Parts {
        term,
        next: b.next,
        active: a.active || b.active,
        share,
    })
}

/// A power with the exponent 1.
pub fn same(alloc: Global, a: Parts) -> Result<Parts, Memory>
    ensures next { IfOk result (λ p. p.next ≡ a.next) }
    ensures active { IfOk result (λ p. p.active ≡ a.active) }
    ensures term { IfOk result (λ p. term_of p.term.value ≡ pow (term_of a.term.value) 1) }
    ensures share { IfOk result (λ p. (r : Var → Var) (line k : ℕ) → share_code r line p.share.value k ≡ share_code r line a.share.value k) }
{
    let term = boxed(alloc, Expr::Pow(a.term, 1))?;
    Ok(Parts {
        term,
        next: a.next,
        active: a.active,
        share: a.share,
    })
}

/// A constant power of at least 2.
pub fn constant_power(alloc: Global, a: Parts, power: u32) -> Result<Parts, Memory>
    ensures next { IfOk result (λ p. p.next ≡ a.next) }
    ensures active { IfOk result (λ p. p.active ≡ a.active) }
    ensures term { IfOk result (λ p. term_of p.term.value ≡ pow (term_of a.term.value) power) }
    ensures share { IfOk result (λ p. (r : Var → Var) (line k : ℕ) → share_code r line p.share.value k ≡ scaled_code r line a.active (bin times (bin times (var (r (helper work k))) (lit (pos power))) (pow (term_of a.term.value) (power - 1))) a.share.value k) }
{
    let Parts {
        term,
        next,
        active,
        share,
    } = a;
    let share = by_power(alloc, active, &term, power, share)?;
    let term = boxed(alloc, Expr::Pow(term, power))?;
    Ok(Parts {
        term,
        next,
        active,
        share,
    })
}

/// A power whose exponent is an expression.
pub fn variable_power(alloc: Global, a: Parts, b: Parts) -> Result<Parts, Memory>
    ensures next { IfOk result (λ p. p.next ≡ b.next) }
    ensures active { IfOk result (λ p. p.active ≡ a.active) }
    ensures term { IfOk result (λ p. term_of p.term.value ≡ power_of (term_of a.term.value) (term_of b.term.value)) }
    ensures share { IfOk result (λ p. (r : Var → Var) (line k : ℕ) → share_code r line p.share.value k ≡ scaled_code r line a.active (bin times (bin times (var (r (helper work k))) (term_of b.term.value)) (guarded_power (term_of a.term.value) (term_of b.term.value))) a.share.value k) }
{
    let Parts {
        term,
        active,
        share,
        next: _,
    } = a;
    let share = by_exponent(alloc, active, &term, &b.term, share)?;
    let term = boxed(alloc, Expr::Power(term, b.term))?;
    Ok(Parts {
        term,
        next: b.next,
        active,
        share,
    })
}

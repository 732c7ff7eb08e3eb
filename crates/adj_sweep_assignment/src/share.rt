//! What becomes of the adjoint of a term (docs/EMITTED.md, "The adjoint of an assignment").

ghost use Rattle.std.specs.Prelude.{◌≡◌, ◌-◌, pos, ℕ, IfOk};
ghost use Rattle.adj_tree.specs.Code.{Var, helper, work, var, bin, greater, minus, times, neg, pow, lit};
ghost use Rattle.adj_tree.specs.View.{term_of};
ghost use Rattle.def_meaning.specs.Append.{◌+++◌};
ghost use Rattle.adj_sweep_assignment.specs.Shares.{guarded_power, scaled_by, share_code, scaled_code};

use adj_tree::{Expr, Exprs, Memory, Name, Op, boxed};
use std::alloc::Global;

/// The derivative of a term by an operand, which the adjoint of the term is multiplied by.
pub enum Factor {
    /// -1.
    Opposite,
    /// A value.
    Value(Box<Expr>),
    /// That of a constant power of at least 2.
    Power(Box<Expr>, u32),
    /// That of a power whose exponent is an expression.
    PowerBy(Box<Expr>, Box<Expr>),
}

impl Drop for Factor {
    fn drop(self) {
        match self {
            Factor::Opposite => {}
            Factor::Value(_part) => {}
            Factor::Power(_part0, _) => {}
            Factor::PowerBy(_part0, _part1) => {}
        }
    }
}

/// What becomes of the adjoint of a term, which stands in a work variable.
#[cycle(share)]
#[derive(Drop)]
pub enum Share {
    /// Nothing: the term isn't active.
    Nothing,
    /// It is added to this shadow of a scalar.
    Scalar(Name),
    /// It is added to an element of this shadow.
    Element(Name, Exprs),
    /// One thing, and then another.
    Both(Box<Share>, Box<Share>),
    /// The next work variable becomes its product with a factor, of which this becomes.
    Scaled(Factor, Box<Share>),
}

impl Factor {
    /// The product of a term with the factor.
    pub fn times(&self, alloc: Global, w: Box<Expr>) -> Result<Box<Expr>, Memory>
        ensures product { IfOk result (λ e. term_of e.value ≡ scaled_by self.now (term_of w.value)) }
    {
        match self {
            Factor::Opposite => { boxed(alloc, Expr::Neg(w)) }
            Factor::Value(value) => {
                let copied = value.copy_boxed(alloc)?;
                boxed(alloc, Expr::Bin(Op::Mul, w, copied))
            }
            Factor::Power(base, power) => { times_power(alloc, w, base, *power) }
            Factor::PowerBy(base, exponent) => { times_guarded(alloc, w, base, exponent) }
        }
    }
}

// The product of a term with the derivative of a constant power.
fn times_power(alloc: Global, w: Box<Expr>, base: &Expr, power: u32) -> Result<Box<Expr>, Memory>
    ensures product { IfOk result (λ e. term_of e.value ≡ bin times (bin times (term_of w.value) (lit (pos power))) (pow (term_of base.now) (power - 1))) }
{
    let exponent = boxed(alloc, Expr::Lit(i64::from(power)))?;
    let share = boxed(alloc, Expr::Bin(Op::Mul, w, exponent))?;
    let copied = base.copy_boxed(alloc)?;
    let less = boxed(alloc, Expr::Pow(copied, power.saturating_sub(1)))?;
    boxed(alloc, Expr::Bin(Op::Mul, share, less))
}

// The product of a term with that of a power whose exponent is an expression.
fn times_guarded(
    alloc: Global,
    w: Box<Expr>,
    base: &Expr,
    exponent: &Expr,
) -> Result<Box<Expr>, Memory>
    ensures product { IfOk result (λ e. term_of e.value ≡ bin times (bin times (term_of w.value) (term_of exponent.now)) (guarded_power (term_of base.now) (term_of exponent.now))) }
{
    let copied = exponent.copy_boxed(alloc)?;
    let share = boxed(alloc, Expr::Bin(Op::Mul, w, copied))?;
    let less = guarded(alloc, base, exponent)?;
    boxed(alloc, Expr::Bin(Op::Mul, share, less))
}

// A term less 1, but not below 0.
fn lessened(alloc: Global, e: &Expr) -> Result<Box<Expr>, Memory>
    ensures less { IfOk result (λ x. term_of x.value ≡ bin greater (bin minus (term_of e.now) (lit (pos 1))) (lit (pos 0))) }
{
    let value = e.copy_boxed(alloc)?;
    let one = boxed(alloc, Expr::Lit(1))?;
    let less = boxed(alloc, Expr::Bin(Op::Sub, value, one))?;
    let bound = boxed(alloc, Expr::Lit(0))?;
    boxed(alloc, Expr::Bin(Op::Max, less, bound))
}

/// The power with an exponent that is less by 1, but not below 0.
pub fn guarded(alloc: Global, base: &Expr, exponent: &Expr) -> Result<Box<Expr>, Memory>
    ensures power { IfOk result (λ e. term_of e.value ≡ guarded_power (term_of base.now) (term_of exponent.now)) }
{
    let less = lessened(alloc, exponent)?;
    let value = base.copy_boxed(alloc)?;
    boxed(alloc, Expr::Power(value, less))
}

/// The share of a term whose operand has this one, by a factor; nothing where the operand isn't active.
pub fn scaled(
    alloc: Global,
    active: bool,
    factor: Factor,
    share: Box<Share>,
) -> Result<Box<Share>, Memory>
    ensures share { IfOk result (λ s. (r : Var → Var) (line k : ℕ) → share_code r line s.value k ≡ scaled_code r line active (scaled_by factor (var (r (helper work k)))) share.value k) }
{
    let made = if active {
        boxed(alloc, Share::Scaled(factor, share))?
    } else {
        boxed(alloc, Share::Nothing)?
    };
    Ok(made)
}

/// The share of a factor whose own share this is, by the other factor.
pub fn by_value(
    alloc: Global,
    active: bool,
    value: &Expr,
    share: Box<Share>,
) -> Result<Box<Share>, Memory>
    ensures share { IfOk result (λ s. (r : Var → Var) (line k : ℕ) → share_code r line s.value k ≡ scaled_code r line active (bin times (var (r (helper work k))) (term_of value.now)) share.value k) }
{
    if !active {
        let none = boxed(alloc, Share::Nothing)?;
        return Ok(none);
    }
    let copied = value.copy_boxed(alloc)?;
    boxed(alloc, Share::Scaled(Factor::Value(copied), share))
}

/// The share of the base of a constant power, where its own share is this one.
pub fn by_power(
    alloc: Global,
    active: bool,
    base: &Expr,
    power: u32,
    share: Box<Share>,
) -> Result<Box<Share>, Memory>
    ensures share { IfOk result (λ s. (r : Var → Var) (line k : ℕ) → share_code r line s.value k ≡ scaled_code r line active (bin times (bin times (var (r (helper work k))) (lit (pos power))) (pow (term_of base.now) (power - 1))) share.value k) }
{
    if !active {
        let none = boxed(alloc, Share::Nothing)?;
        return Ok(none);
    }
    let copied = base.copy_boxed(alloc)?;
    boxed(alloc, Share::Scaled(Factor::Power(copied, power), share))
}

/// The same where the exponent is an expression.
pub fn by_exponent(
    alloc: Global,
    active: bool,
    base: &Expr,
    exponent: &Expr,
    share: Box<Share>,
) -> Result<Box<Share>, Memory>
    ensures share { IfOk result (λ s. (r : Var → Var) (line k : ℕ) → share_code r line s.value k ≡ scaled_code r line active (bin times (bin times (var (r (helper work k))) (term_of exponent.now)) (guarded_power (term_of base.now) (term_of exponent.now))) share.value k) }
{
    if !active {
        let none = boxed(alloc, Share::Nothing)?;
        return Ok(none);
    }
    let copied = base.copy_boxed(alloc)?;
    let raised = exponent.copy_boxed(alloc)?;
    boxed(alloc, Share::Scaled(Factor::PowerBy(copied, raised), share))
}

/// One share, and then another.
pub fn both(alloc: Global, a: Box<Share>, b: Box<Share>) -> Result<Box<Share>, Memory>
    ensures share { IfOk result (λ s. (r : Var → Var) (line k : ℕ) → share_code r line s.value k ≡ share_code r line a.value k +++ share_code r line b.value k) }
{
    boxed(alloc, Share::Both(a, b))
}

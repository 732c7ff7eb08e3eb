//! What the adjoint of a right side takes, before it is written.

ghost use Rattle.std.specs.Prelude.{◌≡◌, ◌+◌, ◌&&◌, ◌||◌, false, max, IfOk, if◌then◌else◌};
ghost use Rattle.adj_tree.specs.View.{term_of};
ghost use Rattle.def_sweep.specs.Marks.{active_at};
ghost use Rattle.def_sweep.specs.Marked.{count_of, is_compound};
ghost use Rattle.def_sweep.specs.Occurrences.{is_active_where};
ghost use Rattle.def_sweep.specs.AdjointOf.{temps_in_where, works_in_where};
ghost use Rattle.adj_sweep_assignment.specs.View.{marks_of};

use adj_sweep_assignment::Marking;
use adj_tree::{Expr, Memory, Op};

/// Whether a term is active, how many temporaries its operands have, and the greatest number of the work variables that its adjoint uses.
#[derive(Clone, Copy, PartialEq, Eq, Debug)]
pub struct Measure {
    pub active: bool,
    pub temps: usize,
    pub works: usize,
}

/// The sum of two counts. Trees whose counts don't fit a word would not fit the memory.
pub(crate) fn plus(a: usize, b: usize) -> Result<usize, Memory>
    ensures sum { IfOk result (λ c. c ≡ a + b) }
{
    match a.checked_add(b) {
        Some(sum) => Ok(sum),
        None => Err(Memory),
    }
}

// Whether the term is neither a literal nor a name nor an element.
fn is_compound(e: &Expr) -> bool
    ensures compound { result ≡ is_compound (term_of e.now) }
{
    match e {
        Expr::Lit(_) | Expr::Var(_) | Expr::Elem(_, _) => false,
        Expr::Neg(_) | Expr::Bin(_, _, _) | Expr::Pow(_, _) | Expr::Power(_, _) | Expr::Abs(_) =>
            true,
    }
}

// 1 for an operand that has a temporary of its own, else 0.
fn count_of(own: bool) -> usize
    ensures count { result ≡ count_of own }
{
    if own { 1 } else { 0 }
}

// The measure of a term without derivative.
fn passive() -> Measure
    ensures active { result.active ≡ false }
    ensures temps { result.temps ≡ 0 }
    ensures works { result.works ≡ 0 }
{
    Measure {
        active: false,
        temps: 0,
        works: 0,
    }
}

// The measure of a name or an element.
fn occurrence(active: bool, work: usize) -> Measure
    ensures active { result.active ≡ active }
    ensures temps { result.temps ≡ 0 }
    ensures works { result.works ≡ (if active then work else 0) }
{
    Measure {
        active,
        temps: 0,
        works: if active { work } else { 0 },
    }
}

// The measure of a sum or a difference.
fn sum_measure(left: Measure, right: Measure) -> Result<Measure, Memory>
    ensures active { IfOk result (λ m. m.active ≡ (left.active || right.active)) }
    ensures temps { IfOk result (λ m. m.temps ≡ left.temps + right.temps) }
    ensures works { IfOk result (λ m. m.works ≡ max left.works right.works) }
{
    let temps = plus(left.temps, right.temps)?;
    Ok(Measure {
        active: left.active || right.active,
        temps,
        works: left.works.max(right.works),
    })
}

// The measure of a product, of whose factors each may be compound.
fn product_measure(
    left: Measure,
    left_compound: bool,
    right: Measure,
    right_compound: bool,
) -> Result<Measure, Memory>
    ensures active { IfOk result (λ m. m.active ≡ (left.active || right.active)) }
    ensures temps { IfOk result (λ m. m.temps ≡ left.temps + count_of (left_compound && right.active) + (right.temps + count_of (right_compound && left.active))) }
    ensures works { IfOk result (λ m. m.works ≡ max left.works right.works) }
{
    let first = plus(left.temps, count_of(left_compound && right.active))?;
    let second = plus(right.temps, count_of(right_compound && left.active))?;
    let temps = plus(first, second)?;
    Ok(Measure {
        active: left.active || right.active,
        temps,
        works: left.works.max(right.works),
    })
}

// The measure of a power by its base, where an operand may have a temporary of its own.
fn with_own(base: Measure, own: bool) -> Result<Measure, Memory>
    ensures active { IfOk result (λ m. m.active ≡ base.active) }
    ensures temps { IfOk result (λ m. m.temps ≡ base.temps + count_of own) }
    ensures works { IfOk result (λ m. m.works ≡ base.works) }
{
    let temps = plus(base.temps, count_of(own))?;
    Ok(Measure {
        active: base.active,
        temps,
        works: base.works,
    })
}

/// The measure of a term of a statement, in one pass, where its own adjoint stands in the work variable of this number.
pub fn measured(
    marks: &Marking<'_>,
    number: usize,
    e: &Expr,
    work: usize,
) -> Result<Measure, Memory>
    ensures active { IfOk result (λ m. m.active ≡ is_active_where (active_at (marks_of marks.now) number) (term_of e.now)) }
    ensures temps { IfOk result (λ m. m.temps ≡ temps_in_where (active_at (marks_of marks.now) number) (term_of e.now)) }
    ensures works { IfOk result (λ m. m.works ≡ works_in_where (active_at (marks_of marks.now) number) (term_of e.now) work) }
{
    match e {
        Expr::Lit(_) | Expr::Abs(_) => Ok(passive()),
        Expr::Var(x) | Expr::Elem(x, _) => Ok(occurrence(marks.active(number, x), work)),
        Expr::Neg(a) => measured(marks, number, a, plus(work, 1)?),
        Expr::Bin(op, a, b) => match op {
            Op::Add => {
                let left = measured(marks, number, a, work)?;
                let right = measured(marks, number, b, work)?;
                sum_measure(left, right)
            }
            Op::Sub => {
                let left = measured(marks, number, a, work)?;
                let right = measured(marks, number, b, plus(work, 1)?)?;
                sum_measure(left, right)
            }
            Op::Mul => {
                let inner = plus(work, 1)?;
                let left = measured(marks, number, a, inner)?;
                let right = measured(marks, number, b, inner)?;
                product_measure(left, is_compound(a), right, is_compound(b))
            }
            Op::Quot | Op::Mod | Op::Max | Op::Min => Ok(passive()),
        },
        Expr::Pow(a, power) => match *power {
            0 => Ok(passive()),
            1 => measured(marks, number, a, work),
            _ => {
                let base = measured(marks, number, a, plus(work, 1)?)?;
                with_own(base, is_compound(a) && base.active)
            }
        },
        Expr::Power(a, b) => {
            let base = measured(marks, number, a, plus(work, 1)?)?;
            let first = with_own(base, is_compound(a) && base.active)?;
            with_own(first, is_compound(b) && base.active)
        }
    }
}

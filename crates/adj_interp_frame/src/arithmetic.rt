//! Operations on numbers that may trap.

ghost use Rattle.std.specs.Prelude.{◌≡◌};
ghost use Rattle.adj_tree.specs.View.{op_of, rel_of};
ghost use Rattle.def_meaning.specs.Numbers.{operation, absolute, compares};
ghost use Rattle.def_meaning.specs.Value.{exponent_of};
ghost use Rattle.adj_interp_frame.specs.Framed.{result_of, number_found};

use adj_number::Number;
use adj_tree::{Op, Rel, Trap};
use adj_word::{quot, rem};

// A word that was found as a number, which has no tangent.
fn quotient<N: Number>(found: Option<i64>) -> Result<N, Trap>
    ensures { result_of result ≡ number_found N.numbers found }
{
    match found {
        Some(word) => Ok(N::of_word(word)),
        None => Err(Trap::Division),
    }
}

/// An operation on its operands.
#[inline(always)]
pub(crate) fn operation<N: Number>(op: Op, left: N, right: N) -> Result<N, Trap>
    ensures { result_of result ≡ operation N.numbers (op_of op) left right }
{
    match op {
        Op::Add => Ok(left.sum(right)),
        Op::Sub => Ok(left.difference(right)),
        Op::Mul => Ok(left.product(right)),
        Op::Quot => quotient(quot(left.word(), right.word())),
        Op::Mod => quotient(rem(left.word(), right.word())),
        Op::Max => Ok(if left.word() < right.word() {
            right
        } else {
            left
        }),
        Op::Min => Ok(if right.word() < left.word() {
            right
        } else {
            left
        }),
    }
}

/// ABS: the negation where the argument is below 0.
pub(crate) fn absolute<N: Number>(number: N) -> N
    ensures { result ≡ absolute N.numbers number }
{
    if number.word() < 0 {
        number.negation()
    } else {
        number
    }
}

/// An exponent that was evaluated.
pub(crate) fn exponent(number: i64) -> Result<u32, Trap>
    ensures { result_of result ≡ exponent_of number }
{
    u32::try_from(number).map_err(|_| Trap::Power)
}

/// Whether two words stand in a relation.
pub(crate) fn compares(rel: Rel, left: i64, right: i64) -> bool
    ensures { result ≡ compares (rel_of rel) left right }
{
    match rel {
        Rel::Lt => left < right,
        Rel::Le => left <= right,
        Rel::Eq => left == right,
        Rel::Ne => left != right,
        Rel::Gt => left > right,
        Rel::Ge => left >= right,
    }
}

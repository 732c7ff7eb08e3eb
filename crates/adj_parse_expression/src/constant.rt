//! Values of literal expressions, which are words.

ghost use Rattle.std.specs.Prelude.{◌≡◌, ◌^◌, min, pos};
ghost use Rattle.adj_tree.specs.View.{op_of};
ghost use Rattle.def_text.specs.Char.{number_of};
ghost use Rattle.def_text.specs.Grammar.{in_words, to_power, constant_of, constant_power};
ghost use Rattle.adj_parse_expression.specs.Constants.{valued, negated_constant, joined_constant, powered_constant, is_other, exponent_of};

use adj_tree::Op;

/// What an expression is as an exponent.
#[derive(Clone, Copy)]
pub(crate) enum Constant {
    /// Not literal: something else stands in it than literals, signs, sums, differences, products and powers.
    Other,
    /// Literal, and it or a part of it isn't a word.
    Beyond,
    /// Literal, with this value.
    Word(i64),
}

// The number that digits write, or 2^63 where it is above that.
fn capped(digits: &[u8]) -> u64
    ensures { result ≡ min (number_of digits.now) (2 ^ 63) }
{
    let mut number: u64 = 0;
    for digit in digits {
        let unit = u64::from(digit.saturating_sub(b'0'));
        number = number.saturating_mul(10).saturating_add(unit).min(1 << 63);
    }
    number
}

/// The number that digits write, where it is a word.
pub(crate) fn literal(digits: &[u8]) -> Option<i64>
    ensures { result ≡ in_words (pos (number_of digits.now)) }
{
    i64::try_from(capped(digits)).ok()
}

// The sum, difference or product of two words.
fn joined(op: Op, left: i64, right: i64) -> Option<i64>
    ensures { result ≡ constant_of (op_of op) left right }
{
    match op {
        Op::Add => left.checked_add(right),
        Op::Sub => left.checked_sub(right),
        Op::Mul => left.checked_mul(right),
        Op::Quot | Op::Mod | Op::Max | Op::Min => None,
    }
}

// A power with an exponent that isn't negative.
fn natural_power(base: i64, exponent: u64) -> Option<i64>
    ensures { result ≡ in_words (to_power base exponent) }
{
    // from 64 on the powers of -1, 0 and 1 alone are words, and they turn on whether the exponent is even
    base.checked_pow(exponent.min(64 + exponent % 2) as u32)
}

// A word to the power of another.
fn power(base: i64, exponent: i64) -> Option<i64>
    ensures { result ≡ constant_power base exponent }
{
    match u64::try_from(exponent) {
        Ok(exponent) => natural_power(base, exponent),
        Err(_) => None,
    }
}

impl Constant {
    fn valued(value: Option<i64>) -> Constant
        ensures { result ≡ valued value }
    {
        match value {
            Some(word) => Constant::Word(word),
            None => Constant::Beyond,
        }
    }

    /// Behind a minus sign.
    pub fn opposite(self) -> Constant
        ensures { result ≡ negated_constant self }
    {
        match self {
            Constant::Word(word) => Constant::valued(word.checked_neg()),
            other => other,
        }
    }

    /// The sum, difference or product; what is joined in another way isn't literal.
    pub fn joined(self, op: Op, right: Constant) -> Constant
        ensures { result ≡ joined_constant (op_of op) self right }
    {
        match op {
            Op::Add | Op::Sub | Op::Mul => match (self, right) {
                (Constant::Word(a), Constant::Word(b)) => Constant::valued(joined(op, a, b)),
                (Constant::Other, _) | (_, Constant::Other) => Constant::Other,
                _ => Constant::Beyond,
            },
            Op::Quot | Op::Mod | Op::Max | Op::Min => Constant::Other,
        }
    }

    /// The power with this exponent.
    pub fn powered(self, exponent: Constant) -> Constant
        ensures { result ≡ powered_constant self exponent }
    {
        match (self, exponent) {
            (Constant::Word(a), Constant::Word(k)) => Constant::valued(power(a, k)),
            (Constant::Other, _) | (_, Constant::Other) => Constant::Other,
            _ => Constant::Beyond,
        }
    }

    /// Whether the expression isn't literal.
    pub fn is_other(self) -> bool
        ensures { result ≡ is_other self }
    {
        matches!(self, Constant::Other)
    }

    /// Its value, where it is an exponent from 0 to 63.
    pub fn exponent(self) -> Option<u32>
        ensures { result ≡ exponent_of self }
    {
        match self {
            Constant::Word(k) if 0 <= k && k <= 63 => Some(k as u32),
            _ => None,
        }
    }
}

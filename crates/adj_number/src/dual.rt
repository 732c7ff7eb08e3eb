//! Words with tangents.

ghost use Rattle.std.specs.Prelude.{◌≡◌};
ghost use Rattle.def_meaning.specs.Numbers.{duals, power_tangent};

use crate::number::Number;
use adj_word::{add, mul, neg, pow, sub};
use std::marker::Model;

/// A word and its tangent, seen as a pair.
#[derive(Clone, Copy, Debug)]
pub struct Dual {
    pub value: i64,
    pub tangent: i64,
}

impl Model for Dual {
    ghost use Rattle.std.specs.Prelude.{ℤ};

    ghost Value = { ℤ × ℤ };

    ghost view = { λ d. (d.value, d.tangent) };

    ghost inverse = { λ p. record { value = p.0; tangent = p.1 } };
}

// The tangent of a power: the exponent times the power below, times the tangent of the base; 0 for the exponent 0.
fn power_tangent(value: i64, tangent: i64, exponent: u32) -> i64
    ensures { result ≡ power_tangent value tangent exponent }
{
    if exponent == 0 {
        return 0;
    }
    let below = pow(value, exponent - 1);
    mul(mul(i64::from(exponent), below), tangent)
}

impl Number for Dual {
    ghost numbers = { duals };

    ghost clones_equal = { λ x y h. h };

    ghost never_fails = { λ x. tt };

    fn of_word(word: i64) -> Dual {
        Dual {
            value: word,
            tangent: 0,
        }
    }

    fn word(self) -> i64 {
        self.value
    }

    fn negation(self) -> Dual {
        Dual {
            value: neg(self.value),
            tangent: neg(self.tangent),
        }
    }

    fn sum(self, other: Dual) -> Dual {
        Dual {
            value: add(self.value, other.value),
            tangent: add(self.tangent, other.tangent),
        }
    }

    fn difference(self, other: Dual) -> Dual {
        Dual {
            value: sub(self.value, other.value),
            tangent: sub(self.tangent, other.tangent),
        }
    }

    fn product(self, other: Dual) -> Dual {
        let left = mul(self.tangent, other.value);
        let right = mul(self.value, other.tangent);
        Dual {
            value: mul(self.value, other.value),
            tangent: add(left, right),
        }
    }

    fn power(self, exponent: u32) -> Dual {
        Dual {
            value: pow(self.value, exponent),
            tangent: power_tangent(self.value, self.tangent, exponent),
        }
    }
}

//! Words as numbers.

ghost use Rattle.def_meaning.specs.Numbers.{words};

use crate::number::Number;
use adj_word::{add, mul, neg, pow, sub};

impl Number for i64 {
    ghost numbers = { words };

    ghost clones_equal = { λ x y h. h };

    ghost never_fails = { λ x. tt };

    fn of_word(word: i64) -> i64 {
        word
    }

    fn word(self) -> i64 {
        self
    }

    fn negation(self) -> i64 {
        neg(self)
    }

    fn sum(self, other: i64) -> i64 {
        add(self, other)
    }

    fn difference(self, other: i64) -> i64 {
        sub(self, other)
    }

    fn product(self, other: i64) -> i64 {
        mul(self, other)
    }

    fn power(self, exponent: u32) -> i64 {
        pow(self, exponent)
    }
}

//! Dot products of words.

ghost use Rattle.std.specs.Prelude.{◌≡◌, length};
ghost use Rattle.adj_word.specs.Dot as Dot;

use crate::arithmetic::{add, mul};

/// The residue of the sum of the products of the members at equal places.
pub fn dot(a: &[i64], b: &[i64]) -> i64
    requires { length a.now ≡ length b.now }
    ensures { result ≡ Dot.dot a.now b.now }
{
    let mut sum = 0;
    for (x, y) in a.iter().zip(b) {
        sum = add(sum, mul(*x, *y));
    }
    sum
}

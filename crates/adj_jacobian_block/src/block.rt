//! Words with a block of columns.

ghost use Rattle.std.specs.Prelude.{◌≡◌, ◌<◌};
ghost use Rattle.adj_jacobian_block.specs.Blocks.{blocks, either_of, of_place};

use adj_number::Number;
use adj_word::{add, mul, neg, pow, sub};

/// A word, and for each of 256 columns whether it can depend on it.
#[derive(Clone, Copy, Debug)]
pub struct Block {
    pub value: i64,
    pub columns: [u64; 4],
}

// The columns of either.
fn union(first: [u64; 4], second: [u64; 4]) -> [u64; 4]
    ensures { result ≡ either_of first second }
{
    let mut all = [0; 4];
    for i in 0..4 {
        all[i] = first[i] | second[i];
    }
    all
}

impl Block {
    /// The word of a column of the block, at its place there.
    pub fn of_column(word: i64, place: usize) -> Block
        requires { place < 256 }
        ensures { result ≡ of_place word place }
    {
        let mut columns = [0; 4];
        columns[place / 64] = 1 << (place % 64);
        Block {
            value: word,
            columns,
        }
    }
}

impl Number for Block {
    ghost numbers = { blocks };

    ghost clones_equal = { λ x y h. h };

    ghost never_fails = { λ x. tt };

    fn of_word(word: i64) -> Block {
        Block {
            value: word,
            columns: [0; 4],
        }
    }

    fn word(self) -> i64 {
        self.value
    }

    fn negation(self) -> Block {
        let columns = self.columns;
        Block {
            value: neg(self.value),
            columns,
        }
    }

    fn sum(self, other: Block) -> Block {
        let columns = union(self.columns, other.columns);
        Block {
            value: add(self.value, other.value),
            columns,
        }
    }

    fn difference(self, other: Block) -> Block {
        let columns = union(self.columns, other.columns);
        Block {
            value: sub(self.value, other.value),
            columns,
        }
    }

    fn product(self, other: Block) -> Block {
        let columns = union(self.columns, other.columns);
        Block {
            value: mul(self.value, other.value),
            columns,
        }
    }

    fn power(self, exponent: u32) -> Block {
        Block {
            value: pow(self.value, exponent),
            columns: if exponent == 0 { [0; 4] } else { self.columns },
        }
    }
}

//! Words with few columns.

ghost use Rattle.std.specs.Prelude.{◌≡◌, option_copied};
ghost use Rattle.adj_jacobian_few.specs.Merged.{behind, least, merged};
ghost use Rattle.adj_jacobian_few.specs.Few.{few, either_of, list_of, one_of, own_few, sized};

use adj_number::Number;
use adj_word::{add, mul, neg, pow, sub};

/// The most columns that a word keeps.
const MOST: usize = 6;

/// The columns of a word: so many of the numbers, in increasing order; or more than are kept, and then which ones isn't known.
#[derive(Clone, Copy, Debug)]
pub enum Kept {
    Listed { count: u32, numbers: [u32; MOST] },
    Many,
}

/// A word, and the columns on which it can depend where they are few.
#[derive(Clone, Copy, Debug)]
pub struct Few {
    pub value: i64,
    pub columns: Kept,
}

// The least number of two increasing lists.
fn least(first: &[u32], second: &[u32]) -> Option<u32>
    ensures { result ≡ least first.now second.now }
{
    match (first.first(), second.first()) {
        (Some(left), Some(right)) => Some(*left.min(right)),
        (Some(left), None) => Some(*left),
        (None, Some(right)) => Some(*right),
        (None, None) => None,
    }
}

// An increasing list without its first number where that is the given one.
fn behind(number: u32, numbers: &[u32]) -> &[u32]
    ensures { result.now ≡ behind number numbers.now }
{
    match numbers {
        [first, rest @ ..] if *first == number => rest,
        _ => numbers,
    }
}

// The numbers of two increasing lists, each once, where they are few.
fn merged(first: &[u32], second: &[u32]) -> Kept
    ensures { result ≡ sized (merged first.now second.now) }
{
    let mut numbers = [0; MOST];
    let mut left = first;
    let mut right = second;
    for count in 0..MOST {
        match least(left, right) {
            Some(number) => {
                numbers[count] = number;
                left = behind(number, left);
                right = behind(number, right);
            }
            None => {
                return Kept::Listed {
                    count: count as u32,
                    numbers,
                };
            }
        }
    }
    match least(left, right) {
        Some(_number) => Kept::Many,
        None => Kept::Listed {
            count: MOST as u32,
            numbers,
        },
    }
}

impl Kept {
    /// No column.
    pub const NONE: Kept = Kept::Listed {
        count: 0,
        numbers: [0; MOST],
    };

    // One column, where its number has 32 bits.
    fn one(column: u64) -> Kept
        ensures { result ≡ one_of column }
    {
        match u32::try_from(column) {
            Ok(number) => Kept::Listed {
                count: 1,
                numbers: [number, 0, 0, 0, 0, 0],
            },
            Err(_) => Kept::Many,
        }
    }

    /// The columns in increasing order, or none where they are many.
    pub fn list(&self) -> Option<&[u32]>
        ensures { option_copied result ≡ list_of self.now }
    {
        match self {
            Kept::Listed { count, numbers } => {
                Some(numbers.get(..*count as usize).unwrap_or(numbers))
            }
            Kept::Many => None,
        }
    }
}

// The columns of either.
fn union(first: &Kept, second: &Kept) -> Kept
    ensures { result ≡ either_of first.now second.now }
{
    match (first.list(), second.list()) {
        (Some(left), Some(right)) => merged(left, right),
        _ => Kept::Many,
    }
}

impl Few {
    /// The word of a column.
    pub fn of_column(word: i64, column: u64) -> Few
        ensures { result ≡ own_few word column }
    {
        Few {
            value: word,
            columns: Kept::one(column),
        }
    }
}

impl Number for Few {
    ghost numbers = { few };

    ghost clones_equal = { λ x y h. h };

    ghost never_fails = { λ x. tt };

    fn of_word(word: i64) -> Few {
        Few {
            value: word,
            columns: Kept::NONE,
        }
    }

    fn word(self) -> i64 {
        self.value
    }

    fn negation(self) -> Few {
        let columns = self.columns;
        Few {
            value: neg(self.value),
            columns,
        }
    }

    fn sum(self, other: Few) -> Few {
        let columns = union(&self.columns, &other.columns);
        Few {
            value: add(self.value, other.value),
            columns,
        }
    }

    fn difference(self, other: Few) -> Few {
        let columns = union(&self.columns, &other.columns);
        Few {
            value: sub(self.value, other.value),
            columns,
        }
    }

    fn product(self, other: Few) -> Few {
        let columns = union(&self.columns, &other.columns);
        Few {
            value: mul(self.value, other.value),
            columns,
        }
    }

    fn power(self, exponent: u32) -> Few {
        Few {
            value: pow(self.value, exponent),
            columns: if exponent == 0 {
                Kept::NONE
            } else {
                self.columns
            },
        }
    }
}

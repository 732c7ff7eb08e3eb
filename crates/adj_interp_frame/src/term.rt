//! Prepared expressions and conditions: variables are the numbers that their unit gives them.

ghost use Rattle.std.specs.Prelude.{◌≡◌, List, ℕ};
ghost use Rattle.adj_tree.specs.Code.{none};
ghost use Rattle.adj_tree.specs.Listed.{terms_turned};
ghost use Rattle.adj_interp_frame.specs.Prepared.{terms_in, AreTermsBelow};

use adj_tree::{Op, Rel};
use std::mem;

/// An expression.
#[cycle(term)]
pub enum Term {
    Lit(i64),
    Var(usize),
    /// An element of an array, with its subscripts.
    Elem(usize, Terms),
    Neg(Box<Term>),
    Bin(Op, Box<Term>, Box<Term>),
    /// A constant power.
    Pow(Box<Term>, u32),
    /// A power whose exponent is an expression.
    Power(Box<Term>, Box<Term>),
    Abs(Box<Term>),
}

impl Drop for Term {
    #[cycle(term)]
    fn drop(self) {
        match self {
            Term::Lit(_) => {}
            Term::Var(_) => {}
            Term::Elem(_, _part1) => {}
            Term::Neg(_part) => {}
            Term::Bin(_, _part1, _part2) => {}
            Term::Pow(_part0, _) => {}
            Term::Power(_part0, _part1) => {}
            Term::Abs(_part) => {}
        }
    }
}

/// Expressions in order, as a linked list.
#[cycle(term)]
pub enum Terms {
    Empty,
    More(Box<Term>, Box<Terms>),
}

impl Terms {
    /// Its members in the other order.
    pub(crate) fn turned(mut self) -> Terms
        ensures turned { (names : List (List ℕ)) → terms_in names result ≡ terms_turned (terms_in names self) none }
        ensures below { (count : ℕ) → AreTermsBelow count self → AreTermsBelow count result }
    {
        let mut made = Terms::Empty;
        loop {
            match self {
                Terms::Empty => return made,
                Terms::More(first, mut rest) => {
                    self = mem::replace(&mut *rest, made);
                    made = Terms::More(first, rest);
                }
            }
        }
    }
}

impl Drop for Terms {
    #[cycle(term)]
    fn drop(mut self) {
        loop {
            match self {
                Terms::Empty => return,
                Terms::More(_first, rest) => self = Box::into_inner(rest),
            }
        }
    }
}

/// A condition.
pub enum Test {
    Cmp(Rel, Box<Term>, Box<Term>),
    Not(Box<Test>),
    And(Box<Test>, Box<Test>),
    Or(Box<Test>, Box<Test>),
}

impl Drop for Test {
    fn drop(self) {
        match self {
            Test::Cmp(_, _part1, _part2) => {}
            Test::Not(_part) => {}
            Test::And(_part0, _part1) => {}
            Test::Or(_part0, _part1) => {}
        }
    }
}

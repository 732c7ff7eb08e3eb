//! Actuals of a call.

ghost use Rattle.std.specs.Prelude.{◌≡◌, ℕ, Option, IfOk, length};
ghost use Rattle.adj_tree.specs.Code.{Var};
ghost use Rattle.def_meaning.specs.Store.{Shape, Store};
ghost use Rattle.def_meaning.specs.Units.{actual_of};
ghost use Rattle.adj_interp_frame.specs.Prepared.{term_in, IsTermBelow};
ghost use Rattle.adj_interp_frame.specs.Framed.{IsFrame};
ghost use Rattle.adj_interp_frame.specs.Shown.{on_numbers, Shows};
ghost use Rattle.adj_interp_frame.specs.Called.{actual_in, word_of, result_as, IsActualBelow};

use crate::frame::Frame;
use crate::term::Term;
use adj_number::Number;
use adj_tree::Trap;

/// What a dummy gets at a call: a whole variable, a cell of an array with its number, or the value of an expression.
#[derive(Clone, Copy)]
pub enum Actual<N: Number> {
    Whole(usize),
    Cell(usize, usize, N),
    Word(N),
}

impl<'a, N: Number> Frame<'a, N> {
    // The value of an expression, which has no place.
    fn word(&self, term: &Term) -> Result<Actual<N>, Trap>
        requires framed { IsFrame self.now.names.now self.now.slots.items }
        requires below { IsTermBelow (length self.now.slots.items) term.now }
        ensures word { (shape : Var → Shape) (room : Option ℕ) (level : ℕ) (s : Store N) → Shows N.numbers self.now.names.now self.now.slots.items shape s
            → result_as (actual_in self.now.names.now shape s) result ≡ word_of (on_numbers N.numbers shape room level) (term_in self.now.names.now term.now) s }
        ensures below { IfOk result (λ a. IsActualBelow self.now.slots.items a) }
    {
        match self.value(term) {
            Ok(word) => Ok(Actual::Word(word)),
            Err(trap) => Err(trap),
        }
    }

    /// What an actual is. Its subscripts are evaluated here, and never again.
    pub fn actual(&self, term: &Term) -> Result<Actual<N>, Trap>
        requires framed { IsFrame self.now.names.now self.now.slots.items }
        requires below { IsTermBelow (length self.now.slots.items) term.now }
        ensures actual { (shape : Var → Shape) (room : Option ℕ) (level : ℕ) (s : Store N) → Shows N.numbers self.now.names.now self.now.slots.items shape s
            → result_as (actual_in self.now.names.now shape s) result ≡ actual_of (on_numbers N.numbers shape room level) (term_in self.now.names.now term.now) s }
        ensures below { IfOk result (λ a. IsActualBelow self.now.slots.items a) }
    {
        match term {
            Term::Var(i) => Ok(Actual::Whole(*i)),
            Term::Elem(i, subs) => {
                let cell = self.cell(*i, subs)?;
                Ok(Actual::Cell(*i, cell, self.slots[*i].cells[cell]))
            }
            Term::Lit(_) => self.word(term),
            Term::Neg(_) => self.word(term),
            Term::Bin(_, _, _) => self.word(term),
            Term::Pow(_, _) => self.word(term),
            Term::Power(_, _) => self.word(term),
            Term::Abs(_) => self.word(term),
        }
    }

    /// The number in the first cell of an actual.
    pub(crate) fn first_of(&self, actual: Actual<N>) -> N
        requires framed { IsFrame self.now.names.now self.now.slots.items }
        requires below { IsActualBelow self.now.slots.items actual }
        ensures { (shape : Var → Shape) (s : Store N) → Shows N.numbers self.now.names.now self.now.slots.items shape s
            → result ≡ (actual_in self.now.names.now shape s actual).cells 0 }
    {
        match actual {
            Actual::Whole(i) => self.slots[i].first(),
            Actual::Cell(_, _, word) | Actual::Word(word) => word,
        }
    }
}

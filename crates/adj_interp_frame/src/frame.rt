//! An entry of a unit: a slot for each of its variables.

ghost use Rattle.std.specs.Prelude.{◌≡◌, ◌<◌, ◌∷◌, ℕ, Ok, IfOk, IfSome, length, slice_index_or};
ghost use Rattle.adj_tree.specs.Code.{Var};
ghost use Rattle.def_meaning.specs.Store.{Shape, Store, set, set_all};
ghost use Rattle.def_meaning.specs.Trap.{then_ok};
ghost use Rattle.def_meaning.specs.Value.{value, values, cell_at, target, holds};
ghost use Rattle.adj_interp_frame.specs.Prepared.{var_at, term_in, terms_in, test_in, IsTermBelow, AreTermsBelow, IsTestBelow};
ghost use Rattle.adj_interp_frame.specs.declared.slot.Slot.{Slot};
ghost use Rattle.adj_interp_frame.specs.Framed.{result_of, IsFrame, zero_in, store_in, setting_in_slots};
ghost use Rattle.adj_interp_frame.specs.Shown.{Shows};
ghost use Rattle.adj_interp_frame.specs.Suited.{counts_in};

use crate::arithmetic::{absolute, compares, exponent, operation};
use crate::slot::Slot;
use crate::term::{Term, Terms, Test};
use adj_number::Number;
use adj_tree::{NameList, Trap};

/// The slots of an entry, by the numbers of its unit's variables.
pub struct Frame<'a, N: Number> {
    pub names: &'a NameList,
    pub slots: Vec<Slot<N>>,
}

impl<N: Number> Drop for Frame<'_, N> {
    fn drop(self) {
        let Frame {
            names: _,
            slots: _slots,
        } = self;
    }
}

impl<'a, N: Number> Frame<'a, N> {
    /// Its slots.
    pub fn into_slots(self) -> Vec<Slot<N>>
        ensures { result ≡ self.entry.slots }
    {
        let Frame { names: _, slots } = self;
        slots
    }

    /// The value of an expression.
    #[cycle(value)]
    pub fn value(&self, term: &Term) -> Result<N, Trap>
        requires framed { IsFrame self.now.names.now self.now.slots.items }
        requires below { IsTermBelow (length self.now.slots.items) term.now }
        ensures value { let n = setting_in_slots N.numbers self.now.names.now self.now.slots.items in
            result_of result ≡ value n (term_in self.now.names.now term.now) (store_in N.numbers self.now.names.now self.now.slots.items) }
    {
        match term {
            Term::Lit(word) => Ok(N::of_word(*word)),
            Term::Var(i) => Ok(self.slots[*i].first()),
            Term::Elem(i, subs) => {
                let cell = self.cell(*i, subs)?;
                Ok(self.slots[*i].cells[cell])
            }
            Term::Neg(a) => Ok(self.operand(a)?.negation()),
            Term::Bin(op, a, b) => {
                let left = self.nested(a)?;
                let right = self.nested(b)?;
                operation(*op, left, right)
            }
            Term::Pow(a, power) => Ok(self.operand(a)?.power(*power)),
            Term::Power(a, b) => {
                let base = self.operand(a)?;
                let power = exponent(self.operand(b)?.word())?;
                Ok(base.power(power))
            }
            Term::Abs(a) => Ok(absolute(self.operand(a)?)),
        }
    }

    /// The value of an expression. An operation at its top is done in place: most expressions of assignments have one, and need no call of `value`.
    #[inline(always)]
    pub fn evaluate(&self, term: &Term) -> Result<N, Trap>
        requires framed { IsFrame self.now.names.now self.now.slots.items }
        requires below { IsTermBelow (length self.now.slots.items) term.now }
        ensures value { let n = setting_in_slots N.numbers self.now.names.now self.now.slots.items in
            result_of result ≡ value n (term_in self.now.names.now term.now) (store_in N.numbers self.now.names.now self.now.slots.items) }
    {
        if let Term::Bin(op, a, b) = term {
            let left = self.nested(a)?;
            let right = self.nested(b)?;
            return operation(*op, left, right);
        }
        self.operand(term)
    }

    // The value of an operand or a subscript. Most are words and scalars, which are read in place: the compiler puts this
    // function into those that call it, and no call is made for them.
    #[inline(always)]
    #[cycle(value)]
    fn operand(&self, term: &Term) -> Result<N, Trap>
        requires framed { IsFrame self.now.names.now self.now.slots.items }
        requires below { IsTermBelow (length self.now.slots.items) term.now }
        ensures value { let n = setting_in_slots N.numbers self.now.names.now self.now.slots.items in
            result_of result ≡ value n (term_in self.now.names.now term.now) (store_in N.numbers self.now.names.now self.now.slots.items) }
    {
        match self.simple(term) {
            Some(number) => Ok(number),
            None => match self.value(term) {
                Ok(number) => Ok(number),
                Err(trap) => Err(trap),
            },
        }
    }

    // The value of a word or a scalar, which is read in place.
    #[inline(always)]
    fn simple(&self, term: &Term) -> Option<N>
        requires framed { IsFrame self.now.names.now self.now.slots.items }
        requires below { IsTermBelow (length self.now.slots.items) term.now }
        ensures value { let n = setting_in_slots N.numbers self.now.names.now self.now.slots.items in
            IfSome result (λ z. Ok z ≡ value n (term_in self.now.names.now term.now) (store_in N.numbers self.now.names.now self.now.slots.items)) }
    {
        match term {
            Term::Lit(word) => Some(N::of_word(*word)),
            Term::Var(i) => Some(self.slots[*i].first()),
            _ => None,
        }
    }

    // The value of an operand of an operation. One that is itself an operation on words and scalars, as most are that are none of these, is done in place.
    #[inline(always)]
    #[cycle(value)]
    fn nested(&self, term: &Term) -> Result<N, Trap>
        requires framed { IsFrame self.now.names.now self.now.slots.items }
        requires below { IsTermBelow (length self.now.slots.items) term.now }
        ensures value { let n = setting_in_slots N.numbers self.now.names.now self.now.slots.items in
            result_of result ≡ value n (term_in self.now.names.now term.now) (store_in N.numbers self.now.names.now self.now.slots.items) }
    {
        if let Term::Bin(op, a, b) = term {
            if let Some(left) = self.simple(a) {
                if let Some(right) = self.simple(b) {
                    return operation(*op, left, right);
                }
            }
        }
        self.operand(term)
    }

    /// The cell that subscripts of a variable name.
    #[cycle(value)]
    pub(crate) fn cell(&self, i: usize, subs: &Terms) -> Result<usize, Trap>
        requires framed { IsFrame self.now.names.now self.now.slots.items }
        requires there { i < length self.now.slots.items }
        requires below { AreTermsBelow (length self.now.slots.items) subs.now }
        ensures cell { let n = setting_in_slots N.numbers self.now.names.now self.now.slots.items in
            result_of result ≡ then_ok (values n (terms_in self.now.names.now subs.now) (store_in N.numbers self.now.names.now self.now.slots.items)) (λ is. cell_at n (var_at self.now.names.now i) is) }
    {
        match subs {
            Terms::Empty => Err(Trap::Index),
            Terms::More(first, rest) => {
                let row = self.operand(first)?.word();
                self.cell_behind(i, row, rest)
            }
        }
    }

    // The cell that a first subscript and others name.
    #[cycle(value)]
    fn cell_behind(&self, i: usize, row: i64, rest: &Terms) -> Result<usize, Trap>
        requires framed { IsFrame self.now.names.now self.now.slots.items }
        requires there { i < length self.now.slots.items }
        requires below { AreTermsBelow (length self.now.slots.items) rest.now }
        ensures cell { let n = setting_in_slots N.numbers self.now.names.now self.now.slots.items in
            result_of result ≡ then_ok (values n (terms_in self.now.names.now rest.now) (store_in N.numbers self.now.names.now self.now.slots.items)) (λ is. cell_at n (var_at self.now.names.now i) (row ∷ is)) }
    {
        match rest {
            Terms::Empty => self.slots[i].in_list(row),
            Terms::More(second, others) => {
                let column = self.operand(second)?.word();
                match &**others {
                    Terms::Empty => self.slots[i].in_table(row, column),
                    Terms::More(_, _) => {
                        self.each_value(others)?;
                        Err(Trap::Index)
                    }
                }
            }
        }
    }

    // Evaluates expressions for their traps alone.
    #[cycle(value)]
    fn each_value(&self, terms: &Terms) -> Result<(), Trap>
        requires framed { IsFrame self.now.names.now self.now.slots.items }
        requires below { AreTermsBelow (length self.now.slots.items) terms.now }
        ensures traps { let n = setting_in_slots N.numbers self.now.names.now self.now.slots.items in
            result_of result ≡ then_ok (values n (terms_in self.now.names.now terms.now) (store_in N.numbers self.now.names.now self.now.slots.items)) (λ is. Ok (tt {0})) }
    {
        let mut current = terms;
        while let Terms::More(first, rest) = current {
            self.value(first)?;
            current = rest;
        }
        Ok(())
    }

    /// Whether a condition holds.
    pub fn holds(&self, test: &Test) -> Result<bool, Trap>
        requires framed { IsFrame self.now.names.now self.now.slots.items }
        requires below { IsTestBelow (length self.now.slots.items) test.now }
        ensures holds { let n = setting_in_slots N.numbers self.now.names.now self.now.slots.items in
            result_of result ≡ holds n (test_in self.now.names.now test.now) (store_in N.numbers self.now.names.now self.now.slots.items) }
    {
        match test {
            Test::Cmp(rel, a, b) => {
                let left = self.operand(a)?;
                let right = self.operand(b)?;
                Ok(compares(*rel, left.word(), right.word()))
            }
            Test::Not(c) => Ok(!self.holds(c)?),
            Test::And(c, d) => {
                let left = self.holds(c)?;
                let right = self.holds(d)?;
                Ok(left && right)
            }
            Test::Or(c, d) => {
                let left = self.holds(c)?;
                let right = self.holds(d)?;
                Ok(left || right)
            }
        }
    }

    /// The cell of a target: that of a scalar where there are no subscripts.
    pub fn target(&self, i: usize, subs: &Terms) -> Result<usize, Trap>
        requires framed { IsFrame self.now.names.now self.now.slots.items }
        requires there { i < length self.now.slots.items }
        requires below { AreTermsBelow (length self.now.slots.items) subs.now }
        ensures cell { let n = setting_in_slots N.numbers self.now.names.now self.now.slots.items in
            result_of result ≡ target n (var_at self.now.names.now i) (terms_in self.now.names.now subs.now) (store_in N.numbers self.now.names.now self.now.slots.items) }
        ensures within { IfOk result (λ j. (d : Slot N) → j < length (slice_index_or self.now.slots.items i d).cells.items) }
    {
        match subs {
            Terms::Empty => Ok(0),
            Terms::More(_, _) => self.cell(i, subs),
        }
    }

    /// Puts a number into a cell.
    pub fn set(&mut self, i: usize, cell: usize, number: N)
        requires framed { IsFrame self.old.names.now self.old.slots.items }
        requires there { i < length self.old.slots.items }
        requires within { (d : Slot N) → cell < length (slice_index_or self.old.slots.items i d).cells.items }
        ensures names { self.new.names.now ≡ self.old.names.now }
        ensures framed { IsFrame self.old.names.now self.new.slots.items }
        ensures sized { (j : ℕ) (d : Slot N) → length (slice_index_or self.new.slots.items j d).cells.items ≡ length (slice_index_or self.old.slots.items j d).cells.items }
        ensures counts { counts_in self.new.slots.items ≡ counts_in self.old.slots.items }
        ensures shown { (shape : Var → Shape) (s : Store N) → Shows N.numbers self.old.names.now self.old.slots.items shape s
            → Shows N.numbers self.old.names.now self.new.slots.items shape (set s (var_at self.old.names.now i) cell number) }
    {
        let slot = &mut self.slots[i];
        slot.cells[cell] = number;
    }

    /// Puts 0 into each cell of a variable.
    pub fn clear(&mut self, i: usize)
        requires framed { IsFrame self.old.names.now self.old.slots.items }
        requires there { i < length self.old.slots.items }
        ensures names { self.new.names.now ≡ self.old.names.now }
        ensures framed { IsFrame self.old.names.now self.new.slots.items }
        ensures counts { counts_in self.new.slots.items ≡ counts_in self.old.slots.items }
        ensures shown { (shape : Var → Shape) (s : Store N) → Shows N.numbers self.old.names.now self.old.slots.items shape s
            → Shows N.numbers self.old.names.now self.new.slots.items shape (set_all s (var_at self.old.names.now i) (λ j. zero_in N.numbers)) }
    {
        self.slots[i].clear();
    }
}

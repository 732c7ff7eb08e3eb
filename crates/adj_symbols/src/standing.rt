//! The names that stand in statements, in one list.

ghost use Rattle.std.specs.Prelude.{◌≡◌, ◌++◌, [], List, ℕ, map, flat_map, IfOk, OnOk, Some, None, if◌then◌else◌};
ghost use Rattle.adj_tree.specs.Code.{plain, none};
ghost use Rattle.adj_tree.specs.Listed.{statement_of};
ghost use Rattle.adj_tree.specs.View.{term_of, terms_of, test_of, runtime_of, mark_of, act_of};
ghost use Rattle.def_names.specs.Statements.{At};
ghost use Rattle.def_names.specs.Standing.{Standing, standing, whole, scalar, in_term, in_terms, in_place, in_test, in_actual, in_actuals, in_runtime, in_mark, in_act};
ghost use Rattle.def_names.specs.NameFaults.{runtime_as_call, taken_in, place_as_actual};
ghost use Rattle.adj_symbols_writes.specs.View.{seen};
ghost use Rattle.adj_symbols.specs.View.{stands_of, uses_of, at_line, taken_at};

use adj_tree::{Act, Cond, Expr, Exprs, Mark, Memory, Name, Place, RunCall, Stmt};
use std::alloc::Global;
use std::marker::Model;

/// How a name stands: as a scalar, with subscripts, or as a whole actual.
#[derive(Clone, Copy, Drop)]
pub(crate) enum Stands<'a> {
    Scalar,
    Element(&'a Exprs),
    Whole,
}

/// A name that stands in the statement of a line.
#[derive(Drop)]
pub(crate) struct Use<'a> {
    pub line: u32,
    pub name: &'a Name,
    pub stands: Stands<'a>,
}

/// Names in the order in which they stand, each with the line of its statement, seen as their list.
pub(crate) struct Uses<'a> {
    uses: Vec<Use<'a>>,
}

impl Drop for Uses<'_> {
    fn drop(self) {
        let Uses { uses: _uses } = self;
    }
}

impl<'a> Model for Uses<'a> {
    ghost Value = { List (At Standing) };

    ghost view = { λ u. uses_of u.uses.items };
}

impl<'a> Uses<'a> {
    /// None so far.
    pub(crate) fn new(alloc: Global) -> Uses<'a>
        ensures none { result ≡ [] }
    {
        Uses {
            uses: Vec::new(alloc),
        }
    }

    /// The names in order.
    pub(crate) fn as_slice(&self) -> &[Use<'a>]
        ensures uses { uses_of result.now ≡ self.now }
    {
        self.uses.as_slice()
    }

    fn add(&mut self, line: u32, name: &'a Name, stands: Stands<'a>) -> Result<(), Memory>
        ensures added { OnOk result (self.new ≡ self.old ++ at_line line (standing (stands_of stands.entry) (plain name.now))) }
    {
        self.uses.push(Use { line, name, stands })?;
        Ok(())
    }

    #[cycle(term)]
    fn add_term(&mut self, line: u32, term: &'a Expr) -> Result<(), Memory>
        ensures added { OnOk result (self.new ≡ self.old ++ at_line line (in_term (term_of term.now))) }
    {
        match term {
            Expr::Lit(_) => Ok(()),
            Expr::Var(name) => self.add(line, name, Stands::Scalar),
            Expr::Elem(name, subs) => {
                self.add(line, name, Stands::Element(subs))?;
                self.add_terms(line, subs)
            }
            Expr::Neg(a) | Expr::Pow(a, _) | Expr::Abs(a) => self.add_term(line, a),
            Expr::Bin(_, a, b) | Expr::Power(a, b) => {
                self.add_term(line, a)?;
                self.add_term(line, b)
            }
        }
    }

    #[cycle(term)]
    fn add_terms(&mut self, line: u32, terms: &'a Exprs) -> Result<(), Memory>
        ensures added { OnOk result (self.new ≡ self.old ++ at_line line (in_terms (terms_of terms.now))) }
    {
        let mut rest = terms;
        while let Exprs::More(first, next) = rest {
            self.add_term(line, first)?;
            rest = next;
        }
        Ok(())
    }

    // Two expressions.
    fn add_both(&mut self, line: u32, a: &'a Expr, b: &'a Expr) -> Result<(), Memory>
        ensures added { OnOk result (self.new ≡ self.old ++ at_line line (in_term (term_of a.now) ++ in_term (term_of b.now))) }
    {
        self.add_term(line, a)?;
        self.add_term(line, b)
    }

    // Three names that stand alike.
    fn add_alike(
        &mut self,
        line: u32,
        stands: Stands<'a>,
        a: &'a Name,
        b: &'a Name,
        c: &'a Name,
    ) -> Result<(), Memory>
        ensures added { OnOk result (self.new ≡ self.old ++ at_line line (standing (stands_of stands.entry) (plain a.now) ++ (standing (stands_of stands.entry) (plain b.now) ++ standing (stands_of stands.entry) (plain c.now)))) }
    {
        self.add(line, a, stands)?;
        self.add(line, b, stands)?;
        self.add(line, c, stands)
    }

    fn add_test(&mut self, line: u32, test: &'a Cond) -> Result<(), Memory>
        ensures added { OnOk result (self.new ≡ self.old ++ at_line line (in_test (test_of test.now))) }
    {
        match test {
            Cond::Cmp(_, a, b) => self.add_both(line, a, b),
            Cond::Not(c) => self.add_test(line, c),
            Cond::And(c, d) | Cond::Or(c, d) => {
                self.add_test(line, c)?;
                self.add_test(line, d)
            }
        }
    }

    // A name alone is an actual as a whole.
    fn add_actual(&mut self, line: u32, term: &'a Expr) -> Result<(), Memory>
        ensures added { OnOk result (self.new ≡ self.old ++ at_line line (in_actual (term_of term.now))) }
    {
        match term {
            Expr::Var(name) => self.add(line, name, Stands::Whole),
            _ => self.add_term(line, term),
        }
    }

    fn add_both_actuals(&mut self, line: u32, a: &'a Expr, b: &'a Expr) -> Result<(), Memory>
        ensures added { OnOk result (self.new ≡ self.old ++ at_line line (in_actual (term_of a.now) ++ in_actual (term_of b.now))) }
    {
        self.add_actual(line, a)?;
        self.add_actual(line, b)
    }

    fn add_actuals(&mut self, line: u32, terms: &'a Exprs) -> Result<(), Memory>
        ensures added { OnOk result (self.new ≡ self.old ++ at_line line (in_actuals (terms_of terms.now))) }
    {
        let mut rest = terms;
        while let Exprs::More(first, next) = rest {
            self.add_actual(line, first)?;
            rest = next;
        }
        Ok(())
    }

    fn add_place(&mut self, line: u32, place: &'a Place) -> Result<(), Memory>
        ensures added { OnOk result (self.new ≡ self.old ++ at_line line (in_place (plain place.now.name) (terms_of place.now.subs))) }
    {
        self.add(line, &place.name, Stands::Element(&place.subs))?;
        self.add_terms(line, &place.subs)
    }

    // A scalar's name is an actual as a whole.
    fn add_place_as_actual(&mut self, line: u32, place: &'a Place) -> Result<(), Memory>
        ensures added { OnOk result (self.new ≡ self.old ++ at_line line (place_as_actual (plain place.now.name) (terms_of place.now.subs))) }
    {
        match &place.subs {
            Exprs::Empty => self.add(line, &place.name, Stands::Whole),
            Exprs::More(_, _) => self.add_place(line, place),
        }
    }

    fn add_mark(&mut self, line: u32, mark: &'a Mark) -> Result<(), Memory>
        ensures added { OnOk result (self.new ≡ self.old ++ at_line line (in_mark (mark_of mark.now))) }
    {
        match mark {
            Mark::Plain | Mark::Count(_) => Ok(()),
            Mark::From(name) => self.add(line, name, Stands::Scalar),
        }
    }

    // The arguments of a runtime call, as it takes them.
    fn add_runtime(&mut self, line: u32, call: &'a RunCall) -> Result<(), Memory>
        ensures added { OnOk result (self.new ≡ self.old ++ at_line line (in_runtime (runtime_of call.now))) }
    {
        match call {
            RunCall::PushWord(place) | RunCall::PopWord(place) => self.add_place(line, place),
            RunCall::PushArray(name) | RunCall::PopArray(name) | RunCall::Zero(name) => {
                self.add(line, name, Stands::Whole)
            }
            RunCall::PushControl(e) => self.add_term(line, e),
            RunCall::PopControl(name) => self.add(line, name, Stands::Scalar),
            RunCall::Begin(l, s) => self.add_both(line, l, s),
            RunCall::Actions(l, s, n) => {
                self.add_both(line, l, s)?;
                self.add(line, n, Stands::Scalar)
            }
            RunCall::Action(l, s, k, a, f, t) => {
                self.add_bounds(line, l, s, k)?;
                self.add_alike(line, Stands::Scalar, a, f, t)
            }
            RunCall::End => Ok(()),
        }
    }

    // The arguments of a runtime call, as those of a CALL of a unit.
    fn add_runtime_as_call(&mut self, line: u32, call: &'a RunCall) -> Result<(), Memory>
        ensures added { OnOk result (self.new ≡ self.old ++ at_line line (runtime_as_call (runtime_of call.now))) }
    {
        match call {
            RunCall::PushWord(place) | RunCall::PopWord(place) => {
                self.add_place_as_actual(line, place)
            }
            RunCall::PushArray(name)
            | RunCall::PopArray(name)
            | RunCall::Zero(name)
            | RunCall::PopControl(name) => self.add(line, name, Stands::Whole),
            RunCall::PushControl(e) => self.add_actual(line, e),
            RunCall::Begin(l, s) => self.add_both_actuals(line, l, s),
            RunCall::Actions(l, s, n) => {
                self.add_both_actuals(line, l, s)?;
                self.add(line, n, Stands::Whole)
            }
            RunCall::Action(l, s, k, a, f, t) => {
                self.add_both_actuals(line, l, s)?;
                self.add_actual(line, k)?;
                self.add_alike(line, Stands::Whole, a, f, t)
            }
            RunCall::End => Ok(()),
        }
    }

    // Three expressions: the bounds of a DO, behind its mark and its variable, or the first of a runtime call's arguments.
    fn add_bounds(
        &mut self,
        line: u32,
        first: &'a Expr,
        last: &'a Expr,
        by: &'a Expr,
    ) -> Result<(), Memory>
        ensures added { OnOk result (self.new ≡ self.old ++ at_line line (in_term (term_of first.now) ++ (in_term (term_of last.now) ++ in_term (term_of by.now)))) }
    {
        self.add_term(line, first)?;
        self.add_both(line, last, by)
    }

    /// The names in a statement itself, without those in it.
    pub(crate) fn add_statement(
        &mut self,
        takes_runtime: bool,
        stmt: &'a Stmt,
    ) -> Result<(), Memory>
        ensures added { OnOk result (self.new ≡ self.old ++ at_line stmt.now.line (taken_in takes_runtime (act_of stmt.now.act))) }
    {
        let line = stmt.line;
        match &stmt.act {
            Act::Assign(place, e) => {
                self.add_place(line, place)?;
                self.add_term(line, e)
            }
            Act::If(test, _, _) | Act::While(test, _) => self.add_test(line, test),
            Act::Loop(name, first, last, by, _, mark) => {
                self.add_mark(line, mark)?;
                self.add(line, name, Stands::Scalar)?;
                self.add_bounds(line, first, last, by)
            }
            Act::Call(_, actuals) => self.add_actuals(line, actuals),
            Act::Run(call) if takes_runtime => self.add_runtime(line, call),
            Act::Run(call) => self.add_runtime_as_call(line, call),
        }
    }
}

/// The names in statements, each by itself, in order.
pub(crate) fn names_in<'a>(
    alloc: Global,
    takes_runtime: bool,
    stmts: &[&'a Stmt],
) -> Result<Uses<'a>, Memory>
    ensures { IfOk result (λ u. u ≡ taken_at takes_runtime (seen stmts.now)) }
{
    let mut uses = Uses::new(alloc);
    for stmt in stmts {
        uses.add_statement(takes_runtime, stmt)?;
    }
    Ok(uses)
}

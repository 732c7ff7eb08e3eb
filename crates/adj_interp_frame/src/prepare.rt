//! Trees with numbers for their variables. Lists are gone through by loops.

ghost use Rattle.std.specs.Prelude.{◌≡◌, IfOk, OnOk, map};
ghost use Rattle.adj_tree.specs.View.{term_of, terms_of, test_of, runtime_of, mark_of, act_of, code_of, procedure_of};
ghost use Rattle.adj_tree.specs.Code.{plain};
ghost use Rattle.adj_interp_frame.specs.Prepared.{var_at, term_in, terms_in, test_in, IsTermBelow, AreTermsBelow, IsTestBelow};
ghost use Rattle.adj_interp_frame.specs.Instructed.{service_in, marking_in, task_in, steps_in, IsNumberBelow, IsServiceBelow, IsMarkingBelow, IsTaskBelow, AreStepsBelow};
ghost use Rattle.adj_interp_frame.specs.Linked.{IsTaskLinked, AreLinked};
ghost use Rattle.adj_interp_frame.specs.Listed.{IsDirectory};
ghost use Rattle.adj_interp_frame.specs.Numbered.{Extends, Resolves};

use crate::directory::Directory;
use crate::numbering::Numbering;
use crate::step::{Bounds, Cell, Marking, Service, Step, Steps, Task};
use crate::term::{Term, Terms, Test};
use adj_tree::{Act, Cond, Expr, Exprs, Mark, Memory, Name, Place, RunCall, Stmt, Stmts, boxed};
use std::alloc::Global;

impl<'a> Numbering<'a> {
    // A variable.
    fn variable(&mut self, name: &'a Name) -> Result<usize, Memory>
        ensures extends { OnOk result (Extends self.old self.new) }
        ensures resolves { IfOk result (λ i. Resolves var_at IsNumberBelow self.new i (plain name.now)) }
    {
        self.number(name)
    }

    /// An expression.
    #[cycle(prepare_term)]
    pub fn term(&mut self, alloc: Global, expr: &'a Expr) -> Result<Term, Memory>
        ensures extends { OnOk result (Extends self.old self.new) }
        ensures resolves { IfOk result (λ e. Resolves term_in IsTermBelow self.new e (term_of expr.now)) }
    {
        match expr {
            Expr::Lit(n) => Ok(Term::Lit(*n)),
            Expr::Var(x) => {
                let variable = self.variable(x)?;
                Ok(Term::Var(variable))
            }
            Expr::Elem(x, subs) => {
                let variable = self.variable(x)?;
                let subs = self.terms(alloc, subs)?;
                Ok(Term::Elem(variable, subs))
            }
            Expr::Neg(a) => {
                let operand = self.operand(alloc, a)?;
                Ok(Term::Neg(operand))
            }
            Expr::Bin(op, a, b) => {
                let (left, right) = self.operands(alloc, a, b)?;
                Ok(Term::Bin(*op, left, right))
            }
            Expr::Pow(a, k) => {
                let operand = self.operand(alloc, a)?;
                Ok(Term::Pow(operand, *k))
            }
            Expr::Power(a, b) => {
                let (base, power) = self.operands(alloc, a, b)?;
                Ok(Term::Power(base, power))
            }
            Expr::Abs(a) => {
                let operand = self.operand(alloc, a)?;
                Ok(Term::Abs(operand))
            }
        }
    }

    // An expression on the heap.
    #[cycle(prepare_term)]
    fn operand(&mut self, alloc: Global, expr: &'a Expr) -> Result<Box<Term>, Memory>
        ensures extends { OnOk result (Extends self.old self.new) }
        ensures resolves { IfOk result (λ e. Resolves term_in IsTermBelow self.new e.value (term_of expr.now)) }
    {
        let term = self.term(alloc, expr)?;
        let operand = boxed(alloc, term)?;
        Ok(operand)
    }

    // Two expressions on the heap.
    #[cycle(prepare_term)]
    fn operands(
        &mut self,
        alloc: Global,
        a: &'a Expr,
        b: &'a Expr,
    ) -> Result<(Box<Term>, Box<Term>), Memory>
        ensures extends { OnOk result (Extends self.old self.new) }
        ensures first { IfOk result (λ p. Resolves term_in IsTermBelow self.new p.0.value (term_of a.now)) }
        ensures second { IfOk result (λ p. Resolves term_in IsTermBelow self.new p.1.value (term_of b.now)) }
    {
        let left = self.operand(alloc, a)?;
        let right = self.operand(alloc, b)?;
        Ok((left, right))
    }

    // Two expressions.
    fn two(&mut self, alloc: Global, a: &'a Expr, b: &'a Expr) -> Result<(Term, Term), Memory>
        ensures extends { OnOk result (Extends self.old self.new) }
        ensures first { IfOk result (λ p. Resolves term_in IsTermBelow self.new p.0 (term_of a.now)) }
        ensures second { IfOk result (λ p. Resolves term_in IsTermBelow self.new p.1 (term_of b.now)) }
    {
        let first = self.term(alloc, a)?;
        let second = self.term(alloc, b)?;
        Ok((first, second))
    }

    // Three expressions.
    fn three(
        &mut self,
        alloc: Global,
        a: &'a Expr,
        b: &'a Expr,
        c: &'a Expr,
    ) -> Result<(Term, Term, Term), Memory>
        ensures extends { OnOk result (Extends self.old self.new) }
        ensures first { IfOk result (λ p. Resolves term_in IsTermBelow self.new p.0 (term_of a.now)) }
        ensures second { IfOk result (λ p. Resolves term_in IsTermBelow self.new p.1 (term_of b.now)) }
        ensures third { IfOk result (λ p. Resolves term_in IsTermBelow self.new p.2 (term_of c.now)) }
    {
        let first = self.term(alloc, a)?;
        let (second, third) = self.two(alloc, b, c)?;
        Ok((first, second, third))
    }

    /// Expressions in order.
    #[cycle(prepare_term)]
    pub fn terms(&mut self, alloc: Global, exprs: &'a Exprs) -> Result<Terms, Memory>
        ensures extends { OnOk result (Extends self.old self.new) }
        ensures resolves { IfOk result (λ es. Resolves terms_in AreTermsBelow self.new es (terms_of exprs.now)) }
    {
        let mut made = Terms::Empty;
        let mut current = exprs;
        while let Exprs::More(first, rest) = current {
            let term = self.term(alloc, first)?;
            made = Terms::More(boxed(alloc, term)?, boxed(alloc, made)?);
            current = rest;
        }
        let all = made.turned();
        Ok(all)
    }

    /// A condition.
    #[cycle(prepare_test)]
    pub fn test(&mut self, alloc: Global, cond: &'a Cond) -> Result<Test, Memory>
        ensures extends { OnOk result (Extends self.old self.new) }
        ensures resolves { IfOk result (λ t. Resolves test_in IsTestBelow self.new t (test_of cond.now)) }
    {
        match cond {
            Cond::Cmp(rel, a, b) => {
                let (left, right) = self.operands(alloc, a, b)?;
                Ok(Test::Cmp(*rel, left, right))
            }
            Cond::Not(c) => {
                let operand = self.part(alloc, c)?;
                Ok(Test::Not(operand))
            }
            Cond::And(c, d) => {
                let (left, right) = self.parts(alloc, c, d)?;
                Ok(Test::And(left, right))
            }
            Cond::Or(c, d) => {
                let (left, right) = self.parts(alloc, c, d)?;
                Ok(Test::Or(left, right))
            }
        }
    }

    // A condition on the heap.
    #[cycle(prepare_test)]
    fn part(&mut self, alloc: Global, cond: &'a Cond) -> Result<Box<Test>, Memory>
        ensures extends { OnOk result (Extends self.old self.new) }
        ensures resolves { IfOk result (λ t. Resolves test_in IsTestBelow self.new t.value (test_of cond.now)) }
    {
        let test = self.test(alloc, cond)?;
        let part = boxed(alloc, test)?;
        Ok(part)
    }

    // Two conditions on the heap.
    #[cycle(prepare_test)]
    fn parts(
        &mut self,
        alloc: Global,
        c: &'a Cond,
        d: &'a Cond,
    ) -> Result<(Box<Test>, Box<Test>), Memory>
        ensures extends { OnOk result (Extends self.old self.new) }
        ensures first { IfOk result (λ p. Resolves test_in IsTestBelow self.new p.0.value (test_of c.now)) }
        ensures second { IfOk result (λ p. Resolves test_in IsTestBelow self.new p.1.value (test_of d.now)) }
    {
        let left = self.part(alloc, c)?;
        let right = self.part(alloc, d)?;
        Ok((left, right))
    }

    // A scalar or an element.
    fn cell(&mut self, alloc: Global, place: &'a Place) -> Result<Cell, Memory>
        ensures extends { OnOk result (Extends self.old self.new) }
        ensures variable { IfOk result (λ c. Resolves var_at IsNumberBelow self.new c.variable (plain place.now.name)) }
        ensures subs { IfOk result (λ c. Resolves terms_in AreTermsBelow self.new c.subs (terms_of place.now.subs)) }
    {
        let variable = self.variable(&place.name)?;
        let subs = self.terms(alloc, &place.subs)?;
        Ok(Cell { variable, subs })
    }

    // A mark of a DO.
    fn marking(&mut self, mark: &'a Mark) -> Result<Marking, Memory>
        ensures extends { OnOk result (Extends self.old self.new) }
        ensures resolves { IfOk result (λ m. Resolves marking_in IsMarkingBelow self.new m (mark_of mark.now)) }
    {
        match mark {
            Mark::Plain => Ok(Marking::Plain),
            Mark::Count(n) => Ok(Marking::Count(*n)),
            Mark::From(x) => Ok(Marking::From(self.variable(x)?)),
        }
    }

    // A call of the runtime.
    fn service(&mut self, alloc: Global, call: &'a RunCall) -> Result<Service, Memory>
        ensures extends { OnOk result (Extends self.old self.new) }
        ensures resolves { IfOk result (λ r. Resolves service_in IsServiceBelow self.new r (runtime_of call.now)) }
    {
        match call {
            RunCall::PushWord(place) => Ok(Service::PushWord(self.cell(alloc, place)?)),
            RunCall::PopWord(place) => Ok(Service::PopWord(self.cell(alloc, place)?)),
            RunCall::PushArray(x) => Ok(Service::PushArray(self.variable(x)?)),
            RunCall::PopArray(x) => Ok(Service::PopArray(self.variable(x)?)),
            RunCall::PushControl(e) => Ok(Service::PushControl(self.term(alloc, e)?)),
            RunCall::PopControl(x) => Ok(Service::PopControl(self.variable(x)?)),
            RunCall::Zero(x) => Ok(Service::Zero(self.variable(x)?)),
            RunCall::Begin(l, s) => {
                let (steps, snapshots) = self.two(alloc, l, s)?;
                Ok(Service::Begin(steps, snapshots))
            }
            RunCall::Actions(l, s, n) => {
                let variable = self.variable(n)?;
                let (steps, snapshots) = self.two(alloc, l, s)?;
                Ok(Service::Actions(steps, snapshots, variable))
            }
            RunCall::Action(l, s, k, a, f, t) => {
                let kind = self.variable(a)?;
                let lower = self.variable(f)?;
                let upper = self.variable(t)?;
                let (steps, snapshots, number) = self.three(alloc, l, s, k)?;
                Ok(Service::Action(steps, snapshots, number, kind, lower, upper))
            }
            RunCall::End => Ok(Service::End),
        }
    }

    // What a statement does.
    #[cycle(prepare_steps)]
    fn task(
        &mut self,
        alloc: Global,
        units: &mut Directory<'a>,
        act: &'a Act,
    ) -> Result<Task, Memory>
        requires { IsDirectory units.old }
        ensures extends { OnOk result (Extends self.old self.new) }
        ensures units { units.new.units.now ≡ units.old.units.now }
        ensures directory { OnOk result (IsDirectory units.new) }
        ensures linked { IfOk result (λ t. IsTaskLinked (map procedure_of units.old.units.now) t) }
        ensures resolves { IfOk result (λ t. Resolves task_in IsTaskBelow self.new t (act_of act.now)) }
    {
        match act {
            Act::Assign(place, e) => {
                let cell = self.cell(alloc, place)?;
                let value = self.term(alloc, e)?;
                Ok(Task::Assign(cell, value))
            }
            Act::If(c, a, b) => {
                let first = self.steps(alloc, units, a)?;
                let second = self.steps(alloc, units, b)?;
                let test = self.test(alloc, c)?;
                Ok(Task::If(test, first, second))
            }
            Act::Loop(x, a, b, c, body, mark) => {
                let variable = self.variable(x)?;
                let marking = self.marking(mark)?;
                let inner = self.steps(alloc, units, body)?;
                let (first, last, by) = self.three(alloc, a, b, c)?;
                let bounds = Bounds { first, last, by };
                Ok(Task::Loop(variable, bounds, inner, marking))
            }
            Act::While(c, body) => {
                let inner = self.steps(alloc, units, body)?;
                let test = self.test(alloc, c)?;
                Ok(Task::While(test, inner))
            }
            Act::Call(name, actuals) => {
                let number = units.number(name)?;
                let terms = self.terms(alloc, actuals)?;
                let unit = name.copy(alloc)?;
                Ok(Task::Call(number, unit, terms))
            }
            Act::Run(call) => Ok(Task::Run(self.service(alloc, call)?)),
        }
    }

    // A statement on the heap.
    #[cycle(prepare_steps)]
    fn step(
        &mut self,
        alloc: Global,
        units: &mut Directory<'a>,
        stmt: &'a Stmt,
    ) -> Result<Box<Step>, Memory>
        requires { IsDirectory units.old }
        ensures extends { OnOk result (Extends self.old self.new) }
        ensures units { units.new.units.now ≡ units.old.units.now }
        ensures directory { OnOk result (IsDirectory units.new) }
        ensures linked { IfOk result (λ s. IsTaskLinked (map procedure_of units.old.units.now) s.value.task) }
        ensures line { IfOk result (λ s. s.value.line ≡ stmt.now.line) }
        ensures resolves { IfOk result (λ s. Resolves task_in IsTaskBelow self.new s.value.task (act_of stmt.now.act)) }
    {
        let task = self.task(alloc, units, &stmt.act)?;
        let step = Step {
            line: stmt.line,
            task,
        };
        let made = boxed(alloc, step)?;
        Ok(made)
    }

    /// Statements in order.
    #[cycle(prepare_steps)]
    pub fn steps(
        &mut self,
        alloc: Global,
        units: &mut Directory<'a>,
        stmts: &'a Stmts,
    ) -> Result<Steps, Memory>
        requires { IsDirectory units.old }
        ensures extends { OnOk result (Extends self.old self.new) }
        ensures units { units.new.units.now ≡ units.old.units.now }
        ensures directory { OnOk result (IsDirectory units.new) }
        ensures linked { IfOk result (λ all. AreLinked (map procedure_of units.old.units.now) all) }
        ensures resolves { IfOk result (λ all. Resolves steps_in AreStepsBelow self.new all (code_of stmts.now)) }
    {
        let mut made = Steps::Empty;
        let mut current = stmts;
        while let Stmts::More(row) = current {
            let step = self.step(alloc, units, &row.first)?;
            made = Steps::More(step, boxed(alloc, made)?);
            current = &row.rest;
        }
        let all = made.turned();
        Ok(all)
    }
}

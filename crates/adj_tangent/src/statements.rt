//! The tangents of statements (docs/EMITTED.md, "Tangents"). Lists are gone through by loops.

ghost use Rattle.std.specs.Prelude.{◌≡◌, ◌∷◌, [], ℕ, List, pos, IfOk, OnOk};
ghost use Rattle.adj_tree.specs.Code.{Code, shadow, lit, none, assign, call, runtime, zero_array, step};
ghost use Rattle.adj_tree.specs.Listed.{steps_onto};
ghost use Rattle.adj_tree.specs.View.{terms_of, act_of, code_of};
ghost use Rattle.def_meaning.specs.Apart.{is_named};
ghost use Rattle.def_meaning.specs.Append.{◌+++◌, one};
ghost use Rattle.def_meaning.specs.Rename.{rename};
ghost use Rattle.def_sweep.specs.Plan.{names_of};
ghost use Rattle.def_tangent.specs.Forward.{Callee, before_act, tangent_act, tangents};
ghost use Rattle.def_tangent.specs.Program.{cleared};
ghost use Rattle.adj_sweep_assignment.specs.Behind.{AreBehind};
ghost use Rattle.adj_tangent.specs.Plans.{naming_in, plan_of, all_with_tangents, KnowsAll};

use crate::assignments::before_assignment;
use crate::plan::{Callee as Called, Plan};
use adj_sets::NameSet;
use adj_sweep_assignment::step::{all_before, scalar_assignment};
use adj_tree::{Act, Expr, Exprs, Memory, Name, RunCall, Stmt, Stmts};
use std::alloc::Global;

// A statement as it is.
fn push_copy(alloc: Global, stmt: &Stmt, steps: &mut Vec<Stmt>) -> Result<(), Memory>
    ensures steps { OnOk result ((rest : Code) → steps_onto steps.new.items rest ≡ steps_onto steps.old.items (step stmt.now.line (act_of stmt.now.act) rest)) }
{
    let copied = stmt.copy(alloc)?;
    steps.push(copied)?;
    Ok(())
}

impl<'a> Plan<'a> {
    // The tangent of a scalar becomes 0.
    fn clear_scalar(
        &self,
        alloc: Global,
        line: u32,
        x: &Name,
        steps: &mut Vec<Stmt>,
    ) -> Result<(), Memory>
        ensures steps { OnOk result (AreBehind (rename (naming_in self.now) (one line (assign (shadow x.now) none (lit (pos 0))))) steps.old.items steps.new.items) }
    {
        let name = self.names.shadow(alloc, x)?;
        steps.push(scalar_assignment(line, name, Expr::Lit(0)))?;
        Ok(())
    }

    // The tangent of an array becomes 0.
    fn clear_array(
        &self,
        alloc: Global,
        line: u32,
        x: &Name,
        steps: &mut Vec<Stmt>,
    ) -> Result<(), Memory>
        ensures steps { OnOk result (AreBehind (rename (naming_in self.now) (one line (runtime (zero_array (shadow x.now))))) steps.old.items steps.new.items) }
    {
        let name = self.names.shadow(alloc, x)?;
        let act = Act::Run(RunCall::Zero(name));
        steps.push(Stmt { line, act })?;
        Ok(())
    }

    // The tangent of a variable becomes 0, of an array whole.
    fn clear(
        &self,
        alloc: Global,
        arrays: &NameSet,
        line: u32,
        x: &Name,
        steps: &mut Vec<Stmt>,
    ) -> Result<(), Memory>
        ensures steps { OnOk result (AreBehind (rename (naming_in self.now) (cleared (is_named arrays.now) line (x.now ∷ []))) steps.old.items steps.new.items) }
    {
        if arrays.has(x.bytes()) {
            let made = self.clear_array(alloc, line, x, steps)?;
            return Ok(made);
        }
        let made = self.clear_scalar(alloc, line, x, steps)?;
        Ok(made)
    }

    // The tangents of variables become 0 in order.
    fn clear_all(
        &self,
        alloc: Global,
        arrays: &NameSet,
        line: u32,
        names: &[Name],
        steps: &mut Vec<Stmt>,
    ) -> Result<(), Memory>
        ensures steps { OnOk result (AreBehind (rename (naming_in self.now) (cleared (is_named arrays.now) line names.now)) steps.old.items steps.new.items) }
    {
        for x in names {
            self.clear(alloc, arrays, line, x, steps)?;
        }
        Ok(())
    }

    // What stands before a statement.
    fn push_before(&self, alloc: Global, stmt: &Stmt, steps: &mut Vec<Stmt>) -> Result<(), Memory>
        ensures steps { OnOk result ((callees : List ℕ → Callee) → AreBehind (rename (naming_in self.now) (before_act (plan_of self.now callees) stmt.now.line (act_of stmt.now.act))) steps.old.items steps.new.items) }
    {
        match &stmt.act {
            Act::Assign(target, e) => {
                if !self.carries(&target.name) {
                    return Ok(());
                }
                let site = self.site(stmt.line);
                let made = before_assignment(&site, alloc, target, e, steps)?;
                Ok(made)
            }
            Act::Loop(x, _, _, _, _, _) => {
                if !self.carries(x) {
                    return Ok(());
                }
                let made = self.clear_scalar(alloc, stmt.line, x, steps)?;
                Ok(made)
            }
            Act::If(_, _, _) | Act::While(_, _) | Act::Call(_, _) | Act::Run(_) => Ok(()),
        }
    }

    // A call of the tangent of a unit.
    fn call_tangent(
        &self,
        alloc: Global,
        line: u32,
        callee: &Called,
        actuals: &Exprs,
        steps: &mut Vec<Stmt>,
    ) -> Result<(), Memory>
        ensures steps { OnOk result (AreBehind (rename (naming_in self.now) (one line (call callee.now.tangent (all_with_tangents callee.now.carried (names_of (terms_of actuals.now)))))) steps.old.items steps.new.items) }
    {
        let given = self.with_tangents(alloc, callee.carried.as_slice(), actuals)?;
        let name = callee.tangent.copy(alloc)?;
        let act = Act::Call(name, given);
        steps.push(Stmt { line, act })?;
        Ok(())
    }

    // A call as it is.
    fn call_kept(
        &self,
        alloc: Global,
        line: u32,
        name: &Name,
        actuals: &Exprs,
        steps: &mut Vec<Stmt>,
    ) -> Result<(), Memory>
        ensures steps { OnOk result (AreBehind (rename (naming_in self.now) (one line (call name.now (terms_of actuals.now)))) steps.old.items steps.new.items) }
    {
        let given = actuals.copy(alloc)?;
        let copied = name.copy(alloc)?;
        let act = Act::Call(copied, given);
        steps.push(Stmt { line, act })?;
        Ok(())
    }

    // A call: of the unit's tangent where one of its dummies carries one, or as it is.
    fn push_call(
        &self,
        alloc: Global,
        line: u32,
        name: &Name,
        actuals: &Exprs,
        steps: &mut Vec<Stmt>,
    ) -> Result<(), Memory>
        ensures steps { OnOk result ((callees : List ℕ → Callee) → KnowsAll self.now.callees.now callees → AreBehind (rename (naming_in self.now) (one line (tangent_act (plan_of self.now callees) (call name.now (terms_of actuals.now))))) steps.old.items steps.new.items) }
    {
        match self.callees.taking(name) {
            Some(callee) => {
                let made = self.call_tangent(alloc, line, callee, actuals, steps)?;
                Ok(made)
            }
            None => {
                let made = self.call_kept(alloc, line, name, actuals, steps)?;
                Ok(made)
            }
        }
    }

    // The statement itself, with the tangents of its bodies.
    #[cycle(tangents)]
    fn push_act(&self, alloc: Global, stmt: &Stmt, steps: &mut Vec<Stmt>) -> Result<(), Memory>
        ensures steps { OnOk result ((callees : List ℕ → Callee) → KnowsAll self.now.callees.now callees → AreBehind (rename (naming_in self.now) (one stmt.now.line (tangent_act (plan_of self.now callees) (act_of stmt.now.act)))) steps.old.items steps.new.items) }
    {
        let line = stmt.line;
        match &stmt.act {
            Act::If(c, a, b) => {
                let first = self.list(alloc, a)?;
                let second = self.list(alloc, b)?;
                let test = c.copy(alloc)?;
                let act = Act::If(test, first, second);
                steps.push(Stmt { line, act })?;
                Ok(())
            }
            Act::Loop(x, first, last, by, body, mark) => {
                let inner = self.list(alloc, body)?;
                let variable = x.copy(alloc)?;
                let from = first.copy_boxed(alloc)?;
                let to = last.copy_boxed(alloc)?;
                let stride = by.copy_boxed(alloc)?;
                let marked = mark.copy_boxed(alloc)?;
                let act = Act::Loop(variable, from, to, stride, inner, marked);
                steps.push(Stmt { line, act })?;
                Ok(())
            }
            Act::While(c, body) => {
                let inner = self.list(alloc, body)?;
                let test = c.copy(alloc)?;
                let act = Act::While(test, inner);
                steps.push(Stmt { line, act })?;
                Ok(())
            }
            Act::Call(name, actuals) => {
                let made = self.push_call(alloc, line, name, actuals, steps)?;
                Ok(made)
            }
            Act::Assign(_, _) | Act::Run(_) => {
                let made = push_copy(alloc, stmt, steps)?;
                Ok(made)
            }
        }
    }

    // What stands before a statement, and the statement itself.
    #[cycle(tangents)]
    fn push_statement(
        &self,
        alloc: Global,
        stmt: &Stmt,
        steps: &mut Vec<Stmt>,
    ) -> Result<(), Memory>
        ensures steps { OnOk result ((callees : List ℕ → Callee) → KnowsAll self.now.callees.now callees → AreBehind (rename (naming_in self.now) (before_act (plan_of self.now callees) stmt.now.line (act_of stmt.now.act) +++ one stmt.now.line (tangent_act (plan_of self.now callees) (act_of stmt.now.act)))) steps.old.items steps.new.items) }
    {
        self.push_before(alloc, stmt, steps)?;
        self.push_act(alloc, stmt, steps)?;
        Ok(())
    }

    // The tangents of a list, behind other statements.
    #[cycle(tangents)]
    fn push_list(&self, alloc: Global, list: &Stmts, steps: &mut Vec<Stmt>) -> Result<(), Memory>
        ensures steps { OnOk result ((callees : List ℕ → Callee) → KnowsAll self.now.callees.now callees → AreBehind (rename (naming_in self.now) (tangents (plan_of self.now callees) (code_of list.now))) steps.old.items steps.new.items) }
    {
        let mut current = list;
        while let Stmts::More(row) = current {
            self.push_statement(alloc, &row.first, steps)?;
            current = &row.rest;
        }
        Ok(())
    }

    // The tangents of a list.
    #[cycle(tangents)]
    fn list(&self, alloc: Global, list: &Stmts) -> Result<Stmts, Memory>
        ensures tangents { IfOk result (λ c. (callees : List ℕ → Callee) → KnowsAll self.now.callees.now callees → code_of c ≡ rename (naming_in self.now) (tangents (plan_of self.now callees) (code_of list.now))) }
    {
        let mut steps = Vec::new(alloc);
        self.push_list(alloc, list, &mut steps)?;
        let made = all_before(alloc, steps, Stmts::Empty)?;
        Ok(made)
    }

    /// The body of the tangent of a unit: the tangents that are cleared first, of which the set tells which are arrays, and then the
    /// tangents of the unit's statements.
    pub fn body(
        &self,
        alloc: Global,
        arrays: &NameSet,
        line: u32,
        at_first: &[Name],
        statements: &Stmts,
    ) -> Result<Stmts, Memory>
        ensures body { IfOk result (λ c. (callees : List ℕ → Callee) → KnowsAll self.now.callees.now callees → code_of c ≡ rename (naming_in self.now) (cleared (is_named arrays.now) line at_first.now +++ tangents (plan_of self.now callees) (code_of statements.now))) }
    {
        let mut steps = Vec::new(alloc);
        self.clear_all(alloc, arrays, line, at_first, &mut steps)?;
        self.push_list(alloc, statements, &mut steps)?;
        let made = all_before(alloc, steps, Stmts::Empty)?;
        Ok(made)
    }
}

//! The actuals of calls, and the groups of them that are pushed (docs/EMITTED.md, "Sweeps").

ghost use Rattle.std.specs.Prelude.{◌≡◌, ◌++◌, ◌∷◌, [], ℕ, List, map, length, slice_get, IfOk, OnOk, if◌then◌else◌};
ghost use Rattle.adj_tree.specs.Code.{Terms, more, none, plain, call, push_word, push_array, pop_word, pop_array, step};
ghost use Rattle.adj_tree.specs.Listed.{terms_onto};
ghost use Rattle.adj_tree.specs.View.{term_of, terms_of, runtime_of, code_of};
ghost use Rattle.def_meaning.specs.Append.{◌+++◌};
ghost use Rattle.def_meaning.specs.Rename.{rename_terms};
ghost use Rattle.def_meaning.specs.Apart.{has_name};
ghost use Rattle.def_sweep.specs.Plan.{Callee, names_of};
ghost use Rattle.def_sweep.specs.Rows.{pushes, pops};
ghost use Rattle.adj_sweep_assignment.specs.View.{marks_of};
ghost use Rattle.adj_sweep.specs.Actuals.{paired, with_pair, is_in, chosen, with_shadow, all_with_shadows};
ghost use Rattle.adj_sweep.specs.Plans.{naming_in, plan_of};
ghost use Rattle.adj_sweep.specs.Swept.{in_order};

use crate::callees::Dummy;
use crate::plan::Plan;
use adj_sweep_assignment::step::before;
use adj_tree::{Act, Expr, Exprs, Memory, Name, Place, RunCall, Stmt, Stmts};
use std::alloc::Global;

/// An actual of a call, which is a name, and its dummy.
#[derive(Drop)]
pub struct Actual {
    pub name: Name,
    pub dummy: Dummy,
}

/// Actuals that are pushed before a call.
#[derive(Clone, Copy, PartialEq, Eq, Debug)]
pub enum Group {
    /// Those that are saved and that the call writes.
    Save,
    /// Those that the call writes and the unit's adjoint needs at its entry.
    Snapshot,
    /// Those that the call writes and the unit reads or its adjoint needs at its entry.
    Step,
}

// Adds an actual that is a name.
fn push_name(alloc: Global, e: &Expr, made: &mut Vec<Name>) -> Result<(), Memory>
    ensures pushed { OnOk result (made.new.items ≡ made.old.items ++ names_of (more (term_of e.now) none)) }
{
    if let Expr::Var(name) = e {
        made.push(name.copy(alloc)?)?;
    }
    Ok(())
}

/// The names among some actuals.
pub fn names_of(alloc: Global, actuals: &Exprs) -> Result<Vec<Name>, Memory>
    ensures names { IfOk result (λ v. v.items ≡ names_of (terms_of actuals.now)) }
{
    let mut made = Vec::new(alloc);
    let mut current = actuals;
    while let Exprs::More(first, rest) = current {
        push_name(alloc, first, &mut made)?;
        current = rest;
    }
    Ok(made)
}

/// A call, and then the rest.
pub fn call_before(
    alloc: Global,
    line: u32,
    name: &Name,
    actuals: Exprs,
    rest: Stmts,
) -> Result<Stmts, Memory>
    ensures step { IfOk result (λ c. code_of c ≡ step line (call name.now (terms_of actuals)) (code_of rest)) }
{
    let act = Act::Call(name.copy(alloc)?, actuals);
    let code = before(alloc, Stmt { line, act }, rest)?;
    Ok(code)
}

// Adds a name, where there is a dummy for it.
fn push_pair(
    alloc: Global,
    dummies: &[Dummy],
    name: &Name,
    made: &mut Vec<Actual>,
) -> Result<(), Memory>
    ensures pushed { OnOk result (made.new.items ≡ with_pair (slice_get dummies.now (length made.old.items)) name.now made.old.items) }
{
    match dummies.get(made.len()) {
        Some(dummy) => {
            let name = name.copy(alloc)?;
            made.push(Actual {
                name,
                dummy: *dummy,
            })?;
            Ok(())
        }
        None => Ok(()),
    }
}

/// Dummies and the names that are given for them.
pub fn paired(alloc: Global, dummies: &[Dummy], given: &[Name]) -> Result<Vec<Actual>, Memory>
    ensures paired { IfOk result (λ v. v.items ≡ paired dummies.now given.now) }
{
    let mut made = Vec::new(alloc);
    for name in given {
        push_pair(alloc, dummies, name, &mut made)?;
    }
    Ok(made)
}

/// The actuals of a call of a unit with these dummies.
pub fn actuals_of(alloc: Global, dummies: &[Dummy], actuals: &Exprs) -> Result<Vec<Actual>, Memory>
    ensures actuals { IfOk result (λ v. v.items ≡ paired dummies.now (names_of (terms_of actuals.now))) }
{
    let given = names_of(alloc, actuals)?;
    paired(alloc, dummies, given.as_slice())
}

impl<'a> Plan<'a> {
    // Whether an actual is in a group.
    fn is_in(&self, group: Group, number: usize, actual: &Actual) -> bool
        ensures member { result ≡ is_in ((marks_of self.now.marks.now).saved number) group actual.now }
    {
        match group {
            Group::Save => actual.dummy.written && self.marks.saved(number, &actual.name),
            Group::Snapshot => actual.dummy.written && actual.dummy.member,
            Group::Step => actual.dummy.written && (actual.dummy.member || actual.dummy.read),
        }
    }

    /// The call that pushes a variable, an array whole.
    pub(crate) fn push_of(&self, name: Name) -> RunCall
        ensures call { runtime_of result ≡ (if has_name name self.now.arrays.now then push_array (plain name) else push_word (plain name) none) }
    {
        if self.arrays.has(name.bytes()) {
            return RunCall::PushArray(name);
        }
        let subs = Exprs::Empty;
        RunCall::PushWord(Place { name, subs })
    }

    /// The call that pops a variable, an array whole.
    pub(crate) fn pop_of(&self, name: Name) -> RunCall
        ensures call { runtime_of result ≡ (if has_name name self.now.arrays.now then pop_array (plain name) else pop_word (plain name) none) }
    {
        if self.arrays.has(name.bytes()) {
            return RunCall::PopArray(name);
        }
        let subs = Exprs::Empty;
        RunCall::PopWord(Place { name, subs })
    }

    // The push of an actual that is in the group, behind what is turned round.
    fn push_actual(
        &self,
        alloc: Global,
        number: usize,
        line: u32,
        group: Group,
        actual: &Actual,
        turned: Stmts,
    ) -> Result<Stmts, Memory>
        ensures pushed { IfOk result (λ c. (callees : List ℕ → Callee) → in_order (code_of c) ≡ in_order (code_of turned) +++ pushes (plan_of self.now callees) line (chosen (is_in ((marks_of self.now.marks.now).saved number) group) (actual.now ∷ []))) }
    {
        if !self.is_in(group, number, actual) {
            return Ok(turned);
        }
        let name = actual.name.copy(alloc)?;
        let act = Act::Run(self.push_of(name));
        let code = before(alloc, Stmt { line, act }, turned)?;
        Ok(code)
    }

    // The pop of an actual that is in the group, and then the rest.
    fn pop_actual(
        &self,
        alloc: Global,
        number: usize,
        line: u32,
        group: Group,
        actual: &Actual,
        rest: Stmts,
    ) -> Result<Stmts, Memory>
        ensures popped { IfOk result (λ c. (callees : List ℕ → Callee) → code_of c ≡ pops (plan_of self.now callees) line (chosen (is_in ((marks_of self.now.marks.now).saved number) group) (actual.now ∷ [])) +++ code_of rest) }
    {
        if !self.is_in(group, number, actual) {
            return Ok(rest);
        }
        let name = actual.name.copy(alloc)?;
        let act = Act::Run(self.pop_of(name));
        let code = before(alloc, Stmt { line, act }, rest)?;
        Ok(code)
    }

    /// The pushes of a group in order, behind what is turned round.
    pub fn pushes(
        &self,
        alloc: Global,
        number: usize,
        line: u32,
        group: Group,
        actuals: &[Actual],
        turned: Stmts,
    ) -> Result<Stmts, Memory>
        ensures pushed { IfOk result (λ c. (callees : List ℕ → Callee) → in_order (code_of c) ≡ in_order (code_of turned) +++ pushes (plan_of self.now callees) line (chosen (is_in ((marks_of self.now.marks.now).saved number) group) actuals.now)) }
    {
        let mut code = turned;
        for actual in actuals {
            code = self.push_actual(alloc, number, line, group, actual, code)?;
        }
        Ok(code)
    }

    /// The pops of a group in the opposite order, and then the rest.
    pub fn pops(
        &self,
        alloc: Global,
        number: usize,
        line: u32,
        group: Group,
        actuals: &[Actual],
        rest: Stmts,
    ) -> Result<Stmts, Memory>
        ensures popped { IfOk result (λ c. (callees : List ℕ → Callee) → code_of c ≡ pops (plan_of self.now callees) line (chosen (is_in ((marks_of self.now.marks.now).saved number) group) actuals.now) +++ code_of rest) }
    {
        let mut code = rest;
        for actual in actuals {
            code = self.pop_actual(alloc, number, line, group, actual, code)?;
        }
        Ok(code)
    }

    // Adds an actual of an adjoint's call, with its shadow where its dummy has one.
    fn push_with_shadow(
        &self,
        alloc: Global,
        actual: &Actual,
        made: &mut Vec<Expr>,
    ) -> Result<(), Memory>
        ensures pushed { OnOk result ((others : Terms) → terms_onto (map term_of made.new.items) (rename_terms (naming_in self.now) others) ≡ terms_onto (map term_of made.old.items) (rename_terms (naming_in self.now) (with_shadow actual.now others))) }
    {
        made.push(Expr::Var(actual.name.copy(alloc)?))?;
        if actual.dummy.shadowed {
            let shadow = self.names.shadow(alloc, &actual.name)?;
            made.push(Expr::Var(shadow))?;
        }
        Ok(())
    }

    /// The actuals of the call of an adjoint.
    pub fn with_shadows(&self, alloc: Global, actuals: &[Actual]) -> Result<Exprs, Memory>
        ensures actuals { IfOk result (λ es. terms_of es ≡ rename_terms (naming_in self.now) (all_with_shadows actuals.now)) }
    {
        let mut made = Vec::new(alloc);
        for actual in actuals {
            self.push_with_shadow(alloc, actual, &mut made)?;
        }
        let all = Exprs::from_vec(alloc, made)?;
        Ok(all)
    }
}

//! What is made of a unit, and what differs in it (docs/EMITTED.md, "The units" and "Split calls").

ghost use Rattle.std.specs.Prelude.{◌≡◌, ℕ, List, IfOk, map};
ghost use Rattle.adj_tree.specs.View.{code_of};
ghost use Rattle.def_meaning.specs.Rename.{rename};
ghost use Rattle.def_names.specs.Numbers.{Vars};
ghost use Rattle.def_sweep.specs.Plan.{Callee};
ghost use Rattle.adj_naming.specs.Roles.{variable_of};
ghost use Rattle.adj_sweep_assignment.specs.View.{marks_of};
ghost use Rattle.adj_sweep.specs.Callees.{KnowsAll};
ghost use Rattle.adj_sweep.specs.Plans.{naming_in, plan_of, schedules_of};
ghost use Rattle.adj_sweep.specs.Uses.{plan_by, schedules_by};
ghost use Rattle.adj_weave.specs.Making.{its_marks, its_shadows, its_name, its_helpers, its_code, half_code};

use crate::left::left;
use crate::unit::Part;
use adj_naming::role::Helper;
use adj_sweep::bodies::{Body, PairBody};
use adj_sweep::plan::Plan;
use adj_sweep::used::{helpers_forth, helpers_used};
use adj_sweep::uses::Known;
use adj_sweep_assignment::Marking;
use adj_tree::{Memory, Name, Stmts};
use std::alloc::Global;

/// The variables whose shadows an adjoint sets to 0: between its sweeps, and at its end.
#[derive(Clone, Copy)]
pub struct Clears<'a> {
    pub at_turn: &'a [Name],
    pub at_end: &'a [Name],
}

/// One of the two units that split calls call.
#[derive(Clone, Copy, PartialEq, Eq, Debug)]
pub enum Half {
    /// The forward unit: the forward sweep, in which each statement is kept, and the pushes of what the backward unit takes. It has no
    /// shadows.
    Forth,
    /// The backward unit: the pops of these, and the backward sweep. It has the dummies of the unit's adjoint.
    Back,
}

/// What is made of a unit.
#[derive(Clone, Copy)]
pub enum Making<'a> {
    Adjoint(Clears<'a>),
    Pair(Half),
}

impl<'a> Part<'a> {
    /// The marks by which it is written.
    pub(crate) fn marks(&self, making: &Making<'_>) -> Marking<'a>
        ensures marks { marks_of result ≡ its_marks self.now making.now }
    {
        match making {
            Making::Adjoint(_) => self.marking,
            Making::Pair(_) => self.pairing,
        }
    }

    /// Marks that say which variables have a shadow in it.
    pub(crate) fn shadows(&self, making: &Making<'_>) -> Marking<'a>
        ensures shadows { (marks_of result).shadowed ≡ its_shadows self.now making.now }
    {
        match making {
            Making::Adjoint(_) => self.marking,
            Making::Pair(Half::Forth) => Marking::Bare,
            Making::Pair(Half::Back) => self.pairing,
        }
    }

    /// Its name.
    pub(crate) fn name(&self, making: &Making<'_>) -> &'a Name
        ensures name { result.now ≡ its_name self.now making.now }
    {
        match making {
            Making::Adjoint(_) => self.adjoint,
            Making::Pair(Half::Forth) => self.forth,
            Making::Pair(Half::Back) => self.back,
        }
    }

    /// The helpers that it uses.
    pub(crate) fn helpers(
        &self,
        alloc: Global,
        known: &Known,
        making: &Making<'_>,
    ) -> Result<Vec<Helper>, Memory>
        ensures helpers { IfOk result (λ v. (arrays : Vars) (callees : List ℕ → Callee) (reads : List ℕ → Vars) → KnowsAll known.now.callees.now callees reads → map variable_of v.items ≡ its_helpers (schedules_by known.now reads) (plan_by known.now arrays callees) self.now.number (code_of self.now.unit.now.body) making.now) }
    {
        let (number, body) = (self.number, &self.unit.body);
        match making {
            Making::Pair(Half::Forth) => helpers_forth(alloc, known, number, body),
            Making::Pair(Half::Back) => helpers_used(alloc, known, number, body),
            Making::Adjoint(_) => helpers_used(alloc, known, number, body),
        }
    }

    // The code of the forward or of the backward unit.
    fn half_body(&self, alloc: Global, plan: &Plan, half: Half) -> Result<Stmts, Memory>
        ensures body { IfOk result (λ c. (callees : List ℕ → Callee) (reads : List ℕ → Vars) → KnowsAll plan.now.callees.now callees reads → code_of c ≡ rename (naming_in plan.now) (half_code (schedules_of plan.now reads) (plan_of plan.now callees) self.now half)) }
    {
        let unit = self.unit;
        let left = left(alloc, unit.dummies.as_slice(), self.written, self.variables)?;
        let given = PairBody {
            statements: &unit.body,
            number: self.number,
            line: unit.line,
            left: left.as_slice(),
        };
        match half {
            Half::Forth => plan.forth_body(alloc, &given),
            Half::Back => plan.back_body(alloc, &given),
        }
    }

    /// Its code.
    pub(crate) fn body(
        &self,
        alloc: Global,
        plan: &Plan,
        making: &Making<'_>,
    ) -> Result<Stmts, Memory>
        ensures body { IfOk result (λ c. (callees : List ℕ → Callee) (reads : List ℕ → Vars) → KnowsAll plan.now.callees.now callees reads → code_of c ≡ rename (naming_in plan.now) (its_code (schedules_of plan.now reads) (plan_of plan.now callees) self.now making.now)) }
    {
        match making {
            Making::Adjoint(clears) => {
                let given = Body {
                    statements: &self.unit.body,
                    number: self.number,
                    line: self.unit.line,
                    at_turn: clears.at_turn,
                    at_end: clears.at_end,
                };
                plan.adjoint_body(alloc, &given)
            }
            Making::Pair(half) => self.half_body(alloc, plan, *half),
        }
    }
}

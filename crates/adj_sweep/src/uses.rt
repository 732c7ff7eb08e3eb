//! What statements use of helpers, from what those in them use (docs/EMITTED.md, "The units").

ghost use Rattle.std.specs.Prelude.{◌≡◌, ◌||◌, ◌&&◌, true, false, not, max, drop, ℕ, List, IfOk, if◌then◌else◌};
ghost use Rattle.adj_tree.specs.Code.{Terms, more, plain, assign, call};
ghost use Rattle.adj_tree.specs.View.{term_of, terms_of, act_of};
ghost use Rattle.def_names.specs.Numbers.{Vars};
ghost use Rattle.def_sweep.specs.Plan.{Callee, Schedules, names_of};
ghost use Rattle.def_sweep.specs.Rows.{is_empty, resets};
ghost use Rattle.def_sweep.specs.Emission.{backward_act};
ghost use Rattle.adj_sweep_assignment.specs.View.{marks_of};
ghost use Rattle.adj_sweep.specs.Callees.{KnowsAll};
ghost use Rattle.adj_sweep.specs.Uses.{plan_by, saves_some, UsesAct, UsesIf, UsesDo, UsesReversed, UsesWhile};

use crate::callees::{Callees, Dummy};
use crate::measure::{measured, plus};
use crate::steps::MarkedLoops;
use adj_sweep_assignment::Marking;
use adj_tree::{Expr, Exprs, Memory, Name, Place};

/// The marks of a unit, how its marked loops are gone through, and what is known of the units that it calls.
#[derive(Clone, Copy)]
pub struct Known<'a> {
    pub marks: &'a Marking<'a>,
    pub loops: MarkedLoops,
    pub callees: &'a Callees,
}

/// What some statements use.
#[derive(Clone, Copy, PartialEq, Eq, Debug)]
pub struct Used {
    /// Whether they have no backward sweep.
    pub idle: bool,
    /// Whether an IF tells which part ran.
    pub tells: bool,
    /// The greatest number of a work variable.
    pub works: usize,
    /// The greatest number of a temporary.
    pub temps: usize,
    /// The greatest depth of a loop whose turns are gone through backward.
    pub depth: usize,
    /// The number of the next statement.
    pub number: usize,
}

impl Used {
    /// Nothing is used, and there is no backward sweep.
    pub fn nothing(number: usize) -> Used
        ensures idle { result.idle ≡ true }
        ensures tells { result.tells ≡ false }
        ensures works { result.works ≡ 0 }
        ensures temps { result.temps ≡ 0 }
        ensures depth { result.depth ≡ 0 }
        ensures number { result.number ≡ number }
    {
        Used {
            idle: true,
            tells: false,
            works: 0,
            temps: 0,
            depth: 0,
            number,
        }
    }

    /// What some statements use and those that come next.
    pub fn with_next(self, next: Used) -> Used
        ensures idle { result.idle ≡ (self.idle && next.idle) }
        ensures tells { result.tells ≡ (self.tells || next.tells) }
        ensures works { result.works ≡ max self.works next.works }
        ensures temps { result.temps ≡ max self.temps next.temps }
        ensures depth { result.depth ≡ max self.depth next.depth }
        ensures number { result.number ≡ next.number }
    {
        Used {
            idle: self.idle && next.idle,
            tells: self.tells || next.tells,
            works: self.works.max(next.works),
            temps: self.temps.max(next.temps),
            depth: self.depth.max(next.depth),
            number: next.number,
        }
    }

    // The greatest depth in a loop of this depth.
    fn depth_of_loop(&self, depth: usize) -> usize
        ensures depth { result ≡ (if self.now.idle then 0 else max depth self.now.depth) }
    {
        if self.idle { 0 } else { depth.max(self.depth) }
    }
}

// How many actuals were passed, and whether one of them is saved.
#[derive(Clone, Copy)]
struct Search {
    passed: usize,
    found: bool,
}

impl<'a> Known<'a> {
    /// What an assignment uses.
    pub fn assignment(&self, number: usize, target: &Place, e: &Expr) -> Result<Used, Memory>
        ensures uses { IfOk result (λ u. (r : Schedules) (arrays : Vars) (callees : List ℕ → Callee) (d : ℕ) → UsesAct r (plan_by self.now arrays callees) d number (assign (plain target.now.name) (terms_of target.now.subs) (term_of e.now)) u) }
    {
        let next = plus(number, 1)?;
        if self.marks.adjointed(number) {
            let measure = measured(self.marks, number, e, 1)?;
            return Ok(Used {
                idle: false,
                tells: false,
                works: measure.works,
                temps: measure.temps,
                depth: 0,
                number: next,
            });
        }
        let mut used = Used::nothing(next);
        used.idle = !(self.marks.kept(number) && self.marks.saved(number, &target.name));
        Ok(used)
    }

    // Passes an actual, which counts where it is a name and has a dummy.
    fn pass(&self, number: usize, dummies: &[Dummy], e: &Expr, search: Search) -> Search
        ensures found { (others : Terms) → (result.found || saves_some (λ x. (marks_of self.now.marks.now).saved number (plain x)) (drop result.passed dummies.now) (names_of others)) ≡ (search.found || saves_some (λ x. (marks_of self.now.marks.now).saved number (plain x)) (drop search.passed dummies.now) (names_of (more (term_of e.now) others))) }
    {
        let Expr::Var(name) = e else {
            return search;
        };
        match dummies.get(search.passed) {
            Some(dummy) => Search {
                passed: search.passed + 1,
                found: search.found || dummy.written && self.marks.saved(number, name),
            },
            None => search,
        }
    }

    // Whether a call saves one of its actuals.
    #[tactic(auto, using(crate::proofs::Flags::or_false))]
    fn saves(&self, number: usize, dummies: &[Dummy], actuals: &Exprs) -> bool
        ensures saves { result ≡ saves_some (λ x. (marks_of self.now.marks.now).saved number (plain x)) dummies.now (names_of (terms_of actuals.now)) }
    {
        let mut search = Search {
            passed: 0,
            found: false,
        };
        let mut current = actuals;
        while let Exprs::More(first, rest) = current {
            search = self.pass(number, dummies, first, search);
            current = rest;
        }
        search.found
    }

    // Whether a call has no backward sweep.
    fn is_idle_call(&self, number: usize, name: &Name, actuals: &Exprs) -> bool
        ensures idle { (arrays : Vars) (callees : List ℕ → Callee) (reads : List ℕ → Vars) → KnowsAll self.now.callees.now callees reads → (d line : ℕ) → result ≡ is_empty (backward_act (plan_by self.now arrays callees) number d line (call name.now (terms_of actuals.now))) }
    {
        if self.marks.adjointed(number) {
            return false;
        }
        if !self.marks.kept(number) {
            return true;
        }
        let callee = self.callees.find(name);
        !self.saves(number, callee.dummies.as_slice(), actuals)
    }

    /// What a call uses.
    pub fn call(&self, number: usize, name: &Name, actuals: &Exprs) -> Result<Used, Memory>
        ensures uses { IfOk result (λ u. (r : Schedules) (arrays : Vars) (callees : List ℕ → Callee) (reads : List ℕ → Vars) → KnowsAll self.now.callees.now callees reads → (d : ℕ) → UsesAct r (plan_by self.now arrays callees) d number (call name.now (terms_of actuals.now)) u) }
    {
        let next = plus(number, 1)?;
        let mut used = Used::nothing(next);
        used.idle = self.is_idle_call(number, name, actuals);
        Ok(used)
    }

    /// What an IF uses.
    pub fn branch(&self, number: usize, first: Used, second: Used) -> Used
        ensures uses { (r : Schedules) (arrays : Vars) (callees : List ℕ → Callee) → UsesIf r (plan_by self.now arrays callees) number first second result }
    {
        let mut used = first.with_next(second);
        used.tells = !used.idle;
        used.idle = !self.marks.emitted(number) || used.idle;
        used
    }

    // Whether a DO keeps its variable and that variable's shadow as they are.
    fn leaves_variable(&self, number: usize, x: &Name) -> bool
        ensures leaves { result ≡ not ((marks_of self.now.marks.now).saved number (plain x.now) || resets (marks_of self.now.marks.now) number x.now) }
    {
        !(self.marks.saved(number, x) || self.marks.shadowed(x) && self.marks.varied(number, x))
    }

    /// What a DO of this depth uses that isn't reversed by a schedule.
    pub fn do_loop(&self, number: usize, depth: usize, x: &Name, inner: Used) -> Used
        ensures uses { (r : Schedules) (arrays : Vars) (callees : List ℕ → Callee) → UsesDo r (plan_by self.now arrays callees) depth number x.now inner result }
    {
        let mut used = inner;
        used.depth = inner.depth_of_loop(depth);
        used.idle = !self.marks.emitted(number) || inner.idle && self.leaves_variable(number, x);
        used
    }

    /// What a DO of this depth uses that is reversed by a schedule.
    pub fn reversed_loop(&self, number: usize, depth: usize, x: &Name, inner: Used) -> Used
        ensures uses { (r : Schedules) (arrays : Vars) (callees : List ℕ → Callee) → UsesReversed r (plan_by self.now arrays callees) depth number x.now inner result }
    {
        let mut used = inner;
        used.depth = depth;
        used.idle = !self.marks.emitted(number);
        used
    }

    /// What a DO WHILE of this depth uses.
    pub fn while_loop(&self, number: usize, depth: usize, inner: Used) -> Used
        ensures uses { (r : Schedules) (arrays : Vars) (callees : List ℕ → Callee) → UsesWhile r (plan_by self.now arrays callees) depth number inner result }
    {
        let mut used = inner;
        used.depth = inner.depth_of_loop(depth);
        used.idle = !self.marks.emitted(number) || inner.idle;
        used
    }
}

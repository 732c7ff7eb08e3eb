//! What the sweeps of a unit follow, and the statements that they write for themselves.

ghost use Rattle.std.specs.Prelude.{◌≡◌, IfOk};
ghost use Rattle.adj_tree.specs.Code.{var, none, assign, runtime, push_word, pop_word, step};
ghost use Rattle.adj_tree.specs.View.{term_of, code_of};
ghost use Rattle.adj_naming.specs.Roles.{variable_of};
ghost use Rattle.adj_sweep.specs.Plans.{naming_in};

use crate::callees::Callees;
use crate::steps::MarkedLoops;
use adj_naming::names::Names;
use adj_naming::role::Helper;
use adj_sets::NameSet;
use adj_sweep_assignment::Marking;
use adj_sweep_assignment::step::{before, pop, push, set_before};
use adj_tree::{Expr, Exprs, Memory, Place, Stmts, boxed};
use std::alloc::Global;

/// The names of a unit and its marks, how its marked loops are gone through, which of its variables are arrays, and what is known of the
/// units that it calls.
#[derive(Clone, Copy)]
pub struct Plan<'a> {
    pub names: &'a Names,
    pub marks: &'a Marking<'a>,
    pub loops: MarkedLoops,
    pub arrays: &'a NameSet,
    pub callees: &'a Callees,
}

/// Where a statement stands: its number, the depth of the loops around it (for a loop its own), and its line.
#[derive(Clone, Copy, PartialEq, Eq, Debug)]
pub struct At {
    pub number: usize,
    pub depth: usize,
    pub line: u32,
}

impl<'a> Plan<'a> {
    /// A helper as a term.
    pub fn own(&self, alloc: Global, own: Helper) -> Result<Box<Expr>, Memory>
        ensures term { IfOk result (λ e. term_of e.value ≡ var (naming_in self.now (variable_of own))) }
    {
        let name = self.names.helper(alloc, own.role, own.number)?;
        boxed(alloc, Expr::Var(name))
    }

    /// A helper that becomes a value, and then the rest.
    pub fn set_own(
        &self,
        alloc: Global,
        line: u32,
        own: Helper,
        e: Box<Expr>,
        rest: Stmts,
    ) -> Result<Stmts, Memory>
        ensures step { IfOk result (λ c. code_of c ≡ step line (assign (naming_in self.now (variable_of own)) none (term_of e.value)) (code_of rest)) }
    {
        let name = self.names.helper(alloc, own.role, own.number)?;
        let place = Place {
            name,
            subs: Exprs::Empty,
        };
        set_before(alloc, line, place, e, rest)
    }

    /// A helper that is pushed, and then the rest.
    pub fn push_own(
        &self,
        alloc: Global,
        line: u32,
        own: Helper,
        rest: Stmts,
    ) -> Result<Stmts, Memory>
        ensures step { IfOk result (λ c. code_of c ≡ step line (runtime (push_word (naming_in self.now (variable_of own)) none)) (code_of rest)) }
    {
        let name = self.names.helper(alloc, own.role, own.number)?;
        let place = Place {
            name,
            subs: Exprs::Empty,
        };
        before(alloc, push(line, place), rest)
    }

    /// A helper that is popped, and then the rest.
    pub fn pop_own(
        &self,
        alloc: Global,
        line: u32,
        own: Helper,
        rest: Stmts,
    ) -> Result<Stmts, Memory>
        ensures step { IfOk result (λ c. code_of c ≡ step line (runtime (pop_word (naming_in self.now (variable_of own)) none)) (code_of rest)) }
    {
        let name = self.names.helper(alloc, own.role, own.number)?;
        let place = Place {
            name,
            subs: Exprs::Empty,
        };
        before(alloc, pop(line, place), rest)
    }
}

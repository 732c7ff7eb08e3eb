//! The number of snapshots of a loop that is reversed by a schedule, by its mark (docs/EMITTED.md, "Reversal of a marked loop").

ghost use Rattle.std.specs.Prelude.{◌≡◌, IfOk};
ghost use Rattle.adj_tree.specs.Code.{plain, bin, stop};
ghost use Rattle.adj_tree.specs.View.{op_of, term_of, mark_of, code_of};
ghost use Rattle.def_meaning.specs.Append.{◌+++◌};
ghost use Rattle.def_meaning.specs.Rename.{rename_term, rename};
ghost use Rattle.def_sweep.specs.Rows.{literal};
ghost use Rattle.def_sweep.specs.ReversalCode.{as_slots, slots_of, set_slots, push_slots, pop_slots};
ghost use Rattle.adj_sweep.specs.Plans.{naming_in};
ghost use Rattle.adj_sweep.specs.Swept.{in_order};

use crate::loops::of_depth;
use crate::plan::{At, Plan};
use adj_naming::role::Role;
use adj_tree::{Expr, Mark, Memory, Name, Op, Stmts, boxed};
use std::alloc::Global;

/// A number as a term.
pub fn literal(n: u32) -> Expr
    ensures literal { term_of result ≡ literal n }
{
    Expr::Lit(i64::from(n))
}

/// An operation on a term and a number.
pub fn with_number(alloc: Global, op: Op, a: Box<Expr>, n: u32) -> Result<Box<Expr>, Memory>
    ensures term { IfOk result (λ e. term_of e.value ≡ bin (op_of op) (term_of a.value) (literal n)) }
{
    let right = boxed(alloc, literal(n))?;
    boxed(alloc, Expr::Bin(op, a, right))
}

// The value of a variable as a number of snapshots: 1 where it is below 1, and 64 where it is above 64.
fn as_slots(alloc: Global, x: &Name) -> Result<Box<Expr>, Memory>
    ensures slots { IfOk result (λ e. term_of e.value ≡ as_slots (plain x.now)) }
{
    let name = x.copy(alloc)?;
    let value = boxed(alloc, Expr::Var(name))?;
    let least = with_number(alloc, Op::Max, value, 1)?;
    with_number(alloc, Op::Min, least, 64)
}

impl<'a> Plan<'a> {
    /// The number of snapshots in the reversal of a loop of this depth: that of the mark, or what a helper holds.
    pub fn slots_of(&self, alloc: Global, depth: usize, mark: &Mark) -> Result<Box<Expr>, Memory>
        ensures slots { IfOk result (λ e. term_of e.value ≡ rename_term (naming_in self.now) (slots_of depth (mark_of mark.now))) }
    {
        match mark {
            Mark::Plain => { boxed(alloc, literal(0)) }
            Mark::Count(snapshots) => { boxed(alloc, literal(*snapshots)) }
            Mark::From(_) => { self.own(alloc, of_depth(Role::Slots, depth)) }
        }
    }

    /// The helper gets the number, where a variable gives it, behind what is turned round.
    pub fn set_slots(
        &self,
        alloc: Global,
        at: At,
        mark: &Mark,
        turned: Stmts,
    ) -> Result<Stmts, Memory>
        ensures set { IfOk result (λ c. in_order (code_of c) ≡ in_order (code_of turned) +++ rename (naming_in self.now) (set_slots at.line at.depth (mark_of mark.now) stop)) }
    {
        match mark {
            Mark::Plain | Mark::Count(_) => Ok(turned),
            Mark::From(x) => {
                let value = as_slots(alloc, x)?;
                let own = of_depth(Role::Slots, at.depth);
                let code = self.set_own(alloc, at.line, own, value, turned)?;
                Ok(code)
            }
        }
    }

    /// The helper is pushed, where a variable gives the number, behind what is turned round.
    pub fn push_slots(
        &self,
        alloc: Global,
        at: At,
        mark: &Mark,
        turned: Stmts,
    ) -> Result<Stmts, Memory>
        ensures pushed { IfOk result (λ c. in_order (code_of c) ≡ in_order (code_of turned) +++ rename (naming_in self.now) (push_slots at.line at.depth (mark_of mark.now) stop)) }
    {
        match mark {
            Mark::Plain | Mark::Count(_) => Ok(turned),
            Mark::From(_) => {
                let code = self.push_own(alloc, at.line, of_depth(Role::Slots, at.depth), turned)?;
                Ok(code)
            }
        }
    }

    /// The helper is popped, where a variable gives the number, and then the rest.
    pub fn pop_slots(
        &self,
        alloc: Global,
        at: At,
        mark: &Mark,
        rest: Stmts,
    ) -> Result<Stmts, Memory>
        ensures popped { IfOk result (λ c. code_of c ≡ rename (naming_in self.now) (pop_slots at.line at.depth (mark_of mark.now) stop) +++ code_of rest) }
    {
        match mark {
            Mark::Plain | Mark::Count(_) => Ok(rest),
            Mark::From(_) => { self.pop_own(alloc, at.line, of_depth(Role::Slots, at.depth), rest) }
        }
    }
}

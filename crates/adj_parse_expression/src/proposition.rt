//! Conditions that are still read.

ghost use Rattle.std.specs.Prelude.{◌≡◌, ◌<◌, ◌≤◌, Ok, Err, IfOk};
ghost use Rattle.adj_tree.specs.View.{rel_of, test_of};
ghost use Rattle.adj_parse_expression.specs.Partial.{operand_of};
ghost use Rattle.adj_parse_expression.specs.View.{seen};

use crate::flaw::{Flaw, both};
use crate::operand::Operand;
use adj_tree::{Cond, Memory, Rel, boxed};
use std::alloc::Global;

/// A condition: its tree or what is wrong with it, and its depth or 1 more than the limit where it is deeper. One that is too
/// deep isn't kept, so no tree is ever deeper than the limit.
pub(crate) struct Proposition {
    pub found: Result<Box<Cond>, Flaw>,
    pub depth: u32,
    ghost shallow: { depth ≤ 1000 },
}

impl Drop for Proposition {
    fn drop(self) {
        let Proposition {
            found: _found,
            depth: _,
        } = self;
    }
}

impl Proposition {
    ghost use Rattle.adj_parse_expression.specs.PartialCondition.{bounded_test, comparison_of, negation_of, conjunction_of, disjunction_of, proposition_of};

    /// Its tree or what is wrong with it, of which nothing is copied.
    pub fn into_found(self) -> Result<Box<Cond>, Flaw>
        ensures { result ≡ self.found }
    {
        let Proposition { found, depth: _ } = self;
        found
    }

    // One with a flaw.
    fn flawed(flaw: Flaw, depth: u32, limit: u32) -> Proposition
        requires { limit < 1000 }
        ensures { proposition_of result ≡ bounded_test limit (Err flaw) depth }
    {
        if depth <= limit {
            Proposition {
                found: Err(flaw),
                depth,
            }
        } else {
            Proposition {
                found: Err(flaw.first_of(Flaw::Deep)),
                depth: limit + 1,
            }
        }
    }

    // A tree on the heap, where it isn't too deep.
    fn bounded(alloc: Global, tree: Cond, depth: u32, limit: u32) -> Result<Proposition, Memory>
        requires { limit < 1000 }
        ensures { IfOk result (λ c. proposition_of c ≡ bounded_test limit (Ok (test_of tree)) depth) }
    {
        if depth > limit {
            return Ok(Proposition {
                found: Err(Flaw::Deep),
                depth: limit + 1,
            });
        }
        let tree = boxed(alloc, tree)?;
        Ok(Proposition {
            found: Ok(tree),
            depth,
        })
    }

    /// The comparison of two expressions.
    pub fn compared(
        alloc: Global,
        rel: Rel,
        left: Operand,
        right: Operand,
        limit: u32,
    ) -> Result<Proposition, Memory>
        requires { limit < 1000 }
        ensures { IfOk result (λ c. proposition_of c ≡ comparison_of limit (rel_of rel) (operand_of left) (operand_of right)) }
    {
        let depth = left.depth.max(right.depth) + 1;
        match both(left.into_found(), right.into_found()) {
            Ok((a, b)) => Proposition::bounded(alloc, Cond::Cmp(rel, a, b), depth, limit),
            Err(flaw) => Ok(Proposition::flawed(flaw, depth, limit)),
        }
    }

    /// Behind `.NOT.`.
    pub fn denied(self, alloc: Global, limit: u32) -> Result<Proposition, Memory>
        requires { limit < 1000 }
        ensures { IfOk result (λ c. proposition_of c ≡ negation_of limit (proposition_of self)) }
    {
        let Proposition { found, depth } = self;
        match found {
            Ok(c) => Proposition::bounded(alloc, Cond::Not(c), depth + 1, limit),
            Err(flaw) => Ok(Proposition::flawed(flaw, depth + 1, limit)),
        }
    }

    /// Both.
    pub fn conjoined(
        self,
        alloc: Global,
        right: Proposition,
        limit: u32,
    ) -> Result<Proposition, Memory>
        requires { limit < 1000 }
        ensures { IfOk result (λ c. proposition_of c ≡ conjunction_of limit (proposition_of self) (proposition_of right)) }
    {
        let depth = self.depth.max(right.depth) + 1;
        match both(self.into_found(), right.into_found()) {
            Ok((c, d)) => Proposition::bounded(alloc, Cond::And(c, d), depth, limit),
            Err(flaw) => Ok(Proposition::flawed(flaw, depth, limit)),
        }
    }

    /// One of them at least.
    pub fn disjoined(
        self,
        alloc: Global,
        right: Proposition,
        limit: u32,
    ) -> Result<Proposition, Memory>
        requires { limit < 1000 }
        ensures { IfOk result (λ c. proposition_of c ≡ disjunction_of limit (proposition_of self) (proposition_of right)) }
    {
        let depth = self.depth.max(right.depth) + 1;
        match both(self.into_found(), right.into_found()) {
            Ok((c, d)) => Proposition::bounded(alloc, Cond::Or(c, d), depth, limit),
            Err(flaw) => Ok(Proposition::flawed(flaw, depth, limit)),
        }
    }
}

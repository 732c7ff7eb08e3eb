//! Expressions that are still read.

ghost use Rattle.std.specs.Prelude.{◌≡◌, ◌<◌, ◌≤◌, ◌+◌, ◌∷◌, [], ◌++◌, ℤ, map, length, pos, Ok, Err, IfOk};
ghost use Rattle.adj_tree.specs.View.{term_of, op_of};
ghost use Rattle.def_text.specs.Char.{number_of};
ghost use Rattle.def_text.specs.Grammar.{in_words};
ghost use Rattle.adj_parse_expression.specs.Constants.{exponent_of};
ghost use Rattle.adj_parse_expression.specs.Flaws.{as_power};
ghost use Rattle.adj_parse_expression.specs.View.{seen};

use crate::application::{one_argument, two_arguments};
use crate::constant::{self, Constant};
use crate::flaw::{Flaw, both};
use adj_tree::{Expr, Memory, Name, Op, boxed};
use std::alloc::Global;

/// An expression: its tree or what is wrong with it, its depth or 1 more than the limit where it is deeper, and what it is
/// as an exponent. One that is too deep isn't kept, so no tree is ever deeper than the limit.
pub(crate) struct Operand {
    pub found: Result<Box<Expr>, Flaw>,
    pub depth: u32,
    pub constant: Constant,
    ghost shallow: { depth ≤ 1000 },
}

impl Drop for Operand {
    fn drop(self) {
        let Operand {
            found: _found,
            depth: _,
            constant: _,
        } = self;
    }
}

// The exponent that a literal expression is. Of its own flaws only a literal that is too large counts.
fn exponent(found: Result<Box<Expr>, Flaw>, constant: Constant) -> Result<u32, Flaw>
    ensures { result ≡ as_power (seen (λ e. term_of e.value) found) (exponent_of constant) }
{
    if let Err(Flaw::Large) = found {
        return Err(Flaw::Large);
    }
    match constant.exponent() {
        Some(k) => Ok(k),
        None => Err(Flaw::Exponent),
    }
}

impl Operand {
    ghost use Rattle.adj_parse_expression.specs.Partial.{literal, scalar, opposite, combined, to_literal, to_expression, powered, application, bounded, algebra, operand_of};
    ghost use Rattle.def_text.specs.Machine.{with_sign};

    /// Its tree or what is wrong with it, of which nothing is copied.
    pub fn into_found(self) -> Result<Box<Expr>, Flaw>
        ensures { result ≡ self.found }
    {
        let Operand {
            found,
            depth: _,
            constant: _,
        } = self;
        found
    }

    // One with a flaw.
    fn flawed(flaw: Flaw, depth: u32, constant: Constant, limit: u32) -> Operand
        requires { limit < 1000 }
        ensures { operand_of result ≡ bounded limit (Err flaw) depth constant }
    {
        if depth <= limit {
            Operand {
                found: Err(flaw),
                depth,
                constant,
            }
        } else {
            Operand {
                found: Err(flaw.first_of(Flaw::Deep)),
                depth: limit + 1,
                constant,
            }
        }
    }

    // A tree on the heap, where it isn't too deep.
    fn bounded(
        alloc: Global,
        tree: Expr,
        depth: u32,
        constant: Constant,
        limit: u32,
    ) -> Result<Operand, Memory>
        requires { limit < 1000 }
        ensures { IfOk result (λ x. operand_of x ≡ bounded limit (Ok (term_of tree)) depth constant) }
    {
        if depth > limit {
            return Ok(Operand {
                found: Err(Flaw::Deep),
                depth: limit + 1,
                constant,
            });
        }
        let tree = boxed(alloc, tree)?;
        Ok(Operand {
            found: Ok(tree),
            depth,
            constant,
        })
    }

    /// A literal.
    pub fn literal(alloc: Global, digits: &[u8], limit: u32) -> Result<Operand, Memory>
        requires { limit < 1000 }
        ensures { IfOk result (λ x. operand_of x ≡ literal limit (in_words (pos (number_of digits.now)))) }
    {
        match constant::literal(digits) {
            None => Ok(Operand::flawed(Flaw::Large, 1, Constant::Beyond, limit)),
            Some(n) => Operand::bounded(alloc, Expr::Lit(n), 1, Constant::Word(n), limit),
        }
    }

    /// A name with no arguments.
    pub fn scalar(name: Name, alloc: Global, limit: u32) -> Result<Operand, Memory>
        requires { limit < 1000 }
        ensures { IfOk result (λ x. operand_of x ≡ scalar limit name) }
    {
        Operand::bounded(alloc, Expr::Var(name), 1, Constant::Other, limit)
    }

    /// Behind a minus sign.
    pub fn opposite(self, alloc: Global, limit: u32) -> Result<Operand, Memory>
        requires { limit < 1000 }
        ensures { IfOk result (λ x. operand_of x ≡ opposite limit (operand_of self)) }
    {
        let Operand {
            found,
            depth,
            constant,
        } = self;
        let constant = constant.opposite();
        match found {
            Ok(e) => Operand::bounded(alloc, Expr::Neg(e), depth + 1, constant, limit),
            Err(flaw) => Ok(Operand::flawed(flaw, depth + 1, constant, limit)),
        }
    }

    /// The sum, difference, product or quotient.
    pub fn combined(
        self,
        alloc: Global,
        op: Op,
        right: Operand,
        limit: u32,
    ) -> Result<Operand, Memory>
        requires { limit < 1000 }
        ensures { IfOk result (λ x. operand_of x ≡ combined limit (op_of op) (operand_of self) (operand_of right)) }
    {
        let depth = self.depth.max(right.depth) + 1;
        let constant = self.constant.joined(op, right.constant);
        match both(self.into_found(), right.into_found()) {
            Ok((a, b)) => Operand::bounded(alloc, Expr::Bin(op, a, b), depth, constant, limit),
            Err(flaw) => Ok(Operand::flawed(flaw, depth, constant, limit)),
        }
    }

    // The power with a literal exponent, of which the tree keeps the value.
    fn to_literal(self, alloc: Global, right: Operand, limit: u32) -> Result<Operand, Memory>
        requires { limit < 1000 }
        ensures { IfOk result (λ x. operand_of x ≡ to_literal limit (operand_of self) (operand_of right)) }
    {
        let depth = self.depth + 1;
        let other = right.constant;
        let constant = self.constant.powered(other);
        match both(self.into_found(), exponent(right.into_found(), other)) {
            Ok((a, k)) => Operand::bounded(alloc, Expr::Pow(a, k), depth, constant, limit),
            Err(flaw) => Ok(Operand::flawed(flaw, depth, constant, limit)),
        }
    }

    // The power with any other exponent.
    fn to_expression(self, alloc: Global, right: Operand, limit: u32) -> Result<Operand, Memory>
        requires { limit < 1000 }
        ensures { IfOk result (λ x. operand_of x ≡ to_expression limit (operand_of self) (operand_of right)) }
    {
        let depth = self.depth.max(right.depth) + 1;
        match both(self.into_found(), right.into_found()) {
            Ok((a, b)) => Operand::bounded(alloc, Expr::Power(a, b), depth, Constant::Other, limit),
            Err(flaw) => Ok(Operand::flawed(flaw, depth, Constant::Other, limit)),
        }
    }

    /// The power with this exponent.
    pub fn powered(self, alloc: Global, right: Operand, limit: u32) -> Result<Operand, Memory>
        requires { limit < 1000 }
        ensures { IfOk result (λ x. operand_of x ≡ powered limit (operand_of self) (operand_of right)) }
    {
        if right.constant.is_other() {
            self.to_expression(alloc, right, limit)
        } else {
            self.to_literal(alloc, right, limit)
        }
    }

    // A name with one argument.
    fn with_one(name: Name, alloc: Global, argument: Operand, limit: u32) -> Result<Operand, Memory>
        requires { limit < 1000 }
        ensures { IfOk result (λ x. operand_of x ≡ application limit name (operand_of argument ∷ [])) }
    {
        let depth = argument.depth + 1;
        match argument.into_found() {
            Ok(a) => {
                let tree = one_argument(name, alloc, a)?;
                Operand::bounded(alloc, tree, depth, Constant::Other, limit)
            }
            Err(flaw) => Ok(Operand::flawed(flaw, depth, Constant::Other, limit)),
        }
    }

    // A name with two arguments.
    fn with_two(
        name: Name,
        alloc: Global,
        first: Operand,
        second: Operand,
        limit: u32,
    ) -> Result<Operand, Memory>
        requires { limit < 1000 }
        ensures { IfOk result (λ x. operand_of x ≡ application limit name (operand_of first ∷ operand_of second ∷ [])) }
    {
        let depth = first.depth.max(second.depth) + 1;
        match both(first.into_found(), second.into_found()) {
            Ok((a, b)) => {
                let tree = two_arguments(name, alloc, a, b)?;
                Operand::bounded(alloc, tree, depth, Constant::Other, limit)
            }
            Err(flaw) => Ok(Operand::flawed(flaw, depth, Constant::Other, limit)),
        }
    }

    /// A name with its arguments, of which there are as many as it takes.
    pub fn application(
        name: Name,
        alloc: Global,
        mut before: Vec<Operand>,
        last: Operand,
        limit: u32,
    ) -> Result<Operand, Memory>
        requires limit { limit < 1000 }
        requires number { length before.items < 2 }
        ensures { IfOk result (λ x. operand_of x ≡ application limit name (map operand_of before.items ++ operand_of last ∷ [])) }
    {
        match before.pop() {
            None => Operand::with_one(name, alloc, last, limit),
            Some(first) => Operand::with_two(name, alloc, first, last, limit),
        }
    }

    /// Behind a sign.
    pub fn with_sign(self, alloc: Global, op: Op, limit: u32) -> Result<Operand, Memory>
        requires { limit < 1000 }
        ensures { IfOk result (λ x. operand_of x ≡ with_sign (algebra limit) (op_of op) (operand_of self)) }
    {
        match op {
            Op::Sub => self.opposite(alloc, limit),
            _ => Ok(self),
        }
    }
}

//! Terms of emitted statements.

ghost use Rattle.std.specs.Prelude.{◌≡◌, IfOk};
ghost use Rattle.adj_tree.specs.Code.{bin, elem, plain, plus};
ghost use Rattle.adj_tree.specs.View.{term_of, terms_of};

use adj_tree::{Expr, Exprs, Memory, Name, Op, boxed};
use std::alloc::Global;

/// The sum of two terms.
pub fn sum(alloc: Global, a: Box<Expr>, b: Box<Expr>) -> Result<Box<Expr>, Memory>
    ensures sum { IfOk result (λ x. term_of x.value ≡ bin plus (term_of a.value) (term_of b.value)) }
{
    boxed(alloc, Expr::Bin(Op::Add, a, b))
}

/// An element.
pub fn element(alloc: Global, name: &Name, subs: &Exprs) -> Result<Box<Expr>, Memory>
    ensures element { IfOk result (λ x. term_of x.value ≡ elem (plain name.now) (terms_of subs.now)) }
{
    let copied = name.copy(alloc)?;
    let places = subs.copy_boxed(alloc)?;
    boxed(alloc, Expr::Elem(copied, places))
}

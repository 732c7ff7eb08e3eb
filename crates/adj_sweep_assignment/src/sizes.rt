//! What is known of terms before their adjoint is written.

ghost use Rattle.std.specs.Prelude.{◌≡◌, ◌+◌, ◌&&◌, IfOk};
ghost use Rattle.adj_tree.specs.View.{term_of};
ghost use Rattle.def_sweep.specs.Marked.{is_compound};

use adj_tree::{Expr, Memory};

/// The sum of two counts. Trees whose counts don't fit a word would not fit the memory.
pub fn plus(a: usize, b: usize) -> Result<usize, Memory>
    ensures sum { IfOk result (λ c. c ≡ a + b) }
{
    match a.checked_add(b) {
        Some(sum) => Ok(sum),
        None => Err(Memory),
    }
}

/// Whether the term is neither a literal nor a name nor an element.
pub fn is_compound(e: &Expr) -> bool
    ensures compound { result ≡ is_compound (term_of e.now) }
{
    match e {
        Expr::Lit(_) | Expr::Var(_) | Expr::Elem(_, _) => false,
        Expr::Neg(_) | Expr::Bin(_, _, _) | Expr::Pow(_, _) | Expr::Power(_, _) | Expr::Abs(_) =>
            true,
    }
}

/// Whether the factor a of a product has a temporary of its own, where it is known whether the other is active.
pub fn has_own_beside(a: &Expr, active: bool) -> bool
    ensures own { result ≡ (is_compound (term_of a.now) && active) }
{
    is_compound(a) && active
}

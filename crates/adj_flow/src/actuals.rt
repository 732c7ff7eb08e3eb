//! Units by their names, and the actuals of a call that are variables.

ghost use Rattle.std.specs.Prelude.{◌≡◌, ◌++◌, [], OnOk, IfOk, MatchOption, None, Some, map};
ghost use Rattle.adj_tree.specs.View.{term_of, terms_of};
ghost use Rattle.def_flow.specs.Problem.{bound, name_of, with_actual};
ghost use Rattle.adj_flow.specs.Rows.{row_of};
ghost use Rattle.adj_symbols_writes.specs.Table.{value_of};
ghost use Rattle.adj_flow.specs.NodeView.{found_at};
ghost use Rattle.adj_flow.specs.Pairs.{pair_of};

use crate::nodes::number;
use crate::row::Part;
use adj_symbols_writes::table::Numbers;
use adj_tree::{Expr, Exprs, Memory, Name};
use std::alloc::Global;

/// The units of a program, with their numbers by name.
#[derive(Clone, Copy)]
pub struct Units<'p, 'a> {
    pub parts: &'p [Part<'a>],
    pub numbers: &'p Numbers<'a>,
}

impl<'p, 'a> Units<'p, 'a> {
    /// The first unit of a name.
    pub fn find(self, name: &Name) -> Option<&'p Part<'a>>
        ensures found { MatchOption result (found_at (map row_of self.entry.parts.now) (value_of name.now self.entry.numbers.now) ≡ None) (λ p. found_at (map row_of self.entry.parts.now) (value_of name.now self.entry.numbers.now) ≡ Some (row_of p.now)) }
    {
        match self.numbers.get(name) {
            Some(number) => self.parts.get(number),
            None => None,
        }
    }
}

// Adds a dummy with its actual, if that is a variable.
fn add_pair<'a>(
    pairs: &mut Vec<(&'a Name, &'a Name)>,
    dummy: &'a Name,
    actual: &'a Expr,
) -> Result<(), Memory>
    ensures added { OnOk result (map pair_of pairs.new.items ≡ map pair_of pairs.old.items ++ with_actual dummy.now (name_of (term_of actual.now)) []) }
{
    match actual {
        Expr::Var(name) => {
            pairs.push((dummy, name))?;
            Ok(())
        }
        Expr::Lit(_)
        | Expr::Elem(_, _)
        | Expr::Neg(_)
        | Expr::Bin(_, _, _)
        | Expr::Pow(_, _)
        | Expr::Power(_, _)
        | Expr::Abs(_) => Ok(()),
    }
}

/// The dummies with their actuals that are variables.
pub fn pairs<'a>(
    alloc: Global,
    dummies: &'a [Name],
    actuals: &'a Exprs,
) -> Result<Vec<(&'a Name, &'a Name)>, Memory>
    ensures pairs { IfOk result (λ v. map pair_of v.items ≡ bound dummies.now (terms_of actuals.now)) }
{
    let mut pairs = Vec::new(alloc);
    let mut rest = actuals;
    for dummy in dummies {
        match rest {
            Exprs::Empty => return Ok(pairs),
            Exprs::More(first, next) => {
                add_pair(&mut pairs, dummy, first)?;
                rest = next;
            }
        }
    }
    Ok(pairs)
}

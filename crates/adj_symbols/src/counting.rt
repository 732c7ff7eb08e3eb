//! How many statements a program has, and how many variables a unit has at most.

ghost use Rattle.std.specs.Prelude.{◌≡◌, map, length};
ghost use Rattle.adj_tree.specs.Size.{capped_u64};
ghost use Rattle.adj_tree.specs.View.{act_of, code_of, procedure_of};
ghost use Rattle.def_names.specs.Statements.{inner, statements};
ghost use Rattle.def_names.specs.StatementsIn.{statements_in};
ghost use Rattle.adj_symbols.specs.Numbers.{widest};

use adj_tree::{Act, NameList, Stmts, Unit};

// How many statements are in a statement. Each of these counts stands still at the greatest number of its type.
#[cycle(count)]
fn count_inner(act: &Act) -> usize
    ensures counted { result ≡ capped_u64 (length (inner (act_of act.now))) }
{
    match act {
        Act::If(_, then, other) => count(then).saturating_add(count(other)),
        Act::Loop(_, _, _, _, body, _) | Act::While(_, body) => count(body),
        Act::Assign(_, _) | Act::Call(_, _) | Act::Run(_) => 0,
    }
}

// How many statements a list has at any depth.
#[cycle(count)]
fn count(list: &Stmts) -> usize
    ensures counted { result ≡ capped_u64 (length (statements (code_of list.now))) }
{
    let mut total = 0usize;
    let mut rest = list;
    while let Stmts::More(row) = rest {
        total = total
            .saturating_add(1)
            .saturating_add(count_inner(&row.first.act));
        rest = &row.rest;
    }
    total
}

/// How many statements the bodies of units have at any depth.
pub(crate) fn statement_count(units: &[Unit]) -> usize
    ensures counted { result ≡ capped_u64 (statements_in 0 (map procedure_of units.now)) }
{
    let mut total = 0usize;
    for unit in units {
        total = total.saturating_add(count(&unit.body));
    }
    total
}

/// The greatest number of names in a list.
pub(crate) fn widest(lists: &[NameList]) -> usize
    ensures widest { result ≡ widest lists.now }
{
    let mut width = 0usize;
    for names in lists {
        width = width.max(names.as_slice().len());
    }
    width
}

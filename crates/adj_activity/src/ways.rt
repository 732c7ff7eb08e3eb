//! The edges of ways on which a unit is called.

ghost use Rattle.std.specs.Prelude.{◌≡◌, ◌++◌, ◌&&◌, ◌||◌, ◌<◌, ◌^◌, ℕ, List, not, is_some, IfOk, OnOk, map, flat_map};
ghost use Rattle.adj_tree.specs.Code.{plain};
ghost use Rattle.adj_tree.specs.View.{term_of, terms_of};
ghost use Rattle.adj_symbols_writes.specs.Table.{value_of};
ghost use Rattle.def_flow.specs.Ways.{is_name, is_actual, assigned_on, passed_on};
ghost use Rattle.adj_flow.specs.Rows.{row_of};
ghost use Rattle.adj_flow.specs.WayView.{deed_of, way_of};
ghost use Rattle.adj_activity.specs.Edges.{way_edges};
ghost use Rattle.adj_activity.specs.Arcs.{call_way};
ghost use Rattle.adj_flow.specs.NodeView.{vars_of};

use adj_flow::{Deed, Part, Way, add_carried, number};
use adj_symbols_writes::table::Numbers;
use adj_tree::{Expr, Exprs, Memory, Name};
use std::alloc::Global;

// Adds the name that an actual is, if it is one.
fn add_name<'a>(passed: &mut Numbers<'a>, actual: &'a Expr) -> Result<(), Memory>
    ensures added { OnOk result ((x : List ℕ) → is_some (value_of x passed.new) ≡ (is_some (value_of x passed.old) || is_name (plain x) (term_of actual.now))) }
{
    match actual {
        Expr::Var(name) => {
            passed.add(name, 0)?;
            Ok(())
        }
        Expr::Lit(_)
        | Expr::Elem(_, _)
        | Expr::Neg(_)
        | Expr::Bin(_, _, _)
        | Expr::Pow(_, _)
        | Expr::Power(_, _)
        | Expr::Abs(_) => Ok(()),
    }
}

// Adds the names that actuals are.
fn add_names<'a>(passed: &mut Numbers<'a>, actuals: &'a Exprs) -> Result<(), Memory>
    ensures added { OnOk result ((x : List ℕ) → is_some (value_of x passed.new) ≡ (is_some (value_of x passed.old) || is_actual (plain x) (terms_of actuals.now))) }
{
    let mut rest = actuals;
    while let Exprs::More(first, next) = rest {
        add_name(passed, first)?;
        rest = next;
    }
    Ok(())
}

// The names that are passed on a way.
fn passed<'a>(alloc: Global, deed: Deed<'a>) -> Result<Numbers<'a>, Memory>
    ensures passed { IfOk result (λ t. (x : List ℕ) → is_some (value_of x t) ≡ passed_on (deed_of deed.entry) (plain x)) }
{
    let mut passed = Numbers::new(alloc);
    if let Deed::Calling(actuals) = deed {
        add_names(&mut passed, actuals)?;
    }
    Ok(passed)
}

// Whether a way carries a variable, where these names are passed on it.
fn is_carried(deed: Deed<'_>, passed: &Numbers<'_>, name: &Name) -> bool
    ensures carried { result ≡ (not (assigned_on (deed_of deed.entry) (plain name.now)) && not (is_some (value_of name.now passed.now))) }
{
    !deed.assigns(name) && passed.get(name).is_none()
}

// Adds the edges of a way.
fn add_way(
    alloc: Global,
    edges: &mut Vec<(usize, usize)>,
    width: usize,
    part: &Part<'_>,
    way: Way<'_>,
) -> Result<(), Memory>
    requires width { width < 2 ^ 30 }
    ensures added { OnOk result (edges.new.items ≡ edges.old.items ++ way_edges width (vars_of (row_of part.now)) (way_of way.entry)) }
{
    let points = (number(way.from), number(way.to));
    let passed = passed(alloc, way.deed)?;
    for name in part.variables.as_slice() {
        let is_carried = is_carried(way.deed, &passed, name);
        add_carried(edges, width, part, points, name, is_carried)?;
    }
    Ok(())
}

// Adds the edges of a way, if a unit is called on it.
fn add_call_way(
    alloc: Global,
    edges: &mut Vec<(usize, usize)>,
    width: usize,
    part: &Part<'_>,
    way: Way<'_>,
) -> Result<(), Memory>
    requires width { width < 2 ^ 30 }
    ensures added { OnOk result (edges.new.items ≡ edges.old.items ++ call_way width (row_of part.now) (way_of way.entry)) }
{
    match way.deed {
        Deed::Calling(_) => add_way(alloc, edges, width, part, way),
        Deed::Passing | Deed::Assigning(_, _) => Ok(()),
    }
}

/// Adds the edges of the ways of a unit on which a unit is called.
pub(crate) fn add_call_ways(
    alloc: Global,
    edges: &mut Vec<(usize, usize)>,
    width: usize,
    part: &Part<'_>,
) -> Result<(), Memory>
    requires width { width < 2 ^ 30 }
    ensures added { OnOk result (edges.new.items ≡ edges.old.items ++ flat_map (call_way width (row_of part.now)) (map way_of part.now.ways.items)) }
{
    for way in part.ways.as_slice() {
        add_call_way(alloc, edges, width, part, *way)?;
    }
    Ok(())
}

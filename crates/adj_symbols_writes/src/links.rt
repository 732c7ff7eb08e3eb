//! Where the search for the dummies of a set starts, and the edges along which it goes.

ghost use Rattle.std.specs.Prelude.{◌≡◌, ◌++◌, ◌+◌, ◌<◌, ◌^◌, map, flat_map, length, IfOk, OnOk};
ghost use Rattle.adj_tree.specs.View.{term_of, terms_of, act_of, procedure_of};
ghost use Rattle.def_names.specs.WriteFaults.{named_by};
ghost use Rattle.adj_symbols_writes.specs.Graph.{placed_of, list_of, nodes_of, starts, edge_to, edge_from, same_edges, place_in, actual_edges, act_edges, unit_edges, edges, found_at};
ghost use Rattle.adj_symbols_writes.specs.Names.{direct};
ghost use Rattle.adj_symbols_writes.specs.Table.{value_of};
ghost use Rattle.adj_symbols_writes.specs.View.{seen, names_seen};

use crate::dummies::{Dummies, find};
use crate::names::direct;
use crate::side::Side;
use crate::statements::statements;
use crate::table::Numbers;
use adj_tree::{Act, Expr, Exprs, Memory, Name, Stmt};
use std::alloc::Global;

// Adds a node, if there is one.
fn add_node(node: Option<usize>, out: &mut Vec<usize>) -> Result<(), Memory>
    ensures added { OnOk result (out.new.items ≡ out.old.items ++ list_of node) }
{
    if let Some(node) = node {
        out.push(node)?;
    }
    Ok(())
}

// Adds an edge from a node, if there is one.
fn add_edge_from(
    from: Option<usize>,
    to: usize,
    out: &mut Vec<(usize, usize)>,
) -> Result<(), Memory>
    ensures added { OnOk result (out.new.items ≡ out.old.items ++ edge_from from to) }
{
    if let Some(from) = from {
        out.push((from, to))?;
    }
    Ok(())
}

// Adds the nodes of those of some names that are dummies.
fn add_nodes(dummies: &Dummies<'_>, names: &[&Name], out: &mut Vec<usize>) -> Result<(), Memory>
    ensures added { OnOk result (out.new.items ≡ out.old.items ++ nodes_of (placed_of dummies.now) (names_seen names.now)) }
{
    for name in names {
        add_node(dummies.node(name), out)?;
    }
    Ok(())
}

// Adds the nodes of what a unit writes or reads without its calls.
fn add_starts(
    alloc: Global,
    side: Side,
    dummies: &Dummies<'_>,
    out: &mut Vec<usize>,
) -> Result<(), Memory>
    ensures added { OnOk result (out.new.items ≡ out.old.items ++ nodes_of (placed_of dummies.now) (direct side (placed_of dummies.now).1)) }
{
    let names = direct(alloc, side, dummies.unit())?;
    add_nodes(dummies, names.as_slice(), out)
}

/// The nodes of what units write or read without their calls.
pub(crate) fn starts(alloc: Global, side: Side, units: &[Dummies<'_>]) -> Result<Vec<usize>, Memory>
    ensures starts { IfOk result (λ v. v.items ≡ starts (direct side) (map placed_of units.now)) }
{
    let mut starts = Vec::new(alloc);
    for dummies in units {
        add_starts(alloc, side, dummies, &mut starts)?;
    }
    Ok(starts)
}

// Adds the edges from the first dummy of each name to all of that name.
fn add_same(dummies: &Dummies<'_>, out: &mut Vec<(usize, usize)>) -> Result<(), Memory>
    ensures added { OnOk result (out.new.items ≡ out.old.items ++ same_edges (placed_of dummies.now) dummies.now.first dummies.now.unit.dummies) }
{
    let mut node = dummies.first();
    let unit = dummies.unit();
    for name in unit.dummies.as_slice() {
        add_edge_from(dummies.node(name), node, out)?;
        node += 1;
    }
    Ok(())
}

// The node of the dummy that an actual names, whole or by an element.
fn place_in(dummies: &Dummies<'_>, actual: &Expr) -> Option<usize>
    ensures place { result ≡ place_in (placed_of dummies.now) (named_by (term_of actual.now)) }
{
    match actual {
        Expr::Var(name) | Expr::Elem(name, _) => dummies.node(name),
        Expr::Lit(_)
        | Expr::Neg(_)
        | Expr::Bin(_, _, _)
        | Expr::Pow(_, _)
        | Expr::Power(_, _)
        | Expr::Abs(_) => None,
    }
}

// Adds an edge to the dummy that an actual names, if it names one.
fn add_actual(
    dummies: &Dummies<'_>,
    node: usize,
    actual: &Expr,
    out: &mut Vec<(usize, usize)>,
) -> Result<(), Memory>
    ensures added { OnOk result (out.new.items ≡ out.old.items ++ edge_to node (place_in (placed_of dummies.now) (named_by (term_of actual.now)))) }
{
    if let Some(place) = place_in(dummies, actual) {
        out.push((node, place))?;
    }
    Ok(())
}

// Adds the edges from the dummies of a called unit to their actuals.
fn add_actuals(
    dummies: &Dummies<'_>,
    called: &Dummies<'_>,
    actuals: &Exprs,
    out: &mut Vec<(usize, usize)>,
) -> Result<(), Memory>
    ensures added { OnOk result (out.new.items ≡ out.old.items ++ actual_edges (placed_of dummies.now) called.now.first called.now.unit.dummies (terms_of actuals.now)) }
{
    let mut node = called.first();
    let mut rest = actuals;
    let unit = called.unit();
    for _dummy in unit.dummies.as_slice() {
        match rest {
            Exprs::Empty => return Ok(()),
            Exprs::More(first, next) => {
                add_actual(dummies, node, first, out)?;
                rest = next;
            }
        }
        node += 1;
    }
    Ok(())
}

// Adds the edges of a statement.
fn add_act(
    units: &[Dummies<'_>],
    numbers: &Numbers<'_>,
    dummies: &Dummies<'_>,
    act: &Act,
    out: &mut Vec<(usize, usize)>,
) -> Result<(), Memory>
    ensures added { OnOk result (out.new.items ≡ out.old.items ++ act_edges (λ x. found_at (map placed_of units.now) (value_of x numbers.now)) (placed_of dummies.now) (act_of act.now)) }
{
    match act {
        Act::Call(name, actuals) => match find(units, numbers, name) {
            Some(called) => add_actuals(dummies, called, actuals, out),
            None => Ok(()),
        },
        Act::Assign(_, _)
        | Act::If(_, _, _)
        | Act::Loop(_, _, _, _, _, _)
        | Act::While(_, _)
        | Act::Run(_) => Ok(()),
    }
}

// Adds the edges of statements.
fn add_acts(
    units: &[Dummies<'_>],
    numbers: &Numbers<'_>,
    dummies: &Dummies<'_>,
    stmts: &[&Stmt],
    out: &mut Vec<(usize, usize)>,
) -> Result<(), Memory>
    ensures added { OnOk result (out.new.items ≡ out.old.items ++ flat_map (λ s. act_edges (λ x. found_at (map placed_of units.now) (value_of x numbers.now)) (placed_of dummies.now) s.1) (seen stmts.now)) }
{
    for stmt in stmts {
        add_act(units, numbers, dummies, &stmt.act, out)?;
    }
    Ok(())
}

// Adds the edges of a unit.
fn add_unit(
    alloc: Global,
    units: &[Dummies<'_>],
    numbers: &Numbers<'_>,
    dummies: &Dummies<'_>,
    out: &mut Vec<(usize, usize)>,
) -> Result<(), Memory>
    ensures added { OnOk result (out.new.items ≡ out.old.items ++ unit_edges (λ x. found_at (map placed_of units.now) (value_of x numbers.now)) (placed_of dummies.now)) }
{
    add_same(dummies, out)?;
    let stmts = statements(alloc, &dummies.unit().body)?;
    add_acts(units, numbers, dummies, stmts.as_slice(), out)
}

/// The edges of all units.
pub(crate) fn edges(
    alloc: Global,
    units: &[Dummies<'_>],
    numbers: &Numbers<'_>,
) -> Result<Vec<(usize, usize)>, Memory>
    ensures edges { IfOk result (λ v. v.items ≡ edges (λ x. found_at (map placed_of units.now) (value_of x numbers.now)) (map placed_of units.now)) }
{
    let mut edges = Vec::new(alloc);
    for dummies in units {
        add_unit(alloc, units, numbers, dummies, &mut edges)?;
    }
    Ok(edges)
}

//! The edges of calls.

ghost use Rattle.std.specs.Prelude.{◌≡◌, ◌++◌, ◌<◌, ◌^◌, OnOk, None, Some, map, flat_map};
ghost use Rattle.adj_tree.specs.Code.{plain};
ghost use Rattle.adj_tree.specs.View.{act_of};
ghost use Rattle.adj_flow.specs.Rows.{row_of};
ghost use Rattle.adj_symbols_writes.specs.Table.{value_of};
ghost use Rattle.adj_activity.specs.Edges.{called_edges, lent_edges};
ghost use Rattle.adj_flow.specs.NodeView.{vars_of, told_at, found_at};
ghost use Rattle.adj_flow.specs.Pairs.{pair_of};
ghost use Rattle.adj_activity.specs.View.{pair_edges, call_edges};

use crate::steps::{Site, Steps};
use adj_flow::actuals::{Units, pairs};
use adj_flow::{End, Part, Point, add_edge, number, told_by_bit};
use adj_tree::{Act, BitFlags, Memory, Name};
use std::alloc::Global;

// Adds the edges of flow between a dummy and its actual in the call of a number.
fn add_passed(
    edges: &mut Vec<(usize, usize)>,
    width: usize,
    caller: &Part<'_>,
    called: &Part<'_>,
    statement: usize,
    pair: (&Name, &Name),
) -> Result<(), Memory>
    requires width { width < 2 ^ 30 }
    requires statement { statement < 2 ^ 30 }
    ensures added { OnOk result (edges.new.items ≡ edges.old.items ++ called_edges width (vars_of (row_of caller.now)) (λ g. vars_of (row_of called.now)) statement (row_of called.now).part pair.entry.0.now (plain pair.entry.1.now)) }
{
    let before = number(Point::Before(statement));
    let after = number(Point::After(statement));
    let (dummy, actual) = pair;
    let given = End {
        part: caller,
        point: before,
        name: actual,
    };
    let taken = End {
        part: called,
        point: called.entry,
        name: dummy,
    };
    add_edge(edges, width, given, taken)?;
    let left = End {
        part: called,
        point: called.end,
        name: dummy,
    };
    let back = End {
        part: caller,
        point: after,
        name: actual,
    };
    add_edge(edges, width, left, back)
}

// Adds the edges between the shadows of a dummy and of its actual.
fn add_lent(
    edges: &mut Vec<(usize, usize)>,
    width: usize,
    varied: &BitFlags,
    caller: &Part<'_>,
    called: &Part<'_>,
    pair: (&Name, &Name),
) -> Result<(), Memory>
    requires width { width < 2 ^ 30 }
    ensures added { OnOk result (edges.new.items ≡ edges.old.items ++ lent_edges width (vars_of (row_of caller.now)) (λ g. vars_of (row_of called.now)) (told_at varied.now width (row_of called.now)) (row_of caller.now).part.number (row_of called.now).part pair.entry.0.now (plain pair.entry.1.now)) }
{
    let (dummy, actual) = pair;
    let entry = End {
        part: called,
        point: called.entry,
        name: dummy,
    };
    let taken = End {
        part: called,
        point: called.number,
        name: dummy,
    };
    let given = End {
        part: caller,
        point: caller.number,
        name: actual,
    };
    add_edge(edges, width, taken, given)?;
    if told_by_bit(varied, width, entry) {
        add_edge(edges, width, given, taken)?;
    }
    Ok(())
}

// Adds the edges of a dummy and its actual in the call of a number.
fn add_bound(
    edges: &mut Vec<(usize, usize)>,
    site: Site<'_, '_, '_>,
    called: &Part<'_>,
    statement: usize,
    pair: (&Name, &Name),
) -> Result<(), Memory>
    requires statement { statement < 2 ^ 30 }
    ensures added { OnOk result (edges.new.items ≡ edges.old.items ++ pair_edges site.entry.steps site.entry.width (row_of site.entry.part.now) statement (row_of called.now) pair.entry.0.now (plain pair.entry.1.now)) }
{
    match site.steps {
        Steps::Flow => add_passed(edges, site.width, site.part, called, statement, pair),
        Steps::Shadows(varied) => add_lent(edges, site.width, varied, site.part, called, pair),
        Steps::Adjoints => Ok(()),
    }
}

// Adds the edges of the call of a unit.
fn add_pairs(
    edges: &mut Vec<(usize, usize)>,
    site: Site<'_, '_, '_>,
    called: &Part<'_>,
    statement: usize,
    pairs: &[(&Name, &Name)],
) -> Result<(), Memory>
    requires statement { statement < 2 ^ 30 }
    ensures added { OnOk result (edges.new.items ≡ edges.old.items ++ flat_map (λ b. pair_edges site.entry.steps site.entry.width (row_of site.entry.part.now) statement (row_of called.now) b.0 b.1) (map pair_of pairs.now)) }
{
    for pair in pairs {
        add_bound(edges, site, called, statement, *pair)?;
    }
    Ok(())
}

/// Adds the edges of a statement that is a call.
pub(crate) fn add_call(
    alloc: Global,
    edges: &mut Vec<(usize, usize)>,
    units: Units<'_, '_>,
    site: Site<'_, '_, '_>,
    statement: usize,
    act: &Act,
) -> Result<(), Memory>
    requires statement { statement < 2 ^ 30 }
    ensures added { OnOk result (edges.new.items ≡ edges.old.items ++ call_edges site.entry.steps (λ x. found_at (map row_of units.entry.parts.now) (value_of x units.entry.numbers.now)) site.entry.width (row_of site.entry.part.now) statement (act_of act.now)) }
{
    match act {
        Act::Call(name, actuals) => match units.find(name) {
            Some(called) => {
                let pairs = pairs(alloc, called.unit.dummies.as_slice(), actuals)?;
                add_pairs(edges, site, called, statement, pairs.as_slice())
            }
            None => Ok(()),
        },
        Act::Assign(_, _)
        | Act::If(_, _, _)
        | Act::Loop(_, _, _, _, _, _)
        | Act::While(_, _)
        | Act::Run(_) => Ok(()),
    }
}

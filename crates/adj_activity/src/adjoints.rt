//! The edges between what has an adjoint: statements, which have the even numbers, and units, which have the odd ones.

ghost use Rattle.std.specs.Prelude.{◌≡◌, ◌+◌, ◌*◌, ◌<◌, ◌^◌, ◌++◌, OnOk, map};
ghost use Rattle.adj_tree.specs.View.{act_of};
ghost use Rattle.def_flow.specs.Rules.{holders};
ghost use Rattle.adj_symbols_writes.specs.Table.{value_of};
ghost use Rattle.adj_flow.specs.Low.{IsLow};
ghost use Rattle.adj_flow.specs.Rows.{row_of};
ghost use Rattle.adj_flow.specs.View.{place_of, standing_of};
ghost use Rattle.adj_flow.specs.NodeView.{found_at};
ghost use Rattle.adj_activity.specs.View.{maker_edges, made_edges};

use adj_flow::actuals::Units;
use adj_flow::{Part, Place, Standing};
use adj_tree::{Act, Memory};

/// The number of a statement.
pub(crate) fn statement(number: usize) -> usize
    requires low { number < 2 ^ 30 }
    ensures number { result ≡ 2 * number }
{
    2 * number
}

// The number of a unit.
fn unit(number: usize) -> usize
    requires low { number < 2 ^ 30 }
    ensures number { result ≡ 2 * number + 1 }
{
    2 * number + 1
}

// Adds the edge to the statement that holds what stands at a place.
fn add_holder(edges: &mut Vec<(usize, usize)>, from: usize, place: Place<'_>) -> Result<(), Memory>
    requires low { IsLow place }
    ensures added { OnOk result (edges.new.items ≡ edges.old.items ++ map (λ i. (from, 2 * i)) (holders (place_of place.entry))) }
{
    match place {
        Place::Outermost => Ok(()),
        Place::PartOf(holder) | Place::TurnOf(holder, _) => {
            edges.push((from, statement(holder)))?;
            Ok(())
        }
    }
}

// Adds the edge from the unit that a statement calls.
fn add_maker(
    edges: &mut Vec<(usize, usize)>,
    units: Units<'_, '_>,
    to: usize,
    act: &Act,
) -> Result<(), Memory>
    ensures added { OnOk result (edges.new.items ≡ edges.old.items ++ maker_edges (λ x. found_at (map row_of units.entry.parts.now) (value_of x units.entry.numbers.now)) to (act_of act.now)) }
{
    match act {
        Act::Call(name, _) => match units.find(name) {
            Some(called) => {
                edges.push((unit(called.number), to))?;
                Ok(())
            }
            None => Ok(()),
        },
        Act::Assign(_, _)
        | Act::If(_, _, _)
        | Act::Loop(_, _, _, _, _, _)
        | Act::While(_, _)
        | Act::Run(_) => Ok(()),
    }
}

/// Adds the edges of a statement in a unit.
pub(crate) fn add_made(
    edges: &mut Vec<(usize, usize)>,
    units: Units<'_, '_>,
    part: &Part<'_>,
    standing: &Standing<'_>,
) -> Result<(), Memory>
    ensures added { OnOk result (edges.new.items ≡ edges.old.items ++ made_edges (λ x. found_at (map row_of units.entry.parts.now) (value_of x units.entry.numbers.now)) (row_of part.now).part.number (standing_of standing.now)) }
{
    let at = statement(standing.number);
    add_holder(edges, at, standing.place)?;
    edges.push((at, unit(part.number)))?;
    add_maker(edges, units, at, standing.act)
}

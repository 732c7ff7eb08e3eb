//! Which statements are adjointed by themselves.

ghost use Rattle.std.specs.Prelude.{◌≡◌, ◌++◌, ◌∷◌, ◌&&◌, ◌||◌, ◌<◌, ◌^◌, [], not, IfOk, OnOk, map};
ghost use Rattle.adj_tree.specs.Code.{plain};
ghost use Rattle.adj_tree.specs.View.{act_of, terms_of};
ghost use Rattle.def_sweep.specs.Facts.{whole, is_adjointed};
ghost use Rattle.def_flow.specs.Activity.{activity_marks, statement};
ghost use Rattle.def_names.specs.VariableLists.{list_if};
ghost use Rattle.adj_flow.specs.Rows.{row_of};
ghost use Rattle.adj_flow.specs.View.{standing_of};
ghost use Rattle.adj_reach.specs.Edges.{flag};
ghost use Rattle.adj_activity.specs.Edges.{adjoint_number};
ghost use Rattle.adj_activity.specs.Starts.{row_activity, outright_at, outright_in, all_outright};

use crate::adjoints::statement;
use crate::found::Found;
use adj_flow::{End, Flow, Occurrences, Part, Point, Standing, number, told_by_bit};
use adj_reach::flag_at;
use adj_tree::{Act, Exprs, Memory, Name, Place};
use std::alloc::Global;

// Whether an assignment to a place assigns its variable whole.
fn is_whole(target: &Place) -> bool
    ensures whole { result ≡ whole (plain target.now.name) (terms_of target.now.subs) (plain target.now.name) }
{
    match target.subs {
        Exprs::Empty => true,
        Exprs::More(_, _) => false,
    }
}

// Whether an assignment has an adjoint, by whether its target has a shadow and is assigned whole, was varied before it, and is varied and useful after it.
fn decided(shadowed: bool, whole: bool, before: bool, after: bool, useful: bool) -> bool
    ensures decided { result ≡ (shadowed && ((after && useful) || (whole && (before && not after)))) }
{
    shadowed && (after && useful || whole && before && !after)
}

// Whether the assignment of a number has an adjoint.
fn is_adjointed(
    found: Found<'_>,
    width: usize,
    part: &Part<'_>,
    number_of: usize,
    target: &Place,
) -> bool
    requires width { width < 2 ^ 30 }
    requires number { number_of < 2 ^ 30 }
    ensures is { result ≡ is_adjointed (activity_marks (row_activity found.entry width (row_of part.now)) (row_of part.now).part.number) number_of (plain target.now.name) (terms_of target.now.subs) }
{
    let name = &target.name;
    let occurrences = Occurrences {
        varied: found.varied,
        shadowed: found.shadowed,
        width,
        part,
        statement: number_of,
    };
    let after = End {
        part,
        point: number(Point::After(number_of)),
        name,
    };
    let has_shadow = occurrences.has_shadow(name);
    let was_varied = occurrences.was_varied(name);
    let is_varied = told_by_bit(found.varied, width, after);
    let is_useful = told_by_bit(found.useful, width, after);
    let whole = is_whole(target);
    decided(has_shadow, whole, was_varied, is_varied, is_useful)
}

// Adds the number of a statement, if it is adjointed.
fn add_if(nodes: &mut Vec<usize>, number: usize, is_adjointed: bool) -> Result<(), Memory>
    requires number { number < 2 ^ 30 }
    ensures added { OnOk result (nodes.new.items ≡ nodes.old.items ++ map adjoint_number (list_if is_adjointed (statement number ∷ []))) }
{
    if is_adjointed {
        nodes.push(statement(number))?;
    }
    Ok(())
}

// Adds the number of a statement, if it is adjointed by itself.
fn add_standing(
    nodes: &mut Vec<usize>,
    found: Found<'_>,
    width: usize,
    part: &Part<'_>,
    standing: &Standing<'_>,
) -> Result<(), Memory>
    requires width { width < 2 ^ 30 }
    ensures added { OnOk result (nodes.new.items ≡ nodes.old.items ++ outright_at found.entry width (row_of part.now) (standing_of standing.now)) }
{
    let number = standing.number;
    match standing.act {
        Act::Assign(target, _) => {
            let is_adjointed = is_adjointed(found, width, part, number, target);
            add_if(nodes, number, is_adjointed)
        }
        Act::Loop(x, _, _, _, _, _) => {
            let occurrences = Occurrences {
                varied: found.varied,
                shadowed: found.shadowed,
                width,
                part,
                statement: number,
            };
            let is_adjointed = occurrences.resets(x);
            add_if(nodes, number, is_adjointed)
        }
        Act::If(_, _, _) | Act::While(_, _) | Act::Call(_, _) | Act::Run(_) => Ok(()),
    }
}

// Adds the numbers of the statements of a unit that are adjointed by themselves.
fn add_unit(
    nodes: &mut Vec<usize>,
    found: Found<'_>,
    width: usize,
    part: &Part<'_>,
) -> Result<(), Memory>
    requires width { width < 2 ^ 30 }
    ensures added { OnOk result (nodes.new.items ≡ nodes.old.items ++ outright_in found.entry width (row_of part.now)) }
{
    for standing in part.statements.as_slice() {
        add_standing(nodes, found, width, part, standing)?;
    }
    Ok(())
}

// The same, if the unit takes part.
fn add_taking(
    nodes: &mut Vec<usize>,
    found: Found<'_>,
    width: usize,
    part: &Part<'_>,
    takes_part: bool,
) -> Result<(), Memory>
    requires width { width < 2 ^ 30 }
    ensures added { OnOk result (nodes.new.items ≡ nodes.old.items ++ list_if takes_part (outright_in found.entry width (row_of part.now))) }
{
    if takes_part {
        add_unit(nodes, found, width, part)?;
    }
    Ok(())
}

/// The numbers of all statements that are adjointed by themselves.
pub(crate) fn outright(
    alloc: Global,
    flow: &Flow<'_>,
    found: Found<'_>,
) -> Result<Vec<usize>, Memory>
    ensures outright { IfOk result (λ v. v.items ≡ all_outright found.entry (map row_of flow.now.parts.items) flow.now.taking flow.now.width) }
{
    let mut nodes = Vec::new(alloc);
    let taking = flow.taking.as_slice();
    for part in flow.parts.as_slice() {
        let takes_part = flag_at(taking, part.number);
        add_taking(&mut nodes, found, flow.width, part, takes_part)?;
    }
    Ok(nodes)
}

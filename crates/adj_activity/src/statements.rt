//! The edges of assignments and calls.

ghost use Rattle.std.specs.Prelude.{◌≡◌, ◌+◌, ◌*◌, ◌++◌, ◌<◌, ◌^◌, OnOk, flat_map};
ghost use Rattle.adj_tree.specs.Code.{plain};
ghost use Rattle.adj_tree.specs.View.{term_of, act_of};
ghost use Rattle.def_names.specs.VariableLists.{occurring_in};
ghost use Rattle.adj_symbols_writes.specs.View.{vars_seen};
ghost use Rattle.adj_flow.specs.Rows.{row_of};
ghost use Rattle.adj_flow.specs.Nodes.{linked, node_in};
ghost use Rattle.adj_activity.specs.Edges.{assigned_edges};
ghost use Rattle.adj_flow.specs.NodeView.{vars_of};

use adj_flow::{End, Part, Point, add_edge, number};
use adj_tree::{Act, Expr, Memory, Name, Op};
use std::alloc::Global;

// Adds the variables at differentiable occurrences.
fn add_occurring<'a>(term: &'a Expr, out: &mut Vec<&'a Name>) -> Result<(), Memory>
    ensures added { OnOk result (vars_seen out.new.items ≡ vars_seen out.old.items ++ occurring_in (term_of term.now)) }
{
    match term {
        Expr::Var(name) | Expr::Elem(name, _) => {
            out.push(name)?;
            Ok(())
        }
        Expr::Neg(a) | Expr::Power(a, _) => add_occurring(a, out),
        Expr::Pow(a, exponent) => {
            if *exponent == 0 {
                Ok(())
            } else {
                add_occurring(a, out)
            }
        }
        Expr::Bin(op, a, b) => match op {
            Op::Add | Op::Sub | Op::Mul => {
                add_occurring(a, out)?;
                add_occurring(b, out)
            }
            Op::Quot | Op::Mod | Op::Max | Op::Min => Ok(()),
        },
        Expr::Lit(_) | Expr::Abs(_) => Ok(()),
    }
}

// Adds the edges from these variables before the statement of a number to its target after it.
fn add_assigned(
    edges: &mut Vec<(usize, usize)>,
    width: usize,
    part: &Part<'_>,
    statement: usize,
    target: &Name,
    names: &[&Name],
) -> Result<(), Memory>
    requires width { width < 2 ^ 30 }
    requires statement { statement < 2 ^ 30 }
    ensures added { OnOk result (edges.new.items ≡ edges.old.items ++ flat_map (λ v. linked (node_in width (vars_of (row_of part.now)) (3 * statement, v)) (node_in width (vars_of (row_of part.now)) (3 * statement + 1, plain target.now))) (vars_seen names.now)) }
{
    let before = number(Point::Before(statement));
    let after = number(Point::After(statement));
    let to = End {
        part,
        point: after,
        name: target,
    };
    for name in names {
        let from = End {
            part,
            point: before,
            name,
        };
        add_edge(edges, width, from, to)?;
    }
    Ok(())
}

/// Adds the edges of a statement that is an assignment.
pub(crate) fn add_assignment(
    alloc: Global,
    edges: &mut Vec<(usize, usize)>,
    width: usize,
    part: &Part<'_>,
    statement: usize,
    act: &Act,
) -> Result<(), Memory>
    requires width { width < 2 ^ 30 }
    requires statement { statement < 2 ^ 30 }
    ensures added { OnOk result (edges.new.items ≡ edges.old.items ++ assigned_edges width (vars_of (row_of part.now)) statement (act_of act.now)) }
{
    match act {
        Act::Assign(target, right) => {
            let mut names = Vec::new(alloc);
            add_occurring(right, &mut names)?;
            add_assigned(
                edges,
                width,
                part,
                statement,
                &target.name,
                names.as_slice(),
            )
        }
        Act::Call(_, _)
        | Act::If(_, _, _)
        | Act::Loop(_, _, _, _, _, _)
        | Act::While(_, _)
        | Act::Run(_) => Ok(()),
    }
}

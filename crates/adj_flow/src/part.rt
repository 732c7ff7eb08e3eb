//! Which units take part: those that calls reach from the head.

ghost use Rattle.std.specs.Prelude.{◌≡◌, ◌↔◌, ◌+◌, ◌<◌, ◌^◌, ◌++◌, ◌∷◌, [], ℕ, List, false, Contains, IfOk, IsTrue, OnOk, length, map};
ghost use Rattle.adj_tree.specs.View.{act_of, procedure_of};
ghost use Rattle.def_flow.specs.Parts as spec;
ghost use Rattle.def_flow.specs.Problem.{TakesPart};
ghost use Rattle.adj_reach.specs.Edges.{flag};
ghost use Rattle.adj_symbols_writes.specs.Graph.{number_from};
ghost use Rattle.adj_symbols_writes.specs.Table.{value_of};
ghost use Rattle.adj_flow.specs.Calls.{called_by, with_call, calls_in, calls_of};
ghost use Rattle.adj_flow.specs.Rows.{row_of, rows};
ghost use Rattle.adj_flow.specs.View.{standing_of};

use crate::row::Part;
use crate::standing::Standing;
use adj_reach::reach;
use adj_symbols_writes::table::Numbers;
use adj_tree::{Act, Flags, Memory, Unit};
use std::alloc::Global;

// The number of the unit that a statement calls.
fn called_by(numbers: &Numbers<'_>, act: &Act) -> Option<usize>
    ensures called { result ≡ called_by (λ x. value_of x numbers.now) (act_of act.now) }
{
    match act {
        Act::Call(name, _) => numbers.get(name),
        Act::Assign(_, _)
        | Act::If(_, _, _)
        | Act::Loop(_, _, _, _, _, _)
        | Act::While(_, _)
        | Act::Run(_) => None,
    }
}

// Adds an edge to a unit, if there is one.
fn add_call(
    edges: &mut Vec<(usize, usize)>,
    number: usize,
    callee: Option<usize>,
) -> Result<(), Memory>
    ensures added { OnOk result (edges.new.items ≡ edges.old.items ++ with_call number callee []) }
{
    if let Some(callee) = callee {
        edges.push((number, callee))?;
    }
    Ok(())
}

// Adds an edge for each call among the statements of the unit with this number.
fn add_calls(
    edges: &mut Vec<(usize, usize)>,
    numbers: &Numbers<'_>,
    number: usize,
    statements: &[Standing],
) -> Result<(), Memory>
    ensures added { OnOk result (edges.new.items ≡ edges.old.items ++ calls_in (λ x. value_of x numbers.now) number (map standing_of statements.now)) }
{
    for statement in statements {
        add_call(edges, number, called_by(numbers, statement.act))?;
    }
    Ok(())
}

// An edge for each call.
fn calls(
    alloc: Global,
    parts: &[Part<'_>],
    numbers: &Numbers<'_>,
) -> Result<Vec<(usize, usize)>, Memory>
    ensures edges { IfOk result (λ edges. edges.items ≡ calls_of (λ x. value_of x numbers.now) (map row_of parts.now)) }
{
    let mut edges = Vec::new(alloc);
    for part in parts {
        add_calls(&mut edges, numbers, part.number, part.statements.as_slice())?;
    }
    Ok(edges)
}

/// Which of some units take part where the unit of this number is the head, by number, where names give these numbers.
pub fn taking_part(
    alloc: Global,
    units: &[Unit],
    parts: &[Part<'_>],
    numbers: &Numbers<'_>,
    head: usize,
) -> Result<Flags, Memory>
    requires rows { (vss : List (List (List ℕ))) × (map row_of parts.now ≡ rows vss (map procedure_of units.now)) }
    requires numbers { (x : List ℕ) → value_of x numbers.now ≡ number_from 0 (map procedure_of units.now) x }
    requires room { length units.now + 1 < 2 ^ 64 }
    requires head { head < length units.now }
    ensures count { IfOk result (λ flags. length flags ≡ length units.now) }
    ensures exact { IfOk result (λ flags. (g : spec.Part) → Contains (spec.parts (map procedure_of units.now)) g →
        (IsTrue (flag flags g.number) ↔ TakesPart (record { units = map procedure_of units.now; head = head; vars = []; outvars = []; split = λ n. false }) g)) }
{
    let edges = calls(alloc, parts, numbers)?;
    let start = [head];
    let flags = reach(alloc, units.len(), edges.as_slice(), &start)?;
    Ok(flags)
}

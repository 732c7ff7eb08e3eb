//! CALLs that lie on cycles.

ghost use Rattle.std.specs.Prelude.{◌≡◌, ◌++◌, ◌+◌, ◌<◌, ◌^◌, ℕ, true, Option, length, map, flat_map, is_some, IfOk, OnOk};
ghost use Rattle.adj_tree.specs.View.{act_of, procedure_of};
ghost use Rattle.def_names.specs.Calls.{call_in, calls, calls_from, calls_lead};
ghost use Rattle.def_names.specs.ChainFaults.{cycles};
ghost use Rattle.def_names.specs.Fault.{fault, faults_if, first_of, sooner};
ghost use Rattle.adj_symbols.specs.Graph.{edge_of, edges_from, call_edges};
ghost use Rattle.adj_symbols_writes.specs.Graph.{number_from};

use crate::first::First;
use crate::graph::Graph;
use crate::outline::Outline;
use crate::scope::Scope;
use adj_tree::{Act, Code, Memory, Name};
use std::alloc::Global;

// Adds the edge of a statement, where it is a CALL of a unit.
fn add_edge(
    scope: &Scope<'_>,
    from: Option<usize>,
    act: &Act,
    edges: &mut Vec<(usize, usize)>,
) -> Result<(), Memory>
    ensures { OnOk result (edges.new.items ≡ edges.old.items ++ flat_map (λ c. edge_of from (number_from 0 (map procedure_of scope.now) c.0)) (call_in (act_of act.now))) }
{
    let Act::Call(name, _) = act else {
        return Ok(());
    };
    if let (Some(from), Some(to)) = (from, scope.number(name)) {
        edges.push((from, to))?;
    }
    Ok(())
}

// Adds the edges from a number to the units that a unit calls.
fn add_edges(
    scope: &Scope<'_>,
    from: Option<usize>,
    outline: &Outline<'_>,
    edges: &mut Vec<(usize, usize)>,
) -> Result<(), Memory>
    ensures { OnOk result (edges.new.items ≡ edges.old.items ++ edges_from (map procedure_of scope.now) from (calls (procedure_of outline.now))) }
{
    for stmt in outline.statements() {
        add_edge(scope, from, &stmt.act, edges)?;
    }
    Ok(())
}

// Adds the edges from the unit of a name.
fn add_named_edges(
    scope: &Scope<'_>,
    name: &Name,
    edges: &mut Vec<(usize, usize)>,
) -> Result<(), Memory>
    ensures { OnOk result (edges.new.items ≡ edges.old.items ++ edges_from (map procedure_of scope.now) (number_from 0 (map procedure_of scope.now) name.now) (calls_from (map procedure_of scope.now) name.now)) }
{
    match scope.find(name) {
        Some(outline) => add_edges(scope, scope.number(name), outline, edges),
        None => Ok(()),
    }
}

// The edges from each unit to those that it calls.
fn all_edges(alloc: Global, scope: &Scope<'_>) -> Result<Vec<(usize, usize)>, Memory>
    ensures { IfOk result (λ v. v.items ≡ call_edges (map procedure_of scope.now)) }
{
    let mut edges = Vec::new(alloc);
    for outline in scope.outlines() {
        add_named_edges(scope, &outline.unit().name, &mut edges)?;
    }
    Ok(edges)
}

// Whether calls lead from the unit of a name to that of another, which is there.
fn calls_lead(
    alloc: Global,
    scope: &Scope<'_>,
    graph: &Graph,
    from: &Name,
    to: &Name,
) -> Result<bool, Memory>
    requires nodes { graph.now.nodes ≡ length (map procedure_of scope.now) }
    requires edges { graph.now.edges ≡ call_edges (map procedure_of scope.now) }
    requires unit { is_some (number_from 0 (map procedure_of scope.now) to.now) ≡ true }
    ensures { IfOk result (λ b. b ≡ calls_lead (map procedure_of scope.now) from.now to.now) }
{
    match (scope.number(from), scope.number(to)) {
        (Some(first), Some(last)) => graph.leads(alloc, first, last),
        (None, _) | (_, None) => Ok(false),
    }
}

// Whether a statement is a CALL on a cycle through the unit of a name, in which it stands.
fn is_on_cycle(
    alloc: Global,
    scope: &Scope<'_>,
    graph: &Graph,
    name: &Name,
    act: &Act,
) -> Result<bool, Memory>
    requires nodes { graph.now.nodes ≡ length (map procedure_of scope.now) }
    requires edges { graph.now.edges ≡ call_edges (map procedure_of scope.now) }
    requires unit { is_some (number_from 0 (map procedure_of scope.now) name.now) ≡ true }
    ensures { IfOk result (λ b. (line : ℕ) → faults_if b (fault 16 line) ≡ flat_map (λ c. faults_if (calls_lead (map procedure_of scope.now) c.0 name.now) (fault 16 line)) (call_in (act_of act.now))) }
{
    match act {
        Act::Call(called, _) => calls_lead(alloc, scope, graph, called, name),
        Act::Assign(_, _)
        | Act::If(_, _, _)
        | Act::Loop(_, _, _, _, _, _)
        | Act::While(_, _)
        | Act::Run(_) => Ok(false),
    }
}

// Adds a fault at each CALL of a unit that lies on a cycle.
fn add_unit_cycles(
    alloc: Global,
    scope: &Scope<'_>,
    graph: &Graph,
    outline: &Outline<'_>,
    first: &mut First,
) -> Result<(), Memory>
    requires nodes { graph.now.nodes ≡ length (map procedure_of scope.now) }
    requires edges { graph.now.edges ≡ call_edges (map procedure_of scope.now) }
    requires unit { is_some (number_from 0 (map procedure_of scope.now) outline.now.name) ≡ true }
    ensures { OnOk result (first.new ≡ sooner first.old (first_of (flat_map (λ c. faults_if (calls_lead (map procedure_of scope.now) (c.1).0 outline.now.name) (fault 16 c.0)) (calls (procedure_of outline.now))))) }
{
    let name = &outline.unit().name;
    for stmt in outline.statements() {
        let is_cyclic = is_on_cycle(alloc, scope, graph, name, &stmt.act)?;
        first.add_if(is_cyclic, Code::Recursion, stmt.line);
    }
    Ok(())
}

/// Adds a fault at each CALL that lies on a cycle.
pub(crate) fn add_cycles(alloc: Global, scope: &Scope<'_>, first: &mut First) -> Result<(), Memory>
    ensures { OnOk result (first.new ≡ sooner first.old (first_of (cycles (map procedure_of scope.now)))) }
{
    let edges = all_edges(alloc, scope)?;
    let graph = Graph::new(alloc, scope.outlines().len(), edges)?;
    for outline in scope.outlines() {
        add_unit_cycles(alloc, scope, &graph, outline, first)?;
    }
    Ok(())
}

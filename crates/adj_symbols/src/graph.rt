//! A graph of units, of which it is known which leads to which.

ghost use Rattle.std.specs.Prelude.{◌≡◌, ◌+◌, ◌<◌, ◌≤◌, ◌^◌, ◌↔◌, [], ◌∷◌, ℕ, List, All, Contains, IfOk, IsTrue, length, slice_index};
ghost use Rattle.adj_reach.specs.Edges.{Edges, AreBelow, ReachedFrom, flag};
ghost use Rattle.adj_symbols.specs.Graph.{Links, AreSinking, root_at, AreKnown};

use crate::components::components;
use adj_reach::{reach, reach_back};
use adj_tree::{Flags, Memory};
use std::alloc::Global;
use std::marker::Model;

/// A number of nodes and edges between them, seen as these. Each node has a label, and no edge leads to a greater label;
/// each label has a root, and it is known which nodes the root of their label leads to, and which lead to it.
pub(crate) struct Graph {
    nodes: usize,
    edges: Vec<(usize, usize)>,
    labels: Vec<usize>,
    roots: Vec<usize>,
    ahead: Flags,
    behind: Flags,
}

impl Drop for Graph {
    fn drop(self) {
        let Graph {
            nodes: _,
            edges: _edges,
            labels: _labels,
            roots: _roots,
            ahead: _ahead,
            behind: _behind,
        } = self;
    }
}

impl Model for Graph {
    ghost Value = { Links };

    ghost view = { λ g. record { nodes = g.nodes; edges = g.edges.items } };

    ghost invariant = { λ g. AreKnown g.nodes g.edges.items g.labels.items g.roots.items g.ahead g.behind };
}

// The number at a place, 0 where there is none.
fn number_at(numbers: &[usize], place: usize) -> usize
    ensures { result ≡ slice_index numbers.now place }
{
    numbers.get(place).copied().unwrap_or(0)
}

// The flag at a place.
fn flag_at(flags: &[bool], place: usize) -> bool
    ensures { result ≡ flag flags.now place }
{
    flags.get(place).copied().unwrap_or(false)
}

// Whether no edge leads to a node with a greater label.
fn are_sinking(labels: &[usize], edges: &[(usize, usize)]) -> bool
    ensures { IsTrue result → AreSinking labels.now edges.now }
{
    for edge in edges {
        if number_at(labels, edge.0) < number_at(labels, edge.1) {
            return false;
        }
    }
    true
}

// These labels where no edge leads to a greater one, and else one label for all.
fn sinking(alloc: Global, labels: Vec<usize>, edges: &[(usize, usize)]) -> Vec<usize>
    ensures { AreSinking result.items edges.now }
{
    if are_sinking(labels.as_slice(), edges) {
        labels
    } else {
        Vec::new(alloc)
    }
}

// A node of each label.
fn roots_of(alloc: Global, nodes: usize, labels: &[usize]) -> Result<Vec<usize>, Memory> {
    let mut roots = vec![in alloc; 0usize; nodes]?;
    for node in 0..nodes {
        if let Some(root) = roots.as_mut_slice().get_mut(number_at(labels, node)) {
            *root = node;
        }
    }
    Ok(roots)
}

// The nodes that are roots of their labels.
fn starts_of(
    alloc: Global,
    nodes: usize,
    labels: &[usize],
    roots: &[usize],
) -> Result<Vec<usize>, Memory>
    ensures below { IfOk result (λ v. All (λ x. x < nodes) v.items) }
    ensures roots { IfOk result (λ v. All (λ x. root_at labels.now roots.now x ≡ x) v.items) }
{
    let mut starts = Vec::new(alloc);
    for node in 0..nodes {
        if number_at(roots, number_at(labels, node)) == node {
            starts.push(node)?;
        }
    }
    Ok(starts)
}

// The edges between nodes of one label.
fn inside(
    alloc: Global,
    nodes: usize,
    labels: &[usize],
    edges: &[(usize, usize)],
) -> Result<Vec<(usize, usize)>, Memory>
    requires { AreBelow nodes edges.now }
    ensures below { IfOk result (λ v. AreBelow nodes v.items) }
    ensures same { IfOk result (λ v. All (λ e. slice_index labels.now e.0 ≡ slice_index labels.now e.1) v.items) }
    ensures edges { IfOk result (λ v. All (Contains edges.now) v.items) }
{
    let mut chosen = Vec::new(alloc);
    for edge in edges {
        if number_at(labels, edge.0) == number_at(labels, edge.1) {
            chosen.push(*edge)?;
        }
    }
    Ok(chosen)
}

impl Graph {
    /// The graph of these edges.
    pub(crate) fn new(
        alloc: Global,
        nodes: usize,
        edges: Vec<(usize, usize)>,
    ) -> Result<Graph, Memory>
        requires room { nodes + 1 < 2 ^ 64 }
        requires below { AreBelow nodes edges.items }
        ensures graph { IfOk result (λ g. g ≡ record { nodes = nodes; edges = edges.items }) }
    {
        let guessed = components(alloc, nodes, edges.as_slice())?;
        let labels = sinking(alloc, guessed, edges.as_slice());
        let roots = roots_of(alloc, nodes, labels.as_slice())?;
        let starts = starts_of(alloc, nodes, labels.as_slice(), roots.as_slice())?;
        let chosen = inside(alloc, nodes, labels.as_slice(), edges.as_slice())?;
        let ahead = reach(alloc, nodes, chosen.as_slice(), starts.as_slice())?;
        let behind = reach_back(alloc, nodes, chosen.as_slice(), starts.as_slice())?;
        Ok(Graph {
            nodes,
            edges,
            labels,
            roots,
            ahead,
            behind,
        })
    }

    // Whether a path leads from the one node to the other, by a search.
    fn finds(&self, alloc: Global, from: usize, to: usize) -> Result<bool, Memory>
        requires { from < self.now.nodes }
        ensures leads { IfOk result (λ b. IsTrue b ↔ ReachedFrom self.now.edges (from ∷ []) to) }
    {
        let found = reach(alloc, self.nodes, self.edges.as_slice(), &[from])?;
        Ok(flag_at(found.as_slice(), to))
    }

    /// Whether a path leads from the one node to the other.
    pub(crate) fn leads(&self, alloc: Global, from: usize, to: usize) -> Result<bool, Memory>
        requires { from < self.now.nodes }
        ensures leads { IfOk result (λ b. IsTrue b ↔ ReachedFrom self.now.edges (from ∷ []) to) }
    {
        let first = number_at(self.labels.as_slice(), from);
        let last = number_at(self.labels.as_slice(), to);
        if first < last {
            return Ok(false);
        }
        if first == last
            && flag_at(self.behind.as_slice(), from)
            && flag_at(self.ahead.as_slice(), to)
        {
            return Ok(true);
        }
        self.finds(alloc, from, to)
    }
}

//! Numbers of strongly connected components, by Tarjan's algorithm (1972) with a stack of its own.
//!
//! No clause says that the numbers are right: who takes them looks whether no edge leads to a greater one.

use adj_tree::Memory;
use std::alloc::Global;
use std::cmp;

// A search in depth. Edges are named by their places, counted from 1, and 0 names none.
struct Walk<'a> {
    edges: &'a [(usize, usize)],
    // of each node the next edge to be followed
    cursors: Vec<usize>,
    // of each edge the next one from the same node
    later: Vec<usize>,
    // when each node was met, from 1 on, and the first met node that is known to be led to
    met: Vec<usize>,
    lowest: Vec<usize>,
    // the components that are complete
    labels: Vec<usize>,
    is_closed: Vec<bool>,
    open: Vec<usize>,
    path: Vec<usize>,
    clock: usize,
    found: usize,
}

impl Drop for Walk<'_> {
    fn drop(self) {
        let Walk {
            edges: _,
            cursors: _cursors,
            later: _later,
            met: _met,
            lowest: _lowest,
            labels: _labels,
            is_closed: _is_closed,
            open: _open,
            path: _path,
            clock: _,
            found: _,
        } = self;
    }
}

fn at(numbers: &[usize], place: usize) -> usize {
    numbers.get(place).copied().unwrap_or(0)
}

fn put(numbers: &mut [usize], place: usize, number: usize) {
    if let Some(here) = numbers.get_mut(place) {
        *here = number;
    }
}

impl<'a> Walk<'a> {
    fn new(alloc: Global, nodes: usize, edges: &'a [(usize, usize)]) -> Result<Walk<'a>, Memory> {
        Ok(Walk {
            edges,
            cursors: vec![in alloc; 0usize; nodes]?,
            later: vec![in alloc; 0usize; edges.len()]?,
            met: vec![in alloc; 0usize; nodes]?,
            lowest: vec![in alloc; 0usize; nodes]?,
            labels: vec![in alloc; 0usize; nodes]?,
            is_closed: vec![in alloc; false; nodes]?,
            open: Vec::new(alloc),
            path: Vec::new(alloc),
            clock: 0,
            found: 0,
        })
    }

    // Puts each edge before those from the same node.
    fn chain_edges(&mut self) {
        let edges = self.edges;
        for (place, edge) in edges.iter().enumerate() {
            let before = at(self.cursors.as_slice(), edge.0);
            put(self.later.as_mut_slice(), place, before);
            put(self.cursors.as_mut_slice(), edge.0, place.saturating_add(1));
        }
    }

    fn enter(&mut self, node: usize) -> Result<(), Memory> {
        self.clock = self.clock.saturating_add(1);
        put(self.met.as_mut_slice(), node, self.clock);
        put(self.lowest.as_mut_slice(), node, self.clock);
        self.open.push(node)?;
        self.path.push(node)?;
        Ok(())
    }

    fn lower(&mut self, node: usize, bound: usize) {
        let least = cmp::min(at(self.lowest.as_slice(), node), bound);
        put(self.lowest.as_mut_slice(), node, least);
    }

    // The open nodes from one on are a component.
    fn close(&mut self, node: usize) {
        while let Some(member) = self.open.pop() {
            put(self.labels.as_mut_slice(), member, self.found);
            if let Some(here) = self.is_closed.as_mut_slice().get_mut(member) {
                *here = true;
            }
            if member == node {
                break;
            }
        }
        self.found = self.found.saturating_add(1);
    }

    // Goes back from a node all of whose edges were followed.
    fn leave(&mut self, node: usize) {
        self.path.pop();
        let least = at(self.lowest.as_slice(), node);
        if least == at(self.met.as_slice(), node) {
            self.close(node);
        }
        if let Some(parent) = self.path.as_slice().last().copied() {
            self.lower(parent, least);
        }
    }

    // Goes along an edge to a node.
    fn go_to(&mut self, node: usize, to: usize) -> Result<(), Memory> {
        let when = at(self.met.as_slice(), to);
        if when == 0 {
            return self.enter(to);
        }
        if !self.is_closed.as_slice().get(to).copied().unwrap_or(true) {
            self.lower(node, when);
        }
        Ok(())
    }

    fn step(&mut self, node: usize) -> Result<(), Memory> {
        let cursor = at(self.cursors.as_slice(), node);
        if cursor == 0 {
            self.leave(node);
            return Ok(());
        }
        let place = cursor - 1;
        let next = at(self.later.as_slice(), place);
        put(self.cursors.as_mut_slice(), node, next);
        match self.edges.get(place) {
            Some(edge) => self.go_to(node, edge.1),
            None => Ok(()),
        }
    }

    // Meets all nodes that a node leads to.
    fn meet_from(&mut self, root: usize) -> Result<(), Memory> {
        if at(self.met.as_slice(), root) > 0 {
            return Ok(());
        }
        self.enter(root)?;
        for _ in 0..u64::MAX {
            match self.path.as_slice().last().copied() {
                Some(node) => self.step(node)?,
                None => break,
            }
        }
        Ok(())
    }

    // The numbers of the components, of which none is copied.
    fn into_labels(self) -> Vec<usize> {
        let Walk {
            edges: _,
            cursors: _cursors,
            later: _later,
            met: _met,
            lowest: _lowest,
            labels,
            is_closed: _is_closed,
            open: _open,
            path: _path,
            clock: _,
            found: _,
        } = self;
        labels
    }
}

/// A number for each node: that of its strongly connected component, counted so that edges lead to lower numbers.
pub(crate) fn components(
    alloc: Global,
    nodes: usize,
    edges: &[(usize, usize)],
) -> Result<Vec<usize>, Memory> {
    let mut walk = Walk::new(alloc, nodes, edges)?;
    walk.chain_edges();
    for root in 0..nodes {
        walk.meet_from(root)?;
    }
    Ok(walk.into_labels())
}

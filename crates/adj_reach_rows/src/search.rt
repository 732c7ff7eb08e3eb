//! A search over rows of bits: which nodes were seen, and which of them are fresh, so that nothing was followed from them yet.

ghost use Rattle.std.specs.Prelude.{◌≡◌, ◌+◌, ◌*◌, ◌/◌, ◌%◌, ◌<◌, ◌++◌, ◌∷◌, [], ℕ, All, IfOk, OnOk, MatchOption, Contains, length, slice_set, true, if◌then◌else◌, ◌==◌, map};
ghost use Rattle.std.specs.Int.{bit_at};
ghost use Rattle.adj_reach.specs.Edges.{flag};
ghost use Rattle.adj_reach_rows.specs.Chains.{AreChains};
ghost use Rattle.adj_tree.specs.Bits.{bit};
ghost use Rattle.adj_reach_rows.specs.Searches.{Fits, Grown, Took, IsMarked, IsCarried, IsFollowed, IsLed, IsNew, place_of};

use crate::arc::{Arc, others};
use crate::bits::Rows;
use crate::chains::Chains;
use adj_tree::Memory;
use std::alloc::Global;

/// Rows of seen and of fresh nodes, each row of so many words; which rows wait; and these in a list.
#[derive(Drop)]
pub(crate) struct Search {
    pub words: usize,
    pub seen: Vec<u64>,
    pub fresh: Vec<u64>,
    pub waits: Vec<bool>,
    pub waiting: Vec<usize>,
}

// A row waits.
fn wake(waits: &mut [bool], waiting: &mut Vec<usize>, row: usize) -> Result<(), Memory>
    requires { row < length waits.old }
    ensures waits { OnOk result (waits.new ≡ slice_set waits.old row true) }
    ensures waiting { OnOk result (waiting.new.items ≡ (if flag waits.old row then waiting.old.items else waiting.old.items ++ row ∷ [])) }
{
    if !waits[row] {
        waits[row] = true;
        waiting.push(row)?;
    }
    Ok(())
}

// Whether a bit is set.
fn is_set(words: &[u64], place: usize) -> bool
    requires { place / 64 < length words.now }
    ensures { result ≡ (bit words.now place == 1) }
{
    words[place / 64] >> (place % 64) & 1 == 1
}

impl Search {
    /// No node was seen.
    pub fn new(alloc: Global, rows: usize, words: usize) -> Result<Search, Memory>
        ensures new { IfOk result (λ s. IsNew rows words s) }
    {
        let all = rows.checked_mul(words).ok_or(Memory)?;
        let seen = vec![in alloc; 0u64; all]?;
        let fresh = vec![in alloc; 0u64; all]?;
        let waits = vec![in alloc; false; rows]?;
        Ok(Search {
            words,
            seen,
            fresh,
            waits,
            waiting: Vec::new(alloc),
        })
    }

    // Sees the nodes of some bits of a word of a row.
    fn mark(&mut self, row: usize, place: usize, bits: u64) -> Result<(), Memory>
        requires fits { Fits self.old }
        requires row { row < length self.old.waits.items }
        requires place { place < self.old.words }
        ensures grown { OnOk result (Grown (IsMarked (row * self.old.words + place) bits) self.old self.new) }
    {
        let word = row * self.words + place;
        let seen = self.seen[word];
        let new = bits & !seen;
        if new != 0 {
            self.seen[word] = seen | new;
            self.fresh[word] |= new;
            wake(self.waits.as_mut_slice(), &mut self.waiting, row)?;
        }
        Ok(())
    }

    /// Sees a node.
    pub fn mark_node(&mut self, width: usize, node: usize) -> Result<(), Memory>
        requires fits { Fits self.old }
        requires some { 0 < width }
        requires wide { width < 64 * self.old.words }
        requires node { node / width < length self.old.waits.items }
        ensures grown { OnOk result (Grown (λ n. n ≡ place_of width self.old.words node) self.old self.new) }
    {
        let column = node % width;
        self.mark(node / width, column / 64, 1 << (column % 64))
    }

    /// Sees nodes.
    pub fn mark_nodes(&mut self, width: usize, nodes: &[usize]) -> Result<(), Memory>
        requires fits { Fits self.old }
        requires some { 0 < width }
        requires wide { width < 64 * self.old.words }
        requires nodes { All (λ x. x / width < length self.old.waits.items) nodes.now }
        ensures grown { OnOk result (Grown (λ n. (x : ℕ) × Contains nodes.now x × (n ≡ place_of width self.old.words x)) self.old self.new) }
    {
        for node in nodes {
            self.mark_node(width, *node)?;
        }
        Ok(())
    }

    /// Takes a row that waits.
    pub fn next(&mut self) -> Option<usize>
        ensures words { self.new.words ≡ self.old.words }
        ensures seen { self.new.seen.items ≡ self.old.seen.items }
        ensures fresh { self.new.fresh.items ≡ self.old.fresh.items }
        ensures waits { self.new.waits.items ≡ self.old.waits.items }
        ensures taken { MatchOption result (self.old.waiting.items ≡ []) (λ x. self.old.waiting.items ≡ self.new.waiting.items ++ x ∷ []) }
    {
        self.waiting.pop()
    }

    /// Takes the fresh nodes of a row.
    pub fn take(&mut self, row: usize, taken: &mut [u64])
        requires fits { Fits self.old }
        requires row { row < length self.old.waits.items }
        requires size { length taken.old ≡ self.old.words }
        ensures took { Took row self.old self.new taken.new }
    {
        let first = row * self.words;
        for place in 0..self.words {
            taken[place] = self.fresh[first + place];
            self.fresh[first + place] = 0;
        }
        self.waits[row] = false;
    }

    // Sees what an arc carries of some bits.
    fn carry(&mut self, taken: &[u64], rows: &Rows, arc: Arc) -> Result<(), Memory>
        requires fits { Fits self.old }
        requires size { length taken.now ≡ self.old.words }
        requires words { rows.now.words ≡ self.old.words }
        requires to { arc.to < length self.old.waits.items }
        ensures grown { OnOk result (Grown (IsCarried self.old.words taken.now rows.now arc self.old.words) self.old self.new) }
    {
        for place in 0..self.words {
            let kept = taken[place] & rows.word(arc.kept, place);
            let bits = kept & others(arc.left, place);
            self.mark(arc.to, place, bits)?;
        }
        Ok(())
    }

    /// Sees what the arcs from a row carry of some bits.
    pub fn follow_arcs(
        &mut self,
        row: usize,
        taken: &[u64],
        rows: &Rows,
        arcs: &[Arc],
        chains: &Chains,
    ) -> Result<(), Memory>
        requires fits { Fits self.old }
        requires row { row < length self.old.waits.items }
        requires size { length taken.now ≡ self.old.words }
        requires words { rows.now.words ≡ self.old.words }
        requires arcs { All (λ a. a.to < length self.old.waits.items) arcs.now }
        requires chains { AreChains (length self.old.waits.items) (map (λ a. a.from) arcs.now) chains.now.heads.items chains.now.next.items }
        ensures grown { OnOk result (Grown (IsFollowed self.old.words taken.now rows.now arcs.now 0 row) self.old self.new) }
    {
        let mut rest = chains.heads[row];
        while rest > 0 {
            let place = rest - 1;
            self.carry(taken, rows, arcs[place])?;
            rest = chains.next[place];
        }
        Ok(())
    }

    // Sees the node to which an edge leads, if its first end is among some bits.
    fn lead(&mut self, width: usize, taken: &[u64], edge: (usize, usize)) -> Result<(), Memory>
        requires fits { Fits self.old }
        requires some { 0 < width }
        requires wide { width < 64 * self.old.words }
        requires size { length taken.now ≡ self.old.words }
        requires to { edge.1 / width < length self.old.waits.items }
        ensures grown { OnOk result (Grown (λ n. (bit taken.now (edge.0 % width) ≡ 1) × (n ≡ place_of width self.old.words edge.1)) self.old self.new) }
    {
        let (from, to) = edge;
        if is_set(taken, from % width) {
            self.mark_node(width, to)?;
        }
        Ok(())
    }

    /// Sees the nodes to which the edges from some bits of a row lead.
    pub fn follow_edges(
        &mut self,
        row: usize,
        width: usize,
        taken: &[u64],
        edges: &[(usize, usize)],
        chains: &Chains,
    ) -> Result<(), Memory>
        requires fits { Fits self.old }
        requires row { row < length self.old.waits.items }
        requires some { 0 < width }
        requires wide { width < 64 * self.old.words }
        requires size { length taken.now ≡ self.old.words }
        requires edges { All (λ e. e.1 / width < length self.old.waits.items) edges.now }
        requires chains { AreChains (length self.old.waits.items) (map (λ e. e.0 / width) edges.now) chains.now.heads.items chains.now.next.items }
        ensures grown { OnOk result (Grown (IsLed width self.old.words taken.now edges.now 0 row) self.old self.new) }
    {
        let mut rest = chains.heads[row];
        while rest > 0 {
            let place = rest - 1;
            self.lead(width, taken, edges[place])?;
            rest = chains.next[place];
        }
        Ok(())
    }
}

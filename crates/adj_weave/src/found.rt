//! Which units are emitted (docs/EMITTED.md, "The units").

ghost use Rattle.std.specs.Prelude.{◌≡◌, ◌∷◌, [], ◌<◌, ◌+◌, ◌^◌, ℕ, All, IfOk, List, map, length};
ghost use Rattle.adj_tree.specs.Code.{Procedure};
ghost use Rattle.adj_tree.specs.View.{procedure_of};
ghost use Rattle.def_meaning.specs.Apart.{AreApart};
ghost use Rattle.def_sweep.specs.Declared.{unit_name, unit_at};
ghost use Rattle.def_sweep.specs.Program.{takes_part, has_adjoint, has_pair, is_carried_with};
ghost use Rattle.adj_sweep.specs.HelperSteps.{are_reversed};
ghost use Rattle.adj_weave_units.specs.Calls.{edges_of, ends_of};
ghost use Rattle.adj_weave.specs.Marked.{program_marks};
ghost use Rattle.adj_weave.specs.Orders.{is_edge};
ghost use Rattle.adj_weave.specs.Searched.{IsSearched};

use crate::calls::{Counting, edges};
use crate::marks::Marked;
use adj_reach::reach;
use adj_sets::NameSet;
use adj_sweep::steps::MarkedLoops;
use adj_tree::{Flags, Memory, Unit};
use adj_weave_units::calls::{Call, all_edges, listed_calls};
use adj_weave_units::found::{ends_of, fits};
use std::alloc::Global;

/// By the places of units: those whose adjoint is emitted, those whose forward and backward unit are, and those that are emitted as they
/// are.
pub struct Found {
    pub adjointed: Flags,
    pub paired: Flags,
    pub carried: Flags,
}

impl Drop for Found {
    fn drop(self) {
        let Found {
            adjointed: _adjointed,
            paired: _paired,
            carried: _carried,
        } = self;
    }
}

/// The calls of a program with so many units, and its marks.
#[derive(Clone, Copy)]
pub struct Search<'a> {
    pub marked: &'a Marked<'a>,
    pub calls: &'a [Call],
    pub count: usize,
}

impl Search<'_> {
    // The units that flagged units call by calls that count.
    fn called_by(
        self,
        alloc: Global,
        counting: Counting,
        from: &[bool],
    ) -> Result<Vec<usize>, Memory>
        requires searched { (ps : List Procedure) × IsSearched self ps }
        ensures below { IfOk result (λ v. All (λ x. x < self.entry.count) v.items) }
        ensures called { IfOk result (λ v. v.items ≡ ends_of from.now (edges_of (is_edge self.entry.marked.now counting) self.entry.calls.now)) }
    {
        let edges = edges(alloc, self.marked, counting, self.calls)?;
        ends_of(alloc, from, edges.as_slice())
    }

    // The units that take part: the head, and those that adjointed calls of one of them name.
    fn taking(self, alloc: Global, head: usize) -> Result<Flags, Memory>
        requires searched { (ps : List Procedure) × IsSearched self ps }
        requires room { self.count + 1 < 2 ^ 64 }
        requires head { head < self.count }
        ensures taking { IfOk result (λ f. (ps : List Procedure) (h : Procedure) → IsSearched self.entry ps → unit_at head ps ≡ h ∷ [] → f ≡ map (λ u. takes_part (program_marks self.entry.marked.now) ps h u.name) ps) }
    {
        let edges = edges(alloc, self.marked, Counting::Adjointed, self.calls)?;
        reach(alloc, self.count, edges.as_slice(), &[head])
    }

    // Those whose adjoint is emitted: the head, and those that adjointed calls that aren't split name, by which units take part.
    fn adjointed(self, alloc: Global, head: usize, taking: &[bool]) -> Result<Flags, Memory>
        requires searched { (ps : List Procedure) × IsSearched self ps }
        requires room { self.count + 1 < 2 ^ 64 }
        requires head { head < self.count }
        ensures adjointed { IfOk result (λ f. (ps : List Procedure) (h : Procedure) → IsSearched self.entry ps → unit_at head ps ≡ h ∷ [] → taking.now ≡ map (λ u. takes_part (program_marks self.entry.marked.now) ps h u.name) ps → f ≡ map (λ u. has_adjoint (program_marks self.entry.marked.now) ps h u.name) ps) }
    {
        let mut places = self.called_by(alloc, Counting::Whole, taking)?;
        places.push(head)?;
        reach(alloc, self.count, &[], places.as_slice())
    }

    // Those whose forward and backward unit are emitted: split calls name them.
    fn paired(self, alloc: Global, taking: &[bool]) -> Result<Flags, Memory>
        requires searched { (ps : List Procedure) × IsSearched self ps }
        requires room { self.count + 1 < 2 ^ 64 }
        ensures paired { IfOk result (λ f. (ps : List Procedure) (h : Procedure) → IsSearched self.entry ps → taking.now ≡ map (λ u. takes_part (program_marks self.entry.marked.now) ps h u.name) ps → f ≡ map (λ u. has_pair (program_marks self.entry.marked.now) ps h u.name) ps) }
    {
        let places = self.called_by(alloc, Counting::Split, taking)?;
        reach(alloc, self.count, &[], places.as_slice())
    }

    // Those that are emitted as they are: those that emitted units call so, and what they call.
    fn carried(
        self,
        alloc: Global,
        loops: MarkedLoops,
        adjointed: &[bool],
        paired: &[bool],
    ) -> Result<Flags, Memory>
        requires searched { (ps : List Procedure) × IsSearched self ps }
        requires room { self.count + 1 < 2 ^ 64 }
        ensures carried { IfOk result (λ f. (ps : List Procedure) (h : Procedure) → IsSearched self.entry ps → adjointed.now ≡ map (λ u. has_adjoint (program_marks self.entry.marked.now) ps h u.name) ps → paired.now ≡ map (λ u. has_pair (program_marks self.entry.marked.now) ps h u.name) ps → f ≡ map (λ u. is_carried_with (are_reversed loops) (program_marks self.entry.marked.now) ps h u.name) ps) }
    {
        let mut called = self.called_by(alloc, Counting::Plain(loops), adjointed)?;
        let more = self.called_by(alloc, Counting::Paired(loops), paired)?;
        called.extend_from_slice(more.as_slice())?;
        let edges = all_edges(alloc, self.calls)?;
        reach(alloc, self.count, edges.as_slice(), called.as_slice())
    }
}

/// The units that are emitted for a head by these marks, where marked loops are gone through so.
pub fn found_units(
    alloc: Global,
    marked: &Marked<'_>,
    units: &[Unit],
    names: &NameSet,
    head: usize,
    loops: MarkedLoops,
) -> Result<Found, Memory>
    requires head { head < length units.now }
    requires names { names.now ≡ map unit_name (map procedure_of units.now) }
    requires apart { AreApart names.now }
    ensures adjointed { IfOk result (λ f. (h : Procedure) → unit_at head (map procedure_of units.now) ≡ h ∷ [] → f.adjointed ≡ map (λ u. has_adjoint (program_marks marked.now) (map procedure_of units.now) h u.name) (map procedure_of units.now)) }
    ensures paired { IfOk result (λ f. (h : Procedure) → unit_at head (map procedure_of units.now) ≡ h ∷ [] → f.paired ≡ map (λ u. has_pair (program_marks marked.now) (map procedure_of units.now) h u.name) (map procedure_of units.now)) }
    ensures carried { IfOk result (λ f. (h : Procedure) → unit_at head (map procedure_of units.now) ≡ h ∷ [] → f.carried ≡ map (λ u. is_carried_with (are_reversed loops) (program_marks marked.now) (map procedure_of units.now) h u.name) (map procedure_of units.now)) }
{
    let count = units.len();
    fits(count)?;
    let listed = listed_calls(alloc, units, names)?;
    let search = Search {
        marked,
        calls: listed.as_slice(),
        count,
    };
    let taking = search.taking(alloc, head)?;
    let adjointed = search.adjointed(alloc, head, taking.as_slice())?;
    let paired = search.paired(alloc, taking.as_slice())?;
    let carried = search.carried(alloc, loops, adjointed.as_slice(), paired.as_slice())?;
    Ok(Found {
        adjointed,
        paired,
        carried,
    })
}

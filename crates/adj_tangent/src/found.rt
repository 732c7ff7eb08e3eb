//! Which units are emitted (docs/EMITTED.md, "The tangent text").

ghost use Rattle.std.specs.Prelude.{◌≡◌, ◌<◌, ◌∷◌, [], IfOk, map, length};
ghost use Rattle.adj_tree.specs.Code.{Procedure};
ghost use Rattle.adj_tree.specs.View.{procedure_of};
ghost use Rattle.def_meaning.specs.Apart.{AreApart};
ghost use Rattle.def_sweep.specs.Declared.{unit_name, unit_at};
ghost use Rattle.def_tangent.specs.Program.{Carried, takes, has_tangent, stays};
ghost use Rattle.adj_tangent.specs.Known.{leading};

use adj_reach::{flag_at, reach};
use adj_sets::NameSet;
use adj_tree::{Flags, Memory, Unit};
use adj_weave_units::calls::{all_edges, listed_calls};
use adj_weave_units::found::{ends_of, fits};
use std::alloc::Global;

/// By the places of units: those whose tangent is emitted, and those that are emitted as they are.
pub struct Found {
    pub made: Flags,
    pub stays: Flags,
}

impl Drop for Found {
    fn drop(self) {
        let Found {
            made: _made,
            stays: _stays,
        } = self;
    }
}

// The edges to nodes whose flag is this.
fn leading(
    alloc: Global,
    flags: &[bool],
    flag: bool,
    edges: &[(usize, usize)],
) -> Result<Vec<(usize, usize)>, Memory>
    ensures edges { IfOk result (λ v. v.items ≡ leading flags.now flag edges.now) }
{
    let mut made = Vec::new(alloc);
    for edge in edges {
        if flag_at(flags, edge.1) == flag {
            made.push(*edge)?;
        }
    }
    Ok(made)
}

/// The units that are emitted for a head, where flags tell which have a dummy that carries a tangent.
pub fn found_units(
    alloc: Global,
    flags: &[bool],
    units: &[Unit],
    names: &NameSet,
    head: usize,
) -> Result<Found, Memory>
    requires head { head < length units.now }
    requires names { names.now ≡ map unit_name (map procedure_of units.now) }
    requires apart { AreApart names.now }
    ensures made { IfOk result (λ f. (c : Carried) (h : Procedure) → flags.now ≡ map (λ u. takes c (map procedure_of units.now) u.name) (map procedure_of units.now) → unit_at head (map procedure_of units.now) ≡ h ∷ [] → f.made ≡ map (λ u. has_tangent c (map procedure_of units.now) h.name u.name) (map procedure_of units.now)) }
    ensures stays { IfOk result (λ f. (c : Carried) (h : Procedure) → flags.now ≡ map (λ u. takes c (map procedure_of units.now) u.name) (map procedure_of units.now) → unit_at head (map procedure_of units.now) ≡ h ∷ [] → f.stays ≡ map (λ u. stays c (map procedure_of units.now) h.name u.name) (map procedure_of units.now)) }
{
    let count = units.len();
    fits(count)?;
    let listed = listed_calls(alloc, units, names)?;
    let calls = all_edges(alloc, listed.as_slice())?;
    let edges = calls.as_slice();
    let taking = leading(alloc, flags, true, edges)?;
    let others = leading(alloc, flags, false, edges)?;
    let start = [head];
    let made = reach(alloc, count, taking.as_slice(), &start)?;
    let called = ends_of(alloc, made.as_slice(), others.as_slice())?;
    let stays = reach(alloc, count, edges, called.as_slice())?;
    Ok(Found { made, stays })
}

//! The extents that a unit declares.

ghost use Rattle.std.specs.Prelude.{◌≡◌, ◌++◌, ◌*ℤ◌, ◌<◌, ◌≤◌, ◌*◌, ◌||◌, ◌&&◌, ◌==◌, MatchOption, Bool, false, not, ℕ, ℤ, pos, int_lt, List, map, flat_map, length, IfOk, OnOk};
ghost use Rattle.std.specs.List.{list_any};
ghost use Rattle.adj_tree.specs.View.{extent_of, declaration_of, procedure_of};
ghost use Rattle.def_names.specs.NameFaults.{extent_names, extent_places, is_bad_extent, literal_product, has_bad_extents};
ghost use Rattle.def_names.specs.Fault.{fault, faults_if, first_of, sooner};
ghost use Rattle.adj_symbols.specs.View.{places_of, literal_of};

use crate::first::First;
use crate::outline::Outline;
use crate::places::Placed;
use adj_tree::{Code, Decl, Extent, Memory};

// So many elements an array may have.
const MOST_ELEMENTS: u64 = 1_048_576;

// Adds the names among the extents of a declaration.
fn add_extent_names<'a>(decl: &'a Decl, out: &mut Vec<Placed<'a>>) -> Result<(), Memory>
    ensures { OnOk result (places_of out.new.items ≡ places_of out.old.items ++ map (λ x. (decl.now.line, x)) (extent_names (map extent_of decl.now.extents))) }
{
    for extent in decl.extents.as_slice() {
        if let Extent::Dummy(name) = extent {
            out.push(Placed {
                line: decl.line,
                name,
            })?;
        }
    }
    Ok(())
}

/// Adds the names among the extents of declarations.
pub(crate) fn add_extent_places<'a>(
    decls: &'a [Decl],
    out: &mut Vec<Placed<'a>>,
) -> Result<(), Memory>
    ensures { OnOk result (places_of out.new.items ≡ places_of out.old.items ++ flat_map (λ d. map (λ x. (d.line, x)) (extent_names d.extents)) (map declaration_of decls.now)) }
{
    for decl in decls {
        add_extent_names(decl, out)?;
    }
    Ok(())
}

// Whether an extent is a literal below 1, or a name that isn't a scalar dummy.
fn is_bad_extent(outline: &Outline<'_>, extent: &Extent) -> bool
    ensures { result ≡ is_bad_extent (procedure_of outline.now) (extent_of extent.now) }
{
    match extent {
        Extent::Lit(number) => *number < 1,
        Extent::Dummy(name) => !(outline.is_dummy(name) && outline.rank(name) == 0),
    }
}

// Whether some extent is one.
fn is_bad_somewhere(outline: &Outline<'_>, extents: &[Extent]) -> bool
    ensures { result ≡ list_any (is_bad_extent (procedure_of outline.now)) (map extent_of extents.now) }
{
    for extent in extents {
        if is_bad_extent(outline, extent) {
            return true;
        }
    }
    false
}

// Whether a name is among the extents.
fn has_names(extents: &[Extent]) -> bool
    ensures { result ≡ not (length (extent_names (map extent_of extents.now)) == 0) }
{
    for extent in extents {
        if let Extent::Dummy(_) = extent {
            return true;
        }
    }
    false
}

// A literal extent that isn't below 1, and 1 for a name.
fn literal(extent: &Extent) -> u64
    requires { int_lt (literal_of (extent_of extent.now)) (pos 1) ≡ false }
    ensures { pos result ≡ literal_of (extent_of extent.now) }
{
    match extent {
        Extent::Lit(number) => *number as u64,
        Extent::Dummy(_) => 1,
    }
}

// The product of two numbers from 1 on, where it isn't greater than an array may be.
fn size(product: u64, number: u64) -> Option<u64>
    requires least { 1 ≤ product }
    requires most { product ≤ 1048576 }
    requires number { 1 ≤ number }
    ensures size { MatchOption result (1048576 < product * number) (λ p. (p ≡ product * number) × (1 ≤ p) × (p ≤ 1048576)) }
{
    if number > MOST_ELEMENTS {
        return None;
    }
    let size = product * number;
    if size > MOST_ELEMENTS {
        return None;
    }
    Some(size)
}

// Whether the product of literal extents that aren't below 1 is greater than an array may be.
fn is_too_great(outline: &Outline<'_>, extents: &[Extent]) -> bool
    requires { list_any (is_bad_extent (procedure_of outline.now)) (map extent_of extents.now) ≡ false }
    ensures { result ≡ int_lt (pos 1048576) (literal_product (map extent_of extents.now)) }
{
    let mut product = 1;
    for extent in extents {
        match size(product, literal(extent)) {
            Some(next) => product = next,
            None => return true,
        }
    }
    false
}

// Whether the extents of a variable are bad: one by itself, by their product, or names in those of a local.
fn has_bad_extents(outline: &Outline<'_>, decl: &Decl) -> bool
    ensures { result ≡ has_bad_extents (procedure_of outline.now) (declaration_of decl.now) }
{
    let extents = decl.extents.as_slice();
    is_bad_somewhere(outline, extents)
        || is_too_great(outline, extents)
        || (!outline.is_dummy(&decl.name) && has_names(extents))
}

/// Adds a fault at each declaration with bad extents.
pub(crate) fn add_bad_extents(outline: &Outline<'_>, decls: &[Decl], first: &mut First)
    ensures { first.new ≡ sooner first.old (first_of (flat_map (λ d. faults_if (has_bad_extents (procedure_of outline.now) d) (fault 12 d.line)) (map declaration_of decls.now))) }
{
    for decl in decls {
        first.add_if(has_bad_extents(outline, decl), Code::Extent, decl.line);
    }
}

//! Which dummies are extents of arrays.

ghost use Rattle.std.specs.Prelude.{◌≡◌, ◌||◌, ℕ, List, is_some, map, IfOk, OnOk};
ghost use Rattle.adj_tree.specs.View.{extent_of, declaration_of};
ghost use Rattle.def_meaning.specs.Read.{names_extent, is_extent};
ghost use Rattle.adj_symbols_writes.specs.Table.{value_of};
ghost use Rattle.adj_live.specs.Extents.{is_named};

use adj_symbols_writes::table::Numbers;
use adj_tree::{Decl, Extent, Memory, Name};
use std::alloc::Global;

// Adds the name that an extent is, if it is one.
fn add_name<'a>(names: &mut Numbers<'a>, extent: &'a Extent) -> Result<(), Memory>
    ensures added { OnOk result ((x : List ℕ) → is_some (value_of x names.new) ≡ (is_some (value_of x names.old) || is_named x (extent_of extent.now))) }
{
    match extent {
        Extent::Dummy(name) => {
            names.add(name, 0)?;
            Ok(())
        }
        Extent::Lit(_) => Ok(()),
    }
}

// Adds the names among the extents of an array.
fn add_names<'a>(names: &mut Numbers<'a>, extents: &'a [Extent]) -> Result<(), Memory>
    ensures added { OnOk result ((x : List ℕ) → is_some (value_of x names.new) ≡ (is_some (value_of x names.old) || names_extent x (map extent_of extents.now))) }
{
    for extent in extents {
        add_name(names, extent)?;
    }
    Ok(())
}

/// The names among all extents of some declarations.
pub(crate) fn extents<'a>(alloc: Global, decls: &'a [Decl]) -> Result<Numbers<'a>, Memory>
    ensures extents { IfOk result (λ t. (x : List ℕ) → is_some (value_of x t) ≡ is_extent x (map declaration_of decls.now)) }
{
    let mut names = Numbers::new(alloc);
    for decl in decls {
        add_names(&mut names, decl.extents.as_slice())?;
    }
    Ok(names)
}

/// Whether a name is among these.
pub(crate) fn is_among(names: &Numbers<'_>, name: &Name) -> bool
    ensures is { result ≡ is_some (value_of name.now names.now) }
{
    names.get(name).is_some()
}

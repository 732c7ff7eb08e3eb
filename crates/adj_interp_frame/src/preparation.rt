//! Units that are prepared.

ghost use Rattle.std.specs.Prelude.{◌≡◌, ◌<◌, ◌≤◌, ℕ, length, map, slice_index_or, true, IfOk, OnOk};
ghost use Rattle.adj_tree.specs.View.{code_of, declaration_of, procedure_of};
ghost use Rattle.adj_tree.specs.declared.unit.Decl.{Decl as ADecl};
ghost use Rattle.def_meaning.specs.Apart.{AreApart};
ghost use Rattle.def_meaning.specs.Written.{handed_back};
ghost use Rattle.adj_interp_frame.specs.declared.layout.Layout.{Layout as ALayout};
ghost use Rattle.adj_interp_frame.specs.declared.layout.Layout.TheVariants as layout;
ghost use Rattle.adj_interp_frame.specs.Numbered.{Extends};
ghost use Rattle.adj_interp_frame.specs.Listed.{IsDirectory};
ghost use Rattle.adj_interp_frame.specs.Linked.{IsRoutine};
ghost use Rattle.adj_interp_frame.specs.Suited.{IsScalarIn, AreSuited};
ghost use Rattle.adj_interp_frame.specs.Declaring.{Declares};

use crate::declaring::fill;
use crate::directory::Directory;
use crate::layout::Layout;
use crate::numbering::Numbering;
use crate::routine::Routine;
use adj_tree::{Decl, Flags, Memory, Name, NameList, Unit};
use std::alloc::Global;

// The dummies of a unit as its first names.
fn first_names<'a>(alloc: Global, dummies: &'a [Name]) -> Result<Numbering<'a>, Memory>
    requires { AreApart dummies.now }
    ensures { IfOk result (λ names. names ≡ dummies.now) }
{
    let mut names = Numbering::new(alloc);
    for dummy in dummies {
        let _number = names.number(dummy)?;
    }
    Ok(names)
}

// The layouts of declarations. The first declaration of a variable decides, so they are gone through from the last to the first.
fn layouts<'a>(
    alloc: Global,
    names: &mut Numbering<'a>,
    decls: &'a [Decl],
) -> Result<Vec<Layout>, Memory>
    requires apart { AreApart names.old }
    requires few { (i : ℕ) (d : ADecl) → i < length decls.now → length (slice_index_or decls.now i d).extents ≤ 2 }
    ensures extends { OnOk result (Extends names.old names.new) }
    ensures apart { OnOk result (AreApart names.new) }
    ensures declares { IfOk result (λ layouts. Declares (map declaration_of decls.now) names.new layouts.items) }
{
    let mut found = Vec::new(alloc);
    let mut remaining = decls.len();
    while remaining > 0 {
        remaining -= 1;
        let decl = &decls[remaining];
        names.declare(&mut found, decl)?;
    }
    Ok(found)
}

// Layouts are filled up to so many as there are names, and the names are listed.
fn listed(
    alloc: Global,
    numbers: &Numbering<'_>,
    layouts: &mut Vec<Layout>,
) -> Result<NameList, Memory>
    ensures names { IfOk result (λ names. names ≡ numbers.now) }
    ensures apart { IfOk result (λ names. AreApart names) }
    ensures same { OnOk result ((i : ℕ) → slice_index_or layouts.new.items i layout.Scalar ≡ slice_index_or layouts.old.items i layout.Scalar) }
    ensures longer { OnOk result (length numbers.now ≤ length layouts.new.items) }
    ensures few { OnOk result ((n : ℕ) → length numbers.now ≤ n → length layouts.old.items ≤ n → length layouts.new.items ≤ n) }
{
    fill(layouts, numbers.len())?;
    let names = numbers.list(alloc)?;
    Ok(names)
}

// Whether all layouts are those of scalars.
fn are_scalars(layouts: &[Layout]) -> bool
    ensures { result ≡ true → (i : ℕ) (d : ALayout) → i < length layouts.now → slice_index_or layouts.now i d ≡ layout.Scalar }
{
    for layout in layouts {
        let Layout::Scalar = layout else {
            return false;
        };
    }
    true
}

// A unit whose dummies have numbers is prepared.
fn routine_behind<'a>(
    alloc: Global,
    numbers: &mut Numbering<'a>,
    units: &mut Directory<'a>,
    unit: &'a Unit,
    writes: &'a Flags,
) -> Result<Routine<'a>, Memory>
    requires dummies { numbers.old ≡ unit.now.dummies }
    requires directory { IsDirectory units.old }
    requires apart { AreApart unit.now.dummies }
    requires few { (i : ℕ) (d : ADecl) → i < length unit.now.decls → length (slice_index_or unit.now.decls i d).extents ≤ 2 }
    requires suited { AreSuited (map procedure_of units.old.units.now) (IsScalarIn (procedure_of unit.now)) (code_of unit.now.body) }
    requires writes { writes.now ≡ handed_back (map procedure_of units.old.units.now) unit.now.name }
    ensures units { units.new.units.now ≡ units.old.units.now }
    ensures directory { OnOk result (IsDirectory units.new) }
    ensures unit { IfOk result (λ r. r.unit.now ≡ unit.now) }
    ensures routine { IfOk result (λ r. IsRoutine (map procedure_of units.old.units.now) r) }
{
    let mut layouts = layouts(alloc, numbers, unit.decls.as_slice())?;
    let body = numbers.steps(alloc, units, &unit.body)?;
    let names = listed(alloc, numbers, &mut layouts)?;
    let is_plain = are_scalars(layouts.as_slice());
    Ok(Routine {
        unit,
        names,
        layouts,
        is_plain,
        writes,
        body,
    })
}

/// A unit is prepared, of which it is known what it hands back. Its calls hand whole scalars alone to scalars.
pub fn routine_of<'a>(
    alloc: Global,
    units: &mut Directory<'a>,
    unit: &'a Unit,
    writes: &'a Flags,
) -> Result<Routine<'a>, Memory>
    requires directory { IsDirectory units.old }
    requires apart { AreApart unit.now.dummies }
    requires few { (i : ℕ) (d : ADecl) → i < length unit.now.decls → length (slice_index_or unit.now.decls i d).extents ≤ 2 }
    requires suited { AreSuited (map procedure_of units.old.units.now) (IsScalarIn (procedure_of unit.now)) (code_of unit.now.body) }
    requires writes { writes.now ≡ handed_back (map procedure_of units.old.units.now) unit.now.name }
    ensures units { units.new.units.now ≡ units.old.units.now }
    ensures directory { OnOk result (IsDirectory units.new) }
    ensures unit { IfOk result (λ r. r.unit.now ≡ unit.now) }
    ensures routine { IfOk result (λ r. IsRoutine (map procedure_of units.old.units.now) r) }
{
    let mut numbers = first_names(alloc, unit.dummies.as_slice())?;
    routine_behind(alloc, &mut numbers, units, unit, writes)
}

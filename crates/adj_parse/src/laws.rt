//! Laws of the program that statements are.

ghost use Rattle.std.specs.Prelude.{◌≡◌, ◌⊎◌, ℕ, List, Ok};
ghost use Rattle.adj_tree.specs.Common.{Shared};
ghost use Rattle.def_text.specs.Fits.{AllFit};
ghost use Rattle.def_text.specs.Form.{Statement};
ghost use Rattle.def_text.specs.Reads.{ReadsAll, ReadsShared};
ghost use Rattle.def_text.specs.Unit.{ReadsUnits};
ghost use Rattle.def_text.specs.declared.mode.Mode.{Mode};
ghost use Rattle.def_text.specs.declared.stated.Stated.{Stated};
ghost use Rattle.adj_parse.specs.Trees.{trees_of, IsBeyond};

/// Where statements have units without a fault, their lexemes derive these units, whose literals and extents are words; and what they derive is
/// their answer, but for a literal above the greatest word or a limit.
pub fn trees_are_derived()
    ensures sound { (mode : Mode) (stated : List Stated) (units : List Shared) → trees_of mode stated ≡ Ok units → (statements : List Statement) × ReadsAll stated statements × ReadsUnits statements units }
    ensures complete { (mode : Mode) (stated : List Stated) (statements : List Statement) (units : List Shared) → ReadsAll stated statements → ReadsUnits statements units → (trees_of mode stated ≡ Ok units) ⊎ IsBeyond (trees_of mode stated) }
    ensures fits { (mode : Mode) (stated : List Stated) (units : List Shared) → trees_of mode stated ≡ Ok units → AllFit units }
{}

/// A text reads as one program at most, with its blocks.
pub fn one_program()
    ensures one { (bytes : List ℕ) (program others : List Shared) → ReadsShared bytes program → ReadsShared bytes others → program ≡ others }
{}

//! The extents that a unit declares, with numbers for its variables.

ghost use Rattle.std.specs.Prelude.{◌≡◌, ◌<◌, ◌≤◌, ◌∷◌, List, ℕ, length, map, slice_index_or, IfOk, OnOk};
ghost use Rattle.adj_tree.specs.Code.{Declaration};
ghost use Rattle.adj_tree.specs.View.{extent_of, declaration_of};
ghost use Rattle.def_meaning.specs.Apart.{AreApart};
ghost use Rattle.adj_interp_frame.specs.declared.layout.Layout.TheVariants as layout;
ghost use Rattle.adj_interp_frame.specs.Called.{extent_at, extents_at, IsBoundBelow, IsLayoutBelow};
ghost use Rattle.adj_interp_frame.specs.Numbered.{Extends, Resolves};
ghost use Rattle.adj_interp_frame.specs.Declaring.{Declares};

use crate::layout::{Bound, Layout};
use crate::numbering::Numbering;
use adj_tree::{Decl, Extent, Memory};

// Scalars behind some layouts, up to a count.
pub(crate) fn fill(layouts: &mut Vec<Layout>, count: usize) -> Result<(), Memory>
    ensures same { OnOk result ((i : ℕ) → slice_index_or layouts.new.items i layout.Scalar ≡ slice_index_or layouts.old.items i layout.Scalar) }
    ensures longer { OnOk result (count ≤ length layouts.new.items) }
    ensures few { OnOk result ((n : ℕ) → count ≤ n → length layouts.old.items ≤ n → length layouts.new.items ≤ n) }
{
    'each: while layouts.len() < count {
        layouts.push(Layout::Scalar)?;
    }
    Ok(())
}

impl<'a> Numbering<'a> {
    // An extent.
    fn bound(&mut self, extent: &'a Extent) -> Result<Bound, Memory>
        ensures extends { OnOk result (Extends self.old self.new) }
        ensures apart { OnOk result (AreApart self.old → AreApart self.new) }
        ensures resolves { IfOk result (λ b. Resolves extent_at IsBoundBelow self.new b (extent_of extent.now)) }
    {
        match extent {
            Extent::Lit(word) => Ok(Bound::Fixed(*word)),
            Extent::Dummy(name) => Ok(Bound::Given(self.number(name)?)),
        }
    }

    // The extents of a declaration.
    fn layout(&mut self, extents: &'a [Extent]) -> Result<Layout, Memory>
        requires { length extents.now ≤ 2 }
        ensures extends { OnOk result (Extends self.old self.new) }
        ensures apart { OnOk result (AreApart self.old → AreApart self.new) }
        ensures resolves { IfOk result (λ l. Resolves extents_at IsLayoutBelow self.new l (map extent_of extents.now)) }
    {
        match extents {
            [] => Ok(Layout::Scalar),
            [rows] => Ok(Layout::List(self.bound(rows)?)),
            [rows, cols, ..] => {
                let first = self.bound(rows)?;
                Ok(Layout::Table(first, self.bound(cols)?))
            }
        }
    }

    /// A declaration before others whose layouts are known: it decides for its variable.
    pub(crate) fn declare(
        &mut self,
        layouts: &mut Vec<Layout>,
        decl: &'a Decl,
    ) -> Result<(), Memory>
        requires apart { AreApart self.old }
        requires few { length decl.now.extents ≤ 2 }
        ensures extends { OnOk result (Extends self.old self.new) }
        ensures apart { OnOk result (AreApart self.new) }
        ensures declares { OnOk result ((ds : List Declaration) → Declares ds self.old layouts.old.items → Declares (declaration_of decl.now ∷ ds) self.new layouts.new.items) }
    {
        let number = self.number(&decl.name)?;
        let layout = self.layout(decl.extents.as_slice())?;
        fill(layouts, self.len())?;
        layouts[number] = layout;
        Ok(())
    }
}

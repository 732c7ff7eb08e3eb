//! What is done on ways.

ghost use Rattle.std.specs.Prelude.{◌≡◌};
ghost use Rattle.adj_tree.specs.Code.{plain};
ghost use Rattle.def_flow.specs.Ways.{assigned_on};
ghost use Rattle.adj_flow.specs.WayView.{deed_of};

use adj_tree::{Exprs, Name};

/// What is done on a way.
#[derive(Clone, Copy)]
pub enum Deed<'a> {
    Passing,
    /// The statement of this number assigns the whole variable.
    Assigning(usize, &'a Name),
    /// A unit is called with these actuals.
    Calling(&'a Exprs),
}

impl Deed<'_> {
    /// Whether it assigns the whole of this variable.
    pub fn assigns(self, name: &Name) -> bool
        ensures is { result ≡ assigned_on (deed_of self.entry) (plain name.now) }
    {
        match self {
            Deed::Assigning(_, other) => other.equals(name),
            Deed::Passing | Deed::Calling(_) => false,
        }
    }
}

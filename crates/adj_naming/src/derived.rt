//! The two texts that are made from a source (docs/EMITTED.md, "Fresh names").

ghost use Rattle.std.specs.Prelude.{◌≡◌};
ghost use Rattle.def_sweep.specs.Naming.{mark_of, work_letters};
ghost use Rattle.adj_naming.specs.Texts.{derived_of};

/// What an emitted unit is of. The names of its shadows, and those of the helpers of assignments, differ by it.
#[derive(Clone, Copy)]
pub enum Derived {
    /// The adjoint: `XB` is the shadow of `X`, and the helpers of assignments are `ADW1`, `ADW2`, ..
    Adjoint,
    /// The tangent: `XD` is the shadow of `X`, and the helpers of assignments are `ADY1`, `ADY2`, ..
    Tangent,
}

impl Derived {
    // What follows a variable's name in that of its shadow.
    pub(crate) fn mark(self) -> &'static [u8]
        ensures mark { result.now ≡ mark_of (derived_of self) }
    {
        match self {
            Derived::Adjoint => b"B",
            Derived::Tangent => b"D",
        }
    }

    // How the names of the helpers of assignments begin.
    pub(crate) fn work_letters(self) -> &'static [u8]
        ensures letters { result.now ≡ work_letters (derived_of self) }
    {
        match self {
            Derived::Adjoint => b"ADW",
            Derived::Tangent => b"ADY",
        }
    }
}

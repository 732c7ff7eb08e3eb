//! How far a unit has come.

ghost use Rattle.std.specs.Prelude.{◌≡◌};
ghost use Rattle.adj_parse.specs.Order.{may_follow};

use def_text::Kind;

/// What a unit has so far, in the order that its statements have.
#[derive(Clone, Copy, PartialEq, Eq, Debug)]
pub(crate) enum Phase {
    /// SUBROUTINE alone.
    Heading,
    /// IMPLICIT NONE, INTEGER or COMMON too.
    Declaring,
    /// Executable statements too.
    Acting,
    /// RETURN too.
    Leaving,
}

impl Phase {
    /// Whether a statement of this class may come now.
    pub(crate) fn admits(self, kind: Kind) -> bool
        ensures { result ≡ may_follow kind self }
    {
        match kind {
            Kind::Subroutine => false,
            Kind::ImplicitNone => self == Phase::Heading,
            Kind::Integer | Kind::Common => matches!(self, Phase::Heading | Phase::Declaring),
            Kind::End => true,
            _ => self != Phase::Leaving,
        }
    }
}

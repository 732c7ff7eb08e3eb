//! What may be wrong with an expression that is well formed.

ghost use Rattle.std.specs.Prelude.{◌≡◌};
ghost use Rattle.adj_parse_expression.specs.Flaws.{both, first_of};

/// Why an expression or a condition that the grammar derives has no tree: the first of these that holds.
#[derive(Clone, Copy, PartialEq, Eq, Debug)]
pub enum Flaw {
    /// A literal is above 9223372036854775807.
    Large,
    /// It is deeper than the limit.
    Deep,
    /// A literal exponent isn't from 0 to 63, or it or a part of it isn't a word.
    Exponent,
}

impl Flaw {
    /// The first of two flaws.
    pub(crate) fn first_of(self, other: Flaw) -> Flaw
        ensures { result ≡ first_of self other }
    {
        match self {
            Flaw::Large => Flaw::Large,
            Flaw::Deep if other == Flaw::Large => Flaw::Large,
            Flaw::Deep => Flaw::Deep,
            Flaw::Exponent => other,
        }
    }
}

/// Both parts, or the first flaw of them.
pub fn both<A: Drop, B: Drop>(left: Result<A, Flaw>, right: Result<B, Flaw>) -> Result<(A, B), Flaw>
    ensures { result ≡ both left right }
{
    match left {
        Ok(a) => match right {
            Ok(b) => Ok((a, b)),
            Err(flaw) => Err(flaw),
        },
        Err(flaw) => match right {
            Ok(_) => Err(flaw),
            Err(other) => Err(flaw.first_of(other)),
        },
    }
}

//! What bounds a text.

ghost use Rattle.std.specs.Prelude.{◌≡◌};
ghost use Rattle.adj_parse.specs.Trees.{bounds_of};

use def_text::Mode;

/// How much a text may have (docs/LANGUAGE.md).
#[derive(Clone, Copy, PartialEq, Eq, Debug)]
pub(crate) struct Bounds {
    /// Units, where their number is bounded.
    pub units: Option<usize>,
    pub statements: u32,
    /// The depth of an expression or a condition.
    pub depth: u32,
    /// Open blocks round a statement that opens one.
    pub nesting: usize,
}

impl Bounds {
    /// What bounds a text in this mode.
    pub(crate) fn of(mode: Mode) -> Bounds
        ensures { result ≡ bounds_of mode }
    {
        match mode {
            Mode::Source => Bounds {
                units: Some(2000),
                statements: 200_000,
                depth: 100,
                nesting: 30,
            },
            Mode::Run => Bounds {
                units: None,
                statements: 4_000_000,
                depth: 120,
                nesting: 45,
            },
        }
    }
}

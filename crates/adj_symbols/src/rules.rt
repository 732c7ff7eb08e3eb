//! The rules of a mode.

ghost use Rattle.std.specs.Prelude.{◌≡◌};
ghost use Rattle.adj_symbols.specs.Rules.{rules_of, rules_for};

use def_text::Mode;

/// What a text may have: calls of the runtime, so many variables in a unit, so many units in a chain of calls.
#[derive(Clone, Copy)]
pub(crate) struct Rules {
    pub takes_runtime: bool,
    pub variables: Option<usize>,
    pub chain: usize,
}

impl Rules {
    /// The rules of a mode.
    pub(crate) fn new(mode: Mode) -> Rules
        ensures rules { rules_of result ≡ rules_for mode }
    {
        match mode {
            Mode::Source => Rules {
                takes_runtime: false,
                variables: Some(200),
                chain: 40,
            },
            Mode::Run => Rules {
                takes_runtime: true,
                variables: None,
                chain: 80,
            },
        }
    }
}

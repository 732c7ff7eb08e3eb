//! One argument of a command.

ghost use Rattle.std.specs.Prelude.{◌≡◌, ℕ, List, IfOk, string_bytes};

use adj_tree::Memory;
use std::alloc::Global;
use std::convert::AsStr;
use std::marker::Model;

/// One argument of a command, seen as its bytes.
#[derive(Drop)]
pub struct Text {
    argument: String,
}

impl Model for Text {
    ghost Value = { List ℕ };

    ghost view = { λ t. string_bytes t.argument };
}

impl Text {
    /// The argument with these bytes.
    pub fn new(alloc: Global, argument: &str) -> Result<Text, Memory>
        ensures bytes { IfOk result (λ t. t ≡ argument.now) }
    {
        let argument = argument.to_string(alloc)?;
        Ok(Text { argument })
    }
}

impl AsStr for Text {
    ghost text = { λ t. t };

    fn as_str(&self) -> &str {
        self.argument.as_str()
    }
}

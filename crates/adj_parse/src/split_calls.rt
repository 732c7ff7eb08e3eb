//! The calls that directives split.

ghost use Rattle.std.specs.Prelude.{◌≡◌, List, ℕ, Ok, IfOk};
ghost use Rattle.def_text.specs.Limits.{no_limits};
ghost use Rattle.def_text.specs.Reads.{ReadsSplits};
ghost use Rattle.def_text.specs.Splits.{split_lines};
ghost use Rattle.def_text.specs.Stated.{statements_of};

use adj_tree::{Items, Memory};
use def_text::Stated;
use std::alloc::Global;

/// Lines of a text, in order.
pub type Lines = Items<u32>;

/// The lines of the calls of a text that a directive splits, in order. Where the statements are a program, each is the line of a CALL.
pub fn splits(alloc: Global, stated: &[Stated]) -> Result<Lines, Memory>
    ensures exact { IfOk result (λ lines. lines ≡ split_lines stated.now) }
    ensures reads { IfOk result (λ lines. (bytes : List ℕ) → statements_of no_limits bytes ≡ Ok stated.now → ReadsSplits bytes lines) }
{
    let mut lines = Vec::new(alloc);
    for statement in stated {
        if statement.split {
            lines.push(statement.line)?;
        }
    }
    Ok(Lines::new(lines))
}

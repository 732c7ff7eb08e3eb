//! All statements of a text.

ghost use Rattle.std.specs.Prelude.{◌≡◌, List, ℕ, Ok, IfOk};
ghost use Rattle.adj_tree.specs.CommonView.{shared_units_of};
ghost use Rattle.def_text.specs.Limits.{no_limits};
ghost use Rattle.def_text.specs.Reads.{ReadsShared};
ghost use Rattle.def_text.specs.Refused.{Gives};
ghost use Rattle.def_text.specs.Stated.{statements_of};
ghost use Rattle.def_text.specs.Written.{AreWritten};
ghost use Rattle.adj_parse.specs.Trees.{IsText, trees_of};

use crate::parser::Parser;
use adj_tree::{Fault, SharedProgram};
use def_text::{Mode, Stated};
use std::alloc::Global;

/// The program that the statements of a text are, with its COMMON blocks, or the first fault: of grammar and order (codes 4, 5, 10, 20 and 25) or of a limit (code 21).
/// docs/LANGUAGE.md and docs/REFUSALS.md say both in lexemes.
pub fn program(alloc: Global, stated: &[Stated], mode: Mode) -> Result<SharedProgram, Fault>
    requires text { IsText mode stated.now }
    ensures exact { Gives shared_units_of result (trees_of mode stated.now) }
    ensures reads { IfOk result (λ p. (bytes : List ℕ) → statements_of no_limits bytes ≡ Ok stated.now → ReadsShared bytes (shared_units_of p)) }
    ensures written { IfOk result (λ p. AreWritten (shared_units_of p)) }
{
    let mut parser = Parser::new(alloc, mode);
    for (index, statement) in stated.iter().enumerate() {
        let left = stated.len() - index - 1;
        parser.follow(alloc, mode, statement, left)?;
    }
    Ok(parser.finish())
}

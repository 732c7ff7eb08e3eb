//! A program that keeps the limits of a run reads in Run mode: definitions and laws, no code.
//!
//! `specs/Kept` says which limits on names, depth and nesting a program keeps, by a test of each of its parts (`specs/Rule`), and
//! `specs/Reading` what its canonical text is in Run mode. The crate stands on the reader of texts. The layer above uses the laws
//! for the text that is written.
#![tactic(auto)]

ghost use Rattle.law_limits.specs.Reading.{KeptReads, SourceIsKept};

use adj_parse_statement::statements_are_said;

/// The canonical text of a program that can be written and keeps the limits of a run reads in Run mode as that program, up to line numbers;
/// or it has too many statements.
pub fn kept_law()
    ensures { KeptReads }
{
    statements_are_said();
}

/// The program that a text gives in Source mode keeps the limits of that mode.
pub fn source_law()
    ensures { SourceIsKept }
{
    statements_are_said();
}

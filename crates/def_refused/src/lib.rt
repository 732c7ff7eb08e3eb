//! First faults of a text by what they are: definitions and laws, no code.
//!
//! `specs/First` says what the first fault of some places is, and the other modules of `specs/` what each code of a refusal is, as a property of
//! a line, of a statement, or of a statement and those before it. The laws say that the reader's answers are by them. The crate stands on the reader of texts and on what its blocks are lowered to (`def_common`).
#![tactic(auto)]

ghost use Rattle.def_refused.specs.Ends.{BlocksEnd};
ghost use Rattle.def_refused.specs.Refusals.{LinesAnswer, LinesRefused, LinesAccepted, StatementsAnswer, StatementsRefused, StatementsAccepted, TreesAnswer, TreesRefused, TreesAccepted, TreesReadUpTo};
ghost use Rattle.def_refused.specs.TextFaults.{TextRefused, TextFirst, TextAccepted};

use adj_parse_statement::statements_are_said;

/// The lines of a text are refused exactly where one has a fault, and then by the first.
pub fn lines_law()
    ensures answer { LinesAnswer }
    ensures refused { LinesRefused }
    ensures accepted { LinesAccepted }
{}

/// Statements as their lines give them are refused exactly where one has a fault, and then by the first.
pub fn statements_law()
    ensures answer { StatementsAnswer }
    ensures refused { StatementsRefused }
    ensures accepted { StatementsAccepted }
{}

/// The statements of a text are refused as units exactly where one has a fault behind those before it, and then by the first.
pub fn trees_law()
    ensures answer { TreesAnswer }
    ensures refused { TreesRefused }
    ensures accepted { TreesAccepted }
    ensures up_to { TreesReadUpTo }
{
    statements_are_said();
}

/// A text is refused exactly where it has a fault, and then by the first in the order of passes, of places and of codes.
pub fn text_law()
    ensures refused { TextRefused }
    ensures first { TextFirst }
    ensures accepted { TextAccepted }
{
    statements_are_said();
}

/// The open blocks behind statements are those that can end, by the grammar of units.
pub fn blocks_law()
    ensures end { BlocksEnd }
{}

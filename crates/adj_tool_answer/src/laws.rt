//! The law of the answers to a text.

ghost use Rattle.adj_tool_answer.specs.Laws.{ProgramOnly, ProgramTold, StatementsOnly, StatementsTold, UnitsTold};

use def_refused::{lines_law, statements_law, text_law, trees_law};

/// What `statements_of`, `trees_of` with its blocks lowered, and `program_of` give is what a text is by its faults, and nothing else is.
pub fn reading_law()
    ensures statements { StatementsTold }
    ensures only_statements { StatementsOnly }
    ensures units { UnitsTold }
    ensures program { ProgramTold }
    ensures only_program { ProgramOnly }
{
    lines_law();
    statements_law();
    trees_law();
    text_law();
}

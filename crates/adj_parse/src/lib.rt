//! Statements to trees, with the COMMON statements of each unit.
//!
//! `program` makes the units of a text out of its statements, or gives the first fault of their grammar, their order and their limits;
//! `splits` gives the lines of the calls that directives split.
//! `parser` takes the statements in order, `nest` holds the blocks that are open. The crate stands on the reader of one statement
//! (`adj_parse_statement`), on what texts mean (`def_text`) and on the trees. The layer above uses the clauses of `program`.
#![tactic(auto)]

mod block;
mod bounds;
mod current;
mod laws;
mod nest;
mod parser;
mod phase;
mod split_calls;
mod text;

pub use laws::{one_program, trees_are_derived};
pub use split_calls::{Lines, splits};
pub use text::program;

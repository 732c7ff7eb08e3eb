//! The command `run`: the head of a text on the data behind it.
//!
//! `run_answer` reads the text as one that is run, checks it, finds the head, reads its input, runs it by `adj_interp`, and
//! gives what is written with its status. The crate stands on `adj_tool_answer`, `adj_symbols`, `adj_data`, `adj_tape` and `adj_interp`. The
//! layer above uses one clause: the answer is what `AnswersRun` says of the request and the bytes (docs/COMMANDS.md).
#![tactic(auto)]

mod running;

pub use running::run_answer;

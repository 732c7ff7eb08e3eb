//! The command `jacobian`: the derivative of a head on the data behind it, by its pattern.
//!
//! `jacobian_answer` reads the text as one of a user, checks it, finds the head, reads its input, finds the derivative by `adj_jacobian`, and
//! gives what is written with its status. The layer above uses one clause: the answer is what `AnswersJacobian` says of the request, the
//! listed names and the bytes (docs/COMMANDS.md). Such an answer never has the status of a full tape (`never_full`).
#![tactic(auto)]

mod answering;
mod laws;
mod lines;

pub use answering::jacobian_answer;
pub use laws::never_full;

//! Which of their dummies units write, and which they read.
//!
//! Both are least sets: what a unit writes or reads itself, and the actuals of such dummies of the units that it calls. The
//! dummies of all units are the nodes of a graph, an edge for each actual leads back to the calling unit, and one search
//! along the edges finds the set. The crate stands on the trees, on the definitions of both sets in `def_meaning` and on
//! `adj_reach`; the layers above use that `written_dummies` and `read_dummies` give exactly these sets, and what it is
//! made with: the list of statements, the numbers of names, the variables that stand in expressions, in actuals and in
//! conditions, and those that a runtime call changes.
#![tactic(auto)]

mod dummies;
mod links;
pub mod names;
mod sets;
mod side;
pub mod statements;
pub mod table;
pub mod variables;

pub use sets::{read_dummies, written_dummies};

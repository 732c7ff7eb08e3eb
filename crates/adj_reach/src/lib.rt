//! Which nodes of a graph are reached from some of them.
//!
//! A graph is a number of nodes and a list of edges (`reach`, `reach_back`; `reached`, `reached_back` count the nodes themselves).
//! It stands on lists and on what it is to be reached; the layers above use that each call gives exactly the nodes on paths. The cost is linear in nodes and edges.
#![tactic(auto)]

mod bounded;
mod direction;
mod paths;
mod rows;
mod search;

pub use bounded::{flag_at, reached, reached_back};
pub use paths::{reach, reach_back};

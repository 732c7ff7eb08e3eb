//! Which nodes of a graph are reached from some of them, where a node is a variable at a point and most steps carry a whole row of variables.
//!
//! The variables at a point are a row of bits (`Rows`), and an arc carries a row to another point, but for what it leaves behind; what isn't carried in rows is
//! an edge. So a point with hundreds of variables costs some words of memory and an arc a few operations on words (`reached_by_rows`, `reached_back_by_rows`). It stands on what it is to
//! be reached (`adj_reach`); the layers above use that the call gives exactly what is reached along edges and arcs.
#![tactic(auto)]

mod arc;
mod bits;
mod chains;
mod flags;
mod reaching;
mod search;
mod size;
mod turning;

pub use arc::Arc;
pub use bits::Rows;
pub use reaching::reached_by_rows;
pub use turning::reached_back_by_rows;

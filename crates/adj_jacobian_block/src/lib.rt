//! Words that each carry the set of those columns, of a block of 256, on which they can depend.
//!
//! `Block` is a number of the interpreter, so that a run over it gives the part of a run's pattern that lies in the block (`block_law`).
//! It stands on the numbers of `adj_number` and on the patterns of `def_jacobian`; no command uses it yet.
#![tactic(auto)]

mod block;
mod laws;

pub use block::Block;
pub use laws::block_law;

//! Compressed Jacobians: patterns of derivatives, directions of groups, and the entries that are recovered from dual runs.
//!
//! `pattern` gives the rows of the pattern run of `def_jacobian`: it runs a unit once over the words of `adj_jacobian_few`, and where a row has more
//! columns than these keep, once more for each 256 columns over the words of `adj_jacobian_block`. `seeds` gives the tangents of a group of
//! `adj_jacobian_groups`, and `recover` reads the entries from one dual run for each group; `derivative` does all of it. The crate stands on the
//! interpreter `adj_interp`. The layer above uses `derivative`.
#![tactic(auto)]

mod blocks;
mod cells;
mod compressed;
mod directions;
mod entry;
mod listed;
mod patterns;
mod recovery;
mod rows;
mod start;
mod walk;

pub use compressed::derivative;
pub use directions::seeds;
pub use entry::{Derivative, Entries, Entry, Jacobian};
pub use patterns::pattern;
pub use recovery::recover;

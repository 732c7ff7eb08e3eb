//! The tape of a run: words, last in, first out.
//!
//! All of its room is taken when it is made, so that no push ever runs out of memory. The crate stands on
//! nothing but std. The layer above uses: a push and a pop are those of a list from the top down, and a push is refused
//! exactly where the room is used up. (docs/RUNNING.md, "Runtime calls")
#![tactic(auto)]

mod tape;

pub use tape::{Full, Memory, Tape};

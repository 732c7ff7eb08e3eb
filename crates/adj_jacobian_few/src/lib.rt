//! Words that each carry the columns on which they can depend, where these are few.
//!
//! `Few` is a number of the interpreter: it has up to 6 columns in increasing order, or says that they are many. A run over it gives those columns
//! of a run's pattern that are few (`few_law`). It stands on the numbers of `adj_number` and on the patterns of `def_jacobian`. The layer above
//! uses `Few` and what `few_law` says of each cell.
#![tactic(auto)]

mod few;
mod laws;

pub use few::{Few, Kept};
pub use laws::few_law;

//! Sets of names.
//!
//! A set has names in the order in which they came, none of them twice, and finds one in constant time. Each clause says what the set
//! is as a list. A `NameSet` holds the texts of its names, also of those that are made up; `BorrowedNames` are those of a tree. The crate
//! stands on the trees and on what it is that a list has a name (`def_names`); every layer that looks names up uses it.
#![tactic(auto)]

mod borrowed;
mod name_set;

pub use borrowed::BorrowedNames;
pub use name_set::{NameSet, add_names, add_texts};

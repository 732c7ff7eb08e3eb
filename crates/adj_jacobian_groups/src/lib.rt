//! Groups of the columns of a Jacobian's pattern, no two of which share a row.
//!
//! `Sparsity` is a pattern, and `groups` gives each of its columns the least group that no earlier column of a shared row has (`AreLeastGroups` of
//! `def_jacobian`). It stands on the lists of `adj_tree`. The layer above uses `groups`. The cost is that of the rows' lengths squared.
#![tactic(auto)]

mod grouping;
mod lists;
mod sparsity;

pub use grouping::groups;
pub use sparsity::{Cell, Cells, Columns, GroupList, Grouping, Row, Rows, Sparsity};

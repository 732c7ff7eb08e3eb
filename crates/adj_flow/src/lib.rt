//! What the analyses work on: the statements of a program where they stand, the variables in them, the ways between its points, the units that take part,
//! its variables at points as nodes with numbers, and as rows of bits.
//!
//! It stands on the trees, the definitions of `def_flow`, on `adj_reach` and on `adj_reach_rows`. The layers above use that `taking_part` gives
//! exactly the units that calls reach from the head, that the calls to be split are flagged, that a flag of a node tells of the variable at the point,
//! and that an arc of a unit's row leads just between the nodes that the edges of its variables join.
#![tactic(auto)]

pub mod actuals;
mod deed;
mod end;
mod nodes;
mod occurrences;
mod occurring;
mod outline;
mod part;
mod place;
mod row;
mod rows;
pub mod sides;
mod splits;
mod standing;
mod strided;
mod unit_rows;
mod units;
pub mod variables;
mod way;

pub use actuals::{Units, pairs};
pub use deed::Deed;
pub use end::End;
pub use nodes::{add_carried, add_edge, add_link, add_node, number, told, told_by_bit};
pub use occurring::Occurrences;
pub use outline::Outline;
pub use part::taking_part;
pub use place::Place;
pub use row::Part;
pub use rows::parts;
pub use sides::{Sides, dummies_of};
pub use standing::Standing;
pub use strided::picked;
pub use unit_rows::{assigned_place, variable_rows};
pub use units::Flow;
pub use way::{Point, Way};

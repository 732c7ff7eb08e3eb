//! Activity: which variables are varied and useful, which have a shadow, and which statements an adjoint; and which variables carry a tangent.
//!
//! Variables at points, variables of units, and statements and units are nodes with numbers; edges between them are the steps of
//! each rule (`specs/Edges.antt`), and one search finds what they reach; flow goes along ways by arcs that carry all variables of a unit.
//! The crate stands on the definitions of `def_flow`, on `adj_flow` and on `adj_reach_rows`; the layers above use that `activity` gives exactly the activity of a program, and `carried` exactly what
//! carries a tangent (`def_tangent`).
#![tactic(auto)]

mod adjointed;
mod adjoints;
mod along;
mod calls;
mod finding;
mod found;
mod listing;
mod program_flow;
mod starts;
mod statements;
mod steps;
mod ways;

ghost use Rattle.adj_activity.specs.Laws.{ActivityIsTold, CarriedIsTold, VariablesHold};

pub use finding::{activity, carried};
pub use program_flow::flow;

/// Flags of what the edges of each rule reach from where it begins tell exactly the activity, and exactly what carries a tangent.
pub fn activity_law()
    ensures told { ActivityIsTold }
    ensures carried { CarriedIsTold }
{}

/// The variables of each unit of a written program are among them its dummies and what stands in its statements.
pub fn variables_law()
    ensures hold { VariablesHold }
{}

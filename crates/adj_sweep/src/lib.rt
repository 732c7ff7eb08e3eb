//! The sweeps of statements by marks, as code, and the helpers that they use.
//!
//! A `plan` is what the sweeps of a unit follow; `callees` is what it knows of the units that are called. `sweeps` writes both sweeps of a list
//! and of a statement by its kind: `assignments`, `branches`, `repeats` (DO and DO WHILE, the iterations of which are in `loops`) and `calls`
//! (the actuals of which are in `actuals`). `bodies` writes the body of an adjoint unit. `used` and `uses` find the helpers that a unit
//! declares, `measure` and `depths` count them, and `steps` says whether marked loops are reversed.
//! Each clause says that the result is that of the definitions (`def_sweep/specs/Emission.antt`), unless memory runs out.
#![tactic(auto)]

pub mod actuals;
pub mod assignments;
pub mod bodies;
pub mod branches;
pub mod callees;
pub mod calls;
pub mod depths;
pub mod loops;
pub mod measure;
pub mod plan;
pub mod repeats;
pub mod reversal;
pub mod reversed;
pub mod slots;
pub mod steps;
pub mod sweeps;
pub mod used;
pub mod uses;

//! The emitted program of a checked program in kernel form, with full marks or with those that analyses found.
//!
//! `weave` puts the program together, and `unit` the units that are made of a unit: its adjoint, and the two that split calls call. `making`
//! says what differs in them, `made` names them, and `left` says what the forward unit leaves on the tape; `marks` says what is marked,
//! `calls` and `found` which units are emitted, and `called` what the sweeps of calls know of units. What adjoints have in common with
//! tangents is in adj_weave_units. `head` gives the adjoint of a head as its caller sees it: its name, and which dummies have a shadow.
//! Each clause says that the result is that of the emission's definition (`def_sweep/specs/Program.antt`), unless memory runs out.
//! The crate stands on those definitions, on the sweeps (adj_sweep), names (adj_naming), the checked program (adj_symbols), of which
//! it takes the variables and the written and read dummies, and the flow of a program (adj_flow). The layer above uses `adjoint` and
//! `head_adjoint`, and says whether marked loops are reversed by schedules.
#![tactic(auto)]

pub mod analyses;
pub mod called;
pub mod calls;
pub mod found;
mod head;
pub mod left;
pub mod made;
pub mod making;
pub mod marks;
pub mod unit;
mod weave;

pub use analyses::told_law;
pub use head::{HeadAdjoint, head_adjoint};
pub use marks::{FoundMarks, Marked};
pub use weave::adjoint;

//! The adjoint of an assignment, as code, and the marks of a unit.
//!
//! A `site` is where it is written: the names of the unit, its marks, the number of the statement and its line. `apart` takes a right
//! side apart and assigns its temporaries, `written` writes what becomes of its adjoint, and `adjoint` is the whole; `parts` and `share`
//! write parts that occur more than once. `marking` says of a statement whether it is kept, adjointed and what it saves, and of a variable
//! whether it has a shadow and where it is varied; for tangents it says which variables carry one. Each clause says that the result is that of the definitions
//! (`def_sweep/specs/AdjointOf.antt`, `def_sweep/specs/Marks.antt`), unless memory runs out.
#![tactic(auto)]

mod adjoint;
pub mod apart;
pub mod marking;
pub mod parts;
pub mod share;
pub mod site;
pub mod sizes;
pub mod step;
pub mod terms;
mod written;

pub use marking::{Carried, Found, Marking};

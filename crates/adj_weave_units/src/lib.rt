//! What units that are made of those of a checked program have in common, whether they are adjoints or tangents.
//!
//! `source` has the names of the source and of the units that are made, `numbers` those of statements; `calls` lists the calls between units,
//! and `found` has what a search along them begins with. Of a unit `shadows` gives the variables with their shadows, `declarations` what
//! declares them, and `arrays` which of them are arrays; `unit` puts together what is made of it.
//! Each clause says that the result is that of the definitions (`def_sweep/specs/Program.antt`), unless memory runs out.
#![tactic(auto)]

pub mod arrays;
pub mod calls;
pub mod declarations;
pub mod found;
pub mod numbers;
pub mod shadows;
pub mod source;
pub mod unit;

//! The marks of a program: what all analyses say of it; and which of its variables carry a tangent.
//!
//! `plan` makes the flow of a checked program, finds what is active, then what is live by that, then what is to be recorded by both.
//! `plan_text` writes them down, a line a statement. `carrying` makes the flow and finds what carries a tangent.
//! The crate stands on the three analyses and on checked programs; the layers above use that together the marks are exact
//! (`specs/Asked.antt`), so that they meet the laws that the sweeps ask for.
#![tactic(auto)]

mod carriers;
mod laws;
mod lines;
mod lists;
mod planning;

pub use carriers::{CarriedFlow, carrying};
pub use laws::plan_law;
pub use lines::{Said, plan_text};
pub use planning::{Planned, plan};

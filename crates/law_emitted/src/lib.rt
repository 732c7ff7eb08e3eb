//! What is emitted for a checked program in kernel form is its adjoint, can be written as a text and has no fault: laws.
//!
//! `checked` says that it is the adjoint of the kernel, `emitted` that it can be written and has no fault, and `accepted` that what is
//! emitted for the kernel of an accepted program is an adjoint of the program. The layers above use these for their marks.
#![tactic(auto)]

mod accepted;
mod checked;
mod emitted;

pub use accepted::{accepted_law, adjoint_law, kernel_law};
pub use checked::{checked_law, lawful_law, premises_law};
pub use emitted::{
    actuals_law, calls_law, chains_law, depth_law, names_law, nesting_law, shadows_law, sound_law,
    units_law, writes_law, written_law,
};

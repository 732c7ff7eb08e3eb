//! Which variables of a program carry a tangent, and that what is emitted by this is its tangent and reads as it: laws.
//!
//! `carried` says that it is the tangent of the program of a user, and `text` that its text is read as it. The crate stands on the theorem on kernels
//! (`law_tangent`), on the laws on analyses (`law_analysed`), on those on kernels of accepted programs (`law_emitted`), and on those on texts of a
//! run (`law_limits`). The top call uses these laws where it writes a tangent.
#![tactic(auto)]

mod carried;
mod text;

pub use carried::{fitting_law, premises_met, source_law, tangent_law, weight_law};
pub use text::{
    actuals_law, calls_law, chains_law, limits_law, names_law, sound_law, text_law, units_law,
    writes_law,
};

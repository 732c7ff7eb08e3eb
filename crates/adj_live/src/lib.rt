//! Adjoint liveness: which values the sweeps need, which statements the forward sweep keeps, and which dummies each adjoint unit needs
//! when it begins.
//!
//! These three are one set of facts. Each fact has a number, and the steps of the rules are edges between numbers
//! (`specs/Listed.antt`), so that one search finds them all, in time linear in facts and edges. The crate stands on the definitions of
//! `def_flow`, on `adj_reach`, and on the activity; the layers above use that the flags of `live` tell exactly what is live.
#![tactic(auto)]

mod begins;
mod calls;
mod extents;
mod finding;
mod known;
mod passing;
mod reads;
mod site;
mod steps;

pub use finding::live;

//! What programs do: values, runs and dual runs, as definitions, and lemmas that code needs.
//!
//! `specs/` has the one meaning of the language, over any numbers. The crate stands on the trees, on words and on schedules.
//! The layers above cite `specs/Units.antt` for what a run is.
#![tactic(auto)]

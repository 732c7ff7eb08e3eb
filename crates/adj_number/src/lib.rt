//! The numbers of a run, as code: words, or words that each carry a tangent.
//!
//! A run is defined over any numbers, by what the record `Numbers` of `def_meaning` has. `Number` is a type of the code
//! that has the same, so that one interpreter serves runs and dual runs. The crate stands on words and on the
//! definition. The layers above use: each operation is that of the definition, of words for `i64` and of words with
//! tangents for `Dual`. (docs/RUNNING.md, "Numbers")
#![tactic(auto)]

mod dual;
mod number;
mod word;

pub use dual::Dual;
pub use number::Number;

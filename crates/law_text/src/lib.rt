//! What holds of texts: an expression reads in one way, what is printed reads back, and texts name no lines: laws.
//!
//! A law about the definitions of `def_text` is the contract of an empty function here.
#![tactic(auto)]

pub mod texts;

pub use texts::{
    expressions_are_read, readings_are_written, splits_are_read, text_reads_back,
    texts_name_no_lines,
};

//! The canonical text of a program.
//!
//! `text` writes a tree as `text_of` of def_text says (`specs/Text.antt` there): that is its contract. `into_text` lets the tree go meanwhile.
//! The crate stands on the trees and on the definitions of texts. The characters of a statement are gathered first, in
//! one buffer that serves all statements, and then laid out line by line, so the cost is linear in the text.
#![tactic(auto)]

mod condition;
mod expression;
mod layout;
mod list;
mod runtime;
mod statement;
mod unit;

pub use unit::{into_text, text};

//! One statement to what it says.
//!
//! `said` reads the lexemes of a statement by its class: what they say, what is wrong with their expressions, or nothing where they haven't the form of the class.
//! Its clause says that the answer is that of the definition (`specs/Said.antt`), and `statements_are_said` that this is what the grammar derives.
//! The crate stands on the reader of expressions (`adj_parse_expression`), on what texts mean (`def_text`) and on the trees. The layer above
//! puts statements together with it.
#![tactic(auto)]

mod called;
mod content;
mod declaration;
mod deed;
mod flaws;
mod heading;
mod label;
mod laws;
mod lexemes;
mod number;
mod statement;

pub use content::{Item, Range, Said};
pub use label::{Label, LongLabel};
pub use laws::{forms_are_said, statements_are_said};
pub use statement::said;

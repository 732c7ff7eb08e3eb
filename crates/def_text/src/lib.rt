//! What a text means: its lines, statements, lexemes and grammar, and the text of a program.
//!
//! The crate holds the types of statements and tokens, definitions (`specs/`) and laws about them, and no other code.
//! It stands on the trees. The reader's and the printer's crates cite its definitions in their contracts.
#![tactic(auto)]

pub mod mode;
pub mod stated;
pub mod token;

pub use mode::Mode;
pub use stated::{Advice, Kind, Stated};
pub use token::{Token, TokenKind, Tokens};

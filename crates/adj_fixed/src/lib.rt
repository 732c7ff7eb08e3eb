//! Fixed form: the bytes of a text become statements with their classes and tokens.
//!
//! `statements` joins lines, classes what they hold and cuts it into tokens, or gives the first fault of the text;
//! `data_part` finds where the data of a text begin. The crate stands on the definitions of `def_text` and on the
//! trees' types of faults and lists. The layer above uses one clause: the result is `statements_of` of the bytes.
#![tactic(auto)]

mod class;
mod data;
mod directive;
mod line;
mod lined;
mod scan;
mod statement;

pub use data::data_part;
pub use def_text::{Kind, Mode, Stated, Token, TokenKind, Tokens};
pub use line::{next_number, split_line, without_cr};
pub use scan::is_name_part;
pub use statement::statements;

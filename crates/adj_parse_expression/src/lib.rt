//! The expression or the condition at the front of some tokens.
//!
//! `expression` and `condition` give its tree, or what is wrong with it, and the tokens behind it. Each clause says that the answer is that
//! of the definition (`specs/Front.antt`): the longest expression or condition that the grammar derives, judged by its literals, its depth and its exponents.
//! The crate stands on the trees and on what texts mean. The layer above reads statements with it.
#![tactic(auto)]

mod application;
mod conditions;
mod constant;
mod expressions;
mod flaw;
mod frame;
mod inside;
mod intrinsic;
mod laws;
mod machine;
mod operand;
mod proposition;
mod stack;
mod waiting;

pub use conditions::condition;
pub use expressions::expression;
pub use flaw::{Flaw, both};
pub use laws::conditions_are_read;

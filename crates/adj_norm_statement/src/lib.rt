//! What statements become in the kernel of a program, as code.
//!
//! `form` tests whether a program is in kernel form. `locals` names the locals of a unit; `target` and `call` write what becomes of
//! an assignment and of a CALL, by `expression` and `passing`, and `statement` does so for lists. What the kernel is, and that it means
//! what the program means, stands in `def_kernel`; the contracts here say that the code gives exactly that.
#![tactic(auto)]

pub mod call;
pub mod expression;
pub mod form;
pub mod handed;
pub mod locals;
pub mod passing;
pub mod statement;
pub mod step;
pub mod target;

pub use form::is_kernel;

//! The command `check`: a head, its dual run and its adjoint on the data behind a text.
//!
//! `check_answer` reads the data, runs the head, its dual run and the emitted program, which is printed and read back before it
//! runs, and gives what is written with its status. The crate stands on `adj_data`, `adj_print`, `adj_tool_answer`, `adj_symbols` and
//! `adj_interp`, and on what limits mean for runs (`law_rooms`). The layer above uses: the answer is
//! `check_answer` of the definitions, and where it is done both products are equal (docs/COMMANDS.md).
#![tactic(auto)]

mod checking;
mod copies;
mod emitted;
mod laws;
mod lines;
mod products;
mod runs;
mod shadows;

pub use checking::check_answer;
pub use emitted::Emitted;
pub use laws::check_law;

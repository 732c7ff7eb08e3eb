//! The interpreter: runs of a unit of a program, on words and on words that carry tangents.
//!
//! `run` prepares the units of a checked program of `adj_symbols`, and a machine executes the prepared statements of
//! `adj_interp_frame`, calls included. The layer above uses: a run concludes as the run of `def_meaning`, with the tape and the
//! log that it leaves (`specs/Concludes.antt`). docs/RUNNING.md says what programs do.
#![tactic(auto)]

mod call;
mod cursor;
mod dual;
mod input;
mod log;
mod machine;
mod output;
mod planning;
mod preparing;
mod runs;
mod runtime;
mod spare;
mod stop;
mod tally;
mod trips;

pub use cursor::Cursor;
pub use dual::run_dual;
pub use log::Log;
pub use machine::Machine;
pub use runs::{run, run_over};
pub use spare::Spare;
pub use stop::Stop;
pub use tally::{Reversal, Tally};

//! Worked cases of the definitions: texts, runs, adjoints and reversals, and that with a fault a program is no adjoint.
//!
//! `reading`, `texts` and `runs` compute definitions of texts and runs; `worked` has worked programs with what is emitted for them and what
//! its runs give, `reversals` those whose marked loops are reversed by schedules, and `calling` one with a checkpointed call.
#![tactic(auto)]

pub mod calling;
mod reading;
mod reversals;
mod runs;
mod texts;
mod worked;

pub use calling::premises_met;
pub use reading::{dummy_cases, read_cases, renamed_cases, written_cases};
pub use reversals::{
    worked_costs, worked_numbers, worked_reversals, worked_rows, wrong_costs, wrong_reversals,
};
pub use runs::{run_cases, schedule_cases, sharing_cases, word_cases};
pub use texts::{
    block_cases, depth_cases, expression_cases, first_faults, limit_cases, line_refusals,
    printed_cases, statement_cases, statement_refusals, tree_refusals,
};
pub use worked::{open_marks, split_shape, worked_programs, worked_runs, wrong_adjoints};

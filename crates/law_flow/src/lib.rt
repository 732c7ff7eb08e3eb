//! What the analyses are to find, as definitions, and the laws that it meets.
//!
//! `specs/` has points and ways, flow, activity, what is needed and kept, what is held and saved. Each set is the least by rules of at most one
//! premise, and so what is reached along steps (`specs/Reached.antt`). The crate holds no code that does work.
//! The layers above cite these definitions in the contracts of the analyses; the central theorem takes the laws of `specs/Laws.antt`.
#![tactic(auto)]

mod worked;

ghost use Rattle.law_flow.specs.Laws.{AnalysedIsClosed, EntriesAreClosed, StatementsAreClosed, CallsAreClosed};

pub use worked::{worked_assignments, worked_blocks, worked_calls};

/// What exact analyses say meets the laws that the central theorem asks for, on each way, at each statement and at each call.
pub fn closed_law()
    ensures ways { AnalysedIsClosed }
    ensures entries { EntriesAreClosed }
    ensures statements { StatementsAreClosed }
    ensures calls { CallsAreClosed }
{}

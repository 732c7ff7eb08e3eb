//! Names, calls and writes of a program, checked.
//!
//! `check` gives the program with its variables and with the dummies that its units write, or the first fault of its
//! units, names, calls, chains and writes; `head` finds the unit to be differentiated. The crate stands on the trees and on
//! `def_names`, whose definitions say what is a fault and which comes first; the layers above use that both are exact.
#![tactic(auto)]

mod calls;
mod chains;
mod checked;
mod components;
mod counting;
mod cycles;
mod extents;
mod first;
mod graph;
mod heads;
mod loop_writes;
mod name_faults;
mod outline;
mod passes;
mod places;
mod rules;
mod scope;
mod sharing;
mod standing;
mod unit_names;
mod write_faults;
mod written;

pub use adj_symbols_writes::written_dummies;
pub use checked::Checked;
pub use heads::head;
pub use passes::check;
pub use unit_names::variables;

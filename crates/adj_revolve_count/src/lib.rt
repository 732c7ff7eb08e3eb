//! How many actions a schedule has, and which one has a number, without going through those before it.
//!
//! `count` is a closed form: three actions a step, and the snapshots that are taken (`specs/Stores.antt`). `action` goes
//! down the schedule's recursion, and leaps over the parts that lie one below the other (`Row`). docs/SCHEDULES.md has the
//! rules. The crate stands on `adj_revolve`. The layer above uses: both answer what the schedule's list has.
#![tactic(auto)]

mod counting;
mod row;
mod search;

pub use counting::count;
pub use search::action;

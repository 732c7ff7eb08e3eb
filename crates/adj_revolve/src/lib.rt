//! Schedules of snapshots that reverse a row of steps at the least cost.
//!
//! The numbers (`beta`, `least`, `split`), the machine that judges a list of actions (`play`), and the best list of
//! them, action by action (`Schedule`) or whole (`actions`). docs/SCHEDULES.md has the rules. The crate stands on no
//! other of the workspace. The layer above uses: the list is exactly the schedule and costs `least`, and no list that
//! plays costs less.
#![tactic(auto)]

mod binomial;
mod frames;
mod law;
mod least_cost;
mod list;
mod machine;

pub use binomial::beta;
pub use frames::Schedule;
pub use law::schedule_recursion;
pub use least_cost::{least, split};
pub use list::{Memory, actions};
pub use machine::{Action, play};

//! Units that are prepared for a run, and their entries.
//!
//! A unit is prepared once: its variables get numbers, and its trees name them by these. An entry of a unit has one slot
//! for each variable, whose cells change in place. What prepared trees do is defined by the trees that they stand for
//! (`specs/Prepared.antt`, `specs/Instructed.antt`) and the values of `def_meaning`. The layer above uses: a prepared
//! unit stands for its unit, an expression has in the slots the value that it has in the store that they show, and the
//! entry of a unit and what it hands back are those of a call.
#![tactic(auto)]

mod actual;
mod arithmetic;
mod declaring;
mod directory;
mod entry;
mod frame;
mod handing;
mod laws;
mod layout;
mod lending;
mod numbering;
mod passing;
mod preparation;
mod prepare;
mod routine;
mod slot;
mod step;
mod term;

pub use actual::Actual;
pub use directory::Directory;
pub use entry::Unfit;
pub use frame::Frame;
pub use laws::shown_is_seen;
pub use layout::{Bound, Layout};
pub use numbering::Numbering;
pub use preparation::routine_of;
pub use routine::Routine;
pub use slot::Slot;
pub use step::{Bounds, Cell, Marking, Service, Step, Steps, Task};
pub use term::{Term, Terms, Test};

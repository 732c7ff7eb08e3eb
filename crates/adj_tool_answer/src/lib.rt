//! What a text is as a program, with its blocks lowered, and what commands write: refusals, faults of data, and how runs end.
//!
//! `read_marked` gives the program of a text in a mode and the lines of its split calls, or its first fault; `read` gives the program alone.
//! `Answer` is a text with its status; `refused`, `usage`, `no_input` and `stopped` make one. The layers above use that each is what
//! docs/COMMANDS.md says.
#![tactic(auto)]

mod answer;
pub mod ending;
mod laws;
mod reading;
pub mod request;

pub use answer::{Answer, Status, push_number, refused, usage};
pub use ending::{no_input, stopped};
pub use laws::reading_law;
pub use reading::{Reading, program, read, read_marked, statements};
pub use request::RunRequest;

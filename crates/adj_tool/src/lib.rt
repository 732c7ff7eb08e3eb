//! The top call: what the program does for its arguments, its input and its output.
#![tactic(auto)]

mod answering;
mod arguments;
mod checking;
mod input;
mod jacobian;
mod laws;
mod planned;
mod running;
mod sampling;
mod schedule;
mod stop;
mod task;
mod text;
mod top;
mod values;

pub use laws::completeness_law;
pub use text::Text;
pub use top::tool;

//! The data of a run: values from bytes, and lines of values.
//!
//! `values` gives the input of a unit that data are, or exactly their first fault; `print_values` writes values as lines.
//! docs/DATA.md has the rules. The crate cuts lines by `adj_fixed`, and its extents and slots are those of `def_meaning`.
//! The layer above uses: the values are the input that is given, which fits the unit (`data_fit`), and a fault is the first one.
#![tactic(auto)]

mod checking;
mod data_code;
mod data_error;
mod declared;
mod entries;
mod input;
mod items;
mod laws;
mod marks;
mod numbers;
mod print;
mod sampling;
mod slots;

pub use checking::check_values;
pub use data_code::DataCode;
pub use data_error::DataError;
pub use input::values;
pub use items::{are_digits, is_name};
pub use laws::data_fit;
pub use marks::zeros_like;
pub use print::{print_values, push_numbers};
pub use sampling::{sample, sample_field, sample_snapshots, sample_steps};

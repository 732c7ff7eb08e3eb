//! Tests of what texts read as, and what is printed, by the public calls of the crates between texts and trees.
#![tactic(auto)]

#[cfg(test)]
mod answered;
#[cfg(test)]
mod conditions;
#[cfg(test)]
mod expressions;
#[cfg(test)]
mod fronts;
#[cfg(test)]
mod heads;
#[cfg(test)]
mod lines;
#[cfg(test)]
mod printed;
#[cfg(test)]
mod read;
#[cfg(test)]
mod readings;
mod texts;
#[cfg(test)]
mod trees;

pub use texts::{push_line, push_statement};

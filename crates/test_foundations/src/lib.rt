//! Tests of the lowest crates by their public calls: words, streams, schedules, the tape, trees, names and reachability. They stand apart, since a crate with
//! tests is proved twice. No code stands on this crate.
#![tactic(auto)]

#[cfg(test)]
mod carrying;
#[cfg(test)]
mod columns;
#[cfg(test)]
mod counting;
#[cfg(test)]
mod grouping;
#[cfg(test)]
mod naming;
#[cfg(test)]
mod reaching;
#[cfg(test)]
mod schedules;
#[cfg(test)]
mod streams;
#[cfg(test)]
mod tapes;
#[cfg(test)]
mod trees;
#[cfg(test)]
mod words;

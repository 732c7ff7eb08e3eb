//! Tests of the top call with streams that fail: the k-th read, or the k-th write.
//!
//! `calls` is a call of `adj_tool::tool` with streams in memory. What calls come to that a process can show stands in the golden cases of
//! tests/. The crate stands on public calls alone, and offers nothing.
#![tactic(auto)]

#[cfg(test)]
mod calls;
#[cfg(test)]
mod failing;

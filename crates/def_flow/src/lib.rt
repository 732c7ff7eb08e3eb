//! What the analyses are to find: definitions, and lemmas that the analyses need.
//!
//! `specs/` has points and edges, flow, activity, what is needed and kept, what is held and saved. Each set is the least by rules of at
//! most one premise, and so what is reached along steps (`adj_reach/specs/Reached.antt`). The crates of the analyses cite these
//! definitions in their contracts.
#![tactic(auto)]

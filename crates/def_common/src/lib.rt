//! COMMON blocks: the run of a program with blocks, the lowered program, which has none, and the refusal of layouts that differ.
//!
//! `specs/Blocks.antt` has which units use a block and how they lay it out, `specs/Lowering.antt` the lowered program,
//! `specs/Slots.antt` the run with blocks and `specs/Refused.antt` the refusal. The crate holds definitions, no code. It stands on units with
//! blocks, on names and on the meaning of programs. The layers above cite `lowered_program`, `layout_refusal` and `run_with_blocks`.
#![tactic(auto)]

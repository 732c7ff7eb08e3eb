//! Tangents: what is emitted for the tangent of a program, and what it means that a program is the tangent of another. Definitions, no code.
//!
//! `specs/TangentOf` and `Forward` say what becomes of assignments and of the other statements, `Program` what is emitted, by what
//! carries a tangent (`def_flow/specs/Carried`), and `IsTangent` what it means that a program is the tangent of a program of a user.
#![tactic(auto)]

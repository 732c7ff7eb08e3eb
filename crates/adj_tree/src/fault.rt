//! Out of memory, and refusals of a text.

ghost use Rattle.std.specs.Prelude.{◌≡◌};
ghost use Rattle.adj_tree.specs.Codes.{code_number};
ghost use Rattle.adj_tree.specs.declared.fault.Fault.TheVariants as fault;

use crate::code::Code;
use std::alloc::{AllocError, AllocFailed};

/// Out of memory. It is never merged with another cause.
#[derive(Clone, Copy, Debug, PartialEq, Eq)]
pub struct Memory;

impl From<AllocError> for Memory {
    fn from(_error: AllocError) -> Memory {
        Memory
    }
}

impl<T: Drop> From<AllocFailed<T>> for Memory {
    fn from(_error: AllocFailed<T>) -> Memory {
        Memory
    }
}

/// Why a text is refused: the number of a code, the line where it stands (0 where it stands at none),
/// and the limit that was passed, which is 0 for every code but that of a limit.
#[derive(Clone, Copy, Debug, PartialEq, Eq)]
pub struct Refusal {
    pub code: u8,
    pub line: u32,
    pub number: u64,
}

impl Refusal {
    /// The refusal with a code, at a line.
    pub fn new(code: Code, line: u32) -> Refusal
        ensures { result ≡ record { code = code_number code; line = line; number = 0 } }
    {
        Refusal {
            code: code.number(),
            line,
            number: 0,
        }
    }

    /// The refusal of what passes a limit, at a line.
    pub fn passed(limit: u64, line: u32) -> Refusal
        ensures { result ≡ record { code = 21; line = line; number = limit } }
    {
        Refusal {
            code: Code::Limit.number(),
            line,
            number: limit,
        }
    }
}

/// Why a call on a text gave nothing: the text is refused, or memory ran out.
#[derive(Clone, Copy, Debug, PartialEq, Eq)]
pub enum Fault {
    Refused(Refusal),
    Memory,
}

impl Fault {
    /// The refusal with a code, at a line.
    pub fn refused(code: Code, line: u32) -> Fault
        ensures { result ≡ fault.Refused (record { code = code_number code; line = line; number = 0 }) }
    {
        Fault::Refused(Refusal::new(code, line))
    }

    /// The refusal of what passes a limit, at a line.
    pub fn limited(limit: u64, line: u32) -> Fault
        ensures { result ≡ fault.Refused (record { code = 21; line = line; number = limit }) }
    {
        Fault::Refused(Refusal::passed(limit, line))
    }
}

impl From<AllocError> for Fault {
    ghost from_gives = { λ _ e. e ≡ fault.Memory };

    fn from(_error: AllocError) -> Fault {
        Fault::Memory
    }
}

impl<T: Drop> From<AllocFailed<T>> for Fault {
    ghost from_gives = { λ _ e. e ≡ fault.Memory };

    fn from(_error: AllocFailed<T>) -> Fault {
        Fault::Memory
    }
}

impl From<Memory> for Fault {
    ghost from_gives = { λ _ e. e ≡ fault.Memory };

    fn from(_error: Memory) -> Fault {
        Fault::Memory
    }
}

//! Why a run stops.

ghost use Rattle.std.specs.Prelude.{◌≡◌};
ghost use Rattle.adj_interp.specs.declared.stop.Stop.TheVariants as stop;

use adj_tree::{Memory, Trap};

/// Why a run stops before its end.
#[derive(Clone, Copy, Debug, PartialEq, Eq)]
pub enum Stop {
    /// A trap at a line.
    Trap(Trap, u32),
    /// All statements that were allowed were executed, and there is more to do.
    Budget,
    /// A word is to be pushed, and the tape is full.
    TapeFull,
    /// Memory ran out. A count that would pass the end of its type is said to be that, to which no run comes.
    Memory,
}

impl From<Memory> for Stop {
    ghost from_gives = { λ _ e. e ≡ stop.Memory };

    fn from(_error: Memory) -> Stop {
        Stop::Memory
    }
}

impl From<adj_tape::Memory> for Stop {
    ghost from_gives = { λ _ e. e ≡ stop.Memory };

    fn from(_error: adj_tape::Memory) -> Stop {
        Stop::Memory
    }
}

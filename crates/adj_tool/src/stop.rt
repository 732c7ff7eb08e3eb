//! Why there is no answer.

ghost use Rattle.std.specs.Prelude.{◌≡◌};
ghost use Rattle.adj_tool.specs.declared.stop.Stop.TheVariants as stop;

use adj_tree::Memory;

/// Why there is no answer.
#[derive(Clone, Copy, Debug)]
pub enum Stop {
    /// A read failed.
    ReadFault,
    /// Memory ran out.
    Memory,
}

impl From<Memory> for Stop {
    ghost from_gives = { λ _ e. e ≡ stop.Memory };

    fn from(_error: Memory) -> Stop {
        Stop::Memory
    }
}

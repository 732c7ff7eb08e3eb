//! How a text is read.

/// Whose text is read. The modes differ in their limits (docs/LANGUAGE.md) and in the calls of the runtime.
#[derive(Clone, Copy, PartialEq, Eq, Debug)]
pub enum Mode {
    /// What a user writes.
    Source,
    /// Emitted text too: longer statements and names, and the calls of the runtime.
    Run,
}

//! Names that are put together.

ghost use Rattle.std.specs.Prelude.{◌≡◌, ◌++◌, IfOk};
ghost use Rattle.def_names.specs.Fresh.{digits, candidate};

use adj_tree::{Memory, Name};
use itoa::Buffer;
use std::alloc::Global;

/// The name of some bytes and then some others.
pub fn joined(alloc: Global, front: &[u8], back: &[u8]) -> Result<Name, Memory>
    ensures name { IfOk result (λ y. y ≡ front.now ++ back.now) }
{
    let mut bytes = Vec::new(alloc);
    bytes.extend_from_slice(front)?;
    bytes.extend_from_slice(back)?;
    Name::from_slice(alloc, bytes.as_slice())
}

/// The name of some bytes and then a number in decimal digits.
pub fn with_number(alloc: Global, front: &[u8], number: usize) -> Result<Name, Memory>
    ensures name { IfOk result (λ y. y ≡ front.now ++ digits number) }
{
    let mut buffer = Buffer::new();
    joined(alloc, front, buffer.format(number).as_bytes())
}

/// The base itself, or with its number behind.
pub fn candidate(alloc: Global, base: &[u8], number: usize) -> Result<Name, Memory>
    ensures name { IfOk result (λ y. y ≡ candidate base.now number) }
{
    if number == 0 {
        joined(alloc, base, &[])
    } else {
        let front = joined(alloc, base, b"_")?;
        with_number(alloc, front.bytes(), number)
    }
}

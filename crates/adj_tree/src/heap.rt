//! Values on the heap.

ghost use Rattle.std.specs.Prelude.{◌≡◌, IfOk};

use crate::fault::Memory;
use std::alloc::Global;

/// The value on the heap. Where memory is out the value is let go here, once for all callers.
pub fn boxed<T: Drop>(alloc: Global, value: T) -> Result<Box<T>, Memory>
    ensures boxed { IfOk result (λ b. b.value ≡ value) }
{
    let place = Box::new(alloc, value)?;
    Ok(place)
}

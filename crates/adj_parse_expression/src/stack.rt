//! Stacks.

ghost use Rattle.std.specs.Prelude.{◌≡◌, ◌∷◌, [], ◌++◌, IfOk};

use adj_tree::Memory;

/// Puts an item on top. Where memory is out the item is let go here, once for all callers.
pub(crate) fn push<T: Drop>(stack: &mut Vec<T>, item: T) -> Result<(), Memory>
    ensures items { IfOk result (λ _. stack.new.items ≡ stack.old.items ++ item ∷ []) }
{
    stack.push(item)?;
    Ok(())
}

//! Numbers of columns along an input.

ghost use Rattle.std.specs.Prelude.{◌≡◌, ◌+◌, ◌<◌, ◌^◌, IfOk};
ghost use Rattle.adj_jacobian.specs.Walks.{next_column};

use adj_tree::Memory;

/// The number of the next column after a dummy with so many cells. An error means that there is none in reach.
pub(crate) fn next_column(marked: bool, first: u64, count: usize) -> Result<u64, Memory>
    ensures next { IfOk result (λ n. n ≡ next_column marked first count) }
    ensures room { IfOk result (λ n. first + count < 2 ^ 64) }
{
    let past = first.checked_add(count as u64).ok_or(Memory)?;
    Ok(if marked { past } else { first })
}

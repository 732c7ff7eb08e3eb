//! What is wrong with a statement that has several expressions: the first flaw of them.

ghost use Rattle.std.specs.Prelude.{◌≡◌, IfOk};
ghost use Rattle.adj_parse_expression.specs.View.{seen};
ghost use Rattle.adj_parse_statement.specs.Flaws.{with_part};

use adj_parse_expression::{Flaw, both};
use adj_tree::Memory;

/// The parts with one more, or the first flaw of them.
pub(crate) fn with_part<A: Drop>(
    parts: Result<Vec<A>, Flaw>,
    part: Result<A, Flaw>,
) -> Result<Result<Vec<A>, Flaw>, Memory>
    ensures { IfOk result (λ r. seen (λ v. v.items) r ≡ with_part (seen (λ v. v.items) parts) part) }
{
    match both(parts, part) {
        Ok((mut all, last)) => {
            all.push(last)?;
            Ok(Ok(all))
        }
        Err(flaw) => Ok(Err(flaw)),
    }
}

/// The same where the one more stands on the heap.
pub(crate) fn with_boxed<A: Drop>(
    parts: Result<Vec<A>, Flaw>,
    part: Result<Box<A>, Flaw>,
) -> Result<Result<Vec<A>, Flaw>, Memory>
    ensures { IfOk result (λ r. seen (λ v. v.items) r ≡ with_part (seen (λ v. v.items) parts) (seen (λ b. b.value) part)) }
{
    match both(parts, part) {
        Ok((mut all, last)) => {
            all.push(Box::into_inner(last))?;
            Ok(Ok(all))
        }
        Err(flaw) => Ok(Err(flaw)),
    }
}

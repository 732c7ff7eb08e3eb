//! Conditions that wait for what stands to their right.
#![tactic(auto, using(crate::proofs::WaitLemmas::waits))]

ghost use Rattle.std.specs.Prelude.{◌≡◌, ◌<◌, [], IfOk, option_map};
ghost use Rattle.adj_parse_expression.specs.ConditionMachine.{deny, conjoin, disjoin, close_all, alone};
ghost use Rattle.adj_parse_expression.specs.PartialCondition.{test_algebra, proposition_of};
ghost use Rattle.adj_parse_expression.specs.Waits.{waits_of};

use crate::proposition::Proposition;
use crate::stack::push;
use adj_tree::Memory;
use std::alloc::Global;

/// What waits for its end, or for its right operand.
#[derive(Drop)]
pub(crate) enum Waiting {
    /// An open parenthesis, of a condition or of an expression.
    Opened,
    Denied,
    Anded(Proposition),
    Ored(Proposition),
}

/// The condition to the left, once the `.NOT.` before it is made.
pub(crate) fn deny(
    alloc: Global,
    waits: &mut Vec<Waiting>,
    made: Proposition,
    limit: u32,
) -> Result<Proposition, Memory>
    requires { limit < 1000 }
    ensures { IfOk result (λ c. (waits_of waits.new.items, proposition_of c) ≡ deny (test_algebra limit) (waits_of waits.old.items) (proposition_of made)) }
{
    match waits.pop() {
        Some(Waiting::Denied) => made.denied(alloc, limit),
        Some(outer) => {
            push(waits, outer)?;
            Ok(made)
        }
        None => Ok(made),
    }
}

/// The condition to the left, once the `.AND.` before it is made.
pub(crate) fn conjoin(
    alloc: Global,
    waits: &mut Vec<Waiting>,
    made: Proposition,
    limit: u32,
) -> Result<Proposition, Memory>
    requires { limit < 1000 }
    ensures { IfOk result (λ c. (waits_of waits.new.items, proposition_of c) ≡ conjoin (test_algebra limit) (waits_of waits.old.items, proposition_of made)) }
{
    match waits.pop() {
        Some(Waiting::Anded(left)) => left.conjoined(alloc, made, limit),
        Some(outer) => {
            push(waits, outer)?;
            Ok(made)
        }
        None => Ok(made),
    }
}

// The condition to the left, once the `.OR.` before it is made.
fn disjoin(
    alloc: Global,
    waits: &mut Vec<Waiting>,
    made: Proposition,
    limit: u32,
) -> Result<Proposition, Memory>
    requires { limit < 1000 }
    ensures { IfOk result (λ c. (waits_of waits.new.items, proposition_of c) ≡ disjoin (test_algebra limit) (waits_of waits.old.items, proposition_of made)) }
{
    match waits.pop() {
        Some(Waiting::Ored(left)) => left.disjoined(alloc, made, limit),
        Some(outer) => {
            push(waits, outer)?;
            Ok(made)
        }
        None => Ok(made),
    }
}

/// The condition to the left, once the `.AND.` and the `.OR.` before it are made.
pub(crate) fn close_all(
    alloc: Global,
    waits: &mut Vec<Waiting>,
    made: Proposition,
    limit: u32,
) -> Result<Proposition, Memory>
    requires { limit < 1000 }
    ensures { IfOk result (λ c. (waits_of waits.new.items, proposition_of c) ≡ close_all (test_algebra limit) (waits_of waits.old.items, proposition_of made)) }
{
    let made = conjoin(alloc, waits, made, limit)?;
    disjoin(alloc, waits, made, limit)
}

/// The condition, where no parenthesis is open.
pub(crate) fn alone(
    alloc: Global,
    waits: &mut Vec<Waiting>,
    made: Proposition,
    limit: u32,
) -> Result<Option<Proposition>, Memory>
    requires { limit < 1000 }
    ensures { IfOk result (λ found. option_map proposition_of found ≡ alone (close_all (test_algebra limit) (waits_of waits.old.items, proposition_of made))) }
{
    let made = close_all(alloc, waits, made, limit)?;
    if waits.is_empty() {
        Ok(Some(made))
    } else {
        Ok(None)
    }
}

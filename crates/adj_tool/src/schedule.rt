//! The command `schedule`.

ghost use Rattle.std.specs.Prelude.{◌≡◌, ◌++◌, ℕ, List, IfOk, OnOk, decimal, codes};
ghost use Rattle.adj_tool.specs.Answer.{action_line, schedule_answer};
ghost use Rattle.adj_tool_answer.specs.Views.{answer_of};

use crate::task::Reversal;
use adj_revolve::{Action, Schedule, least};
use adj_tool_answer::{Answer, Status, push_number};
use adj_tree::Memory;
use std::alloc::Global;

// Writes the line of an action.
fn push_action(text: &mut Vec<u8>, action: &Action) -> Result<(), Memory>
    ensures { OnOk result (text.new.items ≡ text.old.items ++ action_line action.now) }
{
    match action {
        Action::Store(place) => push_number(text, b"STORE ", u128::from(*place))?,
        Action::Advance(from, to) => {
            push_number(text, b"ADVANCE ", u128::from(*from))?;
            push_number(text, b" ", u128::from(*to))?;
        }
        Action::Turn(place) => push_number(text, b"TURN ", u128::from(*place))?,
        Action::Keep(place) => push_number(text, b"KEEP ", u128::from(*place))?,
        Action::Drop(place) => push_number(text, b"DROP ", u128::from(*place))?,
    }
    text.push(b'\n')?;
    Ok(())
}

/// The actions of the schedule, a line each, and their cost.
pub(crate) fn schedule(alloc: Global, reversal: &Reversal) -> Result<Answer, Memory>
    ensures { IfOk result (λ a. answer_of a ≡ schedule_answer reversal.now.steps reversal.now.snapshots) }
{
    let steps = reversal.steps;
    let snapshots = reversal.snapshots;
    let mut text = Vec::new(alloc);
    let mut actions = Schedule::new(steps, snapshots);
    while let Some(action) = actions.next() {
        push_action(&mut text, &action)?;
    }
    push_number(&mut text, b"ADVANCES ", least(steps, snapshots))?;
    text.push(b'\n')?;
    Ok(Answer {
        status: Status::Done,
        text,
    })
}

//! What is written, and the status that goes with it.

ghost use Rattle.std.specs.Prelude.{◌≡◌, ◌<◌, ◌++◌, ℕ, List, IfOk, OnOk, decimal, codes};
ghost use Rattle.adj_tool_answer.specs.Answer.{limit_text, refused, usage};
ghost use Rattle.adj_tool_answer.specs.Views.{answer_of, status_of};

use adj_tree::{Code, Memory, Refusal};
use itoa::Buffer;
use std::alloc::Global;

/// How a call ends whose answer is written whole.
#[derive(Clone, Copy, Debug, PartialEq, Eq)]
pub enum Status {
    /// The command was done.
    Done,
    /// The arguments are no command.
    Usage,
    /// The text is refused.
    Refused,
    /// The data have a fault.
    Data,
    /// A run trapped.
    Trap,
    /// A run used up its statements, and there was more to do.
    Budget,
    /// A word was to be pushed on a full tape.
    Tape,
}

impl Status {
    /// The status of the program.
    pub fn number(&self) -> u8
        ensures value { result ≡ status_of self.now }
        ensures few { result < 7 }
    {
        match self {
            Status::Done => 0,
            Status::Usage => 1,
            Status::Refused => 2,
            Status::Data => 3,
            Status::Trap => 4,
            Status::Budget => 5,
            Status::Tape => 6,
        }
    }
}

/// The bytes that a command writes, and how the call ends where they are written whole.
pub struct Answer {
    pub status: Status,
    pub text: Vec<u8>,
}

impl Drop for Answer {
    fn drop(self) {
        let Answer {
            status: _status,
            text: _text,
        } = self;
    }
}

/// Writes the decimal digits of a number behind a keyword.
pub fn push_number(text: &mut Vec<u8>, keyword: &[u8], number: u128) -> Result<(), Memory>
    ensures { OnOk result (text.new.items ≡ text.old.items ++ keyword.now ++ decimal number) }
{
    let mut buffer = Buffer::new();
    text.extend_from_slice(keyword)?;
    text.extend_from_slice(buffer.format(number).as_bytes())?;
    Ok(())
}

/// The answer to arguments that are no command.
pub fn usage(alloc: Global) -> Result<Answer, Memory>
    ensures { IfOk result (λ a. answer_of a ≡ usage) }
{
    let text = Vec::from_slice(alloc, b"USAGE\n")?;
    Ok(Answer {
        status: Status::Usage,
        text,
    })
}

/// The answer to a text that is refused.
pub fn refused(alloc: Global, refusal: Refusal) -> Result<Answer, Memory>
    ensures { IfOk result (λ a. answer_of a ≡ refused refusal) }
{
    let mut text = Vec::new(alloc);
    push_number(&mut text, b"REFUSED ", u128::from(refusal.code))?;
    push_number(&mut text, b" LINE ", u128::from(refusal.line))?;
    if refusal.code == Code::Limit.number() {
        push_number(&mut text, b" LIMIT ", u128::from(refusal.number))?;
    }
    text.push(b'\n')?;
    Ok(Answer {
        status: Status::Refused,
        text,
    })
}

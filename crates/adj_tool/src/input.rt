//! What a command reads: its input, up to a limit.

ghost use Rattle.std.specs.Prelude.{◌≡◌, ◌<◌, ◌^◌, IfOk, IsErrOf, option_map};
ghost use Rattle.adj_io.specs.Faults.{Rose};
ghost use Rattle.adj_tool_answer.specs.Answer.{too_long};
ghost use Rattle.adj_tool_answer.specs.Views.{answer_of};
ghost use Rattle.adj_tool.specs.Tool.{IsInput};

use crate::stop::Stop;
use adj_io::{ReadError, Source, read_all};
use adj_tool_answer::{Answer, refused};
use adj_tree::{Memory, Refusal};
use std::alloc::Global;

/// The most bytes of a text, and of a text with the data that it is checked on.
pub(crate) const MOST_BYTES: usize = 4_194_304;

/// The most bytes of a text with the data that it is run on.
pub(crate) const MOST_BYTES_OF_RUN: usize = 67_108_864;

/// The bytes of an input, or `None` where it has more than so many.
pub(crate) fn input_bytes<S: Source>(
    alloc: Global,
    input: &mut S,
    most: usize,
) -> Result<Option<Vec<u8>>, Stop>
    requires { most < usize.MAX }
    ensures input { IfOk result (λ o. IsInput most (S.left input.old) (S.left input.new) (option_map (λ v. v.items) o)) }
    ensures fault { IsErrOf result Stop.ReadFault → Rose (S.faults input.old) (S.faults input.new) }
{
    match read_all(alloc, input, most) {
        Ok(bytes) => Ok(Some(bytes)),
        Err(ReadError::TooLong) => Ok(None),
        Err(ReadError::ReadFault) => Err(Stop::ReadFault),
        Err(ReadError::Memory) => Err(Stop::Memory),
    }
}

/// The answer to an input of more bytes than the limit.
pub(crate) fn too_long(alloc: Global, most: usize) -> Result<Answer, Memory>
    ensures { IfOk result (λ a. answer_of a ≡ too_long most) }
{
    refused(alloc, Refusal::passed(most as u64, 0))
}

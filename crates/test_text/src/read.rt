//! Reading a text.

ghost use Rattle.std.specs.Prelude.{◌≡◌, IfOk};
ghost use Rattle.adj_tree.specs.View.{procedures_of};
ghost use Rattle.adj_symbols.specs.Checked.{IsWrittenIfNamed};

use adj_fixed::Mode;
use adj_print::text;
use adj_tree::{Fault, Memory, Program, Refusal};
use std::alloc::Global;

/// The program of a text, or the first fault of its lines, its statements, its trees or its blocks.
pub(crate) fn read(alloc: Global, bytes: &[u8], mode: Mode) -> Result<Program, Fault>
    ensures written { IfOk result (λ p. IsWrittenIfNamed (procedures_of p)) }
{
    adj_tool_answer::read(alloc, bytes, mode)
}

/// The line of a refusal.
pub(crate) fn refused(alloc: Global, refusal: Refusal) -> Result<Vec<u8>, Memory> {
    let Refusal { code, line, number } = refusal;
    let told = if code == 21 {
        format!(in alloc; "REFUSED {code} LINE {line} LIMIT {number}\n")?
    } else {
        format!(in alloc; "REFUSED {code} LINE {line}\n")?
    };
    let line = Vec::from_slice(alloc, told.as_bytes())?;
    Ok(line)
}

/// The canonical text of what a text reads as, or its refusal.
pub(crate) fn reading(alloc: Global, bytes: &[u8], mode: Mode) -> Result<Vec<u8>, Memory> {
    match read(alloc, bytes, mode) {
        Ok(program) => text(alloc, &program),
        Err(Fault::Refused(refusal)) => refused(alloc, refusal),
        Err(Fault::Memory) => Err(Memory),
    }
}

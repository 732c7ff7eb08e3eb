//! Reading a text.

ghost use Rattle.std.specs.Prelude.{◌≡◌, IfOk};
ghost use Rattle.adj_tree.specs.View.{procedures_of};
ghost use Rattle.def_text.specs.Reads.{ReadsSplits};
ghost use Rattle.def_text.specs.Refused.{Gives};
ghost use Rattle.def_common.specs.Source.{ReadsLowered};
ghost use Rattle.def_refused.specs.TextFaults.{program_of};
ghost use Rattle.adj_symbols.specs.Checked.{IsWrittenIfNamed};
ghost use Rattle.adj_tool_answer.specs.Programs.{AreOfText, AreStatements, AreUnits, IsProgram, Tells};

use crate::laws::reading_law;
use adj_common::lower_common;
use adj_fixed::{Mode, Stated};
use adj_parse::{Lines, splits};
use adj_tree::{Fault, Program};
use law_common::written_law;
use std::alloc::Global;

/// What a text is.
#[derive(Drop)]
pub struct Reading {
    /// Its program, in which members of blocks are dummies.
    pub program: Program,
    /// The lines of its CALL statements that directives split, in order.
    pub splits: Lines,
}

/// The statements of a text in a mode, or its first fault: of all its lines, or else of its statements (docs/REFUSALS.md).
pub fn statements(alloc: Global, bytes: &[u8], mode: Mode) -> Result<Vec<Stated>, Fault>
    ensures { Tells (λ v. v.items) result (AreStatements mode bytes.now) }
{
    reading_law();
    adj_fixed::statements(alloc, bytes, mode)
}

/// The program that the statements of a text are in a mode, in which members of blocks are dummies, or their first fault, up to which they read
/// (docs/REFUSALS.md).
pub fn program(alloc: Global, stated: &[Stated], mode: Mode) -> Result<Program, Fault>
    requires text { AreOfText mode stated.now }
    ensures units { Tells procedures_of result (AreUnits mode stated.now) }
    ensures written { IfOk result (λ p. IsWrittenIfNamed (procedures_of p)) }
{
    reading_law();
    written_law();
    let shared = adj_parse::program(alloc, stated, mode)?;
    lower_common(alloc, shared)
}

/// What a text is in a mode, or its first fault: of its lines, its statements, its trees or its blocks (docs/REFUSALS.md).
pub fn read_marked(alloc: Global, bytes: &[u8], mode: Mode) -> Result<Reading, Fault>
    ensures is { Tells (λ r. procedures_of r.program) result (IsProgram mode bytes.now) }
    ensures exact { Gives (λ r. procedures_of r.program) result (program_of mode bytes.now) }
    ensures reads { IfOk result (λ r. ReadsLowered bytes.now (procedures_of r.program)) }
    ensures splits { IfOk result (λ r. ReadsSplits bytes.now r.splits) }
    ensures written { IfOk result (λ r. IsWrittenIfNamed (procedures_of r.program)) }
{
    reading_law();
    let stated = statements(alloc, bytes, mode)?;
    let splits = splits(alloc, stated.as_slice())?;
    let program = program(alloc, stated.as_slice(), mode)?;
    Ok(Reading { program, splits })
}

/// The program of a text as `read_marked` gives it, for whom split calls are calls as others.
pub fn read(alloc: Global, bytes: &[u8], mode: Mode) -> Result<Program, Fault>
    ensures is { Tells procedures_of result (IsProgram mode bytes.now) }
    ensures exact { Gives procedures_of result (program_of mode bytes.now) }
    ensures reads { IfOk result (λ p. ReadsLowered bytes.now (procedures_of p)) }
    ensures written { IfOk result (λ p. IsWrittenIfNamed (procedures_of p)) }
{
    match read_marked(alloc, bytes, mode) {
        Ok(reading) => Ok(reading.program),
        Err(fault) => Err(fault),
    }
}

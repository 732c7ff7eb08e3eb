//! Calls of the program, from arguments and input to status and output.

use adj_io::{MemSink, MemSource};
use adj_tool::{Text, tool};
use adj_tree::Memory;
use std::alloc::Global;

/// The faults of the streams, by the numbers of their calls.
#[derive(Clone, Copy)]
pub(crate) struct Faults<'a> {
    pub(crate) reads: &'a [u64],
    pub(crate) writes: &'a [u64],
}

fn arguments_of(alloc: Global, line: &str) -> Result<Vec<Text>, Memory> {
    let mut arguments = Vec::new(alloc);
    for argument in line.split_whitespace() {
        arguments.push(Text::new(alloc, argument)?)?;
    }
    Ok(arguments)
}

// A source of these bytes, whose pieces are 10 bytes.
fn source_of(alloc: Global, input: &[u8], failing: &[u64]) -> Result<MemSource, Memory> {
    let bytes = Vec::from_slice(alloc, input)?;
    let failing = Vec::from_slice(alloc, failing)?;
    Ok(MemSource::new(bytes, failing, 10))
}

// A sink with room for what any call writes.
fn sink_of(alloc: Global, failing: &[u64]) -> Result<MemSink, Memory> {
    let failing = Vec::from_slice(alloc, failing)?;
    MemSink::new(alloc, 100_000, failing, 10).map_err(|_| Memory)
}

/// Whether a call ends with this status, and this is written.
pub(crate) fn comes_to(
    alloc: Global,
    line: &str,
    input: &[u8],
    faults: Faults<'_>,
    status: u8,
    written: &[u8],
) -> Result<bool, Memory> {
    let arguments = arguments_of(alloc, line)?;
    let mut source = source_of(alloc, input, faults.reads)?;
    let mut sink = sink_of(alloc, faults.writes)?;
    let ended = tool(alloc, arguments.as_slice(), &mut source, &mut sink);
    Ok(ended == status && sink.bytes() == written)
}

//! The program: it hands its arguments and the real streams to the top call, and ends with its status.
//!
//! It stands on the top call and on the streams, and claims nothing of its own: what standard input gives and what
//! standard output takes no clause can say.
#![tactic(auto)]

use adj_io::{StdSink, StdSource};
use adj_tool::{Text, tool};
use std::process::ExitCode;
use std::{env, io};

/// The arguments aren't those of a command.
const USAGE: u8 = 1;

/// Memory ran out.
const MEMORY: u8 = 9;

/// The bytes of stack that a call of `stack_taken` takes.
const ROOM: usize = 4096;

/// How many such calls take the stack that the deepest text needs, about four times over.
const CALLS: u32 = 256;

fn status(error: &io::Error) -> u8 {
    match error.kind() {
        io::ErrorKind::OutOfMemory => MEMORY,
        _ => USAGE,
    }
}

// The arguments behind the program's own name, or the status that it ends with where they can't be had.
fn arguments(rt: &HostRuntime) -> Result<Vec<Text>, u8> {
    let args = env::args(rt).map_err(|error| status(&error))?;
    let mut arguments = Vec::new(rt.alloc());
    for arg in args.skip(1) {
        let argument = Text::new(rt.alloc(), arg.as_str()).map_err(|_| MEMORY)?;
        arguments.push(argument).map_err(|_| MEMORY)?;
    }
    Ok(arguments)
}

// Touches the stack, so that it stays there when memory runs out. Each call looks at its room behind the deeper calls,
// at a place that they tell, so that no compiler leaves them out. The answer is 0 or 1.
fn stack_taken(calls: u32, place: usize) -> usize {
    let mut room = [0u8; ROOM];
    room[place % ROOM] = 1;
    let told = if calls == 0 {
        place
    } else {
        stack_taken(calls - 1, place)
    };
    usize::from(room[told.wrapping_add(1) % ROOM])
}

fn main(rt: HostRuntime) -> ExitCode {
    let arguments = match arguments(&rt) {
        Ok(arguments) => arguments,
        Err(status) => return ExitCode::from(status),
    };
    if stack_taken(CALLS, arguments.len()) > 1 {
        return ExitCode::from(MEMORY);
    }
    let mut input = StdSource::new(rt.reader());
    let mut output = StdSink::new(io::writer(&rt));
    ExitCode::from(tool(rt.alloc(), arguments.as_slice(), &mut input, &mut output))
}

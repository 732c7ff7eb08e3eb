//! Writing the texts that tests read.
//!
//! What the tests of several crates share: lines and statements. It stands on the trees alone, for their
//! error, and no contract speaks of it: the tests that call it do.
#![tactic(auto)]

use adj_tree::Memory;

/// Writes a statement in lines of 66 characters.
pub fn push_statement(all: &mut Vec<u8>, statement: &[u8]) -> Result<(), Memory> {
    for (index, piece) in statement.chunks(66).enumerate() {
        all.extend_from_slice(if index == 0 { b"      " } else { b"     +" })?;
        all.extend_from_slice(piece)?;
        all.push(b'\n')?;
    }
    Ok(())
}

/// Writes a line that begins in column 7, or stands as it is.
pub fn push_line(all: &mut Vec<u8>, line: &str) -> Result<(), Memory> {
    if !line.starts_with(' ') && !line.starts_with("C$") {
        all.extend_from_slice(b"      ")?;
    }
    all.extend_from_slice(line.as_bytes())?;
    all.push(b'\n')?;
    Ok(())
}

//! A program of two units that is checked, and its head that is found.

use crate::read::read;
use adj_fixed::Mode;
use adj_symbols::{check, head};
use adj_tree::{Fault, Head, Memory, Name, boxed};
use std::alloc::Global;

const TWO_UNITS: &[u8] = b"      SUBROUTINE P(I,J)
      CALL G(I,J)
      END
      SUBROUTINE G(K,L)
      L=K
      END
";

fn named(alloc: Global, text: &str) -> Result<Name, Memory> {
    Name::from_slice(alloc, text.as_bytes())
}

// The head G, with K independent and L dependent.
fn found(alloc: Global) -> Result<Box<Head>, Fault> {
    let program = read(alloc, TWO_UNITS, Mode::Source)?;
    let checked = boxed(alloc, check(alloc, program, Mode::Source)?)?;
    let name = named(alloc, "G")?;
    let first = [named(alloc, "K")?];
    let second = [named(alloc, "L")?];
    let found = boxed(alloc, head(alloc, &checked, &name, &first, &second)?)?;
    Ok(found)
}

#[test]
fn a_program_is_checked_and_its_head_found(rt: HostRuntime) -> Result<(), Fault> {
    let head = found(rt.alloc())?;
    assert!(rt;
        head.unit == 1
            && head.vars.as_slice() == [true, false].as_slice()
            && head.outvars.as_slice() == [false, true].as_slice()
    );
    Ok(())
}

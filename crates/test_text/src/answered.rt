//! The calls of `adj_tool_answer` that read a text: its statements, the program that they are, and both at once.

ghost use Rattle.std.specs.Prelude.{IfOk};
ghost use Rattle.adj_tree.specs.View.{procedures_of};
ghost use Rattle.adj_symbols.specs.Checked.{IsWrittenIfNamed};

use crate::read::refused;
use adj_fixed::Mode;
use adj_print::text;
use adj_tool_answer::{program, read, statements};
use adj_tree::{Fault, Memory, Program};
use std::alloc::Global;

// Texts, how many statements the first pass finds, and what the text comes to.
const TEXTS: [(&[u8], usize, &[u8]); 8] = [
    (
        b"      subroutine p(x)\n      integer x\n      do 10 i=1,3\n   10 x=x+i\n      end\n",
        5,
        b"REFUSED 10 LINE 4\n",
    ),
    (
        b"C a comment\n      SUBROUTINE P(X)\n      INTEGER*8 X\n      X = X\n     +*X\n      END\n$DATA\nX 1\n",
        4,
        b"      SUBROUTINE P(X)\n      INTEGER*8 X\n      X=X*X\n      END\n",
    ),
    (b"", 0, b""),
    // of lines, though a statement before is of no class
    (b"      GOTO 10\n      X=X;\n", 0, b"REFUSED 2 LINE 2\n"),
    // of statements, though one before them is no unit
    (b"      X=1\n      GOTO 10\n", 0, b"REFUSED 3 LINE 2\n"),
    (b"      X=1)\n", 0, b"REFUSED 4 LINE 1\n"),
    // of units
    (b"      X=1\n", 1, b"REFUSED 4 LINE 1\n"),
    (
        b"      SUBROUTINE P(X)\n      X=X**64\n      END\n",
        3,
        b"REFUSED 25 LINE 2\n",
    ),
];

// The answer for a program or a fault.
fn told(alloc: Global, found: Result<Program, Fault>) -> Result<Vec<u8>, Memory>
    requires written { IfOk found (λ p. IsWrittenIfNamed (procedures_of p)) }
{
    match found {
        Ok(program) => text(alloc, &program),
        Err(Fault::Refused(refusal)) => refused(alloc, refusal),
        Err(Fault::Memory) => Err(Memory),
    }
}

// Whether there are so many statements, none where they are refused, and what they come to is this.
fn is_stated(alloc: Global, bytes: &[u8], many: usize, wanted: &[u8]) -> Result<bool, Memory> {
    match statements(alloc, bytes, Mode::Source) {
        Ok(stated) => {
            let program = program(alloc, stated.as_slice(), Mode::Source);
            let answer = told(alloc, program)?;
            Ok(stated.len() == many && answer.as_slice() == wanted)
        }
        Err(Fault::Refused(refusal)) => {
            Ok(many == 0 && refused(alloc, refusal)?.as_slice() == wanted)
        }
        Err(Fault::Memory) => Err(Memory),
    }
}

// Whether the text as a whole comes to this.
fn is_told(alloc: Global, bytes: &[u8], wanted: &[u8]) -> Result<bool, Memory> {
    Ok(told(alloc, read(alloc, bytes, Mode::Source))?.as_slice() == wanted)
}

#[test]
fn a_text_is_its_program_or_refused_in_the_first_pass_with_a_fault(rt: HostRuntime) {
    for (index, (bytes, many, wanted)) in TEXTS.iter().enumerate() {
        assert!(rt;
            is_stated(rt.alloc(), bytes, *many, wanted) == Ok(true),
            "{index}"
        );
        assert!(rt; is_told(rt.alloc(), bytes, wanted) == Ok(true), "{index}");
    }
}

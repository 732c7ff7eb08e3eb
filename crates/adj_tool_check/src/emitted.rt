//! The program that is run as the adjoint.

ghost use Rattle.std.specs.Prelude.{◌≡◌, ◌<◌, [], IfOk, None, length, slice_get};
ghost use Rattle.adj_tree.specs.View.{procedures_of};
ghost use Rattle.adj_symbols.specs.Checked.{IsWrittenIfNamed};
ghost use Rattle.def_meaning.specs.Written.{find_unit};
ghost use Rattle.def_names.specs.Check.{IsSound};
ghost use Rattle.def_names.specs.Fault.{run_rules};
ghost use Rattle.def_names.specs.HeadFaults.{first_head_fault};
ghost use Rattle.adj_tool_check.specs.Emitted.{IsRunnable, read_back};

use adj_fixed::Mode;
use adj_print::text;
use adj_symbols::{Checked, check, head};
use adj_tool_answer::read;
use adj_tree::{Fault, Flags, Memory, Name, Program};
use std::alloc::Global;

/// An emitted program, the name that the adjoint of its head has, and for each dummy of the head whether it has a shadow.
#[derive(Drop)]
pub struct Emitted {
    pub program: Program,
    pub adjoint: Name,
    pub shadowed: Flags,
}

// What the text of a program reads as; the program itself where that has too many statements.
fn read_again(alloc: Global, program: Program) -> Result<Program, Memory>
    requires { IsRunnable (procedures_of program) }
    ensures same { IfOk result (λ p. procedures_of p ≡ read_back (procedures_of program)) }
    ensures written { IfOk result (λ p. IsWrittenIfNamed (procedures_of p)) }
    ensures sound { IfOk result (λ p. IsSound run_rules (procedures_of p)) }
{
    let text = text(alloc, &program)?;
    match read(alloc, text.as_slice(), Mode::Run) {
        Ok(again) => Ok(again),
        Err(Fault::Refused(_)) => Ok(program),
        Err(Fault::Memory) => Err(Memory),
    }
}

/// What is run as an emitted program, checked, which refuses none.
pub(crate) fn runnable(alloc: Global, program: Program) -> Result<Checked, Memory>
    requires { IsRunnable (procedures_of program) }
    ensures { IfOk result (λ c. procedures_of c.program ≡ read_back (procedures_of program)) }
{
    let again = read_again(alloc, program)?;
    match check(alloc, again, Mode::Run) {
        Ok(checked) => Ok(checked),
        Err(Fault::Memory) => Err(Memory),
        Err(Fault::Refused(_)) => unreachable!(),
    }
}

/// The number of the unit of a name, which is there.
pub(crate) fn number_of(alloc: Global, program: &Checked, name: &Name) -> Result<usize, Memory>
    requires { first_head_fault (procedures_of program.now.program) name.now [] [] ≡ None }
    ensures there { IfOk result (λ n. n < length (procedures_of program.now.program)) }
    ensures found { IfOk result (λ n. find_unit (procedures_of program.now.program) name.now ≡ slice_get (procedures_of program.now.program) n) }
{
    match head(alloc, program, name, &[], &[]) {
        Ok(found) => Ok(found.unit),
        Err(Fault::Memory) => Err(Memory),
        Err(Fault::Refused(_)) => unreachable!(),
    }
}

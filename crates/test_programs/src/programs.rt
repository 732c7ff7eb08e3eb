//! Programs of texts, their heads, and flags.

ghost use Rattle.std.specs.Prelude.{◌≡◌, IfOk};
ghost use Rattle.adj_tree.specs.View.{procedures_of};
ghost use Rattle.adj_symbols.specs.Checked.{IsWrittenIfNamed};

use adj_fixed::Mode;
use adj_symbols::{Checked, check};
use adj_tree::{Fault, Flags, Head, Memory, Program, boxed};
use std::alloc::Global;

// The program of a text.
fn read(alloc: Global, source: &[u8]) -> Result<Program, Fault>
    ensures written { IfOk result (λ p. IsWrittenIfNamed (procedures_of p)) }
{
    adj_tool_answer::read(alloc, source, Mode::Source)
}

/// The program of a text, checked.
pub(crate) fn checked(alloc: Global, source: &[u8]) -> Result<Box<Checked>, Fault> {
    let program = read(alloc, source)?;
    let checked = boxed(alloc, check(alloc, program, Mode::Source)?)?;
    Ok(checked)
}

/// A flag for each digit.
pub(crate) fn flags(alloc: Global, digits: &[u8]) -> Result<Flags, Memory> {
    let mut flags = Vec::new(alloc);
    for digit in digits {
        flags.push(*digit == b'1')?;
    }
    Ok(Flags::new(flags))
}

/// The first unit as head, whose dummies with a 1 are independent, and dependent.
pub(crate) fn head(alloc: Global, vars: &[u8], outvars: &[u8]) -> Result<Box<Head>, Memory>
    ensures first { IfOk result (λ head. head.value.unit ≡ 0) }
{
    let vars = flags(alloc, vars)?;
    let outvars = flags(alloc, outvars)?;
    let head = Head {
        unit: 0,
        vars,
        outvars,
    };
    boxed(alloc, head)
}

/// Whether a flag is set.
pub(crate) fn is_set(flags: &Flags, place: usize) -> bool {
    flags.as_slice().get(place).copied().unwrap_or(false)
}

/// Whether the first flags are set where these digits are 1.
pub(crate) fn begin_with(flags: &Flags, digits: &[u8]) -> bool {
    for (place, digit) in digits.iter().enumerate() {
        if is_set(flags, place) != (*digit == b'1') {
            return false;
        }
    }
    true
}

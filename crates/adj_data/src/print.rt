//! Lines of values.

ghost use Rattle.std.specs.Prelude.{◌≡◌, ◌++◌, length, map, IfOk, OnOk};
ghost use Rattle.adj_data.specs.Given.{slot_seen};
ghost use Rattle.adj_data.specs.Printed.{numbers_text, values_text};

use adj_tree::{Memory, NameList, Values};
use itoa::Buffer;
use std::alloc::Global;

/// Adds numbers, each behind a blank.
pub fn push_numbers(out: &mut Vec<u8>, numbers: &[i64]) -> Result<(), Memory>
    ensures text { OnOk result (out.new.items ≡ out.old.items ++ numbers_text numbers.now) }
{
    for number in numbers {
        let mut buffer = Buffer::new();
        out.push(b' ')?;
        out.extend_from_slice(buffer.format(*number).as_bytes())?;
    }
    Ok(())
}

/// A line for each name, with the values of its slot. (docs/DATA.md, "Output")
pub fn print_values(alloc: Global, names: &NameList, values: &Values) -> Result<Vec<u8>, Memory>
    requires { length names.now ≡ length values.now }
    ensures text { IfOk result (λ out. out.items ≡ values_text names.now (map slot_seen values.now)) }
{
    let mut out = Vec::new(alloc);
    for (name, slot) in names.as_slice().iter().zip(values.as_slice()) {
        out.extend_from_slice(name.bytes())?;
        push_numbers(&mut out, slot.cells.as_slice())?;
        out.push(b'\n')?;
    }
    Ok(out)
}

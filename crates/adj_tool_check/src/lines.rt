//! Lines of values behind a keyword.

ghost use Rattle.std.specs.Prelude.{◌≡◌, ◌++◌, ◌∷◌, [], map, OnOk};
ghost use Rattle.def_text.specs.Char.{line_feed};
ghost use Rattle.def_sweep.specs.Tangents.{cells_of};
ghost use Rattle.adj_data.specs.Given.{slot_seen};
ghost use Rattle.adj_data.specs.Printed.{numbers_text};
ghost use Rattle.adj_tool_check.specs.Checking.{flagged_lines, output_lines, products_line};

use adj_data::push_numbers;
use adj_tree::{Memory, Name, Slot};
use itoa::Buffer;

// A line with a keyword, a name and its values.
fn push_line(out: &mut Vec<u8>, keyword: &[u8], name: &Name, cells: &[i64]) -> Result<(), Memory>
    ensures { OnOk result (out.new.items ≡ out.old.items ++ (keyword.now ++ (name.now ++ (numbers_text cells.now ++ (line_feed ∷ []))))) }
{
    out.extend_from_slice(keyword)?;
    out.extend_from_slice(name.bytes())?;
    push_numbers(out, cells)?;
    out.push(b'\n')?;
    Ok(())
}

/// A line for each output.
pub(crate) fn push_outputs(out: &mut Vec<u8>, names: &[Name], values: &[Slot]) -> Result<(), Memory>
    ensures { OnOk result (out.new.items ≡ out.old.items ++ output_lines names.now (map slot_seen values.now)) }
{
    let mut rest = values;
    for name in names {
        let [slot, behind @ ..] = rest else {
            return Ok(());
        };
        push_line(out, b"OUT ", name, slot.cells.as_slice())?;
        rest = behind;
    }
    Ok(())
}

/// A line for each name that is flagged.
pub(crate) fn push_flagged(
    out: &mut Vec<u8>,
    keyword: &[u8],
    flags: &[bool],
    names: &[Name],
    values: &[Slot],
) -> Result<(), Memory>
    ensures { OnOk result (out.new.items ≡ out.old.items ++ flagged_lines keyword.now flags.now names.now (cells_of (map slot_seen values.now))) }
{
    let mut unnamed = names;
    let mut rest = values;
    for flag in flags {
        let [name, further @ ..] = unnamed else {
            return Ok(());
        };
        let [slot, behind @ ..] = rest else {
            return Ok(());
        };
        if *flag {
            push_line(out, keyword, name, slot.cells.as_slice())?;
        }
        unnamed = further;
        rest = behind;
    }
    Ok(())
}

/// The line of both products.
pub(crate) fn push_products(out: &mut Vec<u8>, inputs: i64, outputs: i64) -> Result<(), Memory>
    ensures { OnOk result (out.new.items ≡ out.old.items ++ products_line inputs outputs) }
{
    let mut buffer = Buffer::new();
    out.extend_from_slice(b"PRODUCTS ")?;
    out.extend_from_slice(buffer.format(inputs).as_bytes())?;
    out.push(b' ')?;
    out.extend_from_slice(buffer.format(outputs).as_bytes())?;
    out.push(b'\n')?;
    Ok(())
}

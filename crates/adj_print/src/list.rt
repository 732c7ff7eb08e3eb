//! Names and extents in parentheses, and numbers.

ghost use Rattle.std.specs.Prelude.{◌≡◌, ◌++◌, OnOk, map};
ghost use Rattle.std.specs.Fmt.{decimal, signed_decimal};
ghost use Rattle.adj_tree.specs.View.{extent_of};
ghost use Rattle.def_text.specs.Text.{behind_commas, bracketed, extent_text};

use adj_tree::{Extent, Memory, Name};
use itoa::Buffer;

/// Adds the digits of a number, behind a sign where it is negative.
pub fn push_number(out: &mut Vec<u8>, number: i64) -> Result<(), Memory>
    ensures digits { OnOk result (out.new.items ≡ out.old.items ++ signed_decimal number) }
{
    let mut buffer = Buffer::new();
    out.extend_from_slice(buffer.format(number).as_bytes())?;
    Ok(())
}

/// Adds the digits of a count.
pub fn push_count(out: &mut Vec<u8>, count: u32) -> Result<(), Memory>
    ensures digits { OnOk result (out.new.items ≡ out.old.items ++ decimal count) }
{
    let mut buffer = Buffer::new();
    out.extend_from_slice(buffer.format(count).as_bytes())?;
    Ok(())
}

/// Adds a name.
pub fn push_name(out: &mut Vec<u8>, name: &Name) -> Result<(), Memory>
    ensures name { OnOk result (out.new.items ≡ out.old.items ++ name.now) }
{
    out.extend_from_slice(name.bytes())?;
    Ok(())
}

/// Adds names in parentheses, or nothing where there are none.
pub fn push_names(out: &mut Vec<u8>, names: &[Name]) -> Result<(), Memory>
    ensures names { OnOk result (out.new.items ≡ out.old.items ++ bracketed names.now) }
{
    if let [first, rest @ ..] = names {
        out.push(b'(')?;
        push_name(out, first)?;
        push_other_names(out, rest)?;
    }
    Ok(())
}

fn push_other_names(out: &mut Vec<u8>, names: &[Name]) -> Result<(), Memory>
    ensures names { OnOk result (out.new.items ≡ out.old.items ++ behind_commas names.now) }
{
    for name in names {
        out.push(b',')?;
        push_name(out, name)?;
    }
    out.push(b')')?;
    Ok(())
}

fn push_extent(out: &mut Vec<u8>, extent: &Extent) -> Result<(), Memory>
    ensures extent { OnOk result (out.new.items ≡ out.old.items ++ extent_text (extent_of extent.now)) }
{
    match extent {
        Extent::Lit(number) => push_number(out, *number),
        Extent::Dummy(name) => push_name(out, name),
    }
}

/// Adds extents in parentheses, or nothing where there are none.
pub fn push_extents(out: &mut Vec<u8>, extents: &[Extent]) -> Result<(), Memory>
    ensures extents { OnOk result (out.new.items ≡ out.old.items ++ bracketed (map extent_text (map extent_of extents.now))) }
{
    if let [first, rest @ ..] = extents {
        out.push(b'(')?;
        push_extent(out, first)?;
        push_other_extents(out, rest)?;
    }
    Ok(())
}

fn push_other_extents(out: &mut Vec<u8>, extents: &[Extent]) -> Result<(), Memory>
    ensures extents { OnOk result (out.new.items ≡ out.old.items ++ behind_commas (map extent_text (map extent_of extents.now))) }
{
    for extent in extents {
        out.push(b',')?;
        push_extent(out, extent)?;
    }
    out.push(b')')?;
    Ok(())
}

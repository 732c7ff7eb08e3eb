//! How the characters of a statement are laid out in lines.

ghost use Rattle.std.specs.Prelude.{◌≡◌, ◌++◌, OnOk};
ghost use Rattle.def_text.specs.Text.{statement};

use adj_tree::Memory;

/// How many characters of a statement stand in one line.
const WIDTH: usize = 66;

/// Adds the lines of a statement with these characters.
pub fn push_statement(out: &mut Vec<u8>, chars: &[u8]) -> Result<(), Memory>
    ensures lines { OnOk result (out.new.items ≡ out.old.items ++ statement chars.now) }
{
    out.extend_from_slice(b"      ")?;
    let mut rest = chars;
    while rest.len() > WIDTH {
        let (line, others) = rest.split_at(WIDTH);
        out.extend_from_slice(line)?;
        out.extend_from_slice(b"\n     +")?;
        rest = others;
    }
    out.extend_from_slice(rest)?;
    out.push(b'\n')?;
    Ok(())
}

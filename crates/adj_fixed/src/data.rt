//! Where the data of a text begin.

ghost use Rattle.std.specs.Prelude.{◌≡◌};
ghost use Rattle.def_text.specs.Data.{data_of};

use crate::line::{is_data, next_number, split_line, without_cr};

/// Where the bytes behind the line `$DATA` begin, and the number of that line; where there is none, the length and the
/// number of the last line, which is 0 where there is no line at all.
pub fn data_part(bytes: &[u8]) -> (usize, u32)
    ensures { result ≡ data_of bytes.now }
{
    let mut rest = bytes;
    let mut number = 0u32;
    while !rest.is_empty() {
        let (line, after) = split_line(rest);
        number = next_number(number);
        if is_data(without_cr(line)) {
            return (bytes.len() - after.len(), number);
        }
        rest = after;
    }
    (bytes.len(), number)
}

//! Numbers of data.

ghost use Rattle.std.specs.Prelude.{◌≡◌, ◌+◌, ◌^◌, min, Some, None, if◌then◌else◌};
ghost use Rattle.def_text.specs.Char.{number_of};
ghost use Rattle.adj_data.specs.Items.{number_of_item};
ghost use Rattle.adj_data.specs.Faults.{in_range};

// The number that digits write, or 2^63 + 1 where it is above that.
fn capped(digits: &[u8]) -> u64
    ensures { result ≡ min (number_of digits.now) (2 ^ 63 + 1) }
{
    let mut number: u64 = 0;
    for digit in digits {
        let unit = u64::from(digit.saturating_sub(b'0'));
        number = number
            .saturating_mul(10)
            .saturating_add(unit)
            .min((1 << 63) + 1);
    }
    number
}

/// The number of an item, where it is in range.
pub(crate) fn number_of_item(item: &[u8]) -> Option<i64>
    ensures { result ≡ (if in_range (number_of_item item.now) then Some (number_of_item item.now) else None) }
{
    match item {
        [b'-', digits @ ..] => i64::try_from(-i128::from(capped(digits))).ok(),
        _ => i64::try_from(capped(item)).ok(),
    }
}

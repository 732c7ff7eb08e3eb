//! Numbers that digits write.

ghost use Rattle.std.specs.Prelude.{◌≡◌, ◌-◌, ◌^◌, min};
ghost use Rattle.def_text.specs.Char.{number_of};

/// The number that digits write, or the greatest `u64` where it is above that.
pub(crate) fn number(digits: &[u8]) -> u64
    ensures { result ≡ min (number_of digits.now) (2 ^ 64 - 1) }
{
    let mut number = 0u64;
    for digit in digits {
        let unit = u64::from(digit.saturating_sub(b'0'));
        number = number.saturating_mul(10).saturating_add(unit);
    }
    number
}

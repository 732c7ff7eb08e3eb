//! Sums, products, powers, quotients and trip counts of words.

ghost use Rattle.std.specs.Prelude.{◌≡◌, ◌≢◌, pos, MatchOption};
ghost use Rattle.adj_word.specs.Word as Word;

/// The residue of `a + b`.
pub fn add(a: i64, b: i64) -> i64
    ensures { result ≡ Word.add a b }
{
    a.wrapping_add(b)
}

/// The residue of `a - b`.
pub fn sub(a: i64, b: i64) -> i64
    ensures { result ≡ Word.sub a b }
{
    a.wrapping_sub(b)
}

/// The residue of `a * b`.
pub fn mul(a: i64, b: i64) -> i64
    ensures { result ≡ Word.mul a b }
{
    a.wrapping_mul(b)
}

/// The residue of `-a`, which is `a` again at the least word.
pub fn neg(a: i64) -> i64
    ensures { result ≡ Word.negated a }
{
    a.wrapping_neg()
}

/// The residue of `base` to the power `e`, by repeated squaring; 1 for `e = 0`, whatever `base` is.
pub fn pow(base: i64, e: u32) -> i64
    ensures { result ≡ Word.power base e }
{
    base.wrapping_pow(e)
}

/// The residue of `a / b` cut towards zero, or `None` for `b = 0`.
///
/// The least word over -1 is the least word again.
pub fn quot(a: i64, b: i64) -> Option<i64>
    ensures { MatchOption result (b ≡ pos 0) (λ q. (b ≢ pos 0) × (q ≡ Word.quotient a b)) }
{
    if b == 0 {
        None
    } else {
        Some(a.wrapping_div(b))
    }
}

/// What `quot` leaves of `a`, with the sign of `a`, or `None` for `b = 0`.
///
/// The least word over -1 leaves 0.
pub fn rem(a: i64, b: i64) -> Option<i64>
    ensures { MatchOption result (b ≡ pos 0) (λ r. (b ≢ pos 0) × (r ≡ Word.remainder a b)) }
{
    if b == 0 {
        None
    } else {
        Some(a.wrapping_rem(b))
    }
}

/// How often a DO loop from `m1` to `m2` by `m3` turns, or `None` for `m3 = 0`.
///
/// Nothing wraps: the count is at most 2^64 (ANSI X3.9-1978, 11.10.3).
pub fn trips(m1: i64, m2: i64, m3: i64) -> Option<u128>
    ensures { MatchOption result (m3 ≡ pos 0) (λ n. (m3 ≢ pos 0) × (n ≡ Word.trip_count m1 m2 m3)) }
{
    if m3 == 0 {
        return None;
    }
    let step = i128::from(m3);
    let turns = (i128::from(m2) - i128::from(m1) + step) / step;
    Some(u128::try_from(turns).unwrap_or(0))
}

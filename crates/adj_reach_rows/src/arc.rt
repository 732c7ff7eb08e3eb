//! Arcs between points, on which variables stay what they are.

ghost use Rattle.std.specs.Prelude.{◌≡◌, ◌/◌, ◌%◌, ◌<◌, ℕ, if◌then◌else◌};
ghost use Rattle.std.specs.Int.{bit_at};
ghost use Rattle.adj_reach_rows.specs.Arcs.{is_left};

/// An arc from a point to another. It carries the variables of the row `kept`, but for the one that it leaves behind.
#[derive(Clone, Copy)]
pub struct Arc {
    pub from: usize,
    pub to: usize,
    pub kept: usize,
    pub left: Option<usize>,
}

/// The word of a number in a row of all variables but the one that is left behind.
pub(crate) fn others(left: Option<usize>, word: usize) -> u64
    ensures { (j : ℕ) → j / 64 ≡ word → bit_at result (j % 64) ≡ (if is_left left j then 0 else 1) }
{
    match left {
        None => u64::MAX,
        Some(variable) => {
            if variable / 64 == word {
                !(1 << (variable % 64))
            } else {
                u64::MAX
            }
        }
    }
}

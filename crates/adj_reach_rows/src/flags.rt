//! The flags of nodes.

ghost use Rattle.std.specs.Prelude.{◌≡◌, ◌+◌, ◌*◌, ◌/◌, ◌<◌, ◌≤◌, ◌==◌, ◌⊎◌, ◌||◌, ◌^◌, ℕ, IfOk, false, length};
ghost use Rattle.std.specs.Int.{bit_at};
ghost use Rattle.adj_reach.specs.Edges.{flag};
ghost use Rattle.adj_tree.specs.Bits.{bit};
ghost use Rattle.adj_reach_rows.specs.Searches.{place_of};

use adj_tree::{BitFlags, Memory, has_bit};
use std::alloc::Global;

// Sets a flag, if it is to be set.
fn set_if(flags: &mut BitFlags, place: usize, is_set: bool)
    requires within { place < length flags.old }
    ensures count { length flags.new ≡ length flags.old }
    ensures set { flag flags.new place ≡ (is_set || flag flags.old place) }
    ensures others { (x : ℕ) → (x < place) ⊎ (place < x) → flag flags.new x ≡ flag flags.old x }
{
    if is_set {
        flags.set(place);
    }
}

// Sets the flags of the first columns of a word. None is set from there on.
fn set_word(flags: &mut BitFlags, at: usize, word: u64, columns: usize)
    requires few { columns ≤ 64 }
    requires within { at + columns ≤ length flags.old }
    requires room { at + columns < 2 ^ 64 }
    requires fresh { (x : ℕ) → at ≤ x → flag flags.old x ≡ false }
    ensures count { length flags.new ≡ length flags.old }
    ensures others { (x : ℕ) → (x < at) ⊎ (at + columns ≤ x) → flag flags.new x ≡ flag flags.old x }
    ensures word { (j : ℕ) → j < columns → flag flags.new (at + j) ≡ (bit_at word j == 1) }
{
    for column in 0..columns {
        set_if(flags, at + column, has_bit(word, column));
    }
}

// Sets the flags of a row, whose words begin at one of some. None is set from there on.
fn set_row(flags: &mut BitFlags, at: usize, words: &[u64], first: usize, width: usize)
    requires row { first + width / 64 < length words.now }
    requires within { at + width ≤ length flags.old }
    requires room { at + width < 2 ^ 64 }
    requires fresh { (x : ℕ) → at ≤ x → flag flags.old x ≡ false }
    ensures count { length flags.new ≡ length flags.old }
    ensures before { (x : ℕ) → x < at → flag flags.new x ≡ flag flags.old x }
    ensures row { (j : ℕ) → j < width → flag flags.new (at + j) ≡ (bit words.now (first * 64 + j) == 1) }
    ensures behind { (x : ℕ) → at + width ≤ x → flag flags.new x ≡ false }
{
    for place in 0..width / 64 + 1 {
        let word = words[first + place];
        let passed = place * 64;
        if word != 0 {
            set_word(flags, at + passed, word, (width - passed).min(64));
        }
    }
}

/// A flag for each node of some rows of words.
pub(crate) fn flags(
    alloc: Global,
    rows: usize,
    words: usize,
    width: usize,
    bits: &[u64],
) -> Result<BitFlags, Memory>
    requires some { 0 < width }
    requires wide { width < 64 * words }
    requires size { length bits.now ≡ rows * words }
    ensures flags { IfOk result (λ f. (x : ℕ) → x < rows * width → flag f x ≡ (bit bits.now (place_of width words x) == 1)) }
    ensures behind { IfOk result (λ f. (x : ℕ) → rows * width ≤ x → flag f x ≡ false) }
{
    let all = rows.checked_mul(width).ok_or(Memory)?;
    let mut flags = BitFlags::new(alloc, all)?;
    for row in 0..rows {
        set_row(&mut flags, row * width, bits, row * words, width);
    }
    Ok(flags)
}

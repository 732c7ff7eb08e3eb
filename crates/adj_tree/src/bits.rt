//! Truth values, a bit for each, which clauses see as their list.

ghost use Rattle.std.specs.Prelude.{◌≡◌, ◌*◌, ◌/◌, ◌%◌, ◌<◌, ◌≤◌, ◌==◌, ◌&&◌, ◌||◌, ◌^◌, ℕ, List, Bool, false, IfOk, length, vec_len, get_or, slice_index_or};
ghost use Rattle.std.specs.Int.{bit_at};
ghost use Rattle.adj_tree.specs.Bits.{bit};

use crate::fault::Memory;
use std::alloc::Global;
use std::marker::Model;

// No memory has room for as many values.
const LIMIT: usize = 1 << 62;

/// Truth values, 64 in a word, seen as their list.
pub struct BitFlags {
    words: Vec<u64>,
    ghost room: { 64 * vec_len words < 2 ^ 64 },
}

impl Drop for BitFlags {
    fn drop(self) {
        let BitFlags { words: _words } = self;
    }
}

impl Model for BitFlags {
    ghost use Rattle.std.specs.Prelude.{List, Bool};
    ghost use Rattle.adj_tree.specs.Bits.{values_in};

    ghost Value = { List Bool };

    ghost view = { λ f. values_in f.words.items };
}

// The word at a place. Past the end it is 0.
fn word_at(words: &[u64], place: usize) -> u64
    ensures { result ≡ get_or words.now place 0 }
{
    words.get(place).copied().unwrap_or(0)
}

// So many words, none of which has a bit.
fn zeros(alloc: Global, count: usize) -> Result<Vec<u64>, Memory>
    ensures count { IfOk result (λ v. vec_len v ≡ count) }
    ensures none { IfOk result (λ v. (n : ℕ) → bit v.items n ≡ 0) }
{
    Ok(vec![in alloc; 0u64; count]?)
}

/// Whether a word has the bit of a column.
pub fn has_bit(word: u64, column: usize) -> bool
    requires { column < 64 }
    ensures { result ≡ (bit_at word column == 1) }
{
    word >> column & 1 == 1
}

// Sets a bit.
fn set_bit(words: &mut [u64], n: usize)
    requires within { n / 64 < length words.old }
    ensures count { length words.new ≡ length words.old }
    ensures set { (x : ℕ) → (bit words.new x == 1) ≡ ((x == n) || (bit words.old x == 1)) }
{
    words[n / 64] |= 1 << (n % 64);
}

impl BitFlags {
    /// At least so many values, none of which is true.
    pub fn new(alloc: Global, count: usize) -> Result<BitFlags, Memory>
        ensures count { IfOk result (λ f. count ≤ length f) }
        ensures none { IfOk result (λ f. (n : ℕ) → slice_index_or f n false ≡ false) }
    {
        if count >= LIMIT {
            return Err(Memory);
        }
        let words = zeros(alloc, count / 64 + 1)?;
        Ok(BitFlags { words })
    }

    /// How many values there are.
    pub fn len(&self) -> usize
        ensures { result ≡ length self.now }
    {
        self.words.len() * 64
    }

    /// The value of a number. Past the end it is false.
    pub fn at(&self, n: usize) -> bool
        ensures { result ≡ slice_index_or self.now n false }
    {
        has_bit(word_at(self.words.as_slice(), n / 64), n % 64)
    }

    /// Makes the value of a number true.
    pub fn set(&mut self, n: usize)
        requires within { n < length self.old }
        ensures count { length self.new ≡ length self.old }
        ensures set { (x : ℕ) → slice_index_or self.new x false ≡ ((x == n) || slice_index_or self.old x false) }
    {
        set_bit(self.words.as_mut_slice(), n);
    }
}

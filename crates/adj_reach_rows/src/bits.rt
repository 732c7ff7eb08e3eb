//! Rows of bits.

ghost use Rattle.std.specs.Prelude.{◌≡◌, ◌+◌, ◌*◌, ◌/◌, ◌<◌, ◌≤◌, ℕ, IfOk, vec_len, if◌then◌else◌, ◌==◌, get_or, length};
ghost use Rattle.adj_tree.specs.Bits.{bit};

use adj_tree::Memory;
use std::alloc::Global;

/// Rows of bits, each of so many words, one behind the other.
pub struct Rows {
    pub count: usize,
    pub words: usize,
    pub bits: Vec<u64>,
    pub ghost full: { vec_len bits ≡ count * words },
}

impl Drop for Rows {
    fn drop(self) {
        let Rows {
            count: _,
            words: _,
            bits: _bits,
        } = self;
    }
}

impl Rows {
    /// Empty rows of some columns.
    pub fn new(alloc: Global, count: usize, width: usize) -> Result<Rows, Memory>
        ensures count { IfOk result (λ r. r.count ≡ count) }
        ensures wide { IfOk result (λ r. width < 64 * r.words) }
        ensures empty { IfOk result (λ r. (n : ℕ) → bit r.bits.items n ≡ 0) }
    {
        let words = width / 64 + 1;
        let all = count.checked_mul(words).ok_or(Memory)?;
        let bits = vec![in alloc; 0u64; all]?;
        Ok(Rows { count, words, bits })
    }

    /// Sets the bit of a column in a row.
    pub fn set(&mut self, row: usize, column: usize)
        requires row { row < self.old.count }
        requires column { column < 64 * self.old.words }
        ensures count { self.new.count ≡ self.old.count }
        ensures words { self.new.words ≡ self.old.words }
        ensures bits { (n : ℕ) → bit self.new.bits.items n ≡ (if n == row * self.old.words * 64 + column then 1 else bit self.old.bits.items n) }
    {
        let place = row * self.words + column / 64;
        self.bits[place] |= 1 << (column % 64);
    }

    /// A word of a row. Rows past the end are empty.
    pub fn word(&self, row: usize, place: usize) -> u64
        requires { place < self.now.words }
        ensures { result ≡ get_or self.now.bits.items (row * self.now.words + place) 0 }
    {
        if row < self.count {
            self.bits[row * self.words + place]
        } else {
            0
        }
    }
}

//! What reads and writes promise.

ghost use Rattle.std.specs.Prelude.{◌≡◌, ◌≤◌, ◌<◌, ℕ, List, Option, length, take, IfOk, OnErr};
ghost use Rattle.adj_io.specs.Bytes.{IsAtEnd, extended_by, followed_by};
ghost use Rattle.adj_io.specs.Faults.{Rose};

/// A read or a write failed. The stream's count of faults rose, and no byte was taken.
#[derive(Clone, Copy, Debug, PartialEq, Eq)]
pub struct Failed;

/// A source of bytes.
pub trait Source {
    /// The bytes left, where it tells them.
    ghost left: { Self → Option (List ℕ) };

    /// How many of its calls failed; it stands still at the last value of a u64.
    ghost faults: { Self → ℕ };

    /// Puts the next bytes into the front of `into`, and says how many.
    ///
    /// It says 0 for an `into` that isn't empty only at the end of the input.
    fn read(&mut self, into: &mut [u8]) -> Result<usize, Failed>
        ensures within { IfOk result (λ k. k ≤ length into.new) }
        ensures bytes { IfOk result (λ k. left self.old ≡ followed_by (take k into.new) (left self.new)) }
        ensures end { IfOk result (λ k. k ≡ 0 → 0 < length into.new → IsAtEnd (left self.new)) }
        ensures unread { OnErr result (left self.new ≡ left self.old) }
        ensures count { faults self.old ≤ faults self.new }
        ensures risen { OnErr result (Rose (faults self.old) (faults self.new)) };
}

/// A sink of bytes.
pub trait Sink {
    /// The bytes taken, where it tells them.
    ghost taken: { Self → Option (List ℕ) };

    /// How many of its calls failed; it stands still at the last value of a u64.
    ghost faults: { Self → ℕ };

    /// Takes bytes from the front of a piece, at least one where there is one, and says how many.
    fn write(&mut self, bytes: &[u8]) -> Result<usize, Failed>
        ensures within { IfOk result (λ k. k ≤ length bytes.now) }
        ensures some { IfOk result (λ k. 0 < length bytes.now → 0 < k) }
        ensures bytes { IfOk result (λ k. taken self.new ≡ extended_by (taken self.old) (take k bytes.now)) }
        ensures untaken { OnErr result (taken self.new ≡ taken self.old) }
        ensures count { faults self.old ≤ faults self.new }
        ensures risen { OnErr result (Rose (faults self.old) (faults self.new)) };
}

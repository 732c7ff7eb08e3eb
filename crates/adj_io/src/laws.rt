//! What follows from the contracts of streams, as contracts of functions that do nothing.

ghost use Rattle.std.specs.Prelude.{◌≡◌, ◌≤◌, ℕ, List, [], Option, Some, length, drop};
ghost use Rattle.adj_io.specs.Bytes.{HasRead, IsAtEnd, followed_by};
ghost use Rattle.adj_io.specs.Faults.{Rose};

/// A count that rose in a part of a call rose in the call, since it never falls.
pub fn fault_laws()
    ensures earlier { (a b c : ℕ) → a ≤ b → Rose b c → Rose a c }
    ensures later { (a b c : ℕ) → a ≤ b → b ≤ c → Rose a b → Rose a c }
{}

/// What the bytes that were read are, where the source told those that it had.
pub fn reading_laws()
    // A source that was read to its end gave all that it had, and has none.
    ensures all { (had read : List ℕ) (left : Option (List ℕ)) → Some had ≡ followed_by read left → IsAtEnd left → (read ≡ had) × (left ≡ Some []) }
    // One of which some bytes were read had as many, and has the others.
    ensures some { (had : List ℕ) (n : ℕ) (left : Option (List ℕ)) → HasRead n (Some had) left → (n ≤ length had) × (left ≡ Some (drop n had)) }
{}

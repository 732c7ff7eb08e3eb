//! A law of slots and stores.

ghost use Rattle.adj_interp_frame.specs.Shown.{ShownIsSeen};

use adj_number::Number;

/// Where slots show a store, what is evaluated in the one is evaluated alike in the other.
pub fn shown_is_seen<N: Number>()
    ensures seen { ShownIsSeen N.numbers }
{}

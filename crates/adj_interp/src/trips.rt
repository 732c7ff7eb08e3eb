//! How often a DO turns.

ghost use Rattle.std.specs.Prelude.{◌≡◌, List, ℕ};
ghost use Rattle.def_meaning.specs.Run.{trips, most_turns, most_tests};
ghost use Rattle.adj_interp_frame.specs.Instructed.{marking_in};
ghost use Rattle.adj_interp_frame.specs.Framed.{result_of};

use adj_interp_frame::Marking;
use adj_tree::Trap;
use adj_word::trips;

// The most turns of a DO: fewer where it is marked.
fn most_turns(marking: &Marking) -> u64
    ensures { (names : List (List ℕ)) → result ≡ most_turns (marking_in names marking.now) }
{
    match marking {
        Marking::Plain => 9223372036854775807,
        Marking::Count(_) | Marking::From(_) => 1099511627776,
    }
}

/// The number of turns from first value, limit and step.
pub(crate) fn turns_of(marking: &Marking, first: i64, last: i64, by: i64) -> Result<u64, Trap>
    ensures { (names : List (List ℕ)) → result_of result ≡ trips (marking_in names marking.now) first last by }
{
    match trips(first, last, by) {
        Some(turns) if turns <= most_turns(marking) as u128 => Ok(turns as u64),
        _ => Err(Trap::Step),
    }
}

/// After so many turns the test of a DO WHILE must fail.
pub(crate) fn most_tests() -> u64
    ensures { result ≡ most_tests }
{
    9223372036854775807
}

//! A unit as the analyses see it.

ghost use Rattle.std.specs.Prelude.{◌≡◌, ◌*◌, ◌<◌, ◌^◌, ℕ, List, IfSome, length};
ghost use Rattle.adj_tree.specs.View.{code_of};
ghost use Rattle.def_names.specs.Numbers.{behind};
ghost use Rattle.adj_symbols_writes.specs.Graph.{place_from};
ghost use Rattle.adj_symbols_writes.specs.Table.{value_of};

use crate::standing::Standing;
use crate::way::Way;
use adj_symbols_writes::table::Numbers;
use adj_tree::{Name, NameList, Unit};

/// A unit with the numbers of itself, of its first statement and of its points of entry and end; with its statements and ways;
/// and with its variables and their places among them. Numbers of points are below 5 * 2^30, all others below 2^30.
pub struct Part<'a> {
    pub number: usize,
    pub unit: &'a Unit,
    pub first: usize,
    pub entry: usize,
    pub end: usize,
    pub statements: Vec<Standing<'a>>,
    pub ways: Vec<Way<'a>>,
    pub variables: &'a NameList,
    pub places: Numbers<'a>,
    pub ghost known: { (x : List ℕ) → value_of x places ≡ place_from 0 variables.now x },
    pub ghost low: { number < 2 ^ 30 },
    pub ghost room: { behind first (code_of unit.now.body) < 2 ^ 30 },
    pub ghost entry_low: { entry < 5 * 2 ^ 30 },
    pub ghost end_low: { end < 5 * 2 ^ 30 },
    pub ghost narrow: { length variables.now < 2 ^ 30 },
}

impl Drop for Part<'_> {
    fn drop(self) {
        let Part {
            number: _,
            unit: _,
            first: _,
            entry: _,
            end: _,
            statements: _statements,
            ways: _ways,
            variables: _,
            places: _places,
        } = self;
    }
}

impl Part<'_> {
    /// The place of a variable.
    pub fn place(&self, name: &Name) -> Option<usize>
        ensures low { IfSome result (λ j. j < 2 ^ 30) }
        ensures place { result ≡ place_from 0 self.now.variables.now name.now }
    {
        self.places.get(name)
    }
}

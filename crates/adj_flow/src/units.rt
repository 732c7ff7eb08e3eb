//! What the analyses go over: all units of a program, and which of them take part.

ghost use Rattle.std.specs.Prelude.{◌≡◌, ◌↔◌, ◌<◌, ◌≤◌, ◌^◌, ℕ, List, [], false, All, Contains, IfOk, IsTrue, length, map};
ghost use Rattle.adj_tree.specs.View.{procedure_of};
ghost use Rattle.def_flow.specs.Parts as spec;
ghost use Rattle.def_names.specs.StatementsIn.{statements_in};
ghost use Rattle.def_flow.specs.Problem.{TakesPart};
ghost use Rattle.def_flow.specs.Splits.{is_line, split_calls};
ghost use Rattle.adj_reach.specs.Edges.{flag};
ghost use Rattle.adj_symbols_writes.specs.Graph.{number_from};
ghost use Rattle.adj_symbols_writes.specs.Table.{value_of};
ghost use Rattle.adj_flow.specs.Low.{AreFew};
ghost use Rattle.adj_flow.specs.Rows.{row_of, rows};

use crate::part::taking_part;
use crate::row::Part;
use crate::rows::parts;
use crate::splits::split_flags;
use adj_symbols_writes::table::{Numbers, unit_numbers};
use adj_tree::{Flags, Memory, NameList, Unit};
use std::alloc::Global;

/// The units of a program with their numbers by name, which of them take part, an upper bound on the variables of a unit, and which
/// calls are to be split, by number.
pub struct Flow<'a> {
    pub parts: Vec<Part<'a>>,
    pub numbers: Numbers<'a>,
    pub taking: Flags,
    pub width: usize,
    pub split: Flags,
    pub ghost few: { length parts.items < 2 ^ 30 },
    pub ghost narrow: { width < 2 ^ 30 },
}

impl Drop for Flow<'_> {
    fn drop(self) {
        let Flow {
            parts: _parts,
            numbers: _numbers,
            taking: _taking,
            width: _,
            split: _split,
        } = self;
    }
}

// The most variables that a unit has.
fn width(variables: &[&NameList]) -> usize
    requires narrow { All (λ vs. length vs < 2 ^ 30) (map (λ b. b.now) variables.now) }
    ensures low { result < 2 ^ 30 }
    ensures width { All (λ v. length v.now ≤ result) variables.now }
{
    let mut width = 0;
    for names in variables {
        width = width.max(names.as_slice().len());
    }
    width
}

impl<'a> Flow<'a> {
    /// The units, which have so many statements and whose variables are these, where the unit of the number `head` is the head, and the calls
    /// at these lines are to be split.
    pub fn new(
        alloc: Global,
        units: &'a [Unit],
        variables: &[&'a NameList],
        statements: usize,
        head: usize,
        splits: &[u32],
    ) -> Result<Flow<'a>, Memory>
        requires variables { length variables.now ≡ length units.now }
        requires few { AreFew (map (λ b. b.now) variables.now) (map procedure_of units.now) }
        requires statements { statements ≡ statements_in 0 (map procedure_of units.now) }
        requires head { head < length units.now }
        ensures rows { IfOk result (λ f. map row_of f.parts.items ≡ rows (map (λ b. b.now) variables.now) (map procedure_of units.now)) }
        ensures numbers { IfOk result (λ f. (x : List ℕ) → value_of x f.numbers ≡ number_from 0 (map procedure_of units.now) x) }
        ensures taking { IfOk result (λ f. (g : spec.Part) → Contains (spec.parts (map procedure_of units.now)) g →
            (IsTrue (flag f.taking g.number) ↔ TakesPart (record { units = map procedure_of units.now; head = head; vars = []; outvars = []; split = λ n. false }) g)) }
        ensures width { IfOk result (λ f. All (λ v. length v.now ≤ f.width) variables.now) }
        ensures split { IfOk result (λ f. (n : ℕ) → flag f.split n ≡ split_calls (is_line splits.now) (map procedure_of units.now) n) }
    {
        let parts = parts(alloc, units, variables, statements)?;
        let numbers = unit_numbers(alloc, units)?;
        let taking = taking_part(alloc, units, parts.as_slice(), &numbers, head)?;
        let split = split_flags(alloc, units, splits)?;
        Ok(Flow {
            parts,
            numbers,
            taking,
            width: width(variables),
            split,
        })
    }
}

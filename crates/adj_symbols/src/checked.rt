//! A checked program.

ghost use Rattle.std.specs.Prelude.{◌≡◌, ◌+◌, ◌*◌, ◌<◌, ◌↔◌, IsTrue, List, Bool, length, slice_index_or, [], map};
ghost use Rattle.std.specs.Coded.{codes};
ghost use Rattle.adj_tree.specs.contracts.unit.Program as program_row;
ghost use Rattle.adj_tree.specs.View.{procedures_of};
ghost use Rattle.def_text.specs.Written.{IsWritten};
ghost use Rattle.def_meaning.specs.LeastSet.{least_rows};
ghost use Rattle.def_meaning.specs.Read.{read_rule};
ghost use Rattle.def_meaning.specs.Written.{write_rule};
ghost use Rattle.def_names.specs.Check.{IsSound};
ghost use Rattle.def_names.specs.Fault.{run_rules};
ghost use Rattle.def_names.specs.Variables as names;
ghost use Rattle.def_names.specs.Numbering.{point_inside};
ghost use Rattle.def_names.specs.Numbering.{point_before, point_after};
ghost use Rattle.adj_symbols.specs.Checked.{Known, AreFacts};
ghost use Rattle.adj_symbols.specs.Numbers.{Fits, IsMeasured, points_in, statements_in, units_in, width_of};

use crate::counting::{statement_count, widest};
use adj_tree::{Flags, NameList, Program};
use std::marker::Model;

// The numbers of units, of statements and of variables of a unit are below it where all numbers of nodes are those of 64 bits.
const MOST: usize = 1 << 30;

/// A program that is written and in which no name, call, chain or write is refused where it is run, with the variables of each
/// unit and the dummies that each unit writes and reads.
pub struct Checked {
    program: Program,
    variables: Vec<NameList>,
    writes: Vec<Flags>,
    reads: Vec<Flags>,
    // How many statements there are, and how many variables a unit has at most.
    statements: usize,
    width: usize,
}

impl Drop for Checked {
    fn drop(self) {
        let Checked {
            program: _program,
            variables: _variables,
            writes: _writes,
            reads: _reads,
            statements: _,
            width: _,
        } = self;
    }
}

impl Model for Checked {
    ghost Value = { Known };

    ghost coded = { Prim.hlevel (codes, program_row.the_row.coded) };

    ghost view = { λ c. record { program = c.program; variables = c.variables.items; writes = c.writes.items; reads = c.reads.items } };

    ghost invariant = { λ c. IsMeasured (record { program = c.program; variables = c.variables.items; writes = c.writes.items; reads = c.reads.items }) c.statements c.width };
}

impl Checked {
    /// A program of which it is known that it is written and that it has no fault where it is run, with its variables
    /// and its dummies that are written and read.
    pub fn new(
        program: Program,
        variables: Vec<NameList>,
        writes: Vec<Flags>,
        reads: Vec<Flags>,
    ) -> Checked
        requires written { IsWritten (procedures_of program) }
        requires sound { IsSound run_rules (procedures_of program) }
        requires variables { variables.items ≡ map names.variables (procedures_of program) }
        requires writes { writes.items ≡ least_rows write_rule (procedures_of program) }
        requires reads { reads.items ≡ least_rows read_rule (procedures_of program) }
        ensures known { result ≡ record { program = program; variables = variables.items; writes = writes.items; reads = reads.items } }
    {
        let statements = statement_count(program.units.as_slice());
        let width = widest(variables.as_slice());
        Checked {
            program,
            variables,
            writes,
            reads,
            statements,
            width,
        }
    }

    /// The program.
    pub fn program(&self) -> &Program
        ensures program { result.now ≡ self.now.program }
        ensures facts { AreFacts self.now }
    {
        &self.program
    }

    /// The variables of a unit: dummies, then declared locals, then implicit locals by first appearance.
    pub fn variables(&self, unit: usize) -> &NameList
        requires unit { unit < length self.now.variables }
        ensures variables { result.now ≡ slice_index_or self.now.variables unit [] }
    {
        &self.variables[unit]
    }

    /// Which of its dummies a unit writes, in order.
    pub fn writes(&self, unit: usize) -> &Flags
        requires unit { unit < length self.now.writes }
        ensures writes { result.now ≡ slice_index_or self.now.writes unit [] }
    {
        &self.writes[unit]
    }

    /// Which of its dummies a unit reads, in order.
    pub fn reads(&self, unit: usize) -> &Flags
        requires unit { unit < length self.now.reads }
        ensures reads { result.now ≡ slice_index_or self.now.reads unit [] }
    {
        &self.reads[unit]
    }

    /// Whether the program has fewer than 2^30 units, fewer than 2^30 statements, and fewer than 2^30 variables in each unit.
    pub fn fits(&self) -> bool
        ensures fits { IsTrue result ↔ Fits self.now }
    {
        self.program.units.as_slice().len() < MOST && self.statements < MOST && self.width < MOST
    }

    /// How many statements there are, over all units and at any depth.
    pub fn statement_count(&self) -> usize
        requires fits { Fits self.now }
        ensures count { result ≡ statements_in self.now }
    {
        self.statements
    }

    /// The greatest number of variables of a unit.
    pub fn width(&self) -> usize
        ensures width { result ≡ width_of self.now }
    {
        self.width
    }

    /// How many points there are.
    fn point_count(&self) -> usize
        requires fits { Fits self.now }
        ensures count { result ≡ points_in self.now }
    {
        3 * self.statements + 2 * self.program.units.as_slice().len()
    }

    /// How many nodes there are: a node is a point with a variable.
    pub fn node_count(&self) -> usize
        requires fits { Fits self.now }
        ensures count { result ≡ points_in self.now * width_of self.now }
    {
        self.point_count() * self.width
    }

    /// The node of a point and a variable, both numbers.
    pub fn node(&self, point: usize, variable: usize) -> usize
        requires fits { Fits self.now }
        requires point { point < points_in self.now }
        requires variable { variable < width_of self.now }
        ensures node { result ≡ point * width_of self.now + variable }
    {
        point * self.width + variable
    }

    /// The point before a statement.
    pub fn before(&self, stmt: usize) -> usize
        requires fits { Fits self.now }
        requires stmt { stmt < statements_in self.now }
        ensures before { result ≡ point_before stmt }
    {
        3 * stmt
    }

    /// The point after a statement.
    pub fn after(&self, stmt: usize) -> usize
        requires fits { Fits self.now }
        requires stmt { stmt < statements_in self.now }
        ensures after { result ≡ point_after stmt }
    {
        3 * stmt + 1
    }

    /// The point inside a DO, or at the test of a DO WHILE; a statement of another kind has none.
    pub fn inside(&self, stmt: usize) -> usize
        requires fits { Fits self.now }
        requires stmt { stmt < statements_in self.now }
        ensures inside { result ≡ point_inside stmt }
    {
        3 * stmt + 2
    }

    /// The point of entry of a unit.
    pub fn entry(&self, unit: usize) -> usize
        requires fits { Fits self.now }
        requires unit { unit < units_in self.now }
        ensures entry { result ≡ 3 * statements_in self.now + 2 * unit }
    {
        3 * self.statements + 2 * unit
    }

    /// The point of end of a unit.
    pub fn end(&self, unit: usize) -> usize
        requires fits { Fits self.now }
        requires unit { unit < units_in self.now }
        ensures end { result ≡ 3 * statements_in self.now + 2 * unit + 1 }
    {
        3 * self.statements + 2 * unit + 1
    }
}

//! By which marks a program's adjoint is emitted (docs/EMITTED.md, "Sweeps").

ghost use Rattle.std.specs.Prelude.{◌≡◌, ◌+◌, ◌*◌, ◌<◌, IfOk, length};
ghost use Rattle.adj_tree.specs.Code.{plain};
ghost use Rattle.def_sweep.specs.SplitMarks.{split_marks};
ghost use Rattle.adj_reach.specs.Edges.{flag};
ghost use Rattle.adj_flow.specs.Told.{told_of};
ghost use Rattle.adj_sweep_assignment.specs.View.{found_marks, marks_of};
ghost use Rattle.adj_weave_units.specs.Flowing.{scope_in};
ghost use Rattle.adj_weave.specs.Marked.{marks_at, dummy_told, program_marks, unit_marks, unit_dummy, HasUnits};

use adj_flow::{End, Flow, told};
use adj_reach::flag_at;
use adj_sweep::callees::Dummy;
use adj_sweep_assignment::{Found, Marking};
use adj_tree::{Marks, Memory, Name};

/// What analyses found, by flags over the flow of the program.
#[derive(Clone, Copy)]
pub struct FoundMarks<'a> {
    pub marks: &'a Marks,
    pub flow: &'a Flow<'a>,
}

impl<'a> FoundMarks<'a> {
    // Whether the flag of a variable of a unit is set, and the unit takes part.
    fn told(&self, flags: &[bool], unit: usize, name: &Name) -> Result<bool, Memory>
        requires unit { unit < length self.now.flow.now.parts.items }
        ensures told { IfOk result (λ b. b ≡ told_of flags.now (scope_in self.now.flow.now) self.now.flow.now.width unit (plain name.now)) }
    {
        if !flag_at(self.flow.taking.as_slice(), unit) {
            return Ok(false);
        }
        let parts = self.flow.parts.as_slice();
        let end = End {
            part: &parts[unit],
            point: unit,
            name,
        };
        let flag = told(flags, self.flow.width, end);
        Ok(flag)
    }

    // What the sweeps of calls know of a dummy of a unit. Whether the unit reads it is filled in later.
    fn dummy(&self, unit: usize, name: &Name, written: bool) -> Result<Dummy, Memory>
        requires unit { unit < length self.now.flow.now.parts.items }
        ensures dummy { IfOk result (λ d. d ≡ dummy_told self.now.flow.now self.now.marks.now unit name.now written) }
    {
        let member = self.told(self.marks.kept.entry.as_slice(), unit, name)?;
        let shadowed = self.told(self.marks.activity.shadowed.as_slice(), unit, name)?;
        Ok(Dummy {
            written,
            read: false,
            member,
            shadowed,
        })
    }

    // The marks as a unit sees them.
    fn of_unit(&self, unit: usize) -> Found<'a>
        requires unit { unit < length self.now.flow.now.parts.items }
        ensures marks { found_marks result ≡ marks_at self.now.flow.now self.now.marks.now unit }
    {
        let parts = self.flow.parts.as_slice();
        Found {
            marks: self.marks,
            split: self.flow.split.as_slice(),
            unit,
            places: &parts[unit].places,
            width: self.flow.width,
        }
    }
}

/// By which marks a program's adjoint is emitted.
#[derive(Clone, Copy)]
pub enum Marked<'a> {
    /// Everything is marked.
    Full,
    /// What analyses found is marked.
    Found(FoundMarks<'a>),
}

impl<'a> Marked<'a> {
    /// Whether the forward sweep repeats the statement.
    pub fn kept(&self, number: usize) -> bool
        ensures kept { result ≡ (program_marks self.now).kept number }
    {
        match self {
            Marked::Full => true,
            Marked::Found(found) => flag_at(found.marks.kept.kept.as_slice(), number),
        }
    }

    /// Whether the backward sweep has the adjoint of the statement.
    pub fn adjointed(&self, number: usize) -> bool
        ensures adjointed { result ≡ (program_marks self.now).adjointed number }
    {
        match self {
            Marked::Full => true,
            Marked::Found(found) => { flag_at(found.marks.activity.adjointed.as_slice(), number) }
        }
    }

    /// Whether the statement is a split call.
    pub fn split(&self, number: usize) -> bool
        ensures split { result ≡ (program_marks self.now).split number }
    {
        match self {
            Marked::Full => false,
            Marked::Found(found) => {
                flag_at(found.flow.split.as_slice(), number) && self.adjointed(number)
            }
        }
    }

    /// The marks as the unit of a number sees them.
    pub fn of_unit(&self, unit: usize) -> Marking<'a>
        requires unit { HasUnits self.now (unit + 1) }
        ensures marks { marks_of result ≡ unit_marks self.now unit }
    {
        match self {
            Marked::Full => Marking::Full,
            Marked::Found(found) => Marking::Found(found.of_unit(unit)),
        }
    }

    /// The marks by which the forward and the backward unit of the unit of a number are written.
    pub fn of_pair(&self, unit: usize) -> Marking<'a>
        requires unit { HasUnits self.now (unit + 1) }
        ensures marks { marks_of result ≡ split_marks (unit_marks self.now unit) }
    {
        match self {
            Marked::Full => Marking::Full,
            Marked::Found(found) => Marking::Pair(found.of_unit(unit)),
        }
    }

    /// What the sweeps of calls know of a dummy of the unit of a number. Whether the unit reads it is filled in later.
    pub fn dummy(&self, unit: usize, name: &Name, written: bool) -> Result<Dummy, Memory>
        requires unit { HasUnits self.now (unit + 1) }
        ensures dummy { IfOk result (λ d. d ≡ unit_dummy self.now unit name.now written) }
    {
        match self {
            Marked::Full => Ok(Dummy {
                written,
                read: false,
                member: true,
                shadowed: true,
            }),
            Marked::Found(found) => found.dummy(unit, name, written),
        }
    }
}

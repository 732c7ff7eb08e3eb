//! Where the marks come from, and what they say (docs/EMITTED.md, "Sweeps").

ghost use Rattle.std.specs.Prelude.{◌≡◌, ◌*◌, ◌||◌, ◌&&◌};
ghost use Rattle.adj_tree.specs.Code.{plain};
ghost use Rattle.def_sweep.specs.Marks.{active_at};
ghost use Rattle.def_names.specs.Numbering.{point_before};
ghost use Rattle.adj_reach.specs.Edges.{flag};
ghost use Rattle.adj_sweep_assignment.specs.View.{flag_of, place_of, carried_by, marks_of};

use adj_reach::flag_at;
use adj_symbols_writes::table::Numbers;
use adj_tree::{BitFlags, Marks, Name};

/// The marks that analyses found, as one unit sees them: its number, the places of its variables, and how many variables a unit has
/// at most. Flags of a variable stand where the point, the statement or the unit has its number times the width, and the variable
/// its place; those of statements stand at their numbers. Calls that are flagged are to be split.
#[derive(Clone, Copy)]
pub struct Found<'a> {
    pub marks: &'a Marks,
    pub split: &'a [bool],
    pub unit: usize,
    pub places: &'a Numbers<'a>,
    pub width: usize,
}

// The flag of the variable at a place, where a point, a statement or a unit has a number.
fn flag_of(flags: &[bool], width: usize, number: usize, place: Option<usize>) -> bool
    ensures { result ≡ flag_of flags.now width number place }
{
    let Some(place) = place else { return false };
    let node = number
        .checked_mul(width)
        .and_then(|first| first.checked_add(place));
    match node {
        Some(node) => flag_at(flags, node),
        None => false,
    }
}

// The same of flags that take a bit each.
fn bit_of(flags: &BitFlags, width: usize, number: usize, place: Option<usize>) -> bool
    ensures { result ≡ flag_of flags.now width number place }
{
    let Some(place) = place else { return false };
    let count = flags.len();
    let node = number
        .checked_mul(width)
        .and_then(|first| first.checked_add(place));
    match node {
        Some(node) => node < count && flags.at(node),
        None => false,
    }
}

// The same where the point before a statement has three times its number.
fn bit_before(flags: &BitFlags, width: usize, number: usize, place: Option<usize>) -> bool
    ensures { result ≡ flag_of flags.now width (3 * number) place }
{
    let Some(place) = place else { return false };
    let count = flags.len();
    let node = number
        .checked_mul(width)
        .and_then(|first| first.checked_mul(3))
        .and_then(|first| first.checked_add(place));
    match node {
        Some(node) => node < count && flags.at(node),
        None => false,
    }
}

impl Found<'_> {
    // Whether the forward sweep repeats the statement.
    fn kept(&self, number: usize) -> bool
        ensures { result ≡ flag self.now.marks.now.kept.kept number }
    {
        flag_at(self.marks.kept.kept.as_slice(), number)
    }

    // Whether the backward sweep has the adjoint of the statement.
    fn adjointed(&self, number: usize) -> bool
        ensures { result ≡ flag self.now.marks.now.activity.adjointed number }
    {
        flag_at(self.marks.activity.adjointed.as_slice(), number)
    }

    // Whether the statement is a split call.
    fn split(&self, number: usize) -> bool
        ensures split { result ≡ (flag self.now.split.now number && flag self.now.marks.now.activity.adjointed number) }
    {
        flag_at(self.split, number) && self.adjointed(number)
    }

    // Whether the value of the variable is saved where the statement overwrites it.
    fn saved(&self, number: usize, x: &Name) -> bool
        ensures { result ≡ flag_of self.now.marks.now.saved.saved self.now.width number (place_of self.now.places.now (plain x.now)) }
    {
        bit_of(
            &self.marks.saved.saved,
            self.width,
            number,
            self.places.get(x),
        )
    }

    // Whether the variable has a shadow.
    fn shadowed(&self, x: &Name) -> bool
        ensures { result ≡ flag_of self.now.marks.now.activity.shadowed self.now.width self.now.unit (place_of self.now.places.now (plain x.now)) }
    {
        flag_of(
            self.marks.activity.shadowed.as_slice(),
            self.width,
            self.unit,
            self.places.get(x),
        )
    }

    // Whether the variable depends on the independents before the statement.
    fn varied(&self, number: usize, x: &Name) -> bool
        ensures { result ≡ flag_of self.now.marks.now.activity.varied self.now.width (point_before number) (place_of self.now.places.now (plain x.now)) }
    {
        bit_before(
            &self.marks.activity.varied,
            self.width,
            number,
            self.places.get(x),
        )
    }
}

/// The variables of one unit that carry a tangent, by flags: the number of the unit, the places of its variables, and how many variables
/// a unit has at most. The flag of a variable stands where the unit has its number times the width, and the variable its place.
#[derive(Clone, Copy)]
pub struct Carried<'a> {
    pub flags: &'a [bool],
    pub unit: usize,
    pub places: &'a Numbers<'a>,
    pub width: usize,
}

impl Carried<'_> {
    // Whether the variable carries a tangent.
    fn has(&self, x: &Name) -> bool
        ensures { result ≡ carried_by self.now (plain x.now) }
    {
        flag_of(self.flags, self.width, self.unit, self.places.get(x))
    }
}

/// The marks of the statements and variables of a unit. Statements have their numbers.
#[derive(Clone, Copy)]
pub enum Marking<'a> {
    /// Everything is marked.
    Full,
    /// What analyses found is marked.
    Found(Found<'a>),
    /// What analyses found is marked, but each statement is kept, and each variable saved: so the units of split calls are written.
    Pair(Found<'a>),
    /// Everything is marked, but only variables that carry a tangent have a shadow.
    Carried(Carried<'a>),
    /// Everything is marked, but no variable has a shadow.
    Bare,
}

impl Marking<'_> {
    /// Whether the forward sweep repeats the statement.
    pub fn kept(&self, number: usize) -> bool
        ensures kept { result ≡ (marks_of self.now).kept number }
    {
        match self {
            Marking::Full | Marking::Pair(_) | Marking::Carried(_) | Marking::Bare => true,
            Marking::Found(found) => found.kept(number),
        }
    }

    /// Whether the backward sweep has the adjoint of the statement.
    pub fn adjointed(&self, number: usize) -> bool
        ensures adjointed { result ≡ (marks_of self.now).adjointed number }
    {
        match self {
            Marking::Full | Marking::Carried(_) | Marking::Bare => true,
            Marking::Found(found) | Marking::Pair(found) => found.adjointed(number),
        }
    }

    /// Whether the statement is a split call.
    pub fn split(&self, number: usize) -> bool
        ensures split { result ≡ (marks_of self.now).split number }
    {
        match self {
            Marking::Full | Marking::Carried(_) | Marking::Bare => false,
            Marking::Found(found) | Marking::Pair(found) => found.split(number),
        }
    }

    /// Whether the statement is part of a sweep.
    pub fn emitted(&self, number: usize) -> bool
        ensures emitted { result ≡ ((marks_of self.now).kept number || (marks_of self.now).adjointed number) }
    {
        self.kept(number) || self.adjointed(number)
    }

    /// Whether the value of the variable is saved where the statement overwrites it.
    pub fn saved(&self, number: usize, x: &Name) -> bool
        ensures saved { result ≡ (marks_of self.now).saved number (plain x.now) }
    {
        match self {
            Marking::Full | Marking::Pair(_) | Marking::Carried(_) | Marking::Bare => true,
            Marking::Found(found) => found.saved(number, x),
        }
    }

    /// Whether the variable has a shadow.
    pub fn shadowed(&self, x: &Name) -> bool
        ensures shadowed { result ≡ (marks_of self.now).shadowed (plain x.now) }
    {
        match self {
            Marking::Full => true,
            Marking::Found(found) | Marking::Pair(found) => found.shadowed(x),
            Marking::Carried(carried) => carried.has(x),
            Marking::Bare => false,
        }
    }

    /// Whether the variable depends on the independents before the statement.
    pub fn varied(&self, number: usize, x: &Name) -> bool
        ensures varied { result ≡ (marks_of self.now).varied (point_before number) (plain x.now) }
    {
        match self {
            Marking::Full | Marking::Carried(_) | Marking::Bare => true,
            Marking::Found(found) | Marking::Pair(found) => found.varied(number, x),
        }
    }

    /// Whether occurrences of the variable in the statement are active: it is varied before it, and has a shadow.
    pub fn active(&self, number: usize, x: &Name) -> bool
        ensures active { result ≡ active_at (marks_of self.now) number (plain x.now) }
    {
        self.varied(number, x) && self.shadowed(x)
    }
}

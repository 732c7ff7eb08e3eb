//! The codes of refusals.

ghost use Rattle.std.specs.Prelude.{◌≡◌};
ghost use Rattle.adj_tree.specs.Codes.{code_number};

/// What is wrong with a text: one for each code of docs/REFUSALS.md.
#[derive(Clone, Copy, Debug, PartialEq, Eq)]
pub enum Code {
    /// Columns 1 to 6 of a line hold what can't stand there.
    Columns = 1,
    /// A character that no statement has.
    Character = 2,
    /// A statement of no class.
    Unsupported = 3,
    /// A statement that isn't well formed, or is misplaced.
    Malformed = 4,
    /// A number that is too large.
    LargeNumber = 5,
    /// A name that is too long.
    LongName = 6,
    /// A name that isn't declared.
    Undeclared = 7,
    /// A name that is declared twice, or twice a dummy.
    Redeclared = 8,
    /// Another number of subscripts than the variable has extents.
    Rank = 9,
    /// A labelled DO that something else than its CONTINUE ends.
    LoopEnd = 10,
    /// A statement that may write the variable of a DO around it.
    LoopVariable = 11,
    /// An extent that can't be.
    Extent = 12,
    /// A statement that may write a dummy which is an extent.
    WrittenExtent = 13,
    /// A CALL of a unit that isn't there.
    MissingUnit = 14,
    /// Actuals that don't fit the dummies.
    Actuals = 15,
    /// A CALL that leads back to its own unit.
    Recursion = 16,
    /// Two actuals that name one variable.
    Aliasing = 17,
    /// A name that is another thing's.
    ReservedName = 18,
    /// A second unit of one name.
    RepeatedUnit = 19,
    /// A directive that isn't one, or stands where it can't.
    Directive = 20,
    /// A limit that is passed.
    Limit = 21,
    /// No unit has the head's name.
    MissingHead = 22,
    /// A listed name that isn't a dummy of the head, or stands twice in its list.
    ListedName = 23,
    /// An actual that is a value, for a dummy that may be written.
    WrittenValue = 24,
    /// A constant exponent that is out of range.
    Exponent = 25,
    /// A COMMON block that units lay out in different ways.
    Layout = 26,
}

impl Code {
    /// Its number, which is printed.
    pub fn number(self) -> u8
        ensures { result ≡ code_number self }
    {
        self as u8
    }
}

//! The codes of faults of data.

ghost use Rattle.std.specs.Prelude.{◌≡◌};
ghost use Rattle.adj_data.specs.DataCodes.{data_code_number};

/// What is wrong with data: one for each code of docs/DATA.md.
#[derive(Clone, Copy, Debug, PartialEq, Eq)]
pub enum DataCode {
    /// An item that is neither a name nor a number, or stands where it can't.
    Item = 1,
    /// A name that may not stand there.
    UnknownName = 2,
    /// A name that was given before.
    RepeatedName = 3,
    /// No entry where one is wanted.
    MissingEntry = 4,
    /// Another count of numbers than elements.
    Count = 5,
    /// A number that is no word.
    LargeNumber = 6,
    /// An extent below 1, or too many elements.
    Extent = 7,
}

impl DataCode {
    /// Its number, which is printed.
    pub fn number(self) -> u8
        ensures { result ≡ data_code_number self }
    {
        self as u8
    }
}

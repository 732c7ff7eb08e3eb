//! Labels behind DO.

ghost use Rattle.std.specs.Prelude.{◌≡◌, ◌≤◌, ◌^◌};
ghost use Rattle.def_text.specs.Char.{number_of};

use crate::number::number;
use adj_tree::{Memory, Name};
use std::alloc::Global;

/// Digits of a label that no statement carries: the number that they write is 2^32 or more.
pub struct LongLabel {
    pub digits: Name,
    pub ghost long: { 2 ^ 32 ≤ number_of digits },
}

impl Drop for LongLabel {
    fn drop(self) {
        let LongLabel { digits: _digits } = self;
    }
}

/// The label behind DO, of any number of digits.
pub enum Label {
    Short(u32),
    Long(LongLabel),
}

impl Drop for Label {
    fn drop(self) {
        match self {
            Label::Short(_) => {}
            Label::Long(_part) => {}
        }
    }
}

impl Label {
    ghost use Rattle.std.specs.Prelude.{◌==◌, IfOk};
    ghost use Rattle.adj_parse_statement.specs.View.{label_of};

    /// The label that digits write.
    pub(crate) fn new(alloc: Global, digits: &[u8]) -> Result<Label, Memory>
        ensures { IfOk result (λ l. label_of l ≡ number_of digits.now) }
    {
        match u32::try_from(number(digits)) {
            Ok(label) => Ok(Label::Short(label)),
            Err(_) => {
                let digits = Name::from_slice(alloc, digits)?;
                Ok(Label::Long(LongLabel { digits }))
            }
        }
    }

    /// Whether it is the label of a statement.
    pub fn is(&self, label: u32) -> bool
        ensures same { result ≡ (label_of self.now == label) }
    {
        match self {
            Label::Short(number) => *number == label,
            Label::Long(_) => false,
        }
    }
}

//! Prepared units.

use crate::layout::Layout;
use crate::step::Steps;
use adj_tree::{Flags, NameList, Unit};

/// A unit that is prepared: the names of its variables, dummies first, the extents that it declares for each, whether all
/// are scalars, which dummies it hands back, and its statements.
pub struct Routine<'a> {
    pub unit: &'a Unit,
    pub names: NameList,
    pub layouts: Vec<Layout>,
    pub is_plain: bool,
    pub writes: &'a Flags,
    pub body: Steps,
}

impl Drop for Routine<'_> {
    fn drop(self) {
        let Routine {
            unit: _,
            names: _names,
            layouts: _layouts,
            is_plain: _,
            writes: _,
            body: _body,
        } = self;
    }
}

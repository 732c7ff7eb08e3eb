//! The head of a differentiation, and what the analyses mark.

use crate::bits::BitFlags;
use crate::list::Flags;

/// The unit that is differentiated, and for each of its dummies whether it is independent and whether it is dependent.
#[derive(Drop)]
pub struct Head {
    pub unit: usize,
    pub vars: Flags,
    pub outvars: Flags,
}

/// Varied and useful variables by node, adjointed statements by statement, shadowed variables by unit and variable.
pub struct Activity {
    pub varied: BitFlags,
    pub useful: BitFlags,
    pub adjointed: Flags,
    pub shadowed: Flags,
}

impl Drop for Activity {
    fn drop(self) {
        let Activity {
            varied: _varied,
            useful: _useful,
            adjointed: _adjointed,
            shadowed: _shadowed,
        } = self;
    }
}

/// The statements that the forward sweep keeps, and by unit and dummy the values that are needed at entry.
pub struct Kept {
    pub kept: Flags,
    pub entry: Flags,
}

impl Drop for Kept {
    fn drop(self) {
        let Kept {
            kept: _kept,
            entry: _entry,
        } = self;
    }
}

/// The values that are saved, by statement and variable.
pub struct Saved {
    pub saved: BitFlags,
}

impl Drop for Saved {
    fn drop(self) {
        let Saved { saved: _saved } = self;
    }
}

/// All marks of a program.
pub struct Marks {
    pub activity: Activity,
    pub kept: Kept,
    pub saved: Saved,
}

impl Drop for Marks {
    fn drop(self) {
        let Marks {
            activity: _activity,
            kept: _kept,
            saved: _saved,
        } = self;
    }
}

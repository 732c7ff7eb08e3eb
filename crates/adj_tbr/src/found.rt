//! What is found before, by flags.

ghost use Rattle.std.specs.Prelude.{◌≡◌, ◌<◌, ◌^◌};
ghost use Rattle.adj_tbr.specs.View.{adjointed_by, kept_by, split_by};

use adj_reach::flag_at;
use adj_tree::BitFlags;

/// The flags of adjointed statements; of varied variables at points; of the variables of units that have a
/// shadow; of kept statements; of the dummies of units that are needed at entry; and of the calls that are to be split.
#[derive(Clone, Copy)]
pub(crate) struct Found<'f> {
    pub adjointed: &'f [bool],
    pub varied: &'f BitFlags,
    pub shadowed: &'f [bool],
    pub kept: &'f [bool],
    pub entry: &'f [bool],
    pub split: &'f [bool],
}

impl Found<'_> {
    /// Whether the statement of a number is adjointed.
    pub(crate) fn is_adjointed(self, number: usize) -> bool
        requires low { number < 2 ^ 30 }
        ensures adjointed { result ≡ adjointed_by self.entry number }
    {
        flag_at(self.adjointed, number)
    }

    /// Whether the statement of a number is kept.
    pub(crate) fn is_kept(self, number: usize) -> bool
        ensures { result ≡ kept_by self.entry number }
    {
        flag_at(self.kept, number)
    }

    /// Whether the statement of a number is a call that is to be split, if it is adjointed.
    pub(crate) fn is_split(self, number: usize) -> bool
        ensures { result ≡ split_by self.entry number }
    {
        flag_at(self.split, number)
    }
}

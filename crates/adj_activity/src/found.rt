//! What is found before, by flags.

use adj_tree::BitFlags;

/// The flags of varied and of useful variables at points; where there are none of useful ones, every variable counts as useful.
#[derive(Clone, Copy)]
pub(crate) struct Sets<'f> {
    pub varied: &'f BitFlags,
    pub useful: Option<&'f BitFlags>,
}

/// The flags of varied and of useful variables at points, and those of the variables of units that have a shadow.
#[derive(Clone, Copy)]
pub(crate) struct Found<'f> {
    pub varied: &'f BitFlags,
    pub useful: &'f BitFlags,
    pub shadowed: &'f [bool],
}

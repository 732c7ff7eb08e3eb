//! Intrinsics, by their names.

ghost use Rattle.std.specs.Prelude.{◌≡◌, option_map};
ghost use Rattle.adj_tree.specs.View.{op_of};
ghost use Rattle.def_text.specs.Grammar.{is_absolute, operation_of, takes};

use adj_tree::Op;

/// Whether the name is that of the absolute value.
#[tactic(auto, using(crate::proofs::Names::names))]
pub(crate) fn is_absolute(name: &[u8]) -> bool
    ensures { result ≡ is_absolute name.now }
{
    name == b"ABS".as_slice() || name == b"IABS".as_slice()
}

/// The operation of an intrinsic of two arguments.
#[tactic(auto, using(crate::proofs::Names::names))]
pub(crate) fn operation_of(name: &[u8]) -> Option<Op>
    ensures { option_map op_of result ≡ operation_of name.now }
{
    if name == b"MAX".as_slice() || name == b"MAX0".as_slice() {
        Some(Op::Max)
    } else if name == b"MIN".as_slice() || name == b"MIN0".as_slice() {
        Some(Op::Min)
    } else if name == b"MOD".as_slice() {
        Some(Op::Mod)
    } else {
        None
    }
}

/// Whether so many arguments may stand behind a name: those of the intrinsic, else one or two subscripts.
pub(crate) fn takes(name: &[u8], count: usize) -> bool
    ensures { result ≡ takes name.now count }
{
    match operation_of(name) {
        Some(_) => count == 2,
        None => count == 1 || count == 2 && !is_absolute(name),
    }
}

//! Names that are given, against those that the rules of docs/EMITTED.md say.

use adj_naming::derived::Derived;
use adj_naming::naming::{names, not_free};
use adj_naming::role::{Helper, Role};
use adj_naming::taken::Taken;
use adj_sets::NameSet;
use adj_tree::{Memory, Name};
use std::alloc::Global;

// Whether a base gets this name.
fn gives(alloc: Global, taken: &mut Taken, base: &[u8], wanted: &[u8]) -> Result<bool, Memory> {
    Ok(taken.give(alloc, base)?.bytes() == wanted)
}

// Whether XB gets these names, one after the other, where it is taken.
fn are_given(alloc: Global, one: &[u8], other: &[u8]) -> Result<bool, Memory> {
    let mut shared = NameSet::new(alloc)?;
    shared.add(alloc, b"XB")?;
    let mut taken = Taken::new(alloc, &shared, &[])?;
    let first = gives(alloc, &mut taken, b"XB", one)?;
    let second = gives(alloc, &mut taken, b"XB", other)?;
    Ok(first && second)
}

#[test]
fn a_taken_name_is_not_given_again(rt: HostRuntime) {
    assert!(rt; are_given(rt.alloc(), b"XB_1", b"XB_2") == Ok(true));
}

// Whether the third counter of a unit that has it, and a variable of the name that it would have, has this name.
fn is_third(alloc: Global, variable: &[u8], wanted: &[u8]) -> Result<bool, Memory> {
    let helpers = [Helper {
        role: Role::Count,
        number: 3,
    }];
    let variables = [Name::from_slice(alloc, variable)?];
    let taken = not_free(alloc, &[])?;
    let names = names(alloc, Derived::Adjoint, &taken, &variables, &[], &helpers)?;
    Ok(names.helper(alloc, Role::Count, 3)?.bytes() == wanted)
}

// Whether the second counter of a unit that has none has this name.
fn is_of_none(alloc: Global, wanted: &[u8]) -> Result<bool, Memory> {
    let taken = not_free(alloc, &[])?;
    let names = names(alloc, Derived::Adjoint, &taken, &[], &[], &[])?;
    Ok(names.helper(alloc, Role::Count, 2)?.bytes() == wanted)
}

// A helper that a unit has not has a name that no text has.
#[test]
fn a_helper_has_a_name_that_is_free(rt: HostRuntime) {
    assert!(rt; is_third(rt.alloc(), b"ADL3", b"ADL3_1") == Ok(true));
    assert!(rt; is_of_none(rt.alloc(), &[0, 2, 5, 50]) == Ok(true));
}

//! Small trees, counted and copied.

use adj_tree::{Expr, Items, Memory, Name, Program, boxed};
use std::alloc::Global;

// -2**3
fn power(alloc: Global) -> Result<Box<Expr>, Memory> {
    let base = boxed(alloc, Expr::Lit(2))?;
    let power = boxed(alloc, Expr::Pow(base, 3))?;
    boxed(alloc, Expr::Neg(power))
}

// How many nodes an expression has, how deep it is, and how many nodes its copy has.
fn counts(alloc: Global, e: &Expr) -> Result<(u64, u32, u64), Memory> {
    let copied = e.copy(alloc)?.nodes();
    Ok((e.nodes(), e.depth(), copied))
}

#[test]
fn an_expression_is_counted_and_copied_with_its_parts(rt: HostRuntime) -> Result<(), Memory> {
    let e = power(rt.alloc())?;
    assert!(rt; counts(rt.alloc(), &e) == Ok((3, 3, 3)));
    Ok(())
}

// How many units the copy of a program of none has.
fn units_of_none(alloc: Global) -> Result<usize, Memory> {
    let none = Program {
        units: Items::new(Vec::new(alloc)),
    };
    Ok(none.copy(alloc)?.units.as_slice().len())
}

// Whether a name and its copy are equal.
fn is_copied(alloc: Global, text: &str) -> Result<bool, Memory> {
    let name = Name::from_slice(alloc, text.as_bytes())?;
    let copied = name.copy(alloc)?;
    Ok(copied.equals(&name) && copied.bytes() == text.as_bytes())
}

#[test]
fn names_short_or_long_and_a_program_of_no_units_are_copied(rt: HostRuntime) {
    assert!(rt; is_copied(rt.alloc(), "X") == Ok(true));
    assert!(rt; is_copied(rt.alloc(), "ABCDEFGHIJKLMNOPQRSTUVWXYZABCDE_B") == Ok(true));
    assert!(rt; units_of_none(rt.alloc()) == Ok(0));
}

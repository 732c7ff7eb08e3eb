//! Data that are read and printed. Their faults stand in the golden cases of tests/.

use adj_data::{DataError, check_values, print_values, values};
use adj_tree::{Decl, Extent, Extents, Head, Items, Memory, Name, Stmts, Unit, Values, boxed};
use std::alloc::Global;

fn name(alloc: Global, text: &str) -> Result<Name, Memory> {
    Name::from_slice(alloc, text.as_bytes())
}

fn decl(alloc: Global, text: &str, extents: Vec<Extent>) -> Result<Decl, Memory> {
    let extents: Extents = Items::new(extents);
    Ok(Decl {
        line: 2,
        name: name(alloc, text)?,
        extents,
    })
}

// SUBROUTINE P(A,N,K) with INTEGER*8 A(N,2),N,K.
fn unit(alloc: Global) -> Result<Box<Unit>, Memory> {
    let extents = vec![in alloc; Extent::Dummy(name(alloc, "N")?), Extent::Lit(2)]?;
    let decls = vec![in alloc;
        decl(alloc, "A", extents)?,
        decl(alloc, "N", Vec::new(alloc))?,
        decl(alloc, "K", Vec::new(alloc))?,
    ]?;
    let dummies = vec![in alloc; name(alloc, "A")?, name(alloc, "N")?, name(alloc, "K")?]?;
    let unit = Unit {
        line: 1,
        name: name(alloc, "P")?,
        dummies: Items::new(dummies),
        none: false,
        decls: Items::new(decls),
        body: Stmts::Empty,
    };
    boxed(alloc, unit)
}

// Whether the first values are those of an array of two rows and two columns.
fn begin_with_a_square(values: &Values) -> bool {
    match values.as_slice().first() {
        Some(slot) => slot.rows == 2 && slot.cols == 2,
        None => false,
    }
}

// Whether data give such an array first, and are printed so.
fn are_read(alloc: Global, unit: &Unit, data: &[u8], wanted: &[u8]) -> Result<bool, DataError> {
    let values = values(alloc, data, 4, unit)?;
    let printed = print_values(alloc, &unit.dummies, &values)?;
    Ok(printed.as_slice() == wanted && begin_with_a_square(&values))
}

#[test]
fn entries_in_any_order_and_over_lines_are_printed_in_the_order_of_dummies(
    rt: HostRuntime,
) -> Result<(), Memory> {
    let unit = unit(rt.alloc())?;
    let data = b"n 2\r\n  k\n\n -007\nA 1 2\n 3   -9223372036854775808 \n";
    let wanted = b"A 1 2 3 -9223372036854775808\nN 2\nK -7\n";
    assert!(rt; are_read(rt.alloc(), &unit, data, wanted) == Ok(true));
    Ok(())
}

// A is independent, and K dependent.
fn head(alloc: Global) -> Result<Box<Head>, Memory> {
    let head = Head {
        unit: 0,
        vars: Items::new(vec![in alloc; true, false, false]?),
        outvars: Items::new(vec![in alloc; false, false, true]?),
    };
    boxed(alloc, head)
}

// Whether values are printed so.
fn are_printed(alloc: Global, unit: &Unit, values: &Values, wanted: &[u8]) -> bool {
    if values.as_slice().len() != unit.dummies.as_slice().len() {
        return false;
    }
    match print_values(alloc, &unit.dummies, values) {
        Ok(printed) => printed.as_slice() == wanted,
        Err(Memory) => false,
    }
}

// Whether data give these values, tangents and adjoints.
fn are_checked(
    alloc: Global,
    unit: &Unit,
    head: &Head,
    data: &[u8],
    wanted: &[&[u8]; 3],
) -> Result<bool, DataError> {
    let count = unit.dummies.as_slice().len();
    if head.vars.as_slice().len() != count || head.outvars.as_slice().len() != count {
        return Ok(false);
    }
    let (inputs, tangents, adjoints) = check_values(alloc, data, 4, unit, head)?;
    Ok(
        are_printed(alloc, unit, &inputs, wanted[0])
            && are_printed(alloc, unit, &tangents, wanted[1])
            && are_printed(alloc, unit, &adjoints, wanted[2]),
    )
}

#[test]
fn tangents_and_adjoints_that_are_not_given_are_zeros(rt: HostRuntime) -> Result<(), Memory> {
    let alloc = rt.alloc();
    let unit = unit(alloc)?;
    let head = head(alloc)?;
    let data = b"k.b 7\nN 1\na.D 5\n -6\nK 3\nA 1 2\n";
    let wanted: [&[u8]; 3] = [
        b"A 1 2\nN 1\nK 3\n",
        b"A 5 -6\nN 0\nK 0\n",
        b"A 0 0\nN 0\nK 7\n",
    ];
    assert!(rt; are_checked(alloc, &unit, &head, data, &wanted) == Ok(true));
    Ok(())
}

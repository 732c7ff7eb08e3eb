//! The numbers of a program of two units: ten points with two variables each.

use crate::programs::checked;
use adj_symbols::Checked;
use adj_tree::Fault;

const TWO_UNITS: &[u8] = b"      SUBROUTINE P(I,J)
      DO 10 I=1,J
   10 CONTINUE
      END
      SUBROUTINE G(K,L)
      L=K
      END
";

// Whether nodes are points with variables.
fn has_nodes(checked: &Checked) -> bool {
    checked.fits()
        && checked.node_count() == 20
        && checked.statement_count() == 2
        && checked.width() == 2
        && checked.before(0) == 0
        && checked.inside(0) == 2
        && checked.before(1) == 3
        && checked.after(1) == 4
        && checked.node(4, 1) == 9
}

// Whether units have points of entry and of end.
fn has_ends(checked: &Checked) -> bool {
    checked.fits()
        && checked.program().units.as_slice().len() == 2
        && checked.entry(0) == 6
        && checked.end(0) == 7
        && checked.entry(1) == 8
        && checked.end(1) == 9
}

#[test]
fn nodes_are_points_with_variables_and_units_have_points_of_their_own(
    rt: HostRuntime,
) -> Result<(), Fault> {
    let checked = checked(rt.alloc(), TWO_UNITS)?;
    assert!(rt; has_nodes(&checked) && has_ends(&checked));
    Ok(())
}

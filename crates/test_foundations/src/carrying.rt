//! Worked rows of variables that arcs carry, and many of them over many points.

ghost use Rattle.std.specs.Prelude.{◌≡◌, ◌*◌, ◌<◌, IfOk};

use adj_reach_rows::{Arc, Rows, reached_by_rows};
use adj_tree::{BitFlags, Memory};
use std::alloc::Global;

// One row in which all variables are.
fn full_row(alloc: Global, width: usize) -> Result<Rows, Memory>
    ensures { IfOk result (λ rows. width < 64 * rows.words) }
{
    let mut rows = Rows::new(alloc, 1, width)?;
    for column in 0..width {
        rows.set(0, column);
    }
    Ok(rows)
}

// Whether the first flags are these.
fn begin_with(flags: &BitFlags, wanted: &[bool]) -> bool {
    for (node, flag) in wanted.iter().enumerate() {
        if flags.at(node) != *flag {
            return false;
        }
    }
    true
}

// Three points of two variables and a node behind them. Both variables are in the first row. Variable 1 stays on the way from point 0 to 1, where variable 0 is left
// behind; from 1 to 2 both stay, and back from 2 to 1.
const ARCS: [Arc; 3] = [
    Arc {
        from: 0,
        to: 1,
        kept: 0,
        left: Some(0),
    },
    Arc {
        from: 1,
        to: 2,
        kept: 0,
        left: None,
    },
    Arc {
        from: 2,
        to: 1,
        kept: 0,
        left: None,
    },
];

// From variable 1 at point 0 to variable 0 at point 1, and from that to the node behind.
const EDGES: [(usize, usize); 2] = [(1, 2), (2, 6)];

// Whether a node reaches these.
fn reaches(alloc: Global, start: usize, wanted: &[bool]) -> Result<bool, Memory> {
    let rows = full_row(alloc, 2)?;
    let flags = reached_by_rows(alloc, 2, &rows, &ARCS, &EDGES, &[start])?;
    Ok(begin_with(&flags, wanted))
}

#[test]
fn variables_are_carried_but_for_one_or_led_on_by_edges(rt: HostRuntime) {
    let alone = [true, false, false, false, false, false, false, false];
    assert!(rt; reaches(rt.alloc(), 0, &alone) == Ok(true));
    let led_on = [false, true, true, true, true, true, true, false];
    assert!(rt; reaches(rt.alloc(), 1, &led_on) == Ok(true));
}

// The arcs of a chain of points, the last first, on which all variables but one of the first row stay.
fn ways_backwards(alloc: Global, points: usize, left: usize) -> Result<Vec<Arc>, Memory> {
    let mut arcs = Vec::new(alloc);
    for point in 0..points {
        arcs.push(Arc {
            from: points - point,
            to: points - point - 1,
            kept: 0,
            left: Some(left),
        })?;
    }
    Ok(arcs)
}

// How many of the first flags are set.
fn set_among(flags: &BitFlags, count: usize) -> usize {
    let mut set = 0usize;
    for node in 0..count {
        if flags.at(node) {
            set = set.saturating_add(1);
        }
    }
    set
}

// What three variables at the last of many points reach: how many nodes, and whether variables 0, 7 and 199 at the first point.
fn carried(alloc: Global) -> Result<(usize, [bool; 3]), Memory> {
    let rows = full_row(alloc, 200)?;
    let arcs = ways_backwards(alloc, 20_000, 7)?;
    let start = [4_000_000, 4_000_007, 4_000_199];
    let flags = reached_by_rows(alloc, 200, &rows, arcs.as_slice(), &[], &start)?;
    let at_first = [flags.at(0), flags.at(7), flags.at(199)];
    Ok((set_among(&flags, 4_000_200), at_first))
}

#[test]
fn many_variables_over_many_points_are_carried_at_once(rt: HostRuntime) {
    let wanted = (2 * 20_001 + 1, [true, false, true]);
    assert!(rt; carried(rt.alloc()) == Ok(wanted));
}

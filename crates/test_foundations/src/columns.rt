//! Words with a block of columns, against sums and powers that were worked out by hand.

use adj_jacobian_block::Block;
use adj_number::Number;

// The word of a block, and its columns.
fn told(block: Block) -> (i64, [u64; 4]) {
    let columns = block.columns;
    (block.value, columns)
}

// A power 0 has no column.
#[test]
fn a_sum_has_the_columns_of_both_and_a_power_those_of_its_base(rt: HostRuntime) {
    let third = Block::of_column(5, 3);
    let later = Block::of_column(7, 200);
    let found = [
        told(third.sum(later)),
        told(third.power(0)),
        told(third.power(2)),
    ];
    let wanted = [(12, [8, 0, 0, 256]), (1, [0; 4]), (25, [8, 0, 0, 0])];
    assert!(rt; found == wanted);
}
